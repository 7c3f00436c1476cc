use ray_grid::Ray;
use vf_spans::Spans;

/// What a ray line says: the set of its ray.
#[derive(Drop)]
pub(crate) struct RaySet {
    pub(crate) ray: Ray,
    pub(crate) set: Spans,
}
