use ray_shapes::Solid;

/// The solids of a job: the stock, the part as it may be cut, and the fixtures as they are kept clear.
#[derive(Drop)]
pub struct JobBodies {
    pub stock: Solid,
    pub part: Solid,
    pub fixture: Solid,
}
