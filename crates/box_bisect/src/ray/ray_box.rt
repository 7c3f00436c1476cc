/// A box in time and along a ray: 2^`levels` cells from the sample `first` on, and the ray's indices from `from` up to `to`, `to`
/// excluded.
#[derive(Clone, Copy)]
pub struct RayBox {
    pub levels: u32,
    pub first: u32,
    pub from: u32,
    pub to: u32,
}
