//! Bodies as planes, solids, the points that they hold on each ray, and closures that are kept for a solid.
#![tactic(auto)]

mod body;
mod fill;
mod half_line;
mod line;
mod plane;
mod ray_sets;
mod shape;
mod solid;
mod turned;

pub use body::{Bodies, Body};
pub use fill::body_spans;
pub use plane::Plane;
pub use ray_sets::RaySets;
pub use shape::RayShape;
pub use solid::{Solid, solid_spans};
pub use turned::TurnedBodies;
