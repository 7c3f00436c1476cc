//! The lattice: rays of three families through a grid of nodes, their points, strips and windows; and turns of a part by quarters.
#![tactic(auto)]

mod grid;
mod lattice;
mod near;
mod ray;
mod ray_laws;
mod strips;
mod turn;
mod turn_laws;
mod window;

pub use grid::Grid;
pub use ray::{Family, Ray};
pub use ray_laws::number_laws;
pub use turn::Turn;
pub use turn_laws::laws_of_turns;
