//! The moves of a job made ready for strips: their stacks, and the boxes outside of which none is possible.
#![tactic(auto)]

mod bounds;
mod boxes;
mod cutters;
mod cylinders;
mod draft;
mod holders;
mod index_box;
mod indexed;
mod plan;
mod plan_move;
mod prepared;
mod ranges;
mod ready_moves;
mod strip_range;
mod untouched;
mod windows;

pub use draft::PlanDraft;
pub use holders::HolderPlan;
pub use plan::Plan;
pub use plan_move::PlanMove;
pub use prepared::Prepared;
