//! One strip with its journal: the state of its points after each edit that was done on it.
#![tactic(auto)]

mod applying;
mod changes;
mod entries;
mod entry;
mod finding;
mod fresh;
mod history;
mod journal;
mod looked_back;
mod packed;
mod rays;
mod remaining;
mod room;
mod skipping;
mod starting;
mod strip;
mod undoing;

pub use job_counts::{PointState, Totals};
pub use looked_back::LookedBack;
pub use strip::Strip;
pub use strip_plan::{Plan, PlanMove as Job};
