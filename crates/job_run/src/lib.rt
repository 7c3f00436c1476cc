//! A whole job: a task is made ready, its strips are made, its queries answered, its edits done, and what is found put together.
#![tactic(auto)]

mod bodies;
mod facts;
mod finished;
mod left;
mod ready;
mod remaining;
mod run;
mod strips;
mod versions;

pub use bodies::JobBodies;
pub use finished::{FinishedJob, finish_job};
pub use left::LeftMove;
pub use ready::{ReadyTask, make_ready};
pub use run::{remaining_stock, run_job};
