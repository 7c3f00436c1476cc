//! What a long move does to many points of a ray at once: a run of them that it cuts, or that it meets none.
#![tactic(auto)]

mod clear;
mod likely;
mod missed;
mod pair;
mod run;
mod searched;
mod slab_at;

pub use clear::{OpenStretch, open_stretch};
pub use run::{Run, sure_run};
