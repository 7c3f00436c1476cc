ghost use Rattle.std.specs.Prelude.{◌≡◌, ℕ, List, Bool, false, length};
ghost use Rattle.vf_spans.specs.Members.{has};
ghost use Rattle.job_counts.specs.Counts.{no_counts};
ghost use Rattle.dexel_rays.specs.declared.delta.Delta.{Delta};
ghost use Rattle.dexel_rays.specs.Sets.{Sets, HaveBound};
ghost use Rattle.dexel_rays.specs.Steps.{IsDelta};

use job_counts::Counts;
use std::alloc::Global;
use vf_spans::Spans;

/// What a move changes on a ray: the indices that became sure, those that became possible, and what
/// the move finds there.
#[derive(Drop)]
pub struct Delta {
    pub sure: Spans,
    pub possible: Spans,
    pub counts: Counts,
}

impl Delta {
    /// The delta of a ray that nothing changed. It takes no memory.
    pub fn same(alloc: Global, bound: u32) -> Delta
        ensures sure_bound { length result.sure ≡ bound }
        ensures possible_bound { length result.possible ≡ bound }
        ensures sure { (i : ℕ) → has result.sure i ≡ false }
        ensures possible { (i : ℕ) → has result.possible i ≡ false }
        ensures counts { result.counts ≡ no_counts }
        // Where a move marks nothing, its delta is this one.
        ensures equals { (before : Sets) (sure possible : List Bool) (rapid : Bool) (delta : Delta)
            → HaveBound bound before → ((i : ℕ) → has sure i ≡ false) → ((i : ℕ) → has possible i ≡ false)
            → IsDelta before sure possible rapid delta → delta ≡ result }
    {
        Delta {
            sure: Spans::new(alloc, bound),
            possible: Spans::new(alloc, bound),
            counts: Counts::none(),
        }
    }
}
