use crate::changes::Changes;
use crate::entries::Entries;
use crate::history::EditHistory;
use ray_shapes::Solid;
use ray_words::StripRays;
use std::alloc::Global;
use std::snapshot::Snapshot;
use strip_marks::WordChange;
use strip_plan::PlanDraft;

/// What a strip keeps: its newest sets, and what is needed to look back. First what an edit that leaves it alone reads and writes.
#[derive(Drop)]
pub struct Journal {
    /// The strip's number.
    pub number: u32,
    /// How many edits are done.
    pub done: u32,
    /// The edits that applied a move, in order: the first `at` are left, the others dropped.
    pub at: u32,
    pub line: EditHistory,
    pub alloc: Global,
    /// What the strip is of: only for contracts, without a byte. Of a solid it is what its shape keeps.
    pub plan: Snapshot<PlanDraft>,
    pub stock: Snapshot<Snapshot<Solid>>,
    pub part: Snapshot<Snapshot<Solid>>,
    pub fixture: Snapshot<Snapshot<Solid>>,
    /// How many stock points it has.
    pub of: u32,
    pub rays: StripRays,
    /// What edits changed, those of one edit together.
    pub changes: Changes,
    /// The edits that had an effect here, in order.
    pub entries: Entries,
    /// An empty list, whose memory serves the changes of the next move that is marked.
    pub room: Vec<WordChange>,
}
