use std::collections::LinkedList;
use std::snapshot::Snapshot;
use strip_journal::Strip;
use strip_plan::Plan;

/// What a pass did.
pub enum LogEntry {
    /// It drew a ticket.
    Draw(u64),
    /// A turn found its strip out.
    Miss(u32),
    /// A strip went from one version to another.
    Trip { strip: u32, from: u32, to: u32 },
}

/// Misses of a strip that were met when it was put back.
pub struct Met {
    pub strip: u32,
    pub misses: u64,
}

/// A strip that is out with a pass, and the version at which it was taken.
pub struct HeldStrip {
    pub strip: u32,
    pub at: u32,
}

/// A plan, with its strips as they were put in.
pub struct BoardStart {
    pub plan: Plan,
    pub strips: LinkedList<Strip>,
}

/// What a pass knows. No value of it is ever made: it is only for contracts.
pub struct View {
    pub card: Option<BoardStart>,
    /// Whether it is the pass that the board came with.
    pub first: bool,
    pub number: u64,
    /// Of the first pass: how often it was split, and the numbers of the passes that were split off and weren't merged.
    pub splits: u64,
    pub out: LinkedList<u64>,
    pub drawn: u64,
    pub missed: u64,
    pub held: Option<HeldStrip>,
    pub met: LinkedList<Met>,
    pub log: LinkedList<LogEntry>,
}

/// What the table is given when it is made. It has no bytes.
#[derive(Drop)]
pub struct Key {
    pub plan: Snapshot<Plan>,
    pub strips: Snapshot<Vec<Strip>>,
}
