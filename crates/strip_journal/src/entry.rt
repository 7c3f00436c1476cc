ghost use Rattle.std.specs.Prelude.{◌≡◌, ◌-◌, ◌^◌};
ghost use Rattle.job_counts.specs.Counts.{AreWithin};
ghost use Rattle.strip_journal.specs.Entries.{are_none, counts_of_hits, hits_of, no_hits};

use job_counts::Counts;

/// What a move finds on a strip, except for what it removes and comes to be possible at: points of the part and of fixtures, and in
/// rapid motion of stock. A strip has fewer than 2^32 points.
#[derive(Clone, Copy)]
pub struct Hits {
    pub part_sure: u32,
    pub part_possible: u32,
    pub fix_sure: u32,
    pub fix_possible: u32,
    pub rapid_sure: u32,
    pub rapid_possible: u32,
}

/// An edit that changed a strip, or whose move found something there.
#[derive(Clone, Copy)]
pub struct Entry {
    pub edit: u32,
    /// Where the changes are that it made, took back or gave again: from the one place in the list on and below the other.
    pub from: u32,
    pub to: u32,
    /// Whether it took them back.
    pub is_undo: bool,
    pub hits: Hits,
    /// How many stock points of the strip are removed after it, and at how many a move is possible.
    pub removed: u32,
    pub possible: u32,
}

impl Hits {
    /// Nothing is found.
    pub fn none() -> Hits
        ensures { result ≡ no_hits }
    {
        Hits {
            part_sure: 0,
            part_possible: 0,
            fix_sure: 0,
            fix_possible: 0,
            rapid_sure: 0,
            rapid_possible: 0,
        }
    }

    /// Those of a move's counts.
    pub fn of_counts(counts: &Counts) -> Hits
        requires { AreWithin (2 ^ 32 - 1) counts.now }
        ensures { result ≡ hits_of counts.now }
    {
        Hits {
            part_sure: counts.part_sure as u32,
            part_possible: counts.part_possible as u32,
            fix_sure: counts.fix_sure as u32,
            fix_possible: counts.fix_possible as u32,
            rapid_sure: counts.rapid_sure as u32,
            rapid_possible: counts.rapid_possible as u32,
        }
    }

    /// The counts of a move that removes `removed` points and comes to be possible at `possible` points.
    pub fn with_stock(&self, removed: u32, possible: u32) -> Counts
        ensures { result ≡ counts_of_hits self.now removed possible }
    {
        Counts {
            removed: u64::from(removed),
            possible: u64::from(possible),
            part_sure: u64::from(self.part_sure),
            part_possible: u64::from(self.part_possible),
            fix_sure: u64::from(self.fix_sure),
            fix_possible: u64::from(self.fix_possible),
            rapid_sure: u64::from(self.rapid_sure),
            rapid_possible: u64::from(self.rapid_possible),
        }
    }

    /// Whether nothing is found.
    pub fn is_none(&self) -> bool
        ensures { result ≡ are_none self.now }
    {
        self.part_sure == 0
            && self.part_possible == 0
            && self.fix_sure == 0
            && self.fix_possible == 0
            && self.rapid_sure == 0
            && self.rapid_possible == 0
    }
}
