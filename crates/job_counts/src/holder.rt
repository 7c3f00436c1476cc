ghost use Rattle.std.specs.Prelude.{◌≡◌};
ghost use Rattle.job_counts.specs.Counts.{most_count};
ghost use Rattle.job_counts.specs.Holder.{
  HolderCountsWithin,
  is_holder_clear,
  no_holder_counts,
  plus_holder_counts,
};

/// How many points the holder of a move meets. What is possible includes what is sure.
#[derive(Clone, Copy)]
pub struct HolderCounts {
    /// Part points.
    pub part_sure: u64,
    pub part_possible: u64,
    /// Fixture points.
    pub fix_sure: u64,
    pub fix_possible: u64,
    /// Stock points at which neither this move nor an earlier one was possible.
    pub stock_sure: u64,
    /// Stock points of which no earlier move was sure.
    pub stock_possible: u64,
}

impl HolderCounts {
    /// No points.
    pub fn none() -> HolderCounts
        ensures { result ≡ no_holder_counts }
    {
        HolderCounts {
            part_sure: 0,
            part_possible: 0,
            fix_sure: 0,
            fix_possible: 0,
            stock_sure: 0,
            stock_possible: 0,
        }
    }

    /// The counts of both together.
    pub fn plus(&self, other: &HolderCounts) -> HolderCounts
        requires { HolderCountsWithin most_count (plus_holder_counts self.now other.now) }
        ensures { result ≡ plus_holder_counts self.now other.now }
    {
        HolderCounts {
            part_sure: self.part_sure + other.part_sure,
            part_possible: self.part_possible + other.part_possible,
            fix_sure: self.fix_sure + other.fix_sure,
            fix_possible: self.fix_possible + other.fix_possible,
            stock_sure: self.stock_sure + other.stock_sure,
            stock_possible: self.stock_possible + other.stock_possible,
        }
    }

    /// Whether the holder is clear, so that its move has no contact: what it only may meet counts too.
    pub fn is_clear(&self) -> bool
        ensures { result ≡ is_holder_clear self.now }
    {
        self.part_possible == 0 && self.fix_possible == 0 && self.stock_possible == 0
    }
}
