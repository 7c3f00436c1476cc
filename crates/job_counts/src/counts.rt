ghost use Rattle.std.specs.Prelude.{◌≡◌};
ghost use Rattle.job_counts.specs.Counts.{AreWithin, is_safe, most_count, no_counts, plus};

/// How many points a move meets. What is possible includes what is sure.
#[derive(Clone, Copy)]
pub struct Counts {
    /// Stock points that are sure by this move and were not before.
    pub removed: u64,
    /// Stock points that are possible by this move and were not before.
    pub possible: u64,
    /// Part points.
    pub part_sure: u64,
    pub part_possible: u64,
    /// Fixture points.
    pub fix_sure: u64,
    pub fix_possible: u64,
    /// In rapid motion: stock points that are sure by this move and were not possible before.
    pub rapid_sure: u64,
    /// In rapid motion: stock points that are possible by this move and were not sure before.
    pub rapid_possible: u64,
}

impl Counts {
    /// No points.
    pub fn none() -> Counts
        ensures { result ≡ no_counts }
    {
        Counts {
            removed: 0,
            possible: 0,
            part_sure: 0,
            part_possible: 0,
            fix_sure: 0,
            fix_possible: 0,
            rapid_sure: 0,
            rapid_possible: 0,
        }
    }

    /// The counts of both together.
    pub fn plus(&self, other: &Counts) -> Counts
        requires { AreWithin most_count (plus self.now other.now) }
        ensures { result ≡ plus self.now other.now }
    {
        Counts {
            removed: self.removed + other.removed,
            possible: self.possible + other.possible,
            part_sure: self.part_sure + other.part_sure,
            part_possible: self.part_possible + other.part_possible,
            fix_sure: self.fix_sure + other.fix_sure,
            fix_possible: self.fix_possible + other.fix_possible,
            rapid_sure: self.rapid_sure + other.rapid_sure,
            rapid_possible: self.rapid_possible + other.rapid_possible,
        }
    }

    /// Whether a move of these counts is safe: what it only may meet counts too.
    pub fn is_safe(&self) -> bool
        ensures { result ≡ is_safe self.now }
    {
        self.part_possible == 0 && self.fix_possible == 0 && self.rapid_possible == 0
    }
}
