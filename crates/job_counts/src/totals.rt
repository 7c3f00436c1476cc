ghost use Rattle.std.specs.Prelude.{◌≡◌};
ghost use Rattle.job_counts.specs.Counts.{most_count};
ghost use Rattle.job_counts.specs.Totals.{TotalsWithin, no_totals, plus_totals};

/// What is known of a point at a version.
#[derive(Clone, Copy, PartialEq, Eq)]
pub enum PointState {
    /// It isn't stock.
    Absent,
    /// It is stock, and possible by no move that is left.
    Kept,
    /// It is stock, possible by some move that is left and sure by none.
    Possible,
    /// It is stock, and sure by some move that is left.
    Removed,
}

/// How many stock points are removed and possible at a version, of how many.
#[derive(Clone, Copy, PartialEq, Eq)]
pub struct Totals {
    /// Those that are sure by some move that is left.
    pub removed: u64,
    /// Those that are possible by some move that is left.
    pub possible: u64,
    /// All of them.
    pub of: u64,
}

impl Totals {
    /// No points.
    pub fn none() -> Totals
        ensures { result ≡ no_totals }
    {
        Totals {
            removed: 0,
            possible: 0,
            of: 0,
        }
    }

    /// The totals of both together.
    pub fn plus(&self, other: &Totals) -> Totals
        requires { TotalsWithin most_count (plus_totals self.now other.now) }
        ensures { result ≡ plus_totals self.now other.now }
    {
        Totals {
            removed: self.removed + other.removed,
            possible: self.possible + other.possible,
            of: self.of + other.of,
        }
    }
}

/// The answer to a query.
#[derive(Clone, Copy, PartialEq, Eq)]
pub enum Answer {
    /// The state of the point that is probed.
    Probe(PointState),
    /// The totals.
    Count(Totals),
}
