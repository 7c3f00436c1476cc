ghost use Rattle.std.specs.Prelude.{◌≡◌};
ghost use Rattle.box_bisect.specs.Between.{is_removed_mark, joined_mark};

use axis_cells::Mark;

/// The greater of the marks of two halves, of which the late one isn't Removed.
#[inline]
pub fn joined(early: Mark, late: Mark) -> Mark
    ensures { result ≡ joined_mark early late }
{
    match early {
        Mark::Removed => Mark::Removed,
        Mark::Possible => Mark::Possible,
        Mark::Clear => late,
    }
}

/// Whether a mark is Removed.
#[inline]
pub fn is_removed(mark: Mark) -> bool
    ensures { result ≡ is_removed_mark mark }
{
    match mark {
        Mark::Removed => true,
        Mark::Possible => false,
        Mark::Clear => false,
    }
}
