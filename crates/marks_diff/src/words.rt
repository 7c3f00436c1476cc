ghost use Rattle.std.specs.Prelude.{◌<◌};

use crate::case::Case;
use axis_cells::Mark;
use box_bisect::mark_point_uncounted;
use cutter_marks::mark_of;
use cutter_slabs::Stacks;
use vf_spans::Words;
use vf_spans::bits::with_bit;

/// The marks of the first 64 points of a ray, a bit for each that is sure and for each that is possible. A ray of the plate has no more.
#[derive(Drop)]
pub(crate) struct Word {
    pub sure: u64,
    pub possible: u64,
}

impl Word {
    const NONE: Word = Word {
        sure: 0,
        possible: 0,
    };

    /// The same with one mark more.
    fn with(self, b: u32, mark: Mark) -> Word
        requires { b < 64 }
    {
        match mark {
            Mark::Clear => self,
            Mark::Possible => Word {
                sure: self.sure,
                possible: with_bit(self.possible, b),
            },
            Mark::Removed => Word {
                sure: with_bit(self.sure, b),
                possible: with_bit(self.possible, b),
            },
        }
    }
}

/// The marks by the plain body.
pub(crate) fn plain_word(case: &Case, stacks: &Stacks) -> Word {
    let mut word = Word::NONE;
    for b in 0..64 {
        if case.grid.has_point(&case.ray, b) {
            let point = case.grid.point(&case.ray, b);
            word = word.with(b, mark_of(&case.sweep, stacks, point, case.depth));
        }
    }
    word
}

/// The marks of each point by itself, by halving the time.
pub(crate) fn point_word(case: &Case, stacks: &Stacks) -> Word {
    let mut word = Word::NONE;
    for b in 0..64 {
        if case.grid.has_point(&case.ray, b) {
            let point = case.grid.point(&case.ray, b);
            word = word.with(
                b,
                mark_point_uncounted(&case.sweep, stacks, point, case.depth),
            );
        }
    }
    word
}

/// The first word of a set, where it has one.
pub(crate) fn first_word(set: &Words) -> u64 {
    if set.words() == 0 {
        return 0;
    }
    set.word(0)
}
