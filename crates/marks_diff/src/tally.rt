use crate::words::Word;

/// What was counted over all rays.
#[derive(Drop)]
pub(crate) struct Tally {
    pub rays: u64,
    pub points: u64,
    pub sure: u64,
    pub possible: u64,
    /// Marks that differ from the plain ones: of points by halving, of sets, and of words.
    pub of_points: u64,
    pub of_sets: u64,
    pub of_words: u64,
    /// Possible points outside of all boxes, and points in boxes.
    pub outside: u64,
    pub boxed: u64,
}

impl Tally {
    pub(crate) const NONE: Tally = Tally {
        rays: 0,
        points: 0,
        sure: 0,
        possible: 0,
        of_points: 0,
        of_sets: 0,
        of_words: 0,
        outside: 0,
        boxed: 0,
    };
}

/// How many bits a word has, and another number.
pub(crate) fn with_bits(count: u64, word: u64) -> u64 {
    count.wrapping_add(u64::from(word.count_ones()))
}

/// How many marks of two words differ, and another number.
pub(crate) fn with_differences(count: u64, first: &Word, second: &Word) -> u64 {
    with_bits(
        with_bits(count, first.sure ^ second.sure),
        first.possible ^ second.possible,
    )
}
