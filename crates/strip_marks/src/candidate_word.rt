/// A word of a ray with candidates, the points at which a move is tested: bit b of `points` is the point at the index 64 `word` + b.
#[derive(Clone, Copy)]
pub struct CandidateWord {
    pub word: u32,
    pub points: u64,
}
