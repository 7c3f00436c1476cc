ghost use Rattle.std.specs.Prelude.{◌≡◌};

use dexel_rays::WordDelta;

/// What an edit changes at 64 points of a ray of a strip: bit b of each word is the point at the index 64 `word` + b.
#[derive(Clone, Copy)]
pub struct WordChange {
    /// The ray's number in its strip.
    pub ray: u32,
    pub word: u32,
    /// The points of which a move is sure and none was before.
    pub sure: u64,
    /// The points at which a move is possible and none was before.
    pub possible: u64,
}

impl WordChange {
    /// The two words.
    pub fn delta(&self) -> WordDelta
        ensures { result ≡ record { sure = self.now.sure; possible = self.now.possible } }
    {
        WordDelta {
            sure: self.sure,
            possible: self.possible,
        }
    }
}
