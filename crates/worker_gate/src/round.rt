ghost use Rattle.std.specs.Prelude.{◌≡◌, ◌%◌, ◌<◌};

/// Rounds of tickets over strips: in each, one ticket for each strip in order. It knows the round of the last ticket that it was
/// called with.
#[derive(Drop)]
pub(crate) struct Round {
    strips: u32,
    /// The first ticket of the round.
    first: u64,
    ghost whole: { first % strips ≡ 0 },
}

impl Round {
    /// The first round of `strips` strips.
    pub(crate) fn first_of(strips: u32) -> Round
        ensures { result.strips ≡ strips }
    {
        Round { strips, first: 0 }
    }

    /// The strip that a ticket is for. A division takes as long as a step of the board, and a ticket of the round that is known takes none.
    #[inline]
    pub(crate) fn strip_of(&mut self, ticket: u64) -> u32
        requires { 0 < self.old.strips }
        ensures strip { result ≡ ticket % self.old.strips }
        ensures strips { self.new.strips ≡ self.old.strips }
    {
        let strips = u64::from(self.strips);
        if self.first <= ticket && ticket - self.first < strips {
            return (ticket - self.first) as u32;
        }
        let place = ticket % strips;
        self.first = ticket - place;
        place as u32
    }
}
