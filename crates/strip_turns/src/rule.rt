ghost use Rattle.std.specs.Prelude.{◌+◌, Some, true, false};
ghost use Rattle.strip_turns.specs.Cards.{card_of};
ghost use Rattle.strip_turns.specs.Views.{fresh, spent, with_split, with_pass};
ghost use Rattle.strip_turns.specs.Sound.{IsSound};
ghost use Rattle.strip_turns.specs.Plays.{Drawn, TakesOrMisses, TakesOrNot, Looks, PutsBack};

use crate::view::{Key, View};
use atomic_table::{Join, Play, Split, TableRule};
use turn_core::AheadStrip;

/// What holds between any two steps.
pub(crate) struct Sound;

impl TableRule<Option<AheadStrip>, View, Key> for Sound {
    ghost holds = { λ key s. IsSound (card_of key) s };

    ghost first = { λ key. fresh true 0 (Some (card_of key)) };
}

/// A ticket is drawn.
pub(crate) struct Drawing;

impl Play<Option<AheadStrip>, View> for Drawing {
    ghost then = { λ _ before found after. Drawn before found after };
}

/// One is added to a strip's word: the strip is taken, or a miss is counted.
pub(crate) struct Adding;

impl Play<Option<AheadStrip>, View> for Adding {
    ghost then = { TakesOrMisses };
}

/// A strip is taken where its word is as expected.
pub(crate) struct Trying;

impl Play<Option<AheadStrip>, View> for Trying {
    ghost then = { TakesOrNot };
}

/// A word is read.
pub(crate) struct Looking;

impl Play<Option<AheadStrip>, View> for Looking {
    ghost then = { Looks };
}

/// A strip is put back.
pub(crate) struct Giving;

impl Play<Option<AheadStrip>, View> for Giving {
    ghost then = { PutsBack };
}

/// A pass is cut in two, or takes in another.
pub(crate) struct Cut;

impl Split<View> for Cut {
    ghost left = { with_split };

    ghost right = { λ v. fresh false (v.splits + 1) v.card };
}

impl Join<View> for Cut {
    ghost both = { with_pass };

    ghost spent = { spent };
}
