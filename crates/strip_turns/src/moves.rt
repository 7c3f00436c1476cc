ghost use Rattle.std.specs.Prelude.{◌≡◌, ℕ, ◌+◌, ◌*◌, ◌<◌, ◌≤◌, ◌^◌, length, MatchOption};
ghost use Rattle.ray_grid.specs.Strips.{strips_of};
ghost use Rattle.edit_plan.specs.Limits.{most_edits};
ghost use Rattle.strip_journal.specs.Strips.{StripOf};
ghost use Rattle.strip_turns.specs.Cards.{IsCase};
ghost use Rattle.strip_turns.specs.Plays.{Missed, Looked};
ghost use Rattle.strip_turns.specs.Sound.{strip_word};
ghost use Rattle.strip_turns.specs.Passes.{card, IsIdleSeat, TookAt, TookOut, IsOutWithSeat, IsInSeat, IsBack};

use crate::board::Board;
use crate::rule::{Adding, Giving, Looking, Trying};
use crate::view::View;
use atomic_table::Seat;
use std::sync::Wait;
use std::thread;
use turn_core::AheadStrip;

/// The unit of a version in a strip's word, below which misses are counted.
const VERSION: u64 = 1 << 40;

/// The words in use are 16 words apart: no two share a line of the processor's cache, nor a pair of lines, which some processors
/// fetch together. So steps on different strips don't slow each other.
pub(crate) const APART: usize = 16;

/// The place of a strip's word. The first word is that of the tickets.
pub(crate) fn word_at(strip: u32) -> usize
    ensures { result ≡ strip_word strip }
{
    (strip as usize + 1) * APART
}

/// The word of a strip that is home at a version.
pub(crate) fn home_word(done: u32) -> u64
    requires { done ≤ most_edits }
    ensures { result ≡ (done + 1) * 2 ^ 40 }
{
    (u64::from(done) + 1) * VERSION
}

/// The version of a strip that is home, by its word.
pub(crate) fn version_of(word: u64) -> u32
    requires { 2 ^ 40 ≤ word }
    ensures { (done : ℕ) → done ≤ most_edits → word ≡ (done + 1) * 2 ^ 40 → result ≡ done }
{
    (word / VERSION - 1) as u32
}

/// Takes the strip where it is home, and returns its version; else counts a miss. A strip that was taken lies in its slot, which the seat
/// holds.
pub(crate) fn hold(
    board: &Board,
    seat: &mut Seat<Option<AheadStrip>, View>,
    strip: u32,
) -> Option<u32>
    requires idle { IsIdleSeat board.now seat.old }
    requires strip { strip < length (strips_of board.now.plan.grid) }
    requires few { seat.old.me.0.missed < 2 ^ 32 }
    ensures own { seat.new.table_id ≡ seat.old.table_id }
    ensures told { MatchOption result (Missed strip seat.old.me seat.new.me) (λ from. TookAt board.now strip from seat.old seat.new) }
{
    let word = word_at(strip);
    let found = board.table.shared.fetch_add::<Adding>(seat, word, 1);
    if found % VERSION != 0 {
        return None;
    }
    Some(version_of(found))
}

/// Takes the strip, and waits until it is home. Returns its version too.
pub(crate) fn wait_and_take<R: Wait>(
    rt: &R,
    board: &Board,
    seat: &mut Seat<Option<AheadStrip>, View>,
    strip: u32,
) -> (AheadStrip, u32)
    requires idle { IsIdleSeat board.now seat.old }
    requires strip { strip < length (strips_of board.now.plan.grid) }
    ensures out { TookOut board.now strip seat.old seat.new result.0 }
    ensures from { result.1 ≡ result.0.done }
{
    for _ in rt.forever() {
        match try_take(board, seat, strip) {
            Some(taken) => return taken,
            None => thread::yield_now(),
        }
    }
    unreachable!()
}

/// Takes the strip where it is home, and returns its version; else does nothing.
fn try_take(
    board: &Board,
    seat: &mut Seat<Option<AheadStrip>, View>,
    strip: u32,
) -> Option<(AheadStrip, u32)>
    requires idle { IsIdleSeat board.now seat.old }
    requires strip { strip < length (strips_of board.now.plan.grid) }
    ensures own { seat.new.table_id ≡ seat.old.table_id }
    ensures told { MatchOption result (seat.new.me ≡ seat.old.me)
        (λ taken. TookOut board.now strip seat.old seat.new taken.0 × (taken.1 ≡ taken.0.done)) }
{
    let at = word_at(strip);
    let word = board.table.shared.load::<Looking>(seat, at);
    if word % VERSION != 0 {
        return None;
    }
    let found = board
        .table
        .shared
        .compare_exchange::<Trying>(seat, at, word, word + 1);
    if found != word {
        return None;
    }
    let piece = board.table.shared.exchange(seat, strip as usize, None)?;
    Some((piece, version_of(word)))
}

/// Puts the strip back, that was taken at `from` and now is at `to`.
pub(crate) fn put(
    board: &Board,
    seat: &mut Seat<Option<AheadStrip>, View>,
    strip: u32,
    from: u32,
    to: u32,
    piece: AheadStrip,
)
    requires out { IsOutWithSeat board.now strip from seat.old }
    requires strip { strip < length (strips_of board.now.plan.grid) }
    requires of_case { IsCase (card board.now) strip piece.done piece }
    requires at { piece.done ≡ to }
    requires further { from ≤ to }
    ensures { IsBack board.now strip from to seat.old seat.new }
{
    board
        .table
        .shared
        .exchange(seat, strip as usize, Some(piece));
    give_back(board, seat, strip, from, to);
}

/// Gives back the strip in the seat's slot, that was taken at `from` and now is at `to`.
pub(crate) fn give_back(
    board: &Board,
    seat: &mut Seat<Option<AheadStrip>, View>,
    strip: u32,
    from: u32,
    to: u32,
)
    requires strip { strip < length (strips_of board.now.plan.grid) }
    requires held { (piece : StripOf) × IsInSeat board.now strip from to seat.old piece }
    ensures { IsBack board.now strip from to seat.old seat.new }
{
    let word = word_at(strip);
    board.table.shared.swap::<Giving>(seat, word, home_word(to));
}

/// Learns what the pass may know. Nothing changes.
pub(crate) fn look(board: &Board, seat: &mut Seat<Option<AheadStrip>, View>)
    requires idle { IsIdleSeat board.now seat.old }
    ensures idle { IsIdleSeat board.now seat.new }
    ensures looked { Looked seat.old.me seat.new.me }
{
    board.table.shared.load::<Looking>(seat, 0);
}
