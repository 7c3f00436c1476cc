ghost use Rattle.std.specs.Prelude.{◌≡◌, ◌<◌, ◌+◌, ◌*◌, pos, neg_ℤ, All, IfOk, IfSome, IsTrue, length, option_copied};
ghost use Rattle.space.specs.Ranges.{IsBetween};
ghost use Rattle.toml.specs.View.{table_view};
ghost use Rattle.ray_grid.specs.Turns.{IsTurn, is_turn, most_shift};
ghost use Rattle.setup_file.specs.Grids.{AreCoordinates};
ghost use Rattle.setup_file.specs.Reads.{entry_at};
ghost use Rattle.setup_keys.specs.declared.key.KeyName.TheVariants as keys;
ghost use Rattle.setup_file.specs.TurnTable.{axes_in, signed_axis_at, axis_of, moved_by, sign_of, turn_at, turn_named, turn_of};

use crate::read::{all_ranged, entry_at, numbers_at};
use ray_grid::Turn;
use setup_keys::{KeyName, SetupFault};
use toml::Table;

/// How far a turned part may be moved along an axis, in micrometres.
const MOST_SHIFT: i64 = 2_000_000;

/// How the part of a setup is turned; not at all where the table isn't there.
pub(crate) fn turn_at(setup: &Table) -> Result<Option<Turn>, SetupFault>
    ensures turn { result ≡ turn_at (table_view setup.now) }
    ensures valid { IfOk result (λ turn. IfSome turn IsTurn) }
{
    let Some(value) = entry_at(setup, KeyName::Turn) else {
        return Ok(None);
    };
    match value.as_table() {
        Some(table) => Ok(Some(read_turn(table)?)),
        None => Err(SetupFault::SetupKey(KeyName::Turn)),
    }
}

/// The turn of its table.
#[tactic(auto, unfolding(crate::specs::TurnTable::turn_of))]
fn read_turn(table: &Table) -> Result<Turn, SetupFault>
    ensures turn { result ≡ turn_of (table_view table.now) }
    ensures valid { IfOk result IsTurn }
{
    let Some(turn) = axes_at(table) else {
        return Err(SetupFault::SetupKey(KeyName::TurnAxes));
    };
    let shift = numbers_at::<3>(table, KeyName::TurnShift)?;
    all_ranged(&shift, KeyName::TurnShift, -MOST_SHIFT, MOST_SHIFT)?;
    Ok(moved_by(&turn, &shift))
}

/// Which way the axes of a table turn.
fn axes_at(table: &Table) -> Option<Turn>
    ensures axes { result ≡ axes_in (entry_at keys.TurnAxes (table_view table.now)) }
    ensures quarter { IfSome result (λ turn. IsTrue (is_turn turn)) }
{
    turn_named(entry_at(table, KeyName::TurnAxes)?.as_str()?.as_bytes())
}

/// The turn of a text of six characters, for each new axis a sign and an old axis.
fn turn_named(text: &[u8]) -> Option<Turn>
    ensures turn { result ≡ turn_named text.now }
    ensures quarter { IfSome result (λ turn. IsTrue (is_turn turn)) }
{
    if text.len() != 6 {
        return None;
    }
    let (neg_x, x) = signed_axis_at(text, 0)?;
    let (neg_y, y) = signed_axis_at(text, 1)?;
    let (neg_z, z) = signed_axis_at(text, 2)?;
    let turn = Turn {
        axis: [x, y, z],
        neg: [neg_x, neg_y, neg_z],
        shift: [0, 0, 0],
    };
    if turn.is_turn() { Some(turn) } else { None }
}

/// What the text says of new axis `n`: whether it is negated, and its old axis.
fn signed_axis_at(text: &[u8], n: usize) -> Option<(bool, u32)>
    requires { 2 * n + 1 < length text.now }
    ensures { result ≡ signed_axis_at text.now n }
{
    let negated = sign_of(text[2 * n])?;
    let axis = axis_of(text[2 * n + 1])?;
    Some((negated, axis))
}

/// Whether a sign negates, where it is one.
fn sign_of(code: u8) -> Option<bool>
    ensures { result ≡ sign_of code }
{
    match code {
        b'+' => Some(false),
        b'-' => Some(true),
        _ => None,
    }
}

/// The number of an old axis, where the letter is one.
fn axis_of(letter: u8) -> Option<u32>
    ensures { result ≡ axis_of letter }
{
    if b'x' <= letter && letter <= b'z' {
        Some(u32::from(letter - b'x'))
    } else {
        None
    }
}

/// The turn, moved along each axis.
fn moved_by(turn: &Turn, shift: &[i64; 3]) -> Turn
    requires quarter { IsTrue (is_turn turn.now) }
    requires shift { All (IsBetween (neg_ℤ (pos most_shift)) (pos most_shift)) shift.now }
    ensures moved { result ≡ moved_by turn.now shift.now }
    ensures valid { IsTurn result }
{
    Turn {
        axis: turn.axis,
        neg: turn.neg,
        shift: [shift[0] as i32, shift[1] as i32, shift[2] as i32],
    }
}
