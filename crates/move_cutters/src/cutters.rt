ghost use Rattle.std.specs.Prelude.{◌≡◌, false};
ghost use Rattle.std.specs.Option.{IfSome};
ghost use Rattle.cl_moves.specs.Moves.{IsMove, sweep_of};
ghost use Rattle.cl_records.specs.Ranges.{IsCutterText};
ghost use Rattle.move_cutters.specs.Cutters.{AreDefaults, cutter_size, cutter_text_of, first_low, height_of, is_low, is_move_low, size_of};

use axis_cells::Sweep;
use cl_moves::{CutterText, Move};
use cutter_slabs::Cutter;

/// What is taken where a program leaves it open: the cutter of a move that has none, where there is one, and the height of a cutter
/// that has none, in micrometres.
#[derive(Clone, Copy)]
pub struct CutterDefaults {
    pub cutter: Option<CutterText>,
    pub height: i32,
}

/// The cutter of a move, as a text gives it.
fn cutter_text(defaults: &CutterDefaults, next: &Move) -> Option<CutterText>
    ensures { result ≡ cutter_text_of defaults.now next.now }
{
    next.cutter.or(defaults.cutter)
}

/// The height of a cutter.
fn height(defaults: &CutterDefaults, cutter: &CutterText) -> i32
    ensures { result ≡ height_of defaults.now cutter.now }
{
    cutter.h.unwrap_or(defaults.height)
}

/// Whether a cutter is less high than its corner radius.
fn is_low(defaults: &CutterDefaults, cutter: &CutterText) -> bool
    ensures { result ≡ is_low defaults.now cutter.now }
{
    height(defaults, cutter) < cutter.r
}

/// Whether a move is made with such a cutter.
fn is_move_low(defaults: &CutterDefaults, next: &Move) -> bool
    ensures { result ≡ is_move_low defaults.now next.now }
{
    match cutter_text(defaults, next) {
        Some(cutter) => is_low(defaults, &cutter),
        None => false,
    }
}

/// The line of the first such move.
pub fn low_cutter(defaults: &CutterDefaults, moves: &[Move]) -> Option<u32>
    ensures { result ≡ first_low defaults.now moves.now }
{
    for next in moves {
        if is_move_low(defaults, next) {
            return Some(next.line);
        }
    }
    None
}

/// The size of a cutter. Each cutter of a program begins at its tip.
pub fn size(defaults: &CutterDefaults, cutter: &CutterText) -> Cutter
    requires defaults { AreDefaults defaults.now }
    requires valid { IsCutterText cutter.now }
    requires high { is_low defaults.now cutter.now ≡ false }
    ensures size { result ≡ size_of defaults.now cutter.now }
    ensures tip { result.base ≡ 0 }
{
    Cutter {
        d: cutter.d,
        r: cutter.r,
        h: height(defaults, cutter),
        flank: cutter.flank,
        base: 0,
    }
}

/// The cutter of a move, where it has one.
pub fn cutter_of(defaults: &CutterDefaults, next: &Move) -> Option<Cutter>
    requires defaults { AreDefaults defaults.now }
    requires valid { IsMove next.now }
    requires high { is_move_low defaults.now next.now ≡ false }
    ensures size { result ≡ cutter_size defaults.now next.now }
    ensures tip { IfSome result (λ cutter. cutter.base ≡ 0) }
{
    let cutter = cutter_text(defaults, next)?;
    Some(size(defaults, &cutter))
}

/// The motion of a move.
pub fn sweep_of(next: &Move) -> Sweep
    requires { IsMove next.now }
    ensures { result ≡ sweep_of next.now }
{
    Sweep {
        from: next.from,
        to: next.to,
        axis_from: next.axis_from,
        axis_to: next.axis_to,
    }
}
