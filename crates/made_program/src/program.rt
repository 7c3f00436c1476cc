ghost use Rattle.std.specs.Prelude.{◌≡◌, ◌+◌, ◌*◌, IfOk, All, None, false, map};
ghost use Rattle.std.specs.List.{range_with_len};
ghost use Rattle.cl_moves.specs.Moves.{IsMove};
ghost use Rattle.made_program.specs.Draws.{generator_state};
ghost use Rattle.made_program.specs.Made.{made_move, made_of, place_after};

use crate::place::Place;
use cl_moves::{Move, Moves, Program};
use std::alloc::Global;
use vf_io::NoMemory;

/// How many moves a generated program has.
pub const MADE_MOVES: u32 = 24;

/// The program that is generated from a number.
pub fn made_program(alloc: Global, number: u32) -> Result<Program, NoMemory>
    ensures program { IfOk result (λ program. program ≡ made_of number) }
    ensures moves { IfOk result (λ program. All IsMove program.moves) }
{
    let mut moves = Moves::new(alloc);
    let mut state = number;
    let mut place = Place::first();
    for i in 0..MADE_MOVES {
        let next = Place::next(&mut state);
        moves.push(cutting_move(i + 1, place, next))?;
        place = next;
    }
    Ok(Program { moves, passed: 0 })
}

/// The move from one place to another, on this line.
fn cutting_move(line: u32, from: Place, to: Place) -> Move
    ensures { result ≡ record {
      line = line;
      rapid = false;
      from = from.tip;
      to = to.tip;
      axis_from = from.axis;
      axis_to = to.axis;
      cutter = None;
    } }
{
    let Place {
        tip: from_tip,
        axis: axis_from,
    } = from;
    let Place {
        tip: to_tip,
        axis: axis_to,
    } = to;
    Move {
        line,
        rapid: false,
        from: from_tip,
        to: to_tip,
        axis_from,
        axis_to,
        cutter: None,
    }
}
