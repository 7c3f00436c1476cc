ghost use Rattle.std.specs.Prelude.{◌≡◌, ◌≤◌, length, Ok, IfOk, MatchResult, All};
ghost use Rattle.cl_lines.specs.Texts.{most_bytes};
ghost use Rattle.cl_moves.specs.Moves.{IsMove};
ghost use Rattle.cl_moves.specs.Program.{program_of, EndsRead};

use crate::fold::Fold;
use crate::moves::{MAX_MOVES, Moves};
use cl_lines::ClEnd;
use cl_records::Records;
use std::alloc::Global;

/// The moves of a text in order, and how many of its records were passed over.
#[derive(Drop)]
pub struct Program {
    pub moves: Moves,
    pub passed: u32,
}

/// The bytes of the shortest move and its line end, `GOTO/0,0,0`: there are never more moves than such lines.
const SHORTEST_MOVE: usize = 11;

/// Reads the program that the bytes stand for, to FINI or to the end of the bytes. A refusal is the
/// first fault by line, then by the order in which the faults of one record are judged.
pub fn read_program(alloc: Global, bytes: &[u8]) -> Result<Program, ClEnd>
    requires { length bytes.now ≤ most_bytes }
    ensures program { MatchResult result (λ p. program_of bytes.now ≡ Ok p) (EndsRead (program_of bytes.now)) }
    ensures moves { IfOk result (λ p. All IsMove p.moves) }
{
    let mut records = Records::new(alloc, bytes);
    let Ok(mut fold) = Fold::new(alloc, MAX_MOVES.min(bytes.len() / SHORTEST_MOVE)) else {
        return Err(ClEnd::NoMemory);
    };
    while let Some((line, statement)) = records.next_record()? {
        fold.apply(line, statement)?;
    }
    Ok(fold.finish())
}
