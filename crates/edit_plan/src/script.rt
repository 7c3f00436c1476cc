ghost use Rattle.std.specs.Prelude.{◌≡◌, ◌≤◌, length, nat_le, Ok, IfOk, MatchResult};
ghost use Rattle.std.specs.List.{range_with_len};
ghost use Rattle.edit_plan.specs.Edits.{left_of};
ghost use Rattle.edit_plan.specs.Limits.{most_script_bytes, most_script_moves};
ghost use Rattle.edit_plan.specs.Script.{EndsScript, script_of, whole_of_moves};
ghost use Rattle.edit_plan.specs.Sound.{IsScript};
ghost use Rattle.ray_grid.specs.Grids.{GridSize};

use crate::edit::Edits;
use crate::fault::{ScriptEnd, ScriptWhy};
use crate::lines::Lines;
use crate::query::Queries;
use crate::reading::{Reading, Stop};
use crate::statement::read_statement;
use ray_grid::Grid;
use std::alloc::Global;
use vf_io::NoMemory;

/// The edits in order, and the queries between them.
#[derive(Drop)]
pub struct Script {
    pub edits: Edits,
    pub queries: Queries,
}

/// The most bytes of a script.
pub const MAX_SCRIPT_BYTES: usize = 4_194_304;

/// Whether a text has no more bytes than a script may have.
pub fn fits_script(bytes: &[u8]) -> bool
    ensures { result ≡ nat_le (length bytes.now) most_script_bytes }
{
    bytes.len() <= MAX_SCRIPT_BYTES
}

/// Reads the script that the bytes stand for, over `moves` moves. A refusal is the first fault by line, then by the order in
/// which one line is judged. It takes memory only for the edits and queries.
pub fn read_script(
    alloc: Global,
    bytes: &[u8],
    moves: u32,
    grid: &Grid,
) -> Result<Script, ScriptEnd>
    requires bytes { length bytes.now ≤ most_script_bytes }
    requires moves { moves ≤ most_script_moves }
    ensures script { MatchResult result (λ s. script_of moves grid.now bytes.now ≡ Ok s)
        (EndsScript (script_of moves grid.now bytes.now)) }
    ensures sound { IfOk result (IsScript moves grid.now) }
{
    let mut lines = Lines::new(bytes);
    let edition = lines.take_edition();
    let mut reading = Reading::new(alloc);
    while let Some(line) = lines.next_line() {
        let Some(statement) = read_statement(edition, line.text) else {
            return Err(ScriptEnd::refused(line.number, ScriptWhy::ScriptSyntax));
        };
        match reading.add(statement, moves, grid) {
            Ok(()) => {}
            Err(Stop::Refused(why)) => return Err(ScriptEnd::refused(line.number, why)),
            Err(Stop::NoMemory) => return Err(ScriptEnd::NoMemory),
        }
    }
    Ok(reading.finish())
}

/// The script without a text: each move is applied once in order, and nothing is asked.
pub fn whole_script(alloc: Global, moves: u32) -> Result<Script, NoMemory>
    requires { moves ≤ most_script_moves }
    ensures script { IfOk result (λ s. s ≡ whole_of_moves moves) }
    ensures sound { IfOk result (λ s. (grid : GridSize) → IsScript moves grid s) }
    // All of them are left.
    ensures left { IfOk result (λ s. left_of s.edits ≡ range_with_len 0 moves) }
{
    let mut edits = Edits::new(alloc);
    edits.push_moves(0, moves)?;
    Ok(Script {
        edits,
        queries: Queries::new(alloc),
    })
}
