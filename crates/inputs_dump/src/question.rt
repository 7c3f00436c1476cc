ghost use Rattle.std.specs.Prelude.{◌≤◌, IfSome};
ghost use Rattle.edit_plan.specs.Limits.{most_script_moves};

use crate::ending::Ending;
use crate::files::{script_in, setup_in};
use crate::script_page::{script_counts, script_text};
use crate::setup_page::{setup_counts, setup_text};
use edit_plan::whole_script;
use std::alloc::Global;
use std::rt::Files;
use vf_io::FolderShelf;
use vf_text::read_count;

/// The most moves that a script may choose from.
const MAX_MOVES: u32 = 50_000;

/// The most digits of the number of moves.
const MAX_DIGITS: usize = 5;

/// What the words ask for.
pub(crate) fn answer<R: Files>(
    alloc: Global,
    words: &[String],
    shelf: &mut FolderShelf<'_, R>,
) -> Result<Vec<u8>, Ending> {
    match words {
        [what, setup] if is_word(what, "setup") => setup_answer(alloc, setup, false, shelf),
        [what, setup, count] if is_word(what, "setup") && is_word(count, "--count") => {
            setup_answer(alloc, setup, true, shelf)
        }
        [what, setup, moves] if is_word(what, "script") => whole_answer(alloc, setup, moves, shelf),
        [what, setup, moves, script] if is_word(what, "script") => {
            script_answer(alloc, setup, moves, script, false, shelf)
        }
        [what, setup, moves, script, count]
            if is_word(what, "script") && is_word(count, "--count") => {
            script_answer(alloc, setup, moves, script, true, shelf)
        }
        _ => Err(Ending::Usage),
    }
}

fn is_word(word: &String, name: &str) -> bool {
    word.as_str() == name
}

/// What is written of a setup: all of it, or its counts.
fn setup_answer<R: Files>(
    alloc: Global,
    file: &str,
    counts: bool,
    shelf: &mut FolderShelf<'_, R>,
) -> Result<Vec<u8>, Ending> {
    let setup = setup_in(alloc, file, shelf)?;
    if counts {
        return Ok(setup_counts(alloc, &setup)?);
    }
    Ok(setup_text(alloc, &setup)?)
}

/// What is written of a script: all of it, or its counts. The setup is read before it.
fn script_answer<R: Files>(
    alloc: Global,
    setup: &str,
    moves: &str,
    script: &str,
    counts: bool,
    shelf: &mut FolderShelf<'_, R>,
) -> Result<Vec<u8>, Ending> {
    let Some(moves) = moves_in(moves) else {
        return Err(Ending::Usage);
    };
    let setup = setup_in(alloc, setup, shelf)?;
    let script = script_in(alloc, script, moves, &setup.grid, shelf)?;
    if counts {
        return Ok(script_counts(alloc, &script)?);
    }
    Ok(script_text(alloc, &script)?)
}

/// What is written where there is no script: each move once. The setup is read before it.
fn whole_answer<R: Files>(
    alloc: Global,
    setup: &str,
    moves: &str,
    shelf: &mut FolderShelf<'_, R>,
) -> Result<Vec<u8>, Ending> {
    let Some(moves) = moves_in(moves) else {
        return Err(Ending::Usage);
    };
    setup_in(alloc, setup, shelf)?;
    let script = whole_script(alloc, moves)?;
    Ok(script_text(alloc, &script)?)
}

/// The number of moves that a word is.
fn moves_in(word: &str) -> Option<u32>
    ensures { IfSome result (λ moves. moves ≤ most_script_moves) }
{
    match read_count(word.as_bytes(), MAX_DIGITS) {
        Some(moves) if moves <= MAX_MOVES => Some(moves),
        _ => None,
    }
}
