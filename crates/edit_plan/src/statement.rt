ghost use Rattle.std.specs.Prelude.{◌≡◌, option_and_then};
ghost use Rattle.edit_plan.specs.Statements.{count_in, family_in, has_redo, number_in};
ghost use Rattle.edit_plan.specs.Statements.{probe_in, redo_in, run_in, statement_of, undo_in};
ghost use Rattle.edit_plan.specs.Words.{words_of};

use crate::words::{is_same, split_word};
use ray_grid::{Family, Ray};
use vf_text::read_count;

/// The editions of the grammar.
#[derive(Clone, Copy)]
pub(crate) enum Edition {
    First,
    Second,
}

impl Edition {
    /// Whether the edition has `redo`.
    fn has_redo(self) -> bool
        ensures { result ≡ has_redo self }
    {
        match self {
            Edition::First => false,
            Edition::Second => true,
        }
    }
}

/// What a line says.
#[derive(Clone, Copy)]
pub(crate) enum Statement {
    /// The moves from one to another are applied, counted from 1.
    Run { first: u32, last: u32 },
    UndoTimes(u32),
    RedoTimes(u32),
    ProbePoint { ray: Ray, l: u32 },
    CountPoints,
}

/// The most digits of a number.
const MAX_DIGITS: usize = 9;

/// What a line says, where it is one of the grammar.
pub(crate) fn read_statement(edition: Edition, text: &[u8]) -> Option<Statement>
    ensures { result ≡ statement_of edition (words_of text.now) }
{
    let (verb, behind) = split_word(text)?;
    if is_same(verb, b"run") {
        return read_run(behind);
    }
    if is_same(verb, b"undo") {
        return read_undo(behind);
    }
    if edition.has_redo() && is_same(verb, b"redo") {
        return read_redo(behind);
    }
    if is_same(verb, b"probe") {
        return read_probe(behind);
    }
    if is_same(verb, b"count") {
        return read_count_points(behind);
    }
    None
}

/// What follows `run`: the first move and the last one.
fn read_run(text: &[u8]) -> Option<Statement>
    ensures { result ≡ run_in (words_of text.now) }
{
    let (i, behind) = split_word(text)?;
    let (j, behind) = split_word(behind)?;
    let None = split_word(behind) else {
        return None;
    };
    let first = read_number(i)?;
    let last = read_number(j)?;
    Some(Statement::Run { first, last })
}

/// What follows `undo`: how many times.
fn read_undo(text: &[u8]) -> Option<Statement>
    ensures { result ≡ undo_in (words_of text.now) }
{
    let (n, behind) = split_word(text)?;
    let None = split_word(behind) else {
        return None;
    };
    Some(Statement::UndoTimes(read_number(n)?))
}

/// What follows `redo`: how many times.
fn read_redo(text: &[u8]) -> Option<Statement>
    ensures { result ≡ redo_in (words_of text.now) }
{
    let (n, behind) = split_word(text)?;
    let None = split_word(behind) else {
        return None;
    };
    Some(Statement::RedoTimes(read_number(n)?))
}

/// What follows `probe`: a family, the nodes of a ray of it, and a point of that ray.
fn read_probe(text: &[u8]) -> Option<Statement>
    ensures { result ≡ probe_in (words_of text.now) }
{
    let (f, behind) = split_word(text)?;
    let (i, behind) = split_word(behind)?;
    let (j, behind) = split_word(behind)?;
    let (l, behind) = split_word(behind)?;
    let None = split_word(behind) else {
        return None;
    };
    let family = read_family(f)?;
    let i = read_number(i)?;
    let j = read_number(j)?;
    let l = read_number(l)?;
    Some(Statement::ProbePoint {
        ray: Ray { family, i, j },
        l,
    })
}

/// What follows `count`: nothing.
fn read_count_points(text: &[u8]) -> Option<Statement>
    ensures { result ≡ count_in (words_of text.now) }
{
    match split_word(text) {
        None => Some(Statement::CountPoints),
        Some(_) => None,
    }
}

/// The number that a word is.
fn read_number(word: &[u8]) -> Option<u32>
    ensures { result ≡ number_in word.now }
{
    read_count(word, MAX_DIGITS)
}

/// The family that a word names.
fn read_family(word: &[u8]) -> Option<Family>
    ensures { result ≡ family_in word.now }
{
    if is_same(word, b"X") {
        return Some(Family::X);
    }
    if is_same(word, b"Y") {
        return Some(Family::Y);
    }
    if is_same(word, b"Z") {
        return Some(Family::Z);
    }
    None
}
