ghost use Rattle.std.specs.Prelude.{◌≡◌, option_and_then};
ghost use Rattle.std.specs.Option.{option_map};
ghost use Rattle.cert_lines.specs.Lines.{cell_in, end_in, named_family, form_of, spelt_number, opening_in, ray_in, slabs_in, form_in};
ghost use Rattle.cert_lines.specs.Words.{line_in, words_after, spaced_words};

use crate::words::{is_same, split_next, split_word};
use ray_grid::{Family, Ray};
use vf_text::read_count;

/// A part of the move's time and a run of points: cell `k` of level `q`, and the points from `a` on and below `b`.
#[derive(Clone, Copy)]
pub(crate) struct Span {
    pub(crate) q: u32,
    pub(crate) k: u32,
    pub(crate) a: u32,
    pub(crate) b: u32,
}

/// What a line says.
#[derive(Clone, Copy)]
pub(crate) enum Form {
    /// `cert 1`
    Opening,
    /// `slabs N`
    Slabs(u32),
    /// `ray F I J`
    OfRay(Ray),
    /// `cell Q K A B`
    OfCell(Span),
    /// `end`
    End,
}

/// The most digits of a number.
const MAX_DIGITS: usize = 9;

/// What a piece of a text says, where it is a line of the grammar with its line end.
pub(crate) fn read_form(piece: &[u8]) -> Option<Form>
    ensures { result ≡ form_of piece.now }
{
    read_words(whole_line(piece)?)
}

/// A line without its line end, where it has one.
fn whole_line(piece: &[u8]) -> Option<&[u8]>
    ensures { line_in piece.now ≡ option_map (λ text. text.now) result }
{
    let (last, text) = piece.split_last()?;
    if *last != b'\n' {
        return None;
    }
    Some(text)
}

/// What the words of a line say.
fn read_words(text: &[u8]) -> Option<Form>
    ensures { result ≡ form_in (spaced_words text.now) }
{
    let (verb, after) = split_word(text);
    if is_same(verb, b"cell") {
        return read_cell(after);
    }
    if is_same(verb, b"ray") {
        return read_ray(after);
    }
    if is_same(verb, b"cert") {
        return read_opening(after);
    }
    if is_same(verb, b"slabs") {
        return read_slabs(after);
    }
    if is_same(verb, b"end") {
        return read_end(after);
    }
    None
}

/// What follows `cell`: a level, a cell of it, and the points.
fn read_cell(after: &[u8]) -> Option<Form>
    ensures { result ≡ cell_in (words_after after.now) }
{
    let (q, after) = split_next(after)?;
    let (k, after) = split_next(after)?;
    let (a, after) = split_next(after)?;
    let (b, after) = split_next(after)?;
    let None = split_next(after) else {
        return None;
    };
    let q = read_number(q)?;
    let k = read_number(k)?;
    let a = read_number(a)?;
    let b = read_number(b)?;
    Some(Form::OfCell(Span { q, k, a, b }))
}

/// What follows `ray`: a family, and the nodes of a ray of it.
fn read_ray(after: &[u8]) -> Option<Form>
    ensures { result ≡ ray_in (words_after after.now) }
{
    let (f, after) = split_next(after)?;
    let (i, after) = split_next(after)?;
    let (j, after) = split_next(after)?;
    let None = split_next(after) else {
        return None;
    };
    let family = read_family(f)?;
    let i = read_number(i)?;
    let j = read_number(j)?;
    Some(Form::OfRay(Ray { family, i, j }))
}

/// What follows `cert`: the edition.
fn read_opening(after: &[u8]) -> Option<Form>
    ensures { result ≡ opening_in (words_after after.now) }
{
    let (edition, after) = split_next(after)?;
    let None = split_next(after) else {
        return None;
    };
    if is_same(edition, b"1") {
        return Some(Form::Opening);
    }
    None
}

/// What follows `slabs`: how many.
fn read_slabs(after: &[u8]) -> Option<Form>
    ensures { result ≡ slabs_in (words_after after.now) }
{
    let (n, after) = split_next(after)?;
    let None = split_next(after) else {
        return None;
    };
    Some(Form::Slabs(read_number(n)?))
}

/// What follows `end`: nothing.
fn read_end(after: &[u8]) -> Option<Form>
    ensures { result ≡ end_in (words_after after.now) }
{
    match split_next(after) {
        None => Some(Form::End),
        Some(_) => None,
    }
}

/// The number that a word is.
fn read_number(word: &[u8]) -> Option<u32>
    ensures { result ≡ spelt_number word.now }
{
    read_count(word, MAX_DIGITS)
}

/// The family that a word names.
fn read_family(word: &[u8]) -> Option<Family>
    ensures { result ≡ named_family word.now }
{
    if is_same(word, b"X") {
        return Some(Family::X);
    }
    if is_same(word, b"Y") {
        return Some(Family::Y);
    }
    if is_same(word, b"Z") {
        return Some(Family::Z);
    }
    None
}
