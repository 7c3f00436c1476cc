ghost use Rattle.std.specs.Prelude.{◌≡◌, ◌<◌, ◌^◌, Ok, IfOk, OnOk, MatchResult, length};
ghost use Rattle.std.specs.Option.{option_map};
ghost use Rattle.ray_grid.specs.Lattice.{IsRay, points_of};
ghost use Rattle.cert_lines.specs.Lines.{named_family};
ghost use Rattle.cert_lines.specs.Words.{spaced_words, words_after};
ghost use Rattle.stock_file.specs.RayLines.{bounds_in, is_ray_due, ray_after_verb, ray_in_line, ray_named};
ghost use Rattle.stock_file.specs.RayLines.{ray_set_in, set_judged};
ghost use Rattle.stock_file.specs.Ends.{EndsSet, EndsStockLine};
ghost use Rattle.stock_file.specs.Taken.{LieBelow, follows, with_pair};

use crate::fault::StockWhy;
use crate::numbers::read_plain;
use crate::ray_set::RaySet;
use crate::rays::has_ray;
use crate::words::{is_same, split_next, split_word, whole_line};
use ray_grid::{Family, Grid, Ray};
use std::alloc::Global;
use vf_io::NoMemory;
use vf_spans::Spans;

/// Why a line adds nothing.
#[derive(Clone, Copy)]
pub(crate) enum Stop {
    Refused(StockWhy),
    NoMemory,
}

/// The ranges of a ray line that were read so far.
#[derive(Drop)]
pub(crate) struct Ranges {
    pub(crate) set: Spans,
    /// The least number that the next lower bound may be: 0 before the first range.
    pub(crate) least: u32,
    /// Whether nothing was wrong with the ray and with the bounds.
    pub(crate) are_ok: bool,
}

impl Ranges {
    /// Adds a range, where it may follow those before it.
    fn add(&mut self, lo: u32, hi: u32) -> Result<(), NoMemory>
        requires below { LieBelow self.old }
        requires small { hi < 10 ^ 9 }
        ensures added { OnOk result (self.new ≡ with_pair self.old lo hi) }
        ensures below { OnOk result (LieBelow self.new) }
        ensures bound { length self.new.set ≡ length self.old.set }
    {
        if !self.follows(lo, hi) {
            self.are_ok = false;
            return Ok(());
        }
        self.set.push_range(lo, hi)?;
        self.least = hi + 1;
        Ok(())
    }

    /// Whether a range may follow those before it.
    fn follows(&self, lo: u32, hi: u32) -> bool
        ensures { result ≡ follows self.now lo hi }
    {
        self.are_ok && self.least <= lo && lo < hi && hi <= self.set.bound()
    }
}

/// Reads a piece of a text as a ray line whose ray has this number at the least.
pub(crate) fn read_ray(alloc: Global, grid: &Grid, next: u32, piece: &[u8]) -> Result<RaySet, Stop>
    ensures found { MatchResult result (λ found. ray_set_in grid.now next piece.now ≡ Ok found)
        (EndsStockLine (ray_set_in grid.now next piece.now)) }
    ensures ray { IfOk result (λ found. IsRay grid.now found.ray) }
    ensures bound { IfOk result (λ found. length found.set ≡ points_of grid.now found.ray.family) }
{
    read_piece(alloc, grid, next, piece)
}

fn read_piece(alloc: Global, grid: &Grid, next: u32, piece: &[u8]) -> Result<RaySet, Stop>
    ensures { MatchResult result (λ found. ray_set_in grid.now next piece.now ≡ Ok found)
        (EndsStockLine (ray_set_in grid.now next piece.now)) }
{
    let Some((ray, after)) = read_name(piece) else {
        return Err(Stop::Refused(StockWhy::StockSyntax));
    };
    let is_due = is_ray_due(grid, next, &ray);
    match read_bounds(alloc, after, grid.points(ray.family), is_due) {
        Ok(set) => Ok(RaySet { ray, set }),
        Err(stop) => Err(stop),
    }
}

/// Whether the grid has the ray, with this number at the least.
#[tactic(auto, using(crate::proofs::LineLemmas::ray_on))]
fn is_ray_due(grid: &Grid, next: u32, ray: &Ray) -> bool
    ensures { result ≡ is_ray_due grid.now next ray.now }
{
    has_ray(grid, ray) && next <= grid.ray_number(ray)
}

/// The ray that a piece of a text names, and what follows it.
fn read_name(piece: &[u8]) -> Option<(Ray, &[u8])>
    ensures { ray_named piece.now ≡ option_map (λ cut. (cut.0, words_after cut.1.now)) result }
{
    read_name_words(whole_line(piece)?)
}

fn read_name_words(text: &[u8]) -> Option<(Ray, &[u8])>
    ensures { ray_in_line (spaced_words text.now) ≡ option_map (λ cut. (cut.0, words_after cut.1.now)) result }
{
    let (verb, after) = split_word(text);
    if !is_same(verb, b"ray") {
        return None;
    }
    read_ray_words(after)
}

/// What follows `ray`: a family, and the nodes of a ray of it.
fn read_ray_words(after: &[u8]) -> Option<(Ray, &[u8])>
    ensures { ray_after_verb (words_after after.now) ≡ option_map (λ cut. (cut.0, words_after cut.1.now)) result }
{
    let (f, after) = split_next(after)?;
    let (i, after) = split_next(after)?;
    let (j, after) = split_next(after)?;
    let family = read_family(f)?;
    let i = read_plain(i)?;
    let j = read_plain(j)?;
    Some((Ray { family, i, j }, after))
}

/// The family that a word names.
fn read_family(word: &[u8]) -> Option<Family>
    ensures { result ≡ named_family word.now }
{
    if is_same(word, b"X") {
        return Some(Family::X);
    }
    if is_same(word, b"Y") {
        return Some(Family::Y);
    }
    if is_same(word, b"Z") {
        return Some(Family::Z);
    }
    None
}

/// The set of the bounds of a ray line. Each word has to be a number, even where something is wrong with those before it.
fn read_bounds(alloc: Global, text: &[u8], points: u32, is_due: bool) -> Result<Spans, Stop>
    ensures { let due = set_judged is_due points (bounds_in (words_after text.now)) in
        MatchResult result (λ set. due ≡ Ok set) (EndsSet due) }
{
    let mut ranges = Ranges {
        set: Spans::new(alloc, points),
        least: 0,
        are_ok: is_due,
    };
    let mut rest = text;
    while let Some((lo, after)) = split_next(rest) {
        let Some(lo) = read_plain(lo) else {
            return Err(Stop::Refused(StockWhy::StockSyntax));
        };
        let Some((hi, after)) = split_next(after) else {
            return Err(Stop::Refused(StockWhy::StockOrder));
        };
        let Some(hi) = read_plain(hi) else {
            return Err(Stop::Refused(StockWhy::StockSyntax));
        };
        match ranges.add(lo, hi) {
            Ok(()) => {}
            Err(_) => return Err(Stop::NoMemory),
        }
        rest = after;
    }
    if !ranges.are_ok || ranges.least == 0 {
        return Err(Stop::Refused(StockWhy::StockOrder));
    }
    Ok(ranges.set)
}
