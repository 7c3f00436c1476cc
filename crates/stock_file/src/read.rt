ghost use Rattle.std.specs.Prelude.{◌≡◌, ◌+◌, ◌≤◌, [], length, nat_le, Ok, IfOk, MatchResult};
ghost use Rattle.vf_io.specs.Pieces.{pieces_of};
ghost use Rattle.stock_file.specs.Limits.{most_stock_bytes};
ghost use Rattle.stock_file.specs.Ends.{EndsStock, GivesBack};
ghost use Rattle.stock_file.specs.Reading.{stock_after_opening, stock_from, stock_of, with_nothing_after};
ghost use Rattle.stock_file.specs.Saved.{IsSaved};
ghost use Rattle.stock_file.specs.Spelling.{saved_of};

use crate::fault::{StockEnd, StockWhy};
use crate::grid_line::{grid_of, read_grid_line};
use crate::line::{Stop, read_ray};
use crate::ray_set::RaySet;
use crate::stock::SavedStock;
use crate::words::is_same;
use std::alloc::Global;
use vf_io::split_line;

/// The most bytes of a saved stock's text.
pub const MAX_STOCK_BYTES: usize = 67_108_864;

/// Whether a text has no more bytes than a saved stock's may have.
pub fn fits_stock(bytes: &[u8]) -> bool
    ensures { result ≡ nat_le (length bytes.now) most_stock_bytes }
{
    bytes.len() <= MAX_STOCK_BYTES
}

/// Reads the saved stock that the bytes stand for. A refusal is the first fault by line, then by the order in which one line is
/// judged. It takes memory for the sets of the grid's rays, and for the ranges of those that have several.
pub fn read_stock(alloc: Global, bytes: &[u8]) -> Result<SavedStock, StockEnd>
    requires { length bytes.now ≤ most_stock_bytes }
    ensures stock { MatchResult result (λ stock. stock_of bytes.now ≡ Ok stock) (EndsStock (stock_of bytes.now)) }
    ensures valid { IfOk result IsSaved }
    ensures spelling { IfOk result (λ stock. bytes.now ≡ saved_of stock) }
    ensures gives_back { GivesBack bytes.now result }
{
    read_text(alloc, bytes)
}

/// Reads a whole text.
fn read_text(alloc: Global, bytes: &[u8]) -> Result<SavedStock, StockEnd>
    requires { length bytes.now ≤ most_stock_bytes }
    ensures { MatchResult result (λ stock. stock_of bytes.now ≡ Ok stock) (EndsStock (stock_of bytes.now)) }
{
    if bytes.is_empty() {
        return Err(StockEnd::refused(1, StockWhy::StockSyntax));
    }
    let (piece, rest) = split_line(bytes);
    if !is_same(piece, b"stock 1\n") {
        return Err(StockEnd::refused(1, StockWhy::StockSyntax));
    }
    read_after_opening(alloc, rest)
}

/// Reads what follows the first line.
fn read_after_opening(alloc: Global, rest: &[u8]) -> Result<SavedStock, StockEnd>
    requires { length rest.now ≤ most_stock_bytes }
    ensures { let due = stock_after_opening (pieces_of rest.now) in
        MatchResult result (λ stock. due ≡ Ok stock) (EndsStock due) }
{
    if rest.is_empty() {
        return Err(StockEnd::refused(2, StockWhy::StockSyntax));
    }
    let (piece, rest) = split_line(rest);
    let Some(numbers) = read_grid_line(piece) else {
        return Err(StockEnd::refused(2, StockWhy::StockSyntax));
    };
    let Some(grid) = grid_of(&numbers) else {
        return Err(StockEnd::refused(2, StockWhy::StockGrid));
    };
    let Ok(stock) = SavedStock::new(alloc, grid) else {
        return Err(StockEnd::NoMemory);
    };
    read_rays(alloc, stock, rest)
}

/// Reads the ray lines and the last line.
fn read_rays(alloc: Global, empty: SavedStock, text: &[u8]) -> Result<SavedStock, StockEnd>
    requires { length text.now ≤ most_stock_bytes }
    ensures { let due = stock_from empty.grid 3 0 (pieces_of text.now) empty.sets in
        MatchResult result (λ stock. due ≡ Ok stock) (EndsStock due) }
{
    let grid = empty.grid();
    // Reading a field of the grid gives the prover its invariant.
    let _valid = &grid.origin;
    let mut stock = empty;
    let mut rest = text;
    let mut number: u32 = 3;
    let mut next: u32 = 0;
    while !rest.is_empty() {
        let (piece, after) = split_line(rest);
        if is_same(piece, b"end\n") {
            return if_last(stock, number + 1, after);
        }
        match read_ray(alloc, &grid, next, piece) {
            Ok(RaySet { ray, set }) => {
                next = grid.ray_number(&ray) + 1;
                stock.put(&ray, set);
            }
            Err(Stop::Refused(why)) => return Err(StockEnd::refused(number, why)),
            Err(Stop::NoMemory) => return Err(StockEnd::NoMemory),
        }
        rest = after;
        number += 1;
    }
    Err(StockEnd::refused(number, StockWhy::StockSyntax))
}

/// The stock that was read, where no byte follows its last line; else what follows is the line of this number.
fn if_last(stock: SavedStock, number: u32, after: &[u8]) -> Result<SavedStock, StockEnd>
    ensures { let due = with_nothing_after number (pieces_of after.now) stock in
        MatchResult result (λ stock. due ≡ Ok stock) (EndsStock due) }
{
    if after.is_empty() {
        return Ok(stock);
    }
    Err(StockEnd::refused(number, StockWhy::StockSyntax))
}
