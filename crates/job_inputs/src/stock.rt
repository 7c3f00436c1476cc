ghost use Rattle.std.specs.Prelude.{◌≡◌, ◌≤◌, ◌↔◌, ℕ, List, length, false, IfOk, IfSome, None, Some, option_map};
ghost use Rattle.vf_io.specs.Files.{bytes_of};
ghost use Rattle.ray_grid.specs.Turns.{IsTurn};
ghost use Rattle.setup_file.specs.Sound.{IsSetup};
ghost use Rattle.stock_file.specs.Limits.{most_stock_bytes};
ghost use Rattle.stock_file.specs.Saved.{IsSaved};
ghost use Rattle.job_inputs.specs.Inputs.{GivesInput, is_read_fault};
ghost use Rattle.job_inputs.specs.Reads.{ReadsOnce};
ghost use Rattle.job_inputs.specs.Stocks.{LiesIn, placed_of, stock_for, stock_in_place, stock_read_of};

use crate::input::read_input;
use input_faults::{Fault, Input, Stopped};
use ray_grid::{Grid, Turn};
use setup_file::Setup;
use setup_turn::{TurnEnd, turn_stock};
use std::alloc::Global;
use stock_file::{MAX_STOCK_BYTES, SavedStock, StockEnd, has_same_steps, is_same_grid, read_stock};
use vf_io::Shelf;

/// Reads the saved stock of a file, where one is named, and lays it into the grid of a setup: as it is, or turned where the setup says so.
pub(crate) fn read_stock_for<S: Shelf>(
    alloc: Global,
    file: Option<&str>,
    setup: &Setup,
    shelf: &mut S,
) -> Result<Option<SavedStock>, Stopped>
    requires allowed { IfSome file (λ name. S.allows shelf.old name.now) }
    requires setup { IsSetup setup.now }
    ensures gives { IfSome (S.files shelf.old) (λ files. GivesInput result
        (stock_for setup.now (option_map (bytes_of files) (option_map (λ name. name.now) file.entry)))) }
    ensures placed { IfOk result (λ stock. IfSome stock (LiesIn setup.now.grid)) }
    ensures read { ReadsOnce S.files S.faults S.failures (is_read_fault result) shelf.old shelf.new }
    ensures later { S.faults shelf.old ≤ S.faults shelf.new }
    ensures allows { (n : List ℕ) → S.allows shelf.old n ↔ S.allows shelf.new n }
{
    match file {
        Some(file) => match read_placed(alloc, file, setup, shelf) {
            Ok(stock) => Ok(Some(stock)),
            Err(stopped) => Err(stopped),
        },
        None => Ok(None),
    }
}

/// Reads the saved stock of a file, and lays it into the grid of a setup.
fn read_placed<S: Shelf>(
    alloc: Global,
    file: &str,
    setup: &Setup,
    shelf: &mut S,
) -> Result<SavedStock, Stopped>
    requires allowed { S.allows shelf.old file.now }
    requires setup { IsSetup setup.now }
    ensures gives { IfSome (S.files shelf.old) (λ files. GivesInput result (placed_of setup.now (bytes_of files file.now))) }
    ensures placed { IfOk result (LiesIn setup.now.grid) }
    ensures read { ReadsOnce S.files S.faults S.failures (is_read_fault result) shelf.old shelf.new }
    ensures later { S.faults shelf.old ≤ S.faults shelf.new }
    ensures allows { (n : List ℕ) → S.allows shelf.old n ↔ S.allows shelf.new n }
{
    match read_saved(alloc, file, shelf) {
        Ok(stock) => place(alloc, setup, stock),
        Err(stopped) => Err(stopped),
    }
}

/// Reads the saved stock of a file. The file's bytes are freed at the end.
fn read_saved<S: Shelf>(alloc: Global, file: &str, shelf: &mut S) -> Result<SavedStock, Stopped>
    requires { S.allows shelf.old file.now }
    ensures gives { IfSome (S.files shelf.old) (λ files. GivesInput result (stock_read_of (bytes_of files file.now))) }
    ensures valid { IfOk result IsSaved }
    ensures read { ReadsOnce S.files S.faults S.failures (is_read_fault result) shelf.old shelf.new }
    ensures later { S.faults shelf.old ≤ S.faults shelf.new }
    ensures allows { (n : List ℕ) → S.allows shelf.old n ↔ S.allows shelf.new n }
{
    match read_input(alloc, Input::Stock, file, MAX_STOCK_BYTES as u32, shelf) {
        Ok(bytes) => saved_in(alloc, &bytes),
        Err(stopped) => Err(stopped),
    }
}

/// Reads the saved stock of a text.
fn saved_in(alloc: Global, bytes: &[u8]) -> Result<SavedStock, Stopped>
    requires { length bytes.now ≤ most_stock_bytes }
    ensures gives { GivesInput result (stock_read_of bytes.now) }
    ensures valid { IfOk result IsSaved }
    ensures no_read { is_read_fault result ≡ false }
{
    match read_stock(alloc, bytes) {
        Ok(stock) => Ok(stock),
        Err(StockEnd::Refused(fault)) => Err(Stopped::Refused(Fault::Stock(fault))),
        Err(StockEnd::NoMemory) => Err(Stopped::NoMemory),
    }
}

/// Lays a saved stock into the grid of a setup.
fn place(alloc: Global, setup: &Setup, stock: SavedStock) -> Result<SavedStock, Stopped>
    requires setup { IsSetup setup.now }
    requires valid { IsSaved stock }
    ensures gives { GivesInput result (stock_in_place setup.now.turn setup.now.grid stock) }
    ensures placed { IfOk result (LiesIn setup.now.grid) }
    ensures no_read { is_read_fault result ≡ false }
{
    match setup.turn {
        Some(turn) => place_turned(alloc, &turn, &setup.grid, &stock),
        None => place_as_it_is(&setup.grid, stock),
    }
}

/// A saved stock of this grid.
fn place_as_it_is(grid: &Grid, stock: SavedStock) -> Result<SavedStock, Stopped>
    requires { IsSaved stock }
    ensures gives { GivesInput result (stock_in_place None grid.now stock) }
    ensures placed { IfOk result (LiesIn grid.now) }
    ensures no_read { is_read_fault result ≡ false }
{
    if is_same_grid(&stock.grid(), grid) {
        Ok(stock)
    } else {
        Err(Stopped::Refused(Fault::StockOther))
    }
}

/// A saved stock that is turned into this grid.
fn place_turned(
    alloc: Global,
    turn: &Turn,
    grid: &Grid,
    stock: &SavedStock,
) -> Result<SavedStock, Stopped>
    requires turn { IsTurn turn.now }
    requires valid { IsSaved stock.now }
    ensures gives { GivesInput result (stock_in_place (Some turn.now) grid.now stock.now) }
    ensures placed { IfOk result (LiesIn grid.now) }
    ensures no_read { is_read_fault result ≡ false }
{
    if !has_same_steps(&stock.grid(), grid) {
        return Err(Stopped::Refused(Fault::StockOther));
    }
    match turn_stock(alloc, stock, turn, grid) {
        Ok(turned) => Ok(turned),
        Err(TurnEnd::Outside { ray, l }) => Err(Stopped::Refused(Fault::TurnOutside { ray, l })),
        Err(TurnEnd::NoMemory) => Err(Stopped::NoMemory),
    }
}
