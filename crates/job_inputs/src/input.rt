ghost use Rattle.std.specs.Prelude.{◌≡◌, ◌≤◌, ◌↔◌, ℕ, List, length, vec_len, false, All, IfOk, IfSome, Ok, Some, option_map};
ghost use Rattle.vf_io.specs.Files.{bytes_of};
ghost use Rattle.cl_lines.specs.Texts.{most_bytes};
ghost use Rattle.cl_moves.specs.Moves.{IsMove};
ghost use Rattle.cl_moves.specs.Program.{most_moves};
ghost use Rattle.edit_plan.specs.Limits.{most_script_bytes, most_script_moves};
ghost use Rattle.edit_plan.specs.Script.{whole_of_moves};
ghost use Rattle.edit_plan.specs.Sound.{IsScript};
ghost use Rattle.ray_grid.specs.Grids.{GridSize};
ghost use Rattle.setup_file.specs.Sound.{IsSetup};
ghost use Rattle.job_inputs.specs.Inputs.{GivesInput, GivesBytes, bytes_within, is_read_fault};
ghost use Rattle.job_inputs.specs.Inputs.{most_setup_bytes, read_of, script_read_of, setup_read_of};
ghost use Rattle.job_inputs.specs.Reads.{ReadsOnce};

use cl_lines::{ClEnd, MAX_BYTES};
use cl_moves::{Program, read_program};
use edit_plan::{MAX_SCRIPT_BYTES, Script, ScriptEnd, read_script, whole_script};
use input_faults::{Fault, Input, Stopped};
use ray_grid::Grid;
use setup_file::{Setup, SetupEnd, read_setup};
use std::alloc::Global;
use vf_io::{NoMemory, ReadEnd, Shelf, read_all};

/// Reads the bytes of an input, at most `limit` of them.
pub(crate) fn read_input<S: Shelf>(
    alloc: Global,
    input: Input,
    file: &str,
    limit: u32,
    shelf: &mut S,
) -> Result<Vec<u8>, Stopped>
    requires { S.allows shelf.old file.now }
    ensures gives { IfSome (S.files shelf.old) (λ files. GivesBytes result (bytes_within input limit (bytes_of files file.now))) }
    ensures within { IfOk result (λ bytes. vec_len bytes ≤ limit) }
    ensures read { ReadsOnce S.files S.faults S.failures (is_read_fault result) shelf.old shelf.new }
    ensures later { S.faults shelf.old ≤ S.faults shelf.new }
    ensures allows { (n : List ℕ) → S.allows shelf.old n ↔ S.allows shelf.new n }
{
    match read_all(alloc, shelf, file, limit) {
        Ok(bytes) => Ok(bytes),
        Err(ReadEnd::TooLong) => Err(Stopped::Refused(Fault::TooLong(input))),
        Err(ReadEnd::Failed) => Err(Stopped::ReadFault),
        Err(ReadEnd::NoMemory) => Err(Stopped::NoMemory),
    }
}

/// Reads the program of a file. The file's bytes are freed at the end.
pub fn read_moves<S: Shelf>(alloc: Global, file: &str, shelf: &mut S) -> Result<Program, Stopped>
    requires { S.allows shelf.old file.now }
    ensures gives { IfSome (S.files shelf.old) (λ files. GivesInput result (read_of (bytes_of files file.now))) }
    ensures moves { IfOk result (λ program. All IsMove program.moves) }
    ensures few { IfOk result (λ program. length program.moves ≤ most_moves) }
    ensures read { ReadsOnce S.files S.faults S.failures (is_read_fault result) shelf.old shelf.new }
    ensures later { S.faults shelf.old ≤ S.faults shelf.new }
    ensures allows { (n : List ℕ) → S.allows shelf.old n ↔ S.allows shelf.new n }
{
    match read_input(alloc, Input::Cl, file, MAX_BYTES as u32, shelf) {
        Ok(bytes) => moves_of(alloc, &bytes),
        Err(stopped) => Err(stopped),
    }
}

/// Reads the program of a text.
fn moves_of(alloc: Global, bytes: &[u8]) -> Result<Program, Stopped>
    requires { length bytes.now ≤ most_bytes }
    ensures gives { GivesInput result (read_of bytes.now) }
    ensures moves { IfOk result (λ program. All IsMove program.moves) }
    ensures few { IfOk result (λ program. length program.moves ≤ most_moves) }
    ensures no_read { is_read_fault result ≡ false }
{
    match read_program(alloc, bytes) {
        Ok(program) => Ok(program),
        Err(ClEnd::Refused(fault)) => Err(Stopped::Refused(Fault::Cl(fault))),
        Err(ClEnd::NoMemory) => Err(Stopped::NoMemory),
    }
}

/// The most bytes of a setup.
const MAX_SETUP_BYTES: u32 = 1_048_576;

/// Reads the setup of a file. The file's bytes are freed at the end.
pub(crate) fn read_setup_of<S: Shelf>(
    alloc: Global,
    file: &str,
    shelf: &mut S,
) -> Result<Setup, Stopped>
    requires { S.allows shelf.old file.now }
    ensures gives { IfSome (S.files shelf.old) (λ files. GivesInput result (setup_read_of (bytes_of files file.now))) }
    ensures sound { IfOk result IsSetup }
    ensures read { ReadsOnce S.files S.faults S.failures (is_read_fault result) shelf.old shelf.new }
    ensures later { S.faults shelf.old ≤ S.faults shelf.new }
    ensures allows { (n : List ℕ) → S.allows shelf.old n ↔ S.allows shelf.new n }
{
    match read_input(alloc, Input::Setup, file, MAX_SETUP_BYTES, shelf) {
        Ok(bytes) => setup_of(alloc, &bytes),
        Err(stopped) => Err(stopped),
    }
}

/// Reads the setup of a text.
fn setup_of(alloc: Global, bytes: &[u8]) -> Result<Setup, Stopped>
    requires { length bytes.now ≤ most_setup_bytes }
    ensures gives { GivesInput result (setup_read_of bytes.now) }
    ensures sound { IfOk result IsSetup }
    ensures no_read { is_read_fault result ≡ false }
{
    match read_setup(alloc, bytes) {
        Ok(setup) => Ok(setup),
        Err(SetupEnd::Refused(fault)) => Err(Stopped::Refused(Fault::Setup(fault))),
        Err(SetupEnd::NoMemory) => Err(Stopped::NoMemory),
    }
}

/// Reads the script of a file over `moves` moves and a grid; where no file is named each move is applied once in order.
pub(crate) fn read_edits<S: Shelf>(
    alloc: Global,
    file: Option<&str>,
    moves: u32,
    grid: &Grid,
    shelf: &mut S,
) -> Result<Script, Stopped>
    requires allowed { IfSome file (λ name. S.allows shelf.old name.now) }
    requires few { moves ≤ most_script_moves }
    ensures gives { IfSome (S.files shelf.old) (λ files.
        GivesInput result (script_read_of moves grid.now (option_map (bytes_of files) (option_map (λ name. name.now) file.entry)))) }
    ensures sound { IfOk result (IsScript moves grid.now) }
    ensures read { ReadsOnce S.files S.faults S.failures (is_read_fault result) shelf.old shelf.new }
{
    match file {
        Some(file) => read_script_of(alloc, file, moves, grid, shelf),
        None => all_moves(alloc, moves),
    }
}

/// Reads the script of a file. The file's bytes are freed at the end.
fn read_script_of<S: Shelf>(
    alloc: Global,
    file: &str,
    moves: u32,
    grid: &Grid,
    shelf: &mut S,
) -> Result<Script, Stopped>
    requires allowed { S.allows shelf.old file.now }
    requires few { moves ≤ most_script_moves }
    ensures gives { IfSome (S.files shelf.old) (λ files.
        GivesInput result (script_read_of moves grid.now (Some (bytes_of files file.now)))) }
    ensures sound { IfOk result (IsScript moves grid.now) }
    ensures read { ReadsOnce S.files S.faults S.failures (is_read_fault result) shelf.old shelf.new }
{
    match read_input(alloc, Input::Script, file, MAX_SCRIPT_BYTES as u32, shelf) {
        Ok(bytes) => script_of(alloc, &bytes, moves, grid),
        Err(stopped) => Err(stopped),
    }
}

/// Reads the script of a text.
fn script_of(alloc: Global, bytes: &[u8], moves: u32, grid: &Grid) -> Result<Script, Stopped>
    requires bytes { length bytes.now ≤ most_script_bytes }
    requires few { moves ≤ most_script_moves }
    ensures gives { GivesInput result (script_read_of moves grid.now (Some bytes.now)) }
    ensures sound { IfOk result (IsScript moves grid.now) }
    ensures no_read { is_read_fault result ≡ false }
{
    match read_script(alloc, bytes, moves, grid) {
        Ok(script) => Ok(script),
        Err(ScriptEnd::Refused(fault)) => Err(Stopped::Refused(Fault::Script(fault))),
        Err(ScriptEnd::NoMemory) => Err(Stopped::NoMemory),
    }
}

/// The script where none is named.
fn all_moves(alloc: Global, moves: u32) -> Result<Script, Stopped>
    requires { moves ≤ most_script_moves }
    ensures gives { GivesInput result (Ok (whole_of_moves moves)) }
    ensures sound { IfOk result (λ script. (grid : GridSize) → IsScript moves grid script) }
    ensures no_read { is_read_fault result ≡ false }
{
    match whole_script(alloc, moves) {
        Ok(script) => Ok(script),
        Err(NoMemory) => Err(Stopped::NoMemory),
    }
}
