ghost use Rattle.std.specs.Prelude.{◌≤◌, IfOk};
ghost use Rattle.edit_plan.specs.Limits.{most_script_moves};
ghost use Rattle.setup_file.specs.Sound.{IsSetup};

use crate::ending::Ending;
use edit_plan::{MAX_SCRIPT_BYTES, Script, ScriptEnd, read_script};
use input_faults::{Fault, Input};
use ray_grid::Grid;
use setup_file::{Setup, SetupEnd, read_setup};
use std::alloc::Global;
use std::rt::Files;
use vf_io::{FolderShelf, read_all};

/// The most bytes of a setup.
const MAX_SETUP_BYTES: u32 = 1_048_576;

/// The setup of a file.
pub(crate) fn setup_in<R: Files>(
    alloc: Global,
    file: &str,
    shelf: &mut FolderShelf<'_, R>,
) -> Result<Setup, Ending>
    ensures { IfOk result IsSetup }
{
    let bytes = match read_all(alloc, shelf, file, MAX_SETUP_BYTES) {
        Ok(bytes) => bytes,
        Err(end) => return Err(Ending::of_read(end, Input::Setup)),
    };
    match read_setup(alloc, bytes.as_slice()) {
        Ok(setup) => Ok(setup),
        Err(SetupEnd::Refused(fault)) => Err(Ending::Refused(Fault::Setup(fault))),
        Err(SetupEnd::NoMemory) => Err(Ending::NoMemory),
    }
}

/// The script of a file, over `moves` moves and a grid.
pub(crate) fn script_in<R: Files>(
    alloc: Global,
    file: &str,
    moves: u32,
    grid: &Grid,
    shelf: &mut FolderShelf<'_, R>,
) -> Result<Script, Ending>
    requires { moves ≤ most_script_moves }
{
    let bytes = match read_all(alloc, shelf, file, MAX_SCRIPT_BYTES as u32) {
        Ok(bytes) => bytes,
        Err(end) => return Err(Ending::of_read(end, Input::Script)),
    };
    match read_script(alloc, bytes.as_slice(), moves, grid) {
        Ok(script) => Ok(script),
        Err(ScriptEnd::Refused(fault)) => Err(Ending::Refused(Fault::Script(fault))),
        Err(ScriptEnd::NoMemory) => Err(Ending::NoMemory),
    }
}
