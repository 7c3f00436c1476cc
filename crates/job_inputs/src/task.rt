ghost use Rattle.std.specs.Prelude.{◌≡◌, ◌≤◌, length, All, IfOk, IfSome, None, option_map};
ghost use Rattle.vf_io.specs.Files.{bytes_of};
ghost use Rattle.cl_moves.specs.Moves.{IsMove};
ghost use Rattle.cl_moves.specs.Program.{most_moves};
ghost use Rattle.setup_file.specs.Sound.{IsSetup};
ghost use Rattle.move_cutters.specs.Cutters.{first_low};
ghost use Rattle.job_inputs.specs.Inputs.{GivesInput, is_read_fault};
ghost use Rattle.job_inputs.specs.Reads.{ReadsOnce};
ghost use Rattle.job_inputs.specs.Stocks.{LiesIn};
ghost use Rattle.job_inputs.specs.Tasks.{made_task, task_behind, task_of, task_placed, task_with, tool_defaults};

use crate::input::{read_edits, read_moves, read_setup_of};
use crate::stock::read_stock_for;
use crate::tool::defaults_of;
use cl_moves::Program;
use edit_plan::{Script, whole_script};
use input_faults::{Fault, Stopped};
use made_program::{MADE_MOVES, made_program};
use made_setup::made_setup;
use move_cutters::low_cutter;
use setup_file::Setup;
use std::alloc::Global;
use std::marker::Model;
use stock_file::SavedStock;
use vf_io::{NoMemory, Shelf};

/// What is verified, as it was read. Its value is the task that it stands for.
#[derive(Drop)]
pub struct TaskInputs {
    pub program: Program,
    pub setup: Setup,
    /// The saved stock as it lies in the setup's grid, which stands in place of the setup's own.
    pub stock: Option<SavedStock>,
    pub script: Script,
}

impl Model for TaskInputs {
    ghost use Rattle.job_report.specs.Tasks.{Task};
    ghost use Rattle.job_inputs.specs.Ready.{IsReady};
    ghost use Rattle.job_inputs.specs.Tasks.{task_by};

    ghost Value = { Task };

    ghost view = { λ t. task_by t.program t.setup t.stock t.script };

    ghost invariant = { λ t. IsReady t.program t.setup t.stock t.script };
}

/// Reads a program, then a setup, then a saved stock and a script where they are named.
pub fn read_task<S: Shelf>(
    alloc: Global,
    file: &str,
    setup: &str,
    stock: Option<&str>,
    script: Option<&str>,
    shelf: &mut S,
) -> Result<TaskInputs, Stopped>
    requires file { S.allows shelf.old file.now }
    requires setup { S.allows shelf.old setup.now }
    requires stock { IfSome stock (λ name. S.allows shelf.old name.now) }
    requires script { IfSome script (λ name. S.allows shelf.old name.now) }
    ensures gives { IfSome (S.files shelf.old) (λ files. GivesInput result
        (task_of (bytes_of files file.now) (bytes_of files setup.now)
        (option_map (bytes_of files) (option_map (λ name. name.now) stock.entry))
        (option_map (bytes_of files) (option_map (λ name. name.now) script.entry)))) }
    ensures read { ReadsOnce S.files S.faults S.failures (is_read_fault result) shelf.old shelf.new }
{
    match read_moves(alloc, file, shelf) {
        Ok(program) => read_behind(alloc, program, setup, stock, script, shelf),
        Err(stopped) => Err(stopped),
    }
}

/// Reads the setup, the saved stock and the script after a program that was read.
fn read_behind<S: Shelf>(
    alloc: Global,
    program: Program,
    setup: &str,
    stock: Option<&str>,
    script: Option<&str>,
    shelf: &mut S,
) -> Result<TaskInputs, Stopped>
    requires setup { S.allows shelf.old setup.now }
    requires stock { IfSome stock (λ name. S.allows shelf.old name.now) }
    requires script { IfSome script (λ name. S.allows shelf.old name.now) }
    requires valid { All IsMove program.moves }
    requires few { length program.moves ≤ most_moves }
    ensures gives { IfSome (S.files shelf.old) (λ files. GivesInput result
        (task_behind program (bytes_of files setup.now) (option_map (bytes_of files) (option_map (λ name. name.now) stock.entry))
        (option_map (bytes_of files) (option_map (λ name. name.now) script.entry)))) }
    ensures read { ReadsOnce S.files S.faults S.failures (is_read_fault result) shelf.old shelf.new }
{
    match read_setup_of(alloc, setup, shelf) {
        Ok(setup) => read_unless_low(alloc, program, setup, stock, script, shelf),
        Err(stopped) => Err(stopped),
    }
}

/// Reads the saved stock and the script after a program and a setup that were read, unless one of the cutters is too low.
fn read_unless_low<S: Shelf>(
    alloc: Global,
    program: Program,
    setup: Setup,
    stock: Option<&str>,
    script: Option<&str>,
    shelf: &mut S,
) -> Result<TaskInputs, Stopped>
    requires stock { IfSome stock (λ name. S.allows shelf.old name.now) }
    requires script { IfSome script (λ name. S.allows shelf.old name.now) }
    requires valid { All IsMove program.moves }
    requires few { length program.moves ≤ most_moves }
    requires setup { IsSetup setup }
    ensures gives { IfSome (S.files shelf.old) (λ files. GivesInput result
        (task_with program setup (option_map (bytes_of files) (option_map (λ name. name.now) stock.entry))
        (option_map (bytes_of files) (option_map (λ name. name.now) script.entry)))) }
    ensures read { ReadsOnce S.files S.faults S.failures (is_read_fault result) shelf.old shelf.new }
{
    if let Some(line) = low_cutter(&defaults_of(&setup.tool), program.moves.as_slice()) {
        return Err(Stopped::Refused(Fault::CutterHeight(line)));
    }
    match read_stock_for(alloc, stock, &setup, shelf) {
        Ok(stock) => read_last(alloc, program, setup, stock, script, shelf),
        Err(stopped) => Err(stopped),
    }
}

/// Reads the script after all else that was read.
fn read_last<S: Shelf>(
    alloc: Global,
    program: Program,
    setup: Setup,
    stock: Option<SavedStock>,
    script: Option<&str>,
    shelf: &mut S,
) -> Result<TaskInputs, Stopped>
    requires script { IfSome script (λ name. S.allows shelf.old name.now) }
    requires valid { All IsMove program.moves }
    requires few { length program.moves ≤ most_moves }
    requires setup { IsSetup setup }
    requires high { first_low (tool_defaults setup.tool) program.moves ≡ None }
    requires placed { IfSome stock (LiesIn setup.grid) }
    ensures gives { IfSome (S.files shelf.old) (λ files. GivesInput result
        (task_placed program setup stock (option_map (bytes_of files) (option_map (λ name. name.now) script.entry)))) }
    ensures read { ReadsOnce S.files S.faults S.failures (is_read_fault result) shelf.old shelf.new }
{
    let moves = program.moves.len() as u32;
    match read_edits(alloc, script, moves, &setup.grid, shelf) {
        Ok(script) => Ok(TaskInputs {
            program,
            setup,
            stock,
            script,
        }),
        Err(stopped) => Err(stopped),
    }
}

/// The task of a program that is generated from a number, with the setup that goes with such programs.
pub fn made_inputs(alloc: Global, number: u32) -> Result<TaskInputs, NoMemory>
    ensures { IfOk result (λ inputs. inputs ≡ made_task number) }
{
    Ok(TaskInputs {
        program: made_program(alloc, number)?,
        setup: made_setup(alloc)?,
        stock: None,
        script: whole_script(alloc, MADE_MOVES)?,
    })
}
