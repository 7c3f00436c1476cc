ghost use Rattle.std.specs.Prelude.{◌≡◌, ◌≤◌, ◌↔◌, ℕ, List, length, None, false, All, IfOk, IfSome};
ghost use Rattle.vf_io.specs.Files.{bytes_of};
ghost use Rattle.cl_moves.specs.Moves.{IsMove};
ghost use Rattle.cl_moves.specs.Program.{most_moves};
ghost use Rattle.ray_grid.specs.Ranges.{IsGrid};
ghost use Rattle.ray_shapes.specs.Sets.{IsSolidOver};
ghost use Rattle.setup_file.specs.Sound.{IsSetup};
ghost use Rattle.job_inputs.specs.Asked.{IsNumbered, asked_among, asked_behind, asked_move_of, numbered_move};
ghost use Rattle.job_inputs.specs.Inputs.{GivesInput, is_read_fault};
ghost use Rattle.job_inputs.specs.Reads.{ReadsOnce};

use crate::bodies::{part_as_it_lies, raised_fixture};
use crate::input::{read_moves, read_setup_of};
use crate::tool::{defaults_of, move_cutter};
use axis_cells::Sweep;
use cl_moves::{Move, Program};
use cutter_slabs::Cutter;
use input_faults::{Fault, Stopped};
use move_cutters::{low_cutter, sweep_of};
use ray_grid::Grid;
use ray_shapes::Solid;
use setup_file::Setup;
use std::alloc::Global;
use std::marker::Model;
use vf_io::{NoMemory, Shelf};

/// A move that is asked for by its number, as it was read, with the program that it is a move of and the setup. Its value is the move
/// with the cutter that it is made with, and the task that program and setup stand for without a script.
#[derive(Drop)]
pub struct AskedInputs {
    program: Program,
    setup: Setup,
    number: u32,
    asked: Move,
}

impl Model for AskedInputs {
    ghost use Rattle.job_inputs.specs.Asked.{AskedMove, asked_by};
    ghost use Rattle.job_inputs.specs.Ready.{IsAskable};

    ghost Value = { AskedMove };

    ghost view = { λ t. asked_by t.program t.setup t.number t.asked };

    ghost invariant = { λ t. IsAskable t.setup t.asked };
}

impl AskedInputs {
    /// The motion of the move.
    pub fn sweep(&self) -> Sweep
        ensures { result ≡ self.now.asked.sweep }
    {
        sweep_of(&self.asked)
    }

    /// The cutter that it is made with.
    pub fn cutter(&self) -> Cutter
        ensures { result ≡ self.now.asked.cutter }
    {
        move_cutter(&self.setup.tool, &self.asked)
    }

    /// The lattice of the task.
    pub fn grid(&self) -> &Grid
        ensures grid { result.now ≡ self.now.task.job.plan.grid }
        ensures valid { IsGrid self.now.task.job.plan.grid }
    {
        &self.setup.grid
    }

    /// How many slabs a cutter's corner or cone is cut into.
    pub fn slabs(&self) -> u32
        ensures slabs { result ≡ self.now.task.job.plan.slabs }
        ensures some { 1 ≤ result }
        ensures few { result ≤ 256 }
    {
        self.setup.slabs
    }

    /// A move is taken in 2 to the power of this many parts.
    pub fn depth(&self) -> u32
        ensures depth { result ≡ self.now.task.job.plan.depth }
        ensures shallow { result ≤ 10 }
    {
        self.setup.depth
    }

    /// The part as it lies: lowered by its tolerance, and turned where the setup says so.
    pub fn part(&self, alloc: Global) -> Result<Solid, NoMemory>
        ensures part { IfOk result (λ part. part ≡ self.now.task.job.part) }
        ensures over { IfOk result (IsSolidOver self.now.task.job.plan.grid) }
    {
        part_as_it_lies(alloc, &self.setup)
    }

    /// The fixtures, raised by their clearance.
    pub fn fixture(&self, alloc: Global) -> Result<Solid, NoMemory>
        ensures fixture { IfOk result (λ fixture. fixture ≡ self.now.task.job.fixture) }
        ensures over { IfOk result (IsSolidOver self.now.task.job.plan.grid) }
    {
        Ok(Solid::Bodies(raised_fixture(alloc, &self.setup)?))
    }
}

/// Reads a program, then a setup, and finds the move with a number, counted from 1, among those of the program. A cutter that is too
/// low, of any move, is refused before a number that no move has.
pub fn read_asked<S: Shelf>(
    alloc: Global,
    file: &str,
    setup: &str,
    number: u32,
    shelf: &mut S,
) -> Result<AskedInputs, Stopped>
    requires file { S.allows shelf.old file.now }
    requires setup { S.allows shelf.old setup.now }
    ensures gives { IfSome (S.files shelf.old) (λ files. GivesInput result
        (asked_move_of (bytes_of files file.now) (bytes_of files setup.now) number)) }
    ensures numbered { IfOk result IsNumbered }
    ensures read { ReadsOnce S.files S.faults S.failures (is_read_fault result) shelf.old shelf.new }
    ensures later { S.faults shelf.old ≤ S.faults shelf.new }
    ensures allows { (n : List ℕ) → S.allows shelf.old n ↔ S.allows shelf.new n }
{
    match read_moves(alloc, file, shelf) {
        Ok(program) => read_asked_behind(alloc, program, setup, number, shelf),
        Err(stopped) => Err(stopped),
    }
}

/// Reads the setup after a program that was read, and finds the move.
fn read_asked_behind<S: Shelf>(
    alloc: Global,
    program: Program,
    setup: &str,
    number: u32,
    shelf: &mut S,
) -> Result<AskedInputs, Stopped>
    requires setup { S.allows shelf.old setup.now }
    requires valid { All IsMove program.moves }
    requires few { length program.moves ≤ most_moves }
    ensures gives { IfSome (S.files shelf.old) (λ files. GivesInput result
        (asked_behind program (bytes_of files setup.now) number)) }
    ensures numbered { IfOk result IsNumbered }
    ensures read { ReadsOnce S.files S.faults S.failures (is_read_fault result) shelf.old shelf.new }
    ensures later { S.faults shelf.old ≤ S.faults shelf.new }
    ensures allows { (n : List ℕ) → S.allows shelf.old n ↔ S.allows shelf.new n }
{
    match read_setup_of(alloc, setup, shelf) {
        Ok(setup) => find_asked(program, setup, number),
        Err(stopped) => Err(stopped),
    }
}

/// Finds the move among those of a program, unless one of the cutters is too low.
fn find_asked(program: Program, setup: Setup, number: u32) -> Result<AskedInputs, Stopped>
    requires valid { All IsMove program.moves }
    requires few { length program.moves ≤ most_moves }
    requires setup { IsSetup setup }
    ensures gives { GivesInput result (asked_among program setup number) }
    ensures numbered { IfOk result IsNumbered }
    ensures no_read { is_read_fault result ≡ false }
{
    if let Some(line) = low_cutter(&defaults_of(&setup.tool), program.moves.as_slice()) {
        return Err(Stopped::Refused(Fault::CutterHeight(line)));
    }
    match find_move(program.moves.as_slice(), number) {
        Some(asked) => Ok(AskedInputs {
            program,
            setup,
            number,
            asked,
        }),
        None => {
            let moves = program.moves.len() as u32;
            Err(Stopped::Refused(Fault::MoveRange {
                asked: number,
                moves,
            }))
        }
    }
}

/// The move with a number, where they are counted from 1.
fn find_move(moves: &[Move], number: u32) -> Option<Move>
    ensures { result ≡ numbered_move number moves.now }
{
    if number == 0 {
        return None;
    }
    moves.get(number as usize - 1).copied()
}
