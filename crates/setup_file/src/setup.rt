ghost use Rattle.std.specs.Prelude.{◌≡◌, IfOk, IfErr, MatchResult, Ok, Err};
ghost use Rattle.toml.specs.View.{table_view};
ghost use Rattle.setup_file.specs.Reads.{EndsSetup};
ghost use Rattle.ray_grid.specs.Ranges.{IsGrid};
ghost use Rattle.setup_file.specs.Setups.{numbers_of, setup_in, setup_of};
ghost use Rattle.setup_file.specs.Sound.{IsSetup, IsTool, IsCheck};

use crate::bodies::bodies_at;
use crate::body_list::{FIXTURE, PART, STOCK};
use crate::check::{Check, read_check};
use crate::grid::read_grid;
use crate::read::table_at;
use crate::tool::read_tool;
use crate::turn_table::turn_at;
use crate::unknown::first_unknown;
use cutter_slabs::Cutter;
use ray_grid::{Grid, Turn};
use ray_shapes::Bodies;
use setup_keys::{KeyName, SetupEnd, SetupFault};
use std::alloc::Global;
use toml::Table;

/// What a job is checked with. Lengths are micrometres.
#[derive(Drop)]
pub struct Setup {
    pub grid: Grid,
    pub stock: Bodies,
    pub part: Bodies,
    pub fixture: Bodies,
    /// How deep the part may be cut: from 0 to 10,000.
    pub tolerance: i32,
    /// How far the fixtures are kept clear: from 0 to 100,000.
    pub clearance: i32,
    /// How many slabs a cutter's corner or cone is cut into: from 1 to 256.
    pub slabs: u32,
    /// A move is taken in 2 to the power of this many parts: from 0 to 10.
    pub depth: u32,
    /// The tool of a move that has no cutter of its own, with an upright flank and the base 0.
    pub tool: Cutter,
    /// How the part is turned, where it is: it is given as it lay before.
    pub turn: Option<Turn>,
}

/// The setup that the bytes stand for; a refusal is the first fault, in the order of the keys. Lengths are micrometres.
pub fn read_setup(alloc: Global, bytes: &[u8]) -> Result<Setup, SetupEnd>
    ensures ok { IfOk result (λ setup. setup_of bytes.now ≡ Ok setup) }
    ensures refused { IfErr result (EndsSetup (setup_of bytes.now)) }
    // Its numbers are in their ranges, so nobody has to test them again.
    ensures sound { IfOk result IsSetup }
{
    match toml::table_from_slice(alloc, bytes) {
        Ok(table) => read_table(alloc, &table),
        Err(error) => {
            if error.is_memory() {
                Err(SetupEnd::NoMemory)
            } else {
                Err(SetupEnd::Refused(SetupFault::SetupSyntax))
            }
        }
    }
}

/// The setup of a table.
#[tactic(auto, unfolding(crate::specs::Setups::setup_in))]
fn read_table(alloc: Global, setup: &Table) -> Result<Setup, SetupEnd>
    ensures ok { IfOk result (λ read. setup_in (table_view setup.now) ≡ Ok read) }
    ensures refused { IfErr result (EndsSetup (setup_in (table_view setup.now))) }
    ensures sound { IfOk result IsSetup }
{
    let Numbers { grid, check, tool } = match read_numbers(setup) {
        Ok(numbers) => numbers,
        Err(fault) => return Err(SetupEnd::Refused(fault)),
    };
    let stock = bodies_at(alloc, setup, &STOCK)?;
    let part = bodies_at(alloc, setup, &PART)?;
    let fixture = bodies_at(alloc, setup, &FIXTURE)?;
    let turn = match turn_at(setup) {
        Ok(turn) => turn,
        Err(fault) => return Err(SetupEnd::Refused(fault)),
    };
    if let Some(table) = first_unknown(setup) {
        return Err(SetupEnd::Refused(SetupFault::SetupKey(table)));
    }
    Ok(Setup {
        grid,
        stock,
        part,
        fixture,
        tolerance: check.tolerance,
        clearance: check.clearance,
        slabs: check.slabs,
        depth: check.depth,
        tool,
        turn,
    })
}

/// What a setup sets by numbers.
struct Numbers {
    grid: Grid,
    check: Check,
    tool: Cutter,
}

/// The grid, the settings and the tool of a table.
#[tactic(auto, unfolding(crate::specs::Setups::numbers_of))]
fn read_numbers(setup: &Table) -> Result<Numbers, SetupFault>
    ensures numbers { MatchResult result (λ read. numbers_of (table_view setup.now) ≡ Ok read)
        (λ fault. numbers_of (table_view setup.now) ≡ Err fault) }
    ensures grid { IfOk result (λ numbers. IsGrid numbers.grid) }
    ensures check { IfOk result (λ numbers. IsCheck numbers.check) }
    ensures tool { IfOk result (λ numbers. IsTool numbers.tool) }
{
    let grid = read_grid(table_at(setup, KeyName::Grid)?)?;
    let check = read_check(table_at(setup, KeyName::Check)?)?;
    let tool = read_tool(table_at(setup, KeyName::Tool)?)?;
    Ok(Numbers { grid, check, tool })
}
