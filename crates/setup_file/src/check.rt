ghost use Rattle.std.specs.Prelude.{◌≡◌, IfOk};
ghost use Rattle.toml.specs.View.{table_view};
ghost use Rattle.setup_file.specs.Sound.{IsCheck};
ghost use Rattle.setup_file.specs.Tables.{check_of};

use crate::read::number_at;
use setup_keys::{KeyName, SetupFault};
use toml::Table;

/// How the moves are checked: how deep the part may be cut and how far fixtures are kept clear, in micrometres, how many slabs a
/// cutter is cut into, and how often time is halved.
#[derive(Clone, Copy)]
pub(crate) struct Check {
    pub(crate) tolerance: i32,
    pub(crate) clearance: i32,
    pub(crate) slabs: u32,
    pub(crate) depth: u32,
}

const MOST_TOLERANCE: i64 = 10_000;

const MOST_CLEARANCE: i64 = 100_000;

const MOST_SLABS: i64 = 256;

const MOST_DEPTH: i64 = 10;

/// The settings of their table.
#[tactic(auto, unfolding(crate::specs::Tables::check_of))]
pub(crate) fn read_check(table: &Table) -> Result<Check, SetupFault>
    ensures settings { result ≡ check_of (table_view table.now) }
    ensures ranges { IfOk result IsCheck }
{
    let tolerance = number_at(table, KeyName::CheckTolerance, 0, MOST_TOLERANCE)?;
    let clearance = number_at(table, KeyName::CheckClearance, 0, MOST_CLEARANCE)?;
    let slabs = number_at(table, KeyName::CheckSlabs, 1, MOST_SLABS)?;
    let depth = number_at(table, KeyName::CheckDepth, 0, MOST_DEPTH)?;
    Ok(Check {
        tolerance: tolerance as i32,
        clearance: clearance as i32,
        slabs: slabs as u32,
        depth: depth as u32,
    })
}
