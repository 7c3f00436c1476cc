ghost use Rattle.std.specs.Prelude.{◌≡◌, pos, ◌*ℤ◌, ◌≤ℤ◌, unsigned_abs, IfOk};
ghost use Rattle.space.specs.Ranges.{IsBetween};
ghost use Rattle.setup_file.specs.Limits.{most_tool_diameter, most_tool_height, most_tool_radius};
ghost use Rattle.toml.specs.View.{table_view};
ghost use Rattle.setup_file.specs.Sound.{IsTool};
ghost use Rattle.setup_file.specs.Tables.{tool_of};

use crate::read::{number_at, only_if};
use cutter_slabs::Cutter;
use setup_keys::{KeyName, SetupFault};
use toml::Table;

/// The tool's greatest sizes, in micrometres.
const MOST_DIAMETER: i64 = 200_000;

const MOST_RADIUS: i64 = 100_000;

const MOST_HEIGHT: i64 = 300_000;

/// The tool of its table, with an upright flank, from the tip up.
#[tactic(auto, unfolding(crate::specs::Tables::tool_of))]
pub(crate) fn read_tool(table: &Table) -> Result<Cutter, SetupFault>
    ensures tool { result ≡ tool_of (table_view table.now) }
    ensures valid { IfOk result IsTool }
{
    let diameter = number_at(table, KeyName::ToolDiameter, 1, MOST_DIAMETER)?;
    let radius = number_at(table, KeyName::ToolRadius, 0, MOST_RADIUS)?;
    only_if(2 * radius <= diameter, KeyName::ToolRadius, radius)?;
    let height = number_at(table, KeyName::ToolHeight, 1, MOST_HEIGHT)?;
    only_if(radius <= height, KeyName::ToolHeight, height)?;
    Ok(tool_with(diameter, radius, height))
}

/// The cutter of these sizes, with an upright flank, from the tip up.
fn tool_with(diameter: i64, radius: i64, height: i64) -> Cutter
    requires diameter { IsBetween (pos 1) (pos most_tool_diameter) diameter }
    requires radius { IsBetween (pos 0) (pos most_tool_radius) radius }
    requires height { IsBetween (pos 1) (pos most_tool_height) height }
    requires corner { (pos 2 *ℤ radius) ≤ℤ diameter }
    requires rounded { radius ≤ℤ height }
    ensures sizes { result ≡ record { d = unsigned_abs diameter; r = unsigned_abs radius; h = unsigned_abs height; flank = 0; base = 0 } }
    ensures valid { IsTool result }
{
    Cutter {
        d: diameter as i32,
        r: radius as i32,
        h: height as i32,
        flank: 0,
        base: 0,
    }
}
