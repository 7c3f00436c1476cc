ghost use Rattle.std.specs.Prelude.{◌≡◌};
ghost use Rattle.setup_keys.specs.Keys.{key_text, keys_in, name_of};

/// The keys of a setup, in the order in which they are judged; `Setup` is the top level.
#[derive(Clone, Copy)]
pub enum KeyName {
    Setup,
    Grid,
    GridOrigin,
    GridPitch,
    GridStep,
    GridCounts,
    Check,
    CheckTolerance,
    CheckClearance,
    CheckSlabs,
    CheckDepth,
    Tool,
    ToolDiameter,
    ToolRadius,
    ToolHeight,
    Stock,
    StockBox,
    StockPlanes,
    Part,
    PartBox,
    PartPlanes,
    Fixture,
    FixtureBox,
    FixturePlanes,
    Turn,
    TurnAxes,
    TurnShift,
}

impl KeyName {
    /// The key as it is printed: its table's name and its own, with a point between.
    pub fn text(self) -> &'static [u8]
        ensures { result.now ≡ key_text self }
    {
        match self {
            KeyName::Setup => b"setup",
            KeyName::Grid => b"grid",
            KeyName::GridOrigin => b"grid.origin",
            KeyName::GridPitch => b"grid.pitch",
            KeyName::GridStep => b"grid.step",
            KeyName::GridCounts => b"grid.counts",
            KeyName::Check => b"check",
            KeyName::CheckTolerance => b"check.tolerance",
            KeyName::CheckClearance => b"check.clearance",
            KeyName::CheckSlabs => b"check.slabs",
            KeyName::CheckDepth => b"check.depth",
            KeyName::Tool => b"tool",
            KeyName::ToolDiameter => b"tool.diameter",
            KeyName::ToolRadius => b"tool.radius",
            KeyName::ToolHeight => b"tool.height",
            KeyName::Stock => b"stock",
            KeyName::StockBox => b"stock.box",
            KeyName::StockPlanes => b"stock.planes",
            KeyName::Part => b"part",
            KeyName::PartBox => b"part.box",
            KeyName::PartPlanes => b"part.planes",
            KeyName::Fixture => b"fixture",
            KeyName::FixtureBox => b"fixture.box",
            KeyName::FixturePlanes => b"fixture.planes",
            KeyName::Turn => b"turn",
            KeyName::TurnAxes => b"turn.axes",
            KeyName::TurnShift => b"turn.shift",
        }
    }

    /// The key as its table holds it.
    pub fn name(self) -> &'static str
        ensures { result.now ≡ name_of self }
    {
        match self {
            KeyName::Setup => "setup",
            KeyName::Grid => "grid",
            KeyName::GridOrigin => "origin",
            KeyName::GridPitch => "pitch",
            KeyName::GridStep => "step",
            KeyName::GridCounts => "counts",
            KeyName::Check => "check",
            KeyName::CheckTolerance => "tolerance",
            KeyName::CheckClearance => "clearance",
            KeyName::CheckSlabs => "slabs",
            KeyName::CheckDepth => "depth",
            KeyName::Tool => "tool",
            KeyName::ToolDiameter => "diameter",
            KeyName::ToolRadius => "radius",
            KeyName::ToolHeight => "height",
            KeyName::Stock => "stock",
            KeyName::Part => "part",
            KeyName::Fixture => "fixture",
            KeyName::Turn => "turn",
            KeyName::TurnAxes => "axes",
            KeyName::TurnShift => "shift",
            KeyName::StockBox | KeyName::PartBox | KeyName::FixtureBox => "box",
            KeyName::StockPlanes | KeyName::PartPlanes | KeyName::FixturePlanes => "planes",
        }
    }

    /// The keys that the table may hold, or each body of the list of bodies.
    pub fn keys(self) -> &'static [KeyName]
        ensures { result.now ≡ keys_in self }
    {
        match self {
            KeyName::Setup => &[
                KeyName::Grid,
                KeyName::Check,
                KeyName::Tool,
                KeyName::Stock,
                KeyName::Part,
                KeyName::Fixture,
                KeyName::Turn,
            ],
            KeyName::Grid => &[
                KeyName::GridOrigin,
                KeyName::GridPitch,
                KeyName::GridStep,
                KeyName::GridCounts,
            ],
            KeyName::Check => &[
                KeyName::CheckTolerance,
                KeyName::CheckClearance,
                KeyName::CheckSlabs,
                KeyName::CheckDepth,
            ],
            KeyName::Tool => &[
                KeyName::ToolDiameter,
                KeyName::ToolRadius,
                KeyName::ToolHeight,
            ],
            KeyName::Stock => &[KeyName::StockBox, KeyName::StockPlanes],
            KeyName::Part => &[KeyName::PartBox, KeyName::PartPlanes],
            KeyName::Fixture => &[KeyName::FixtureBox, KeyName::FixturePlanes],
            KeyName::Turn => &[KeyName::TurnAxes, KeyName::TurnShift],
            _ => &[],
        }
    }
}
