/// How a number parameter is read, and between which bounds, both included.
#[derive(Clone, Copy)]
pub enum Kind {
    /// A length in micrometres.
    Length(i32, i32),
    /// A number in 1/100,000.
    Scaled(i32, i32),
}

/// A tip within a metre of the origin, and a tool axis.
pub const POSITION_KINDS: [Kind; 6] = [
    Kind::Length(-1_000_000, 1_000_000),
    Kind::Length(-1_000_000, 1_000_000),
    Kind::Length(-1_000_000, 1_000_000),
    Kind::Scaled(-100_000, 100_000),
    Kind::Scaled(-100_000, 100_000),
    Kind::Scaled(-100_000, 100_000),
];

/// A distance from one position to another.
pub const DELTA_KINDS: [Kind; 3] = [
    Kind::Length(-2_000_000, 2_000_000),
    Kind::Length(-2_000_000, 2_000_000),
    Kind::Length(-2_000_000, 2_000_000),
];

/// The sizes of a cutter: its diameter, its corner radius, the place of the corner's centre off the axis and above the tip, the
/// angles of the bottom and of the flank in 1/100,000 of a degree, and its height.
pub const CUTTER_KINDS: [Kind; 7] = [
    Kind::Length(1, 200_000),
    Kind::Length(0, 100_000),
    Kind::Length(0, 200_000),
    Kind::Length(0, 200_000),
    Kind::Scaled(-9_000_000, 9_000_000),
    Kind::Scaled(-9_000_000, 9_000_000),
    Kind::Length(1, 300_000),
];
