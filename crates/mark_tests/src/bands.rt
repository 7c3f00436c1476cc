ghost use Rattle.space.specs.Ranges.{IsWithin, vector_limit};

use crate::cylinders::held;
use ray_grid::Family;
use sweep_boxes::{Band, BoundingCylinder};

/// A height, and of the points below it the longest moment and how far to a side they may be.
type Below = (i64, u32, u32);

/// A lower and an upper level, and the points of a ray that stay.
type Levels = (Below, Below, u64);

/// One that no point is below.
const NONE: Below = (-4_000, 0, 0);

fn band(below: Below) -> Band {
    let (height, moment, across) = below;
    Band {
        height,
        moment: i64::from(moment),
        across: i64::from(across),
    }
}

/// A cylinder about an axis through the point (2 mm, 1 mm, 0), at the scale 2, that is narrower below two heights.
fn cylinder(axis: [i64; 3], lower: Below, upper: Below) -> BoundingCylinder
    requires { IsWithin vector_limit axis }
{
    BoundingCylinder {
        scale: 2,
        tip: [4_000, 2_000, 0],
        axis,
        least: -4_000,
        most: 4_000,
        moment: 4_000,
        side: [0, 1, 0],
        across: 4_000,
        bands: [
            Band::unused(-4_000),
            Band::unused(-4_000),
            Band::unused(-4_000),
            Band::unused(-4_000),
            Band::unused(-4_000),
            Band::unused(-4_000),
            band(lower),
            band(upper),
        ],
    }
}

/// The first of the levels by which other points of the ray stay, where there is one.
fn first_other(axis: [i64; 3], ray: (Family, u32, u32), rows: &[Levels]) -> Option<usize>
    requires { IsWithin vector_limit axis }
{
    let (family, i, j) = ray;
    for (number, (lower, upper, points)) in rows.iter().enumerate() {
        let banded = cylinder(axis, *lower, *upper);
        if held(&banded, family, i, j) != Some(*points) {
            return Some(number);
        }
    }
    None
}

/// Levels of the upright cylinder, and the points that stay of the ray along x in the plane of its axis. From 1 mm to 3 mm they have
/// the height 0, and the moments 4,000, 2,000, 0, 2,000, and 4,000, all of it along the side.
const BAND_RAY: [Levels; 6] = [
    // Just below the height: the outermost are left out.
    (NONE, (1, 2_000, 4_000), 0b011_1000),
    (NONE, (1, 1_999, 4_000), 0b001_0000),
    // Just at it.
    (NONE, (0, 1_999, 4_000), 0b111_1100),
    // Within.
    (NONE, (1, 4_000, 4_000), 0b111_1100),
    // Too far to either side.
    (NONE, (1, 4_000, 2_000), 0b011_1000),
    (NONE, (1, 4_000, 1_999), 0b001_0000),
];

/// The same of the ray along z at the distance of 1 mm from the axis: the heights are 0, 2,000 and 4,000, and the moment is 4,000.
const UPRIGHT_RAY: [Levels; 4] = [
    (NONE, (2_000, 3_999, 4_000), 0b110),
    (NONE, (2_001, 3_999, 4_000), 0b100),
    // The lower level leaves out the first, and the second is within the upper.
    ((1, 3_999, 4_000), (2_001, 4_000, 4_000), 0b110),
    // All of them.
    (NONE, (4_001, 3_999, 4_000), 0),
];

#[test]
fn levels_of_an_upright_cylinder(rt: HostRuntime) {
    let upright = [0, 0, 2];
    assert_eq!(rt; first_other(upright, (Family::X, 1, 0), &BAND_RAY), None);
    assert_eq!(rt; first_other(upright, (Family::Z, 3, 1), &UPRIGHT_RAY), None);
}

/// Levels of the cylinder that is tilted to x, and the points that stay of the ray along x in the plane of its axis. From 1 mm to 3 mm
/// they have the heights -4,000, -2,000, 0, 2,000 and 4,000, and the moments 4,000, 2,000, 0, 2,000 and 4,000.
const RISING: [Levels; 6] = [
    // The first just below the height.
    (NONE, (-3_999, 3_999, 4_000), 0b111_1000),
    // The second just at it, and just below it.
    (NONE, (-2_000, 1_999, 4_000), 0b111_1000),
    (NONE, (-1_999, 1_999, 4_000), 0b111_0000),
    // The first below both, the second within the upper.
    ((-3_999, 3_999, 0), (-1_999, 2_000, 4_000), 0b111_1000),
    // One by each.
    ((-3_999, 3_999, 0), (1, 1_999, 4_000), 0b111_0000),
    // The fourth too, but it is between two that stay.
    (NONE, (3_000, 1_000, 4_000), 0b111_0000),
];

/// The same of the cylinder that is tilted against x: the heights go down.
const FALLING: [Levels; 3] = [
    (NONE, (-3_999, 3_999, 4_000), 0b011_1100),
    ((-3_999, 3_999, 0), (1, 1_999, 4_000), 0b001_1100),
    (NONE, (3_000, 1_000, 4_000), 0b001_1100),
];

#[test]
fn levels_of_a_tilted_cylinder(rt: HostRuntime) {
    let ray = (Family::X, 1, 0);
    assert_eq!(rt; first_other([2, 0, 2], ray, &RISING), None);
    assert_eq!(rt; first_other([-2, 0, 2], ray, &FALLING), None);
}
