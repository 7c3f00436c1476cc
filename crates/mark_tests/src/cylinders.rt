ghost use Rattle.std.specs.Prelude.{◌*◌, ◌≤◌, ◌^◌, ◌≤ℤ◌, pos, unsigned_abs};
ghost use Rattle.space.specs.Ranges.{IsWithin, vector_limit};

use near_points::CylinderStrip;
use ray_grid::{Family, Grid, Ray};
use sweep_boxes::{BANDS, Band, BoundingCylinder};
use vf_spans::bits::lowest_bits;

/// A lattice of 8 mm by 8 mm by 2 mm with nodes at each millimetre and points at each half of one.
const GRID: Grid = Grid {
    origin: [0, 0, 0],
    pitch: 1_000,
    step: 500,
    counts: [8, 8, 2],
};

/// Levels that no point is below, where none has less height.
fn unused(least: i64) -> [Band; BANDS] {
    [
        Band::unused(least),
        Band::unused(least),
        Band::unused(least),
        Band::unused(least),
        Band::unused(least),
        Band::unused(least),
        Band::unused(least),
        Band::unused(least),
    ]
}

/// A cylinder about an axis through the point (2 mm, 1 mm, 0), at the scale 2.
fn cylinder(axis: [i64; 3], least: i64, most: i64, moment: i64) -> BoundingCylinder
    requires axis { IsWithin vector_limit axis }
    requires some { pos 0 ≤ℤ moment }
    requires small { unsigned_abs moment ≤ 3 * 10 ^ 18 }
{
    BoundingCylinder {
        scale: 2,
        tip: [4_000, 2_000, 0],
        axis,
        least,
        most,
        moment,
        side: [0, 0, 0],
        across: 0,
        bands: unused(least),
    }
}

/// The upright one, between two planes across x.
fn flat_cylinder(across: i64) -> BoundingCylinder
    requires { pos 0 ≤ℤ across }
{
    BoundingCylinder {
        scale: 2,
        tip: [4_000, 2_000, 0],
        axis: [0, 0, 2],
        least: 0,
        most: 4_000,
        moment: 4_000,
        side: [0, 1, 0],
        across,
        bands: unused(0),
    }
}

/// The points of a ray that are held, where the lattice has the ray and its points are one word.
pub fn held(cylinder: &BoundingCylinder, family: Family, i: u32, j: u32) -> Option<u64> {
    let grid = GRID;
    let points = grid.points(family);
    if points > 64 || !grid.has_point(&Ray { family, i, j }, 0) {
        return None;
    }
    let strip = CylinderStrip::new(cylinder, &grid, family, i);
    Some(strip.held_points(j, 0, lowest_bits(points)))
}

/// A ray by its family, i and j, and the points of it that are held.
type Held = (Family, u32, u32, u64);

/// The first of the rays whose held points aren't these, where there is one.
fn first_other(cylinder: &BoundingCylinder, rays: &[Held]) -> Option<usize> {
    for (number, (family, i, j, points)) in rays.iter().enumerate() {
        if held(cylinder, *family, *i, *j) != Some(*points) {
            return Some(number);
        }
    }
    None
}

/// From 1 mm to 3 mm along x, the points on the border included.
const WIDE: [Held; 9] = [
    (Family::X, 1, 0, 0b111_1100),
    (Family::X, 1, 1, 0b111_1100),
    (Family::X, 2, 0, 0b001_0000),
    (Family::X, 3, 0, 0),
    (Family::Y, 2, 0, 0b001_1111),
    (Family::Y, 3, 0, 0b000_0100),
    (Family::Y, 4, 0, 0),
    (Family::Z, 2, 1, 0b111),
    (Family::Z, 4, 1, 0),
];

/// A little less wide and less high.
const NARROW: [Held; 4] = [
    (Family::X, 1, 0, 0b011_1000),
    (Family::X, 1, 1, 0),
    (Family::X, 2, 0, 0),
    (Family::Z, 2, 1, 0b011),
];

/// Upright: a point at the distance r from the axis has a moment of 4 r, and one at the height z a height of 4 z.
#[test]
fn an_upright_cylinder(rt: HostRuntime) {
    let wide = cylinder([0, 0, 2], 0, 4_000, 4_000);
    assert_eq!(rt; first_other(&wide, &WIDE), None);
    let narrow = cylinder([0, 0, 2], 0, 3_999, 3_999);
    assert_eq!(rt; first_other(&narrow, &NARROW), None);
}

const TILTED: [Held; 2] = [(Family::X, 1, 0, 0b111_1000), (Family::X, 1, 1, 0b001_0000)];

/// Half way between x and z: on the ray along x at the height z, the moment is 4 |x - 2 mm - z|, and the height 4 (x - 2 mm + z).
#[test]
fn a_tilted_cylinder(rt: HostRuntime) {
    let tilted = cylinder([2, 0, 2], -2_000, 4_000, 4_000);
    assert_eq!(rt; first_other(&tilted, &TILTED), None);
}

const FLAT: [Held; 3] = [
    (Family::X, 1, 0, 0b011_1000),
    (Family::Y, 2, 0, 0b001_1111),
    (Family::Y, 3, 0, 0),
];

const FLATTER: [Held; 1] = [(Family::X, 1, 0, 0b001_0000)];

/// Of the upright cylinder the part no further than half a millimetre along x from its axis: a point at the distance x from it has 4 x
/// of its moment along y.
#[test]
fn a_cylinder_between_planes(rt: HostRuntime) {
    assert_eq!(rt; first_other(&flat_cylinder(2_000), &FLAT), None);
    assert_eq!(rt; first_other(&flat_cylinder(1_999), &FLATTER), None);
}
