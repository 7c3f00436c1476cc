use ray_grid::{Family, Grid, Ray};

/// Three by three by two nodes a millimetre apart, with two points for each node: nine strips. They are the z rays of each x node (0 to 2),
/// the x rays of each y node (3 to 5) and the y rays of each x node (6 to 8). A z ray has 4 points, an x ray and a y ray have 6.
pub(crate) fn small() -> Grid {
    Grid {
        origin: [0, 0, 0],
        pitch: 1_000,
        step: 500,
        counts: [3, 3, 2],
    }
}

/// From one end of a cut to the other: along x, at 1000 on the two other axes.
const CUT: ([i32; 3], [i32; 3]) = ([0, 1_000, 1_000], [2_000, 1_000, 1_000]);

/// The upper corner of the points that rays along x and y have.
const CORNER: ([i32; 3], [i32; 3]) = ([2_500, 2_500, 1_500], [2_500, 2_500, 1_500]);

/// A ray with its strip and its number there, a segment, and a reach; the ray's points within reach, and the strip's rays that have one.
#[derive(Clone, Copy)]
struct Row {
    ray: Ray,
    place: (u32, u32),
    segment: ([i32; 3], [i32; 3]),
    reach: i32,
    points: (u32, u32),
    rays: (u32, u32),
}

const NONE: (u32, u32) = (0, 0);

const ROWS: [Row; 13] = [
    // x 1000 is in -500 to 2500, y 1000 in 500 to 1500; z 500, 1000 and 1500 of four. Of the nodes along y only 1000 is near.
    Row {
        ray: Ray {
            family: Family::Z,
            i: 1,
            j: 1,
        },
        place: (1, 1),
        segment: CUT,
        reach: 500,
        points: (1, 4),
        rays: (1, 2),
    },
    // y 0 is below 500. The strip's ray at y 1000 has points all the same.
    Row {
        ray: Ray {
            family: Family::Z,
            i: 1,
            j: 0,
        },
        place: (1, 0),
        segment: CUT,
        reach: 500,
        points: NONE,
        rays: (1, 2),
    },
    // y 0 is in 0 to 2000, and all of z 0 to 1500; so are y 1000 and 2000.
    Row {
        ray: Ray {
            family: Family::Z,
            i: 1,
            j: 0,
        },
        place: (1, 0),
        segment: CUT,
        reach: 1_000,
        points: (0, 4),
        rays: (0, 3),
    },
    // Only z 1000 is in 501 to 1499.
    Row {
        ray: Ray {
            family: Family::Z,
            i: 1,
            j: 1,
        },
        place: (1, 1),
        segment: CUT,
        reach: 499,
        points: (2, 3),
        rays: (1, 2),
    },
    // x 0 is in -1000 to 3000, y 2000 in 0 to 2000, and all of z.
    Row {
        ray: Ray {
            family: Family::Z,
            i: 0,
            j: 2,
        },
        place: (0, 2),
        segment: CUT,
        reach: 1_000,
        points: (0, 4),
        rays: (0, 3),
    },
    // x 2000 is above 1999, the end less 1.
    Row {
        ray: Ray {
            family: Family::Z,
            i: 2,
            j: 2,
        },
        place: (2, 2),
        segment: CUT,
        reach: -1,
        points: NONE,
        rays: NONE,
    },
    // y 0 is below 1; all rays of the strip have it.
    Row {
        ray: Ray {
            family: Family::X,
            i: 0,
            j: 1,
        },
        place: (3, 1),
        segment: CUT,
        reach: 999,
        points: NONE,
        rays: NONE,
    },
    // y and z are 1000; x 0 to 2000 of 0 to 2500. Of the nodes along z only 1000 is near.
    Row {
        ray: Ray {
            family: Family::X,
            i: 1,
            j: 1,
        },
        place: (4, 1),
        segment: CUT,
        reach: 0,
        points: (0, 5),
        rays: (1, 2),
    },
    // y 2000 is in 2000 to 3000, z 1000 in 1000 to 2000; x 2000 and 2500.
    Row {
        ray: Ray {
            family: Family::X,
            i: 2,
            j: 1,
        },
        place: (5, 1),
        segment: CORNER,
        reach: 500,
        points: (4, 6),
        rays: (1, 2),
    },
    // x 0 and z 0 are near; y 0 to 2000 of 0 to 2500. Of the nodes along z 0 and 1000 are in 0 to 2000.
    Row {
        ray: Ray {
            family: Family::Y,
            i: 0,
            j: 0,
        },
        place: (6, 0),
        segment: CUT,
        reach: 1_000,
        points: (0, 5),
        rays: (0, 2),
    },
    // x 1000 is in 0 to 2000, z is 1000; of the points along y only 1000.
    Row {
        ray: Ray {
            family: Family::Y,
            i: 1,
            j: 1,
        },
        place: (7, 1),
        segment: CUT,
        reach: 0,
        points: (2, 3),
        rays: (1, 2),
    },
    // x 2000 is in -500 to 2500, z is 1000; y 500, 1000 and 1500. The node z 0 is below 500.
    Row {
        ray: Ray {
            family: Family::Y,
            i: 2,
            j: 1,
        },
        place: (8, 1),
        segment: CUT,
        reach: 500,
        points: (1, 4),
        rays: (1, 2),
    },
    // x and y 2000 are in 2000 to 3000; z 1000 and 1500. Of the nodes along y only 2000 is near.
    Row {
        ray: Ray {
            family: Family::Z,
            i: 2,
            j: 2,
        },
        place: (2, 2),
        segment: CORNER,
        reach: 500,
        points: (2, 4),
        rays: (2, 3),
    },
];

/// Whether a window is the expected one; where it has nothing, it may begin and end anywhere.
fn is_window(found: (u32, u32), due: (u32, u32)) -> bool {
    found == due || (found.0 == found.1 && due.0 == due.1)
}

/// Whether the ray has its place and its points there, and the strip its rays.
fn is_row(row: &Row) -> bool {
    let grid = small();
    if !grid.has_point(&row.ray, 0) {
        return false;
    }
    let place = grid.place(&row.ray);
    let (from, to) = row.segment;
    place == row.place
        && is_window(grid.window(&row.ray, from, to, row.reach), row.points)
        && is_window(grid.strip_window(place.0, from, to, row.reach), row.rays)
}

#[test]
fn windows_of_rays_and_strips(rt: HostRuntime) {
    assert_eq!(rt; small().strips(), 9);
    for (number, row) in ROWS.iter().enumerate() {
        assert!(rt; is_row(row), "row {number}");
    }
}
