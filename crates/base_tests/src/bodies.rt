use crate::grids::small;
use crate::spans::{Shown, shows};
use ray_grid::{Family, Grid, Ray};
use ray_shapes::{Bodies, Body, Plane, RayShape, Solid, body_spans, solid_spans};
use std::alloc::Global;
use std::test::Fail;
use vf_io::NoMemory;

/// The numbers of a plane: what lies up to the fourth along the first three.
type Numbers = (i32, i32, i32, i64);

/// What lies up to x + y + z = 2000.
const SLANTED: [Numbers; 1] = [(1, 1, 1, 2_000)];

/// The box from the origin to 2500, 2500, 1000.
const BOX: [Numbers; 6] = [
    (1, 0, 0, 2_500),
    (-1, 0, 0, 0),
    (0, 1, 0, 2_500),
    (0, -1, 0, 0),
    (0, 0, 1, 1_000),
    (0, 0, -1, 0),
];

/// What lies up to y = 100, and from y = 2000 on.
const NEAR: [Numbers; 1] = [(0, 1, 0, 100)];

const FAR: [Numbers; 1] = [(0, -1, 0, -2_000)];

/// A ray of the small grid, some bodies, and which of its points they hold.
#[derive(Clone, Copy)]
struct Row {
    what: &'static str,
    ray: Ray,
    bodies: &'static [&'static [Numbers]],
    held: Shown,
}

const ROWS: [Row; 12] = [
    // x + y is 1000, so z is at most 1000: 0, 500, 1000.
    Row {
        what: "a slanted body cuts a z ray",
        ray: Ray {
            family: Family::Z,
            i: 1,
            j: 0,
        },
        bodies: &[&SLANTED],
        held: Shown {
            bits: 0b0111,
            ranges: 1,
        },
    },
    // x + y is 2000, so z is at most 0.
    Row {
        what: "it holds the foot of a z ray",
        ray: Ray {
            family: Family::Z,
            i: 1,
            j: 1,
        },
        bodies: &[&SLANTED],
        held: Shown {
            bits: 0b0001,
            ranges: 1,
        },
    },
    // x + y is 3000.
    Row {
        what: "it holds nothing of a z ray",
        ray: Ray {
            family: Family::Z,
            i: 2,
            j: 1,
        },
        bodies: &[&SLANTED],
        held: Shown { bits: 0, ranges: 0 },
    },
    // y + z is 2000, so x is at most 0.
    Row {
        what: "it holds the start of an x ray",
        ray: Ray {
            family: Family::X,
            i: 1,
            j: 1,
        },
        bodies: &[&SLANTED],
        held: Shown {
            bits: 0b0000_0001,
            ranges: 1,
        },
    },
    // x + z is 1000, so y is at most 1000: 0, 500, 1000.
    Row {
        what: "it cuts a y ray",
        ray: Ray {
            family: Family::Y,
            i: 0,
            j: 1,
        },
        bodies: &[&SLANTED],
        held: Shown {
            bits: 0b0000_0111,
            ranges: 1,
        },
    },
    // z is at most 1000: 0, 500, 1000.
    Row {
        what: "a box holds a z ray up to its top",
        ray: Ray {
            family: Family::Z,
            i: 0,
            j: 0,
        },
        bodies: &[&BOX],
        held: Shown {
            bits: 0b0111,
            ranges: 1,
        },
    },
    // z is 1000, and x 0 to 2500 are all its points.
    Row {
        what: "a box holds an x ray on its top",
        ray: Ray {
            family: Family::X,
            i: 0,
            j: 1,
        },
        bodies: &[&BOX],
        held: Shown {
            bits: 0b0011_1111,
            ranges: 1,
        },
    },
    // x 2000 is in 0 to 2500, z is 1000, and y 0 to 2500 are all its points.
    Row {
        what: "a box holds a y ray on its top",
        ray: Ray {
            family: Family::Y,
            i: 2,
            j: 1,
        },
        bodies: &[&BOX],
        held: Shown {
            bits: 0b0011_1111,
            ranges: 1,
        },
    },
    // 0 of the one, and 0, 500, 1000 of the other.
    Row {
        what: "a slanted body within a box",
        ray: Ray {
            family: Family::Z,
            i: 1,
            j: 1,
        },
        bodies: &[&SLANTED, &BOX],
        held: Shown {
            bits: 0b0111,
            ranges: 1,
        },
    },
    // y 2000 and 2500 of the one, 0 of the other.
    Row {
        what: "two bodies apart, the far one first",
        ray: Ray {
            family: Family::Y,
            i: 0,
            j: 0,
        },
        bodies: &[&FAR, &NEAR],
        held: Shown {
            bits: 0b0011_0001,
            ranges: 2,
        },
    },
    // Nothing holds a point.
    Row {
        what: "no body",
        ray: Ray {
            family: Family::X,
            i: 2,
            j: 0,
        },
        bodies: &[],
        held: Shown { bits: 0, ranges: 0 },
    },
    // No plane refuses a point: all four.
    Row {
        what: "a body without planes",
        ray: Ray {
            family: Family::Z,
            i: 2,
            j: 2,
        },
        bodies: &[&[]],
        held: Shown {
            bits: 0b1111,
            ranges: 1,
        },
    },
];

/// The bodies of these planes.
fn bodies_of(alloc: Global, list: &[&[Numbers]]) -> Result<Bodies, NoMemory> {
    let mut bodies = Vec::new(alloc);
    for planes in list {
        bodies.push(body_of(alloc, planes)?)?;
    }
    Ok(Bodies::new(bodies))
}

fn body_of(alloc: Global, list: &[Numbers]) -> Result<Body, NoMemory> {
    let mut planes = Vec::new(alloc);
    for (a, b, c, d) in list {
        planes.push(Plane {
            a: *a,
            b: *b,
            c: *c,
            d: *d,
        })?;
    }
    Ok(Body::new(planes))
}

/// Whether the row's bodies hold those points of its ray.
fn is_row(alloc: Global, row: &Row) -> Result<bool, NoMemory> {
    let grid = small();
    if !grid.has_point(&row.ray, 0) {
        return Ok(false);
    }
    let bodies = bodies_of(alloc, row.bodies)?;
    let set = body_spans(alloc, bodies.as_slice(), &grid, &row.ray)?;
    Ok(shows(&set, row.held))
}

#[test]
fn bodies_on_rays(rt: HostRuntime) -> Result<(), Fail> {
    for row in &ROWS {
        assert!(rt; is_row(rt.alloc(), row)?, "{}", row.what);
    }
    Ok(())
}

/// How many points a closure that is kept with its solid gives on all rays of a grid.
fn count_kept(alloc: Global, bodies: &Bodies, grid: &Grid) -> Result<u32, NoMemory> {
    let solid = &Solid::Bodies(bodies.copy()?);
    let shape = RayShape::new(
        *grid,
        solid,
        move |ray: &Ray| solid_spans(alloc, solid, grid, ray),
    );
    let mut count = 0u32;
    for strip in 0..grid.strips() {
        for n in 0..grid.strip_len(strip) {
            let ray = grid.strip_ray(strip, n);
            count = count.saturating_add(shape.fill(&ray)?.count());
        }
    }
    Ok(count)
}

/// Whether a body has `count` points in the lattice of the small grid.
fn has_points(alloc: Global, planes: &[Numbers], count: u32) -> Result<bool, NoMemory> {
    let bodies = bodies_of(alloc, &[planes])?;
    Ok(count_kept(alloc, &bodies, &small())? == count)
}

#[test]
fn closures_kept_beside_their_solid(rt: HostRuntime) -> Result<(), Fail> {
    // On a z ray 4 points where x + y is 0, 3 where it is 1000 (twice), 1 where it is 2000 (three times): 13. On an x ray 5 where
    // y + z is 0, 3 where it is 1000 (twice), 1 where it is 2000 (twice): 13. On the y rays the same number.
    assert!(rt; has_points(rt.alloc(), &SLANTED, 39)?, "slanted");
    // 3 on each of 9 z rays, 6 on each of 6 x rays and 6 y rays.
    assert!(rt; has_points(rt.alloc(), &BOX, 99)?, "box");
    Ok(())
}
