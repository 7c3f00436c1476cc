//! Fills all rays of a grid of 400 x 400 x 100 nodes with 64 bodies of 12 planes, and prints how many points they hold.
#![tactic(auto)]

use ray_grid::{Grid, Ray};
use ray_shapes::{Bodies, Body, Plane, RayShape, Solid, solid_spans};
use std::alloc::Global;
use std::io;
use vf_io::NoMemory;

/// Ten directions round the z axis, in 1/10,000.
const NORMALS: [(i32, i32); 10] = [
    (10_000, 0),
    (8_090, 5_878),
    (3_090, 9_511),
    (-3_090, 9_511),
    (-8_090, 5_878),
    (-10_000, 0),
    (-8_090, -5_878),
    (-3_090, -9_511),
    (3_090, -9_511),
    (8_090, -5_878),
];

/// How many bodies are in a row, and how many rows.
const SIDE: i32 = 8;
/// From one body's middle to the next, in micrometres.
const APART: i32 = 50_000;
/// From a body's middle to its sides.
const RADIUS: i64 = 20_000;

const BOTTOM: i64 = 5_000;

const TOP: i64 = 80_000;

/// What was found on the rays.
#[derive(Drop)]
struct Tally {
    rays: u64,
    ranges: u64,
    points: u64,
}

fn main(rt: HostRuntime) -> io::Result<()> {
    let alloc = rt.alloc();
    let grid = Grid {
        origin: [0, 0, 0],
        pitch: 1_000,
        step: 250,
        counts: [400, 400, 100],
    };
    let tally = columns(alloc).and_then(|bodies| filled(alloc, &bodies, &grid));
    match tally {
        Ok(tally) => {
            println!(rt;
                "rays {} ranges {} points {}",
                tally.rays, tally.ranges, tally.points
            )
        }
        Err(NoMemory) => println!(rt; "no memory"),
    }
}

/// Columns of ten sides in rows.
fn columns(alloc: Global) -> Result<Bodies, NoMemory> {
    let mut bodies = Vec::new(alloc);
    for row in 0..SIDE {
        for place in 0..SIDE {
            bodies.push(column(alloc, middle(place), middle(row))?)?;
        }
    }
    Ok(Bodies::new(bodies))
}

fn middle(n: i32) -> i64 {
    i64::from(n)
        .wrapping_mul(i64::from(APART))
        .wrapping_add(i64::from(APART / 2))
}

fn column(alloc: Global, x: i64, y: i64) -> Result<Body, NoMemory> {
    let mut planes = Vec::new(alloc);
    for (a, b) in NORMALS {
        let d = i64::from(a).wrapping_mul(x);
        let d = d.wrapping_add(i64::from(b).wrapping_mul(y));
        let d = d.wrapping_add(RADIUS.wrapping_mul(10_000));
        planes.push(Plane { a, b, c: 0, d })?;
    }
    planes.push(Plane {
        a: 0,
        b: 0,
        c: -1,
        d: -BOTTOM,
    })?;
    planes.push(Plane {
        a: 0,
        b: 0,
        c: 1,
        d: TOP,
    })?;
    Ok(Body::new(planes))
}

/// What a closure that is kept for a solid gives on the rays of the grid.
fn filled(alloc: Global, bodies: &Bodies, grid: &Grid) -> Result<Tally, NoMemory> {
    let solid = &Solid::Bodies(bodies.copy()?);
    let shape = RayShape::new(
        *grid,
        solid,
        move |ray: &Ray| solid_spans(alloc, solid, grid, ray),
    );
    let mut tally = Tally {
        rays: 0,
        ranges: 0,
        points: 0,
    };
    for strip in 0..grid.strips() {
        for n in 0..grid.strip_len(strip) {
            let ray = grid.strip_ray(strip, n);
            let spans = shape.fill(&ray)?;
            tally.rays = tally.rays.wrapping_add(1);
            tally.ranges = tally.ranges.wrapping_add(u64::from(spans.ranges()));
            tally.points = tally.points.wrapping_add(u64::from(spans.count()));
        }
    }
    Ok(tally)
}
