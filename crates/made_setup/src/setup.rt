ghost use Rattle.std.specs.Prelude.{◌≡◌, ◌≤◌, ◌≤ℤ◌, pos, IfOk};
ghost use Rattle.setup_file.specs.Sound.{IsSetup};
ghost use Rattle.made_setup.specs.Made.{made_setup, one_box};

use cutter_slabs::Cutter;
use ray_grid::Grid;
use ray_shapes::{Bodies, Body, Plane};
use setup_file::Setup;
use std::alloc::Global;
use vf_io::NoMemory;

/// The setup of every self-test.
pub fn made_setup(alloc: Global) -> Result<Setup, NoMemory>
    ensures setup { IfOk result (λ setup. setup ≡ made_setup) }
    ensures sound { IfOk result IsSetup }
{
    let stock = one_box(alloc, 30_000, 30_000, 30_000)?;
    let part = one_box(alloc, 21_500, 21_500, 1_500)?;
    let fixture = Bodies::new(Vec::new(alloc));
    Ok(Setup {
        grid: Grid {
            origin: [0, 0, 0],
            pitch: 2_000,
            step: 500,
            counts: [11, 11, 6],
        },
        stock,
        part,
        fixture,
        tolerance: 0,
        clearance: 0,
        slabs: 4,
        depth: 4,
        tool: Cutter {
            d: 4_000,
            r: 1_000,
            h: 30_000,
            flank: 0,
            base: 0,
        },
        turn: None,
    })
}

/// The one body that is the box from the origin to a corner.
fn one_box(alloc: Global, x: i64, y: i64, z: i64) -> Result<Bodies, NoMemory>
    ensures { IfOk result (λ bodies. bodies ≡ one_box x y z) }
{
    let planes = [
        plane(1, 0, 0, x),
        plane(-1, 0, 0, 0),
        plane(0, 1, 0, y),
        plane(0, -1, 0, 0),
        plane(0, 0, 1, z),
        plane(0, 0, -1, 0),
    ];
    let body = Body::new(Vec::from_slice(alloc, &planes)?);
    let mut bodies = Vec::new(alloc);
    bodies.push(body)?;
    Ok(Bodies::new(bodies))
}

/// The points with `a * x + b * y + c * z <= d`.
fn plane(a: i32, b: i32, c: i32, d: i64) -> Plane
    ensures { result ≡ record { a = a; b = b; c = c; d = d } }
{
    Plane { a, b, c, d }
}
