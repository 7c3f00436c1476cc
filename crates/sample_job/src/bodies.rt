use ray_shapes::{Bodies, Body, Plane};
use std::alloc::Global;
use vf_io::NoMemory;

/// A box from the origin to 2.5 mm, 2.5 mm and 1.5 mm: all 108 points of the plan's lattice.
pub fn stock(alloc: Global) -> Result<Bodies, NoMemory> {
    boxed(alloc, [0, 0, 0], [2_500, 2_500, 1_500])
}

/// A box that reaches `below` micrometres below the origin and `above` micrometres above it.
pub fn boxed(alloc: Global, below: [i64; 3], above: [i64; 3]) -> Result<Bodies, NoMemory> {
    let planes = [
        Plane {
            a: -1,
            b: 0,
            c: 0,
            d: below[0],
        },
        Plane {
            a: 0,
            b: -1,
            c: 0,
            d: below[1],
        },
        Plane {
            a: 0,
            b: 0,
            c: -1,
            d: below[2],
        },
        Plane {
            a: 1,
            b: 0,
            c: 0,
            d: above[0],
        },
        Plane {
            a: 0,
            b: 1,
            c: 0,
            d: above[1],
        },
        Plane {
            a: 0,
            b: 0,
            c: 1,
            d: above[2],
        },
    ];
    let mut bodies = Vec::new(alloc);
    bodies.push(Body::new(Vec::from_slice(alloc, planes.as_slice())?))?;
    Ok(Bodies::new(bodies))
}
