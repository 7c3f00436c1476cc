ghost use Rattle.std.specs.Prelude.{◌≡◌, ◌+◌, ◌*◌, ◌≤◌, neg_ℤ, pos, map, All, IfOk};
ghost use Rattle.space.specs.Ranges.{IsBetween};
ghost use Rattle.setup_file.specs.Limits.{most_clearance, most_normal};
ghost use Rattle.setup_file.specs.Shift.{normal_length, shifted_of, shifted_plane, square_of};
ghost use Rattle.setup_file.specs.Sound.{IsPlane};

use bern_form::isqrt_ceil;
use ray_shapes::{Bodies, Body, Plane};
use std::alloc::Global;
use vf_io::NoMemory;

/// The bodies with the right side of each plane raised by `by` lengths of its normal, each length rounded up to a whole number:
/// a body grows by at least `by` micrometres on each side, or shrinks where `by` is below 0.
pub fn shifted(alloc: Global, bodies: &[Body], by: i32) -> Result<Bodies, NoMemory>
    requires by { IsBetween (neg_ℤ (pos most_clearance)) (pos most_clearance) by }
    requires planes { All (All IsPlane) bodies.now }
    ensures { IfOk result (λ raised. raised ≡ shifted_of by bodies.now) }
{
    let mut raised = Vec::new(alloc);
    for body in bodies {
        raised.push(Body::new(shifted_planes(alloc, body.planes(), by)?))?;
    }
    Ok(Bodies::new(raised))
}

/// The planes of a body, raised in this way.
fn shifted_planes(alloc: Global, planes: &[Plane], by: i32) -> Result<Vec<Plane>, NoMemory>
    requires by { IsBetween (neg_ℤ (pos most_clearance)) (pos most_clearance) by }
    requires planes { All IsPlane planes.now }
    ensures { IfOk result (λ raised. raised.items ≡ map (shifted_plane by) planes.now) }
{
    let mut raised = Vec::new(alloc);
    for plane in planes {
        raised.push(shifted_plane(plane, by))?;
    }
    Ok(raised)
}

/// The plane with its right side raised by `by` lengths of its normal.
fn shifted_plane(plane: &Plane, by: i32) -> Plane
    requires by { IsBetween (neg_ℤ (pos most_clearance)) (pos most_clearance) by }
    requires plane { IsPlane plane.now }
    ensures { result ≡ shifted_plane by plane.now }
{
    Plane {
        a: plane.a,
        b: plane.b,
        c: plane.c,
        d: plane.d + i64::from(by) * i64::from(normal_length(plane)),
    }
}

/// The length of the plane's normal, rounded up to a whole number.
fn normal_length(plane: &Plane) -> u32
    requires { IsPlane plane.now }
    ensures length { result ≡ normal_length plane.now }
    ensures short { result ≤ 17321 }
{
    isqrt_ceil(square_of(plane.a) + square_of(plane.b) + square_of(plane.c)) as u32
}

/// The square of a component of a normal.
fn square_of(z: i32) -> u128
    requires { IsBetween (neg_ℤ (pos most_normal)) (pos most_normal) z }
    ensures square { result ≡ square_of z }
    ensures small { result ≤ 100000000 }
{
    let size = u128::from(z.unsigned_abs());
    size * size
}
