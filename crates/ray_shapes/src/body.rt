ghost use Rattle.std.specs.Prelude.{◌≡◌, ◌<◌, List, ℤ, IfOk, IsTrue, length};
ghost use Rattle.ray_shapes.specs.declared.plane.Plane.{Plane};
ghost use Rattle.ray_shapes.specs.Planes.{EndsInBox, IsSide};

use crate::plane::Plane;
use std::marker::Model;
use vf_io::NoMemory;

/// The points that all its planes hold; with no plane, every point. It knows of its last six planes whether they are the sides of a
/// box along the axes.
#[derive(Drop)]
pub struct Body {
    planes: Vec<Plane>,
    is_boxed: bool,
}

impl Model for Body {
    ghost use Rattle.std.specs.Prelude.{IsTrue, List};
    ghost use Rattle.ray_shapes.specs.declared.plane.Plane.{Plane};
    ghost use Rattle.ray_shapes.specs.Planes.{EndsInBox};

    ghost Value = { List Plane };

    ghost view = { λ b. b.planes.items };

    ghost invariant = { λ b. IsTrue b.is_boxed → EndsInBox b.planes.items };
}

/// Whether a plane has these coefficients.
fn is_side(plane: &Plane, a: i32, b: i32, c: i32) -> bool
    ensures { IsTrue result → IsSide a b c plane.now }
{
    plane.a == a && plane.b == b && plane.c == c
}

/// Whether the last six planes are found to be the sides of a box along the axes.
fn ends_in_box(planes: &[Plane]) -> bool
    ensures { IsTrue result → EndsInBox planes.now }
{
    let end = planes.len();
    if end < 6 {
        return false;
    }
    is_side(&planes[end - 6], 1, 0, 0)
        && is_side(&planes[end - 5], -1, 0, 0)
        && is_side(&planes[end - 4], 0, 1, 0)
        && is_side(&planes[end - 3], 0, -1, 0)
        && is_side(&planes[end - 2], 0, 0, 1)
        && is_side(&planes[end - 1], 0, 0, -1)
}

impl Body {
    /// The body of these planes, with lengths in micrometres. It takes no memory.
    pub fn new(planes: Vec<Plane>) -> Body
        ensures { result ≡ planes.items }
    {
        let is_boxed = ends_in_box(&planes);
        Body { planes, is_boxed }
    }

    /// The planes of the body, in order.
    pub fn planes(&self) -> &[Plane]
        ensures { result.now ≡ self.now }
    {
        self.planes.as_slice()
    }

    /// Whether the last six planes are known to be the sides of a box along the axes.
    #[inline]
    pub(crate) fn is_boxed(&self) -> bool
        ensures { IsTrue result → EndsInBox self.now }
    {
        self.is_boxed
    }

    /// The same body.
    pub fn copy(&self) -> Result<Body, NoMemory>
        ensures { IfOk result (λ b. b ≡ self.now) }
    {
        let planes = Vec::from_slice(*self.planes.allocator(), self.planes.as_slice())?;
        Ok(Body {
            planes,
            is_boxed: self.is_boxed,
        })
    }

    /// The list of its planes. It takes no memory.
    pub fn into_planes(self) -> Vec<Plane>
        ensures { result.items ≡ self }
    {
        self.planes
    }
}

/// The points of any of the bodies; with no body, none.
#[derive(Drop)]
pub struct Bodies {
    bodies: Vec<Body>,
}

impl Model for Bodies {
    ghost Value = { List (List Plane) };

    ghost view = { λ b. b.bodies.items };
}

impl Bodies {
    /// The bodies of a list. It takes no memory.
    pub fn new(bodies: Vec<Body>) -> Bodies
        ensures { result ≡ bodies.items }
    {
        Bodies { bodies }
    }

    /// The bodies, in order.
    pub fn as_slice(&self) -> &[Body]
        ensures { result.now ≡ self.now }
    {
        self.bodies.as_slice()
    }

    /// The same bodies.
    pub fn copy(&self) -> Result<Bodies, NoMemory>
        ensures { IfOk result (λ b. b ≡ self.now) }
    {
        let source = self.bodies.as_slice();
        let mut bodies = Vec::with_capacity(*self.bodies.allocator(), source.len())?;
        for body in source {
            bodies.push(body.copy()?)?;
        }
        Ok(Bodies { bodies })
    }

    /// The list of the bodies. It takes no memory.
    pub fn into_vec(self) -> Vec<Body>
        ensures { result.items ≡ self }
    {
        self.bodies
    }
}
