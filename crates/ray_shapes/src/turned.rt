ghost use Rattle.std.specs.Prelude.{◌≡◌, ◌<◌, ◌≤◌, ◌+ℤ◌, ◌*ℤ◌, unsigned_abs, All, IfOk, List, map};
ghost use Rattle.space.specs.Ranges.{IsWithin};
ghost use Rattle.ray_grid.specs.Turns.{IsTurn, most_shift, negated_if};
ghost use Rattle.ray_shapes.specs.declared.plane.Plane.{Plane};
ghost use Rattle.ray_shapes.specs.Turned.{IsTurnable, most_lift, most_turned_normal, most_turned_side, turned_bodies, turned_coefficient, turned_plane};

use crate::body::{Bodies, Body};
use crate::plane::Plane;
use ray_grid::Turn;
use std::alloc::Global;
use std::marker::Model;
use vf_io::NoMemory;

/// Bodies and how they are turned. Their planes are turned once, when it is made.
#[derive(Drop)]
pub struct TurnedBodies {
    bodies: Bodies,
    turn: Turn,
    turned: Bodies,
}

impl Model for TurnedBodies {
    ghost use Rattle.std.specs.Prelude.{◌≡◌};
    ghost use Rattle.ray_grid.specs.Turns.{IsTurn};
    ghost use Rattle.ray_shapes.specs.Turned.{TurnedOf, turned_bodies};

    ghost Value = { TurnedOf };

    ghost view = { λ part. record { bodies = part.bodies; turn = part.turn } };

    ghost invariant = { λ part. IsTurn part.turn × (part.turned ≡ turned_bodies part.turn part.bodies) };
}

impl TurnedBodies {
    /// Turns the bodies. Fails only when out of memory.
    pub fn new(alloc: Global, bodies: Bodies, turn: Turn) -> Result<TurnedBodies, NoMemory>
        requires turn { IsTurn turn }
        requires planes { All (All IsTurnable) bodies }
        ensures { IfOk result (λ part. part ≡ record { bodies = bodies; turn = turn }) }
    {
        let turned = turned_bodies(alloc, bodies.as_slice(), &turn)?;
        Ok(TurnedBodies {
            bodies,
            turn,
            turned,
        })
    }

    /// The bodies as they were.
    pub fn bodies(&self) -> &[Body]
        ensures { result.now ≡ self.now.bodies }
    {
        self.bodies.as_slice()
    }

    /// How they are turned.
    pub fn turn(&self) -> Turn
        ensures turn { result ≡ self.now.turn }
        ensures valid { IsTurn self.now.turn }
    {
        self.turn
    }

    /// The bodies with their planes turned.
    pub(crate) fn turned(&self) -> &[Body]
        ensures turned { result.now ≡ turned_bodies self.now.turn self.now.bodies }
        ensures valid { IsTurn self.now.turn }
    {
        self.turned.as_slice()
    }
}

/// The bodies with each plane turned. The sides of a box may come in another order then: such a body is walked plane by plane.
fn turned_bodies(alloc: Global, bodies: &[Body], turn: &Turn) -> Result<Bodies, NoMemory>
    requires turn { IsTurn turn.now }
    requires planes { All (All IsTurnable) bodies.now }
    ensures { IfOk result (λ made. made ≡ turned_bodies turn.now bodies.now) }
{
    let mut made = Vec::with_capacity(alloc, bodies.len())?;
    for body in bodies {
        made.push(Body::new(turned_planes(alloc, body.planes(), turn)?))?;
    }
    Ok(Bodies::new(made))
}

/// The planes of a body, turned.
fn turned_planes(alloc: Global, planes: &[Plane], turn: &Turn) -> Result<Vec<Plane>, NoMemory>
    requires turn { IsTurn turn.now }
    requires planes { All IsTurnable planes.now }
    ensures { IfOk result (λ made. made.items ≡ map (turned_plane turn.now) planes.now) }
{
    let mut made = Vec::with_capacity(alloc, planes.len())?;
    for plane in planes {
        made.push(turned_plane(plane, turn))?;
    }
    Ok(made)
}

/// The plane that holds a point when it is turned, where the plane held it before.
fn turned_plane(plane: &Plane, turn: &Turn) -> Plane
    requires turn { IsTurn turn.now }
    requires plane { IsTurnable plane.now }
    ensures { result ≡ turned_plane turn.now plane.now }
{
    let normal = [plane.a, plane.b, plane.c];
    let a = turned_coefficient(turn, &normal, 0);
    let b = turned_coefficient(turn, &normal, 1);
    let c = turned_coefficient(turn, &normal, 2);
    let along_x = lift(a, turn.shift[0]);
    let along_y = lift(b, turn.shift[1]);
    let along_z = lift(c, turn.shift[2]);
    Plane {
        a,
        b,
        c,
        d: lifted(plane.d, along_x, along_y, along_z),
    }
}

/// The coefficient of new axis n: that of its old axis, negated or not.
fn turned_coefficient(turn: &Turn, normal: &[i32; 3], n: usize) -> i32
    requires turn { IsTurn turn.now }
    requires normal { IsWithin most_turned_normal normal.now }
    requires axis { n < 3 }
    ensures value { result ≡ turned_coefficient turn.now normal.now n }
    ensures small { unsigned_abs result ≤ most_turned_normal }
{
    let old = normal[turn.axis[n] as usize];
    negated_if(turn.neg[n], old)
}

/// A number, or its negative.
fn negated_if(negated: bool, z: i32) -> i32
    requires { unsigned_abs z ≤ most_turned_normal }
    ensures value { result ≡ negated_if negated z }
    ensures size { unsigned_abs result ≡ unsigned_abs z }
{
    if negated { -z } else { z }
}

/// How much a shift along one axis raises the right side.
fn lift(coefficient: i32, shift: i32) -> i64
    requires coefficient { unsigned_abs coefficient ≤ most_turned_normal }
    requires shift { unsigned_abs shift ≤ most_shift }
    ensures value { result ≡ coefficient *ℤ shift }
    ensures small { unsigned_abs result ≤ most_lift }
{
    i64::from(coefficient) * i64::from(shift)
}

/// A right side that is raised along the three axes.
fn lifted(side: i64, x: i64, y: i64, z: i64) -> i64
    requires side { unsigned_abs side ≤ most_turned_side }
    requires x { unsigned_abs x ≤ most_lift }
    requires y { unsigned_abs y ≤ most_lift }
    requires z { unsigned_abs z ≤ most_lift }
    ensures { result ≡ side +ℤ ((x +ℤ y) +ℤ z) }
{
    side + (x + y + z)
}
