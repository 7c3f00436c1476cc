ghost use Rattle.std.specs.Prelude.{◌≡◌, pos, neg_ℤ, IfOk};
ghost use Rattle.space.specs.Ranges.{IsBetween};
ghost use Rattle.space.specs.Vectors.{is_zero};
ghost use Rattle.toml.specs.View.{view};
ghost use Rattle.setup_file.specs.Bodies.{plane, plane_by, plane_of};
ghost use Rattle.setup_file.specs.Limits.{most_normal, most_right_side};
ghost use Rattle.setup_file.specs.Sound.{IsPlane};

use crate::read::{numbers_in, only_if, ranged};
use ray_shapes::Plane;
use setup_keys::{KeyName, SetupFault};
use toml::Value;

/// How far from 0 a component of a plane's normal may be, and its right side.
const MOST_NORMAL: i64 = 10_000;

const MOST_RIGHT_SIDE: i64 = 100_000_000_000;

/// The plane of a list of four whole numbers.
#[tactic(auto, unfolding(crate::specs::Bodies::plane_of))]
pub(crate) fn read_plane(value: &Value, key: KeyName) -> Result<Plane, SetupFault>
    ensures plane { result ≡ plane_of key (view value.now) }
    ensures ranges { IfOk result IsPlane }
{
    match numbers_in::<4>(value) {
        Some(numbers) => plane_by(numbers, key),
        None => Err(SetupFault::SetupKey(key)),
    }
}

/// The plane of four numbers, each in its range, with a normal.
#[tactic(auto, unfolding(crate::specs::Bodies::plane_by))]
fn plane_by(numbers: [i64; 4], key: KeyName) -> Result<Plane, SetupFault>
    ensures plane { result ≡ plane_by key numbers }
    ensures ranges { IfOk result IsPlane }
{
    let a = ranged(key, -MOST_NORMAL, MOST_NORMAL, numbers[0])?;
    let b = ranged(key, -MOST_NORMAL, MOST_NORMAL, numbers[1])?;
    let c = ranged(key, -MOST_NORMAL, MOST_NORMAL, numbers[2])?;
    let d = ranged(key, -MOST_RIGHT_SIDE, MOST_RIGHT_SIDE, numbers[3])?;
    only_if(!is_zero(numbers), key, 0)?;
    Ok(plane_with(a, b, c, d))
}

/// Whether the first three numbers, a plane's normal, are all 0.
fn is_zero(numbers: [i64; 4]) -> bool
    ensures { result ≡ is_zero numbers }
{
    let [a, b, c, _] = numbers;
    a == 0 && b == 0 && c == 0
}

/// The plane of these numbers.
fn plane_with(a: i64, b: i64, c: i64, d: i64) -> Plane
    requires a { IsBetween (neg_ℤ (pos most_normal)) (pos most_normal) a }
    requires b { IsBetween (neg_ℤ (pos most_normal)) (pos most_normal) b }
    requires c { IsBetween (neg_ℤ (pos most_normal)) (pos most_normal) c }
    requires d { IsBetween (neg_ℤ (pos most_right_side)) (pos most_right_side) d }
    ensures plane { result ≡ plane a b c d }
    ensures ranges { IsPlane result }
{
    Plane {
        a: a as i32,
        b: b as i32,
        c: c as i32,
        d,
    }
}
