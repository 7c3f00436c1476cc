ghost use Rattle.std.specs.Prelude.{◌≡◌, ◌≤◌, pos, neg_ℤ, All, IfOk, IfErr, MatchResult, Ok, Err, map, length, option_map};
ghost use Rattle.space.specs.Ranges.{IsBetween, metre};
ghost use Rattle.toml.specs.View.{view};
ghost use Rattle.setup_file.specs.Bodies.{body_by, body_of, box_of, box_planes, as_many, planes_of};
ghost use Rattle.setup_file.specs.Reads.{EndsSetup};
ghost use Rattle.setup_file.specs.Sound.{IsBody};

use crate::body_list::BodyList;
use crate::plane::read_plane;
use crate::read::{METRE, all_ranged, entry_at, numbers_in, only_if, ranged};
use ray_shapes::{Body, Plane};
use setup_keys::{KeyName, SetupEnd, SetupFault};
use std::alloc::Global;
use toml::Value;
use vf_io::NoMemory;

/// The most planes of a body.
const MOST_PLANES: u32 = 64;

/// The body of a box or of planes, whichever the table has.
pub(crate) fn read_body(alloc: Global, value: &Value, list: &BodyList) -> Result<Body, SetupEnd>
    ensures ok { IfOk result (λ body. body_of list.now (view value.now) ≡ Ok body) }
    ensures refused { IfErr result (EndsSetup (body_of list.now (view value.now))) }
    ensures valid { IfOk result IsBody }
{
    let Some(table) = value.as_table() else {
        return Err(SetupEnd::Refused(SetupFault::SetupKey(list.key)));
    };
    match (
        entry_at(table, list.box_key),
        entry_at(table, list.planes_key),
    ) {
        (Some(corners), None) => read_box(alloc, corners, list.box_key),
        (None, Some(planes)) => read_planes(alloc, planes, list.planes_key),
        _ => Err(SetupEnd::Refused(SetupFault::SetupKey(list.key))),
    }
}

/// The body of a box.
fn read_box(alloc: Global, value: &Value, key: KeyName) -> Result<Body, SetupEnd>
    ensures ok { IfOk result (λ body. box_of key (view value.now) ≡ Ok body) }
    ensures refused { IfErr result (EndsSetup (box_of key (view value.now))) }
    ensures valid { IfOk result IsBody }
{
    match box_ends(value, key) {
        Ok(ends) => match box_body(alloc, &ends) {
            Ok(body) => Ok(body),
            Err(NoMemory) => Err(SetupEnd::NoMemory),
        },
        Err(fault) => Err(SetupEnd::Refused(fault)),
    }
}

/// The ends of a box: the first ends along x, y and z, then the second.
#[tactic(auto, unfolding(crate::specs::Bodies::box_of))]
fn box_ends(value: &Value, key: KeyName) -> Result<[i64; 6], SetupFault>
    ensures ends { MatchResult result (λ ends. box_of key (view value.now) ≡ Ok (box_planes ends))
        (λ fault. box_of key (view value.now) ≡ Err fault) }
    ensures coordinates { IfOk result (All (IsBetween (neg_ℤ (pos metre)) (pos metre))) }
{
    let Some(ends) = numbers_in::<6>(value) else {
        return Err(SetupFault::SetupKey(key));
    };
    all_ranged(&ends, key, -METRE, METRE)?;
    only_if(ends[0] <= ends[3], key, ends[3])?;
    only_if(ends[1] <= ends[4], key, ends[4])?;
    only_if(ends[2] <= ends[5], key, ends[5])?;
    Ok(ends)
}

/// The six planes of a box between its ends: x <= x1, -x <= -x0, and so on for y and z.
fn box_body(alloc: Global, ends: &[i64; 6]) -> Result<Body, NoMemory>
    requires { All (IsBetween (neg_ℤ (pos metre)) (pos metre)) ends.now }
    ensures planes { IfOk result (λ body. body ≡ box_planes ends.now) }
    ensures valid { IfOk result IsBody }
{
    let [x0, y0, z0, x1, y1, z1] = *ends;
    let planes = [
        plane(1, 0, 0, x1),
        plane(-1, 0, 0, -x0),
        plane(0, 1, 0, y1),
        plane(0, -1, 0, -y0),
        plane(0, 0, 1, z1),
        plane(0, 0, -1, -z0),
    ];
    Ok(Body::new(Vec::from_slice(alloc, &planes)?))
}

/// The points with `a * x + b * y + c * z <= d`.
fn plane(a: i32, b: i32, c: i32, d: i64) -> Plane
    ensures { result ≡ record { a = a; b = b; c = c; d = d } }
{
    Plane { a, b, c, d }
}

/// The body of a list of planes.
#[tactic(auto, unfolding(crate::specs::Bodies::planes_of))]
fn read_planes(alloc: Global, value: &Value, key: KeyName) -> Result<Body, SetupEnd>
    ensures ok { IfOk result (λ body. planes_of key (view value.now) ≡ Ok body) }
    ensures refused { IfErr result (EndsSetup (planes_of key (view value.now))) }
    ensures valid { IfOk result IsBody }
{
    let Some(values) = value.as_array() else {
        return Err(SetupEnd::Refused(SetupFault::SetupKey(key)));
    };
    if let Err(fault) = as_many(values, key, 1, MOST_PLANES) {
        return Err(SetupEnd::Refused(fault));
    }
    let mut planes = Vec::new(alloc);
    for item in values {
        let plane = match read_plane(item, key) {
            Ok(plane) => plane,
            Err(fault) => return Err(SetupEnd::Refused(fault)),
        };
        if planes.push(plane).is_err() {
            return Err(SetupEnd::NoMemory);
        }
    }
    Ok(Body::new(planes))
}

/// The number of items in a list, where it is within the allowed numbers.
pub(crate) fn as_many(
    values: &Vec<Value>,
    key: KeyName,
    least: u32,
    most: u32,
) -> Result<i64, SetupFault>
    ensures count { result ≡ as_many key least most (map view values.now.items) }
    ensures some { IfOk result (λ _. least ≤ length values.now.items) }
    ensures few { IfOk result (λ _. length values.now.items ≤ most) }
{
    ranged(key, i64::from(least), i64::from(most), values.len() as i64)
}
