ghost use Rattle.std.specs.Prelude.{◌≡◌};
ghost use Rattle.cl_records.specs.Cutters.{degrees_of, is_angle_refused, is_cone_open, is_cone_refused, is_cone_rounded, is_cone_wide, is_flank_odd, is_flank_refused, is_top_wide, leans};

use space::{is_flank, top_diameter};

/// The parts of a degree in which angles are read.
const PARTS: u32 = 100_000;

/// The greatest diameter of a cutter at its top, in micrometres.
const WIDEST_TOP: u64 = 200_000;

/// Whether the angles of the bottom and of the flank make a cutter that is not read.
pub(crate) fn is_angle_refused(a: i32, b: i32, d: i32, r: i32, h: Option<i32>) -> bool
    ensures { result ≡ is_angle_refused a b d r h }
{
    leans(a) || is_flank_refused(b, d, r, h)
}

/// Whether the flank leans by an angle that isn't read, or makes a cone that isn't.
fn is_flank_refused(b: i32, d: i32, r: i32, h: Option<i32>) -> bool
    ensures { result ≡ is_flank_refused b d r h }
{
    is_flank_odd(b) || is_cone_refused(b, d, r, h)
}

/// Whether the flank makes a cone that isn't read.
fn is_cone_refused(b: i32, d: i32, r: i32, h: Option<i32>) -> bool
    ensures { result ≡ is_cone_refused b d r h }
{
    is_cone_rounded(b, r) || is_cone_open(b, h) || is_cone_wide(b, d, h)
}

/// Whether an angle is not 0.
fn leans(angle: i32) -> bool
    ensures { result ≡ leans angle }
{
    angle != 0
}

/// The whole degrees of an angle.
pub(crate) fn degrees_of(angle: i32) -> u32
    ensures { result ≡ degrees_of angle }
{
    angle.unsigned_abs() / PARTS
}

/// Whether the flank angle is no whole number of degrees that is read.
fn is_flank_odd(b: i32) -> bool
    ensures { result ≡ is_flank_odd b }
{
    let degrees = degrees_of(b);
    !(i64::from(b) == i64::from(degrees * PARTS) && is_flank(degrees))
}

/// Whether a flank that leans comes with a corner radius.
fn is_cone_rounded(b: i32, r: i32) -> bool
    ensures { result ≡ is_cone_rounded b r }
{
    leans(b) && r != 0
}

/// Whether a flank leans and no height is given, so that the top isn't known.
fn is_cone_open(b: i32, h: Option<i32>) -> bool
    ensures { result ≡ is_cone_open b h }
{
    leans(b) && h.is_none()
}

/// Whether a flank leans and the top diameter is above the greatest.
fn is_cone_wide(b: i32, d: i32, h: Option<i32>) -> bool
    ensures { result ≡ is_cone_wide b d h }
{
    leans(b) && is_top_wide(b, d, h)
}

/// Whether the top diameter is above the greatest.
fn is_top_wide(b: i32, d: i32, h: Option<i32>) -> bool
    ensures { result ≡ is_top_wide b d h }
{
    match h {
        Some(h) => top_diameter(d.unsigned_abs(), h.unsigned_abs(), degrees_of(b)) > WIDEST_TOP,
        None => false,
    }
}
