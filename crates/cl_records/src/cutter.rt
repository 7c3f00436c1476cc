ghost use Rattle.std.specs.Prelude.{◌≡◌, ◌<◌, pos, length, slice_get, IfOk, IfSome};
ghost use Rattle.space.specs.Ranges.{IsBetween};
ghost use Rattle.cl_records.specs.Cutters.{cutter_of, size_or_zero};
ghost use Rattle.cl_records.specs.Kinds.{cutter_kinds, farthest_centre, largest_corner, tallest, widest};
ghost use Rattle.cl_records.specs.Ranges.{AreKinds, IsCutterText};

use crate::corner::{counted_corner, is_corner_refused};
use crate::flank::{degrees_of, is_angle_refused};
use cl_lines::ClWhy;

/// A cutter as the text gives it, in micrometres: its diameter, its corner radius, and its height where one is given. The flank
/// leans outwards by whole degrees.
#[derive(Clone, Copy)]
pub struct CutterText {
    pub d: i32,
    pub r: i32,
    pub h: Option<i32>,
    pub flank: u32,
}

/// The cutter of the sizes d, r, e, f, a, b and h, of which those after d may be missing.
pub(crate) fn cutter_of_sizes(sizes: &[i32]) -> Result<CutterText, ClWhy>
    requires kinds { AreKinds cutter_kinds sizes.now }
    requires some { 0 < length sizes.now }
    ensures cutter { result ≡ cutter_of sizes.now }
    ensures sizes { IfOk result IsCutterText }
{
    let d = diameter(sizes);
    let r = counted_corner(d, corner_radius(sizes));
    let a = size_or_zero(sizes, 4);
    let b = size_or_zero(sizes, 5);
    let h = height(sizes);
    if is_corner_refused(sizes, d, r) || is_angle_refused(a, b, d, r, h) {
        Err(ClWhy::CutterShape)
    } else {
        let flank = degrees_of(b);
        Ok(CutterText { d, r, h, flank })
    }
}

/// A size, or 0 where the record ends before it.
fn size_or_zero(sizes: &[i32], place: usize) -> i32
    ensures { result ≡ size_or_zero sizes.now place }
{
    match sizes.get(place) {
        Some(size) => *size,
        None => 0,
    }
}

/// The diameter, which is never missing.
fn diameter(sizes: &[i32]) -> i32
    requires kinds { AreKinds cutter_kinds sizes.now }
    requires some { 0 < length sizes.now }
    ensures size { result ≡ size_or_zero sizes.now 0 }
    ensures range { IsBetween (pos 1) (pos widest) result }
{
    size_or_zero(sizes, 0)
}

/// The corner radius, as it is given.
pub(crate) fn corner_radius(sizes: &[i32]) -> i32
    requires kinds { AreKinds cutter_kinds sizes.now }
    requires some { 0 < length sizes.now }
    ensures size { result ≡ size_or_zero sizes.now 1 }
    ensures range { IsBetween (pos 0) (pos largest_corner) result }
{
    size_or_zero(sizes, 1)
}

/// The distance of the corner's centre from the axis, where it is given.
pub(crate) fn centre_distance(sizes: &[i32]) -> Option<i32>
    requires kinds { AreKinds cutter_kinds sizes.now }
    requires some { 0 < length sizes.now }
    ensures size { result ≡ slice_get sizes.now 2 }
    ensures range { IfSome result (IsBetween (pos 0) (pos farthest_centre)) }
{
    sizes.get(2).copied()
}

/// The height of the corner's centre above the tip, where it is given.
pub(crate) fn centre_height(sizes: &[i32]) -> Option<i32>
    ensures { result ≡ slice_get sizes.now 3 }
{
    sizes.get(3).copied()
}

/// The height, where it is given.
fn height(sizes: &[i32]) -> Option<i32>
    requires kinds { AreKinds cutter_kinds sizes.now }
    requires some { 0 < length sizes.now }
    ensures size { result ≡ slice_get sizes.now 6 }
    ensures range { IfSome result (IsBetween (pos 1) (pos tallest)) }
{
    sizes.get(6).copied()
}
