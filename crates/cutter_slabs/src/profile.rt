ghost use Rattle.std.specs.Prelude.{◌≡◌, ◌+◌, ◌-◌, ◌*◌, ◌^◌, ◌<◌, ◌≤◌};
ghost use Rattle.bern_form.specs.Roots.{ceil_root, floor_root};
ghost use Rattle.cutter_slabs.specs.Stacks.{bound_of};

use bern_form::{isqrt_ceil, isqrt_floor};

// At the height z above the tip, z at most r, the rounded corner is sqrt(r^2 - (r - z)^2) = sqrt(2 r z - z^2) wide, and the
// profile is that far from the edge of the flat bottom. Diameters are twice that.

/// The j-th bound between the slabs of the corner: r (j / n)^2, rounded down. The bounds are closer to each other near the tip, where the
/// profile is flat.
pub fn bound(radius: u32, n: u32, j: u32) -> u32
    requires radius { radius ≤ 100000 }
    requires some { 0 < n }
    requires few { n ≤ 256 }
    requires within { j ≤ n }
    ensures bound { result ≡ bound_of radius n j }
    ensures below { result ≤ radius }
{
    let j = u64::from(j);
    let n = u64::from(n);
    (u64::from(radius) * (j * j) / (n * n)) as u32
}

/// The square of the corner's width at the height z: 2 r z - z^2.
fn corner_square(radius: u32, z: u32) -> u128
    requires radius { radius ≤ 100000 }
    requires within { z ≤ radius }
    ensures square { result ≡ 2 * radius * z - z * z }
    ensures small { result ≤ radius * radius }
{
    let z = u128::from(z);
    2 * u128::from(radius) * z - z * z
}

/// The inner diameter of a slab that begins at the height z.
pub fn inner_diameter(flat: u32, radius: u32, z: u32) -> u32
    requires flat { flat + 2 * radius ≤ 200000 }
    requires within { z ≤ radius }
    ensures diameter { result ≡ flat + 2 * floor_root (2 * radius * z - z * z) }
    ensures small { result ≤ 200000 }
{
    flat + 2 * isqrt_floor(corner_square(radius, z)) as u32
}

/// The outer diameter of a slab that ends at the height z.
pub fn outer_diameter(flat: u32, radius: u32, z: u32) -> u32
    requires flat { flat + 2 * radius ≤ 200000 }
    requires within { z ≤ radius }
    ensures diameter { result ≡ flat + 2 * ceil_root (2 * radius * z - z * z) }
    ensures small { result ≤ 200000 }
{
    flat + 2 * isqrt_ceil(corner_square(radius, z)) as u32
}
