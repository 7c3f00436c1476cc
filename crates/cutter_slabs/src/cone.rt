ghost use Rattle.std.specs.Prelude.{◌≡◌, ◌+◌, ◌*◌, ◌<◌, ◌≤◌};
ghost use Rattle.space.specs.Flanks.{least_widening, most_widening, top_of};
ghost use Rattle.cutter_slabs.specs.Stacks.{level_of};

use space::{least_widening, top_diameter};

/// The j-th bound between the slabs of a cone: h j / n, rounded down.
pub fn level(height: u32, n: u32, j: u32) -> u32
    requires height { height ≤ 300000 }
    requires some { 0 < n }
    requires few { n ≤ 256 }
    requires within { j ≤ n }
    ensures level { result ≡ level_of height n j }
    ensures below { result ≤ height }
{
    height * j / n
}

/// The inner diameter of a slab that begins at the height z: the least that the cone can be there.
pub fn inner_diameter(d: u32, flank: u32, z: u32) -> u32
    requires small { top_of d z flank ≤ 200000 }
    ensures diameter { result ≡ d + 2 * least_widening flank z }
    ensures small { result ≤ 200000 }
{
    d + 2 * least_widening(flank, z) as u32
}

/// The outer diameter of a slab that ends at the height z: the most that the cone can be there.
pub fn outer_diameter(d: u32, flank: u32, z: u32) -> u32
    requires small { top_of d z flank ≤ 200000 }
    ensures diameter { result ≡ d + 2 * most_widening flank z }
    ensures small { result ≤ 200000 }
{
    top_diameter(d, z, flank) as u32
}
