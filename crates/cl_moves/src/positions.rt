ghost use Rattle.std.specs.Prelude.{◌≡◌, ◌≤◌, ◌+ℤ◌, unsigned_abs};
ghost use Rattle.std.specs.List.{list_all};
ghost use Rattle.space.specs.Ranges.{IsPoint, IsWithin, is_coordinate, metre};
ghost use Rattle.cl_records.specs.Kinds.{longest_distance};
ghost use Rattle.cl_moves.specs.Program.{displaced};

/// The furthest coordinate of a position: a metre from the origin.
const MOST: u32 = 1_000_000;

/// The position at a distance from another.
pub(crate) fn displaced(from: &[i32; 3], by: &[i32; 3]) -> [i32; 3]
    requires position { IsPoint from.now }
    requires distance { IsWithin longest_distance by.now }
    ensures { result ≡ displaced from.now by.now }
{
    [
        plus(from[0], by[0]),
        plus(from[1], by[1]),
        plus(from[2], by[2]),
    ]
}

/// A coordinate at a distance from another.
fn plus(z: i32, by: i32) -> i32
    requires position { unsigned_abs z ≤ metre }
    requires distance { unsigned_abs by ≤ longest_distance }
    ensures { result ≡ z +ℤ by }
{
    z + by
}

/// Whether all coordinates are within a metre of the origin.
pub(crate) fn are_within(p: &[i32; 3]) -> bool
    ensures { result ≡ list_all is_coordinate p.now }
{
    is_within(p[0]) && is_within(p[1]) && is_within(p[2])
}

/// Whether a coordinate is within a metre of the origin.
fn is_within(z: i32) -> bool
    ensures { result ≡ is_coordinate z }
{
    z.unsigned_abs() <= MOST
}
