ghost use Rattle.std.specs.Prelude.{◌≡◌, ◌*◌, ◌≤◌, ◌*ℤ◌, ℤ, pos, unsigned_abs};
ghost use Rattle.sweep_boxes.specs.Limits.{place_limit};

/// A place with a weight.
#[inline]
pub fn weighted(weight: u32, place: i32) -> i128
    requires weight { weight ≤ 256 }
    requires place { unsigned_abs place ≤ place_limit }
    ensures value { result ≡ pos weight *ℤ place }
    ensures small { unsigned_abs result ≤ weight * place_limit }
{
    i128::from(weight) * i128::from(place)
}
