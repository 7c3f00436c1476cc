ghost use Rattle.std.specs.Prelude.{◌≡◌, ◌*◌, ◌≤◌, ◌*ℤ◌, pos, unsigned_abs};
ghost use Rattle.bern_form.specs.Cells.{scaled_square};
ghost use Rattle.bern_form.specs.Sizes.{length_limit, scale_limit};

/// A length of a slab times the scale.
#[inline]
fn scaled(scale: u32, length: i32) -> i128
    requires scale { scale ≤ scale_limit }
    requires length { unsigned_abs length ≤ 300000 }
    ensures value { result ≡ pos scale *ℤ length }
    ensures small { unsigned_abs result ≤ length_limit }
{
    i128::from(scale) * i128::from(length)
}

/// The square of a length of a slab, times the square of the scale.
#[inline]
pub fn scaled_square(scale: u32, length: i32) -> i128
    requires scale { scale ≤ scale_limit }
    requires length { unsigned_abs length ≤ 300000 }
    ensures square { result ≡ scaled_square scale length }
    ensures small { unsigned_abs result ≤ length_limit * length_limit }
{
    let length = scaled(scale, length);
    length * length
}

/// A length of a slab times the scale, in 64 bits.
#[inline]
fn short_scaled(scale: u32, length: i32) -> i64
    requires scale { scale ≤ scale_limit }
    requires length { unsigned_abs length ≤ 300000 }
    ensures value { result ≡ pos scale *ℤ length }
    ensures small { unsigned_abs result ≤ length_limit }
{
    i64::from(scale) * i64::from(length)
}

/// The square of a length of a slab, times the square of the scale, in 64 bits.
#[inline]
pub fn short_scaled_square(scale: u32, length: i32) -> i64
    requires scale { scale ≤ scale_limit }
    requires length { unsigned_abs length ≤ 300000 }
    ensures { result ≡ scaled_square scale length }
{
    let length = short_scaled(scale, length);
    length * length
}
