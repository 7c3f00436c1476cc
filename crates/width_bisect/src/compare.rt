ghost use Rattle.std.specs.Prelude.{◌≡◌, ◌*ℤ◌, int_lt};
ghost use Rattle.bern_form.specs.Forms.{all_negative, all_positive, difference4, scaled4};

use crate::words::product;

/// Whether a is above the limit times r.
#[inline]
fn is_above(a: i128, limit: i64, r: i64) -> bool
    ensures { result ≡ int_lt (limit *ℤ r) a }
{
    product(limit, r) < a
}

/// Whether a is below the limit times r.
#[inline]
fn is_below(a: i128, limit: i64, r: i64) -> bool
    ensures { result ≡ int_lt a (limit *ℤ r) }
{
    a < product(limit, r)
}

/// Whether each coefficient is above the limit times the other form's.
#[inline]
pub fn all_above(form: &[i128; 5], limit: i64, raised: &[i64; 5]) -> bool
    ensures { result ≡ all_positive (difference4 form.now (scaled4 limit raised.now)) }
{
    for i in 0..5 {
        if !is_above(form[i], limit, raised[i]) {
            return false;
        }
    }
    true
}

/// Whether each coefficient is below the limit times the other form's.
// Kept apart from the walk that calls it slab by slab: inlined into that loop all five products are computed, of numbers that were widened
// to 128 bits before it, which takes three multiplications each in place of one.
#[inline(never)]
pub fn all_below(form: &[i128; 5], limit: i64, raised: &[i64; 5]) -> bool
    ensures { result ≡ all_negative (difference4 form.now (scaled4 limit raised.now)) }
{
    for i in 0..5 {
        if !is_below(form[i], limit, raised[i]) {
            return false;
        }
    }
    true
}
