ghost use Rattle.std.specs.Prelude.{◌≡◌, ◌*◌, ◌≤◌, ◌*ℤ◌, unsigned_abs};
ghost use Rattle.bern_form.specs.Forms.{difference4, scaled4};
ghost use Rattle.bern_form.specs.Sizes.{IsBounded4, axis_limit, length_limit};
ghost use Rattle.box_bisect.specs.Sides.{all_on, is_on};

use bern_form::Form4;

/// A side of a limit.
#[derive(Clone, Copy)]
pub enum Side {
    Below,
    Above,
}

/// Whether a is on that side of the limit times r.
#[inline]
fn is_on(side: Side, a: i128, limit: i128, r: i128) -> bool
    requires limit { unsigned_abs limit ≤ length_limit * length_limit }
    requires r { unsigned_abs r ≤ 18 * (axis_limit * axis_limit) }
    ensures { result ≡ is_on side a (limit *ℤ r) }
{
    match side {
        Side::Below => a < limit * r,
        Side::Above => limit * r < a,
    }
}

/// Whether each coefficient is on that side of the limit times the other form's.
pub fn are_on(side: Side, form: &Form4, limit: i128, raised: &Form4) -> bool
    requires limit { unsigned_abs limit ≤ length_limit * length_limit }
    requires raised { IsBounded4 (18 * (axis_limit * axis_limit)) raised.now.c }
    ensures { result ≡ all_on side (difference4 form.now.c (scaled4 limit raised.now.c)) }
{
    for i in 0..5 {
        if !is_on(side, form.c[i], limit, raised.c[i]) {
            return false;
        }
    }
    true
}
