ghost use Rattle.std.specs.Prelude.{◌≡◌, ◌*◌, ◌≤◌, ◌*ℤ◌, unsigned_abs};
ghost use Rattle.bern_form.specs.Sizes.{axis_limit, length_limit};
ghost use Rattle.cert_boxes.specs.Sides.{is_row_on, limit_bound};

/// A side of a limit.
#[derive(Clone, Copy)]
pub enum Side {
    Below,
    Above,
}

/// A limit times a coefficient of n raised to degree 4.
#[inline]
pub fn limit_times(limit: i128, r: i128) -> i128
    requires limit { unsigned_abs limit ≤ length_limit * length_limit }
    requires r { unsigned_abs r ≤ 18 * (axis_limit * axis_limit) }
    ensures product { result ≡ limit *ℤ r }
    ensures small { unsigned_abs result ≤ limit_bound }
{
    limit * r
}

/// Whether three numbers along the ray are on that side of a number, of its double and of it again.
#[inline]
pub fn is_row_on(side: Side, first: i128, middle: i128, last: i128, once: i128) -> bool
    requires { unsigned_abs once ≤ limit_bound }
    ensures { result ≡ is_row_on side first middle last once }
{
    let twice = 2 * once;
    match side {
        Side::Below => (first < once) & (middle < twice) & (last < once),
        Side::Above => (once < first) & (twice < middle) & (once < last),
    }
}
