ghost use Rattle.std.specs.Prelude.{◌≡◌, ◌*◌, ◌≤◌, unsigned_abs};
ghost use Rattle.bern_form.specs.Sizes.{IsBounded2};
ghost use Rattle.width_bisect.specs.Halved.{first2, first4, fourth4, last2, last4, middle2, middle4, second2, second4, third4};
ghost use Rattle.width_bisect.specs.Sizes.{IsWeighted4, height_limit, width_limit};

// The coefficients of a form on either half of its interval, by de Casteljau's halving. Where they are whole numbers the shifts lose
// nothing. The last half is the first one read backwards.

#[inline]
fn second2(a: i64, b: i64) -> i64
    requires a { unsigned_abs a ≤ height_limit }
    requires b { unsigned_abs b ≤ 2 * height_limit }
    ensures { result ≡ second2 a b }
{
    (2 * a + b) >> 1
}

#[inline]
fn middle2(a: i64, b: i64, c: i64) -> i64
    requires a { unsigned_abs a ≤ height_limit }
    requires b { unsigned_abs b ≤ 2 * height_limit }
    requires c { unsigned_abs c ≤ height_limit }
    ensures { result ≡ middle2 a b c }
{
    (a + b + c) >> 2
}

/// Of degree 2, on the first half.
#[inline]
pub fn first2(form: &[i64; 3]) -> [i64; 3]
    requires { IsBounded2 height_limit form.now }
    ensures { result ≡ first2 form.now }
{
    let [a, b, c] = *form;
    [a, second2(a, b), middle2(a, b, c)]
}

/// Of degree 2, on the last half.
#[inline]
pub fn last2(form: &[i64; 3]) -> [i64; 3]
    requires { IsBounded2 height_limit form.now }
    ensures { result ≡ last2 form.now }
{
    let [a, b, c] = *form;
    [middle2(a, b, c), second2(c, b), c]
}

#[inline]
fn second4(a: i128, b: i128) -> i128
    requires a { unsigned_abs a ≤ width_limit }
    requires b { unsigned_abs b ≤ 4 * width_limit }
    ensures { result ≡ second4 a b }
{
    (4 * a + b) >> 1
}

#[inline]
fn third4(a: i128, b: i128, c: i128) -> i128
    requires a { unsigned_abs a ≤ width_limit }
    requires b { unsigned_abs b ≤ 4 * width_limit }
    requires c { unsigned_abs c ≤ 6 * width_limit }
    ensures { result ≡ third4 a b c }
{
    (6 * a + 3 * b + c) >> 2
}

#[inline]
fn fourth4(a: i128, b: i128, c: i128, d: i128) -> i128
    requires a { unsigned_abs a ≤ width_limit }
    requires b { unsigned_abs b ≤ 4 * width_limit }
    requires c { unsigned_abs c ≤ 6 * width_limit }
    requires d { unsigned_abs d ≤ 4 * width_limit }
    ensures { result ≡ fourth4 a b c d }
{
    (4 * a + 3 * b + 2 * c + d) >> 3
}

#[inline]
fn middle4(a: i128, b: i128, c: i128, d: i128, e: i128) -> i128
    requires a { unsigned_abs a ≤ width_limit }
    requires b { unsigned_abs b ≤ 4 * width_limit }
    requires c { unsigned_abs c ≤ 6 * width_limit }
    requires d { unsigned_abs d ≤ 4 * width_limit }
    requires e { unsigned_abs e ≤ width_limit }
    ensures { result ≡ middle4 a b c d e }
{
    (a + b + c + d + e) >> 4
}

/// Of degree 4, on the first half.
#[inline]
pub fn first4(form: &[i128; 5]) -> [i128; 5]
    requires { IsWeighted4 width_limit form.now }
    ensures { result ≡ first4 form.now }
{
    let [a, b, c, d, e] = *form;
    [
        a,
        second4(a, b),
        third4(a, b, c),
        fourth4(a, b, c, d),
        middle4(a, b, c, d, e),
    ]
}

/// Of degree 4, on the last half.
#[inline]
pub fn last4(form: &[i128; 5]) -> [i128; 5]
    requires { IsWeighted4 width_limit form.now }
    ensures { result ≡ last4 form.now }
{
    let [a, b, c, d, e] = *form;
    [
        middle4(a, b, c, d, e),
        fourth4(e, d, c, b),
        third4(e, d, c),
        second4(e, d),
        e,
    ]
}
