ghost use Rattle.std.specs.Prelude.{◌≡◌, ℕ, ◌*◌, ◌≤◌, ◌+ℤ◌, ◌*ℤ◌, int_div, pos, unsigned_abs};
ghost use Rattle.bern_form.specs.Sizes.{IsBounded2, offset_limit};
ghost use Rattle.box_bisect.specs.Halved.{first_half, last_half};

use bern_form::Form2;

/// a and half of b, rounded towards zero.
#[inline]
fn half_sum(a: i128, b: i128) -> i128
    requires a { unsigned_abs a ≤ 3 * (offset_limit * offset_limit) }
    requires b { unsigned_abs b ≤ 6 * (offset_limit * offset_limit) }
    ensures value { result ≡ int_div (pos 2 *ℤ a +ℤ b) (pos 2) }
    ensures small { (m : ℕ) → unsigned_abs a ≤ m → unsigned_abs b ≤ 2 * m → unsigned_abs result ≤ 2 * m }
{
    (2 * a + b) / 2
}

/// A quarter of the sum of a, b and c, rounded towards zero.
#[inline]
fn quarter_sum(a: i128, b: i128, c: i128) -> i128
    requires a { unsigned_abs a ≤ 3 * (offset_limit * offset_limit) }
    requires b { unsigned_abs b ≤ 6 * (offset_limit * offset_limit) }
    requires c { unsigned_abs c ≤ 3 * (offset_limit * offset_limit) }
    ensures value { result ≡ int_div ((a +ℤ b) +ℤ c) (pos 4) }
    ensures small { (m : ℕ) → unsigned_abs a ≤ m → unsigned_abs b ≤ 2 * m → unsigned_abs c ≤ m → unsigned_abs result ≤ m }
{
    (a + b + c) / 4
}

/// The coefficients of a form on the first half of its interval, by de Casteljau's halving. Where they are whole numbers the
/// divisions leave nothing.
#[inline]
pub fn first_half(form: &Form2) -> Form2
    requires { IsBounded2 (3 * (offset_limit * offset_limit)) form.now.c }
    ensures half { result.c ≡ first_half form.now.c }
    ensures small { (m : ℕ) → IsBounded2 m form.now.c → IsBounded2 m result.c }
{
    let [a, b, c] = form.c;
    Form2 {
        c: [a, half_sum(a, b), quarter_sum(a, b, c)],
    }
}

/// The coefficients of a form on the last half of its interval.
#[inline]
pub fn last_half(form: &Form2) -> Form2
    requires { IsBounded2 (3 * (offset_limit * offset_limit)) form.now.c }
    ensures half { result.c ≡ last_half form.now.c }
    ensures small { (m : ℕ) → IsBounded2 m form.now.c → IsBounded2 m result.c }
{
    let [a, b, c] = form.c;
    Form2 {
        c: [quarter_sum(a, b, c), half_sum(c, b), c],
    }
}
