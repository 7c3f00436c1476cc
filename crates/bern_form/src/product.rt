ghost use Rattle.std.specs.Prelude.{◌≡◌, ℤ, pos, ◌+ℤ◌, ◌*ℤ◌, ◌-ℤ◌, All};
ghost use Rattle.bern_form.specs.Forms.{IsSmall, value1, value2, value4, product11, product22, lifted, sum2, scaled2, scaled4, difference4};

use crate::form::{Form1, Form2, Form4};

// The conditions of these calls are only about the exact result. Its parts may be larger than what fits, so they are added
// by wrapping steps: where the whole fits, wrapping gives back the exact sum.

/// a * b
fn product(a: i128, b: i128) -> i128
    requires { IsSmall (a *ℤ b) }
    ensures { result ≡ a *ℤ b }
{
    a * b
}

/// a * b + c * d
fn two_products(a: i128, b: i128, c: i128, d: i128) -> i128
    requires { IsSmall (a *ℤ b +ℤ c *ℤ d) }
    ensures { result ≡ a *ℤ b +ℤ c *ℤ d }
{
    a.wrapping_mul(b).wrapping_add(c.wrapping_mul(d))
}

/// a * b + c * d + e * f
fn three_products(a: i128, b: i128, c: i128, d: i128, e: i128, f: i128) -> i128
    requires { IsSmall (a *ℤ b +ℤ c *ℤ d +ℤ e *ℤ f) }
    ensures { result ≡ a *ℤ b +ℤ c *ℤ d +ℤ e *ℤ f }
{
    a.wrapping_mul(b)
        .wrapping_add(c.wrapping_mul(d))
        .wrapping_add(e.wrapping_mul(f))
}

/// a + b
fn sum(a: i128, b: i128) -> i128
    requires { IsSmall (a +ℤ b) }
    ensures { result ≡ a +ℤ b }
{
    a + b
}

/// a - b
fn difference(a: i128, b: i128) -> i128
    requires { IsSmall (a -ℤ b) }
    ensures { result ≡ a -ℤ b }
{
    a - b
}

/// The product of two forms of degree 1: the convolution of their coefficients.
#[inline]
pub fn times11(a: &Form1, b: &Form1) -> Form2
    requires { All IsSmall (product11 a.now.c b.now.c) }
    ensures coefficients { result.c ≡ product11 a.now.c b.now.c }
    ensures value { (x y : ℤ) → value2 result.c x y ≡ value1 a.now.c x y *ℤ value1 b.now.c x y }
{
    let [a0, a1] = a.c;
    let [b0, b1] = b.c;
    Form2 {
        c: [
            product(a0, b0),
            two_products(a0, b1, a1, b0),
            product(a1, b1),
        ],
    }
}

/// The product of two forms of degree 2: the convolution of their coefficients.
#[inline]
pub fn times22(a: &Form2, b: &Form2) -> Form4
    requires { All IsSmall (product22 a.now.c b.now.c) }
    ensures coefficients { result.c ≡ product22 a.now.c b.now.c }
    ensures value { (x y : ℤ) → value4 result.c x y ≡ value2 a.now.c x y *ℤ value2 b.now.c x y }
{
    let [a0, a1, a2] = a.c;
    let [b0, b1, b2] = b.c;
    Form4 {
        c: [
            product(a0, b0),
            two_products(a0, b1, a1, b0),
            three_products(a0, b2, a1, b1, a2, b0),
            two_products(a1, b2, a2, b1),
            product(a2, b2),
        ],
    }
}

/// A form of degree 2 raised to degree 4, by the square of x + y, whose coefficients are 1, 2 and 1.
#[inline]
pub fn lift24(a: &Form2) -> Form4
    requires { All IsSmall (lifted a.now.c) }
    ensures coefficients { result.c ≡ lifted a.now.c }
    ensures value { (x y : ℤ) → value4 result.c x y ≡ value2 a.now.c x y *ℤ ((x +ℤ y) *ℤ (x +ℤ y)) }
{
    times22(a, &Form2 { c: [1, 2, 1] })
}

/// The difference of two forms of degree 4.
#[inline]
pub fn minus4(a: &Form4, b: &Form4) -> Form4
    requires { All IsSmall (difference4 a.now.c b.now.c) }
    ensures coefficients { result.c ≡ difference4 a.now.c b.now.c }
    ensures value { (x y : ℤ) → value4 result.c x y ≡ value4 a.now.c x y -ℤ value4 b.now.c x y }
{
    let [a0, a1, a2, a3, a4] = a.c;
    let [b0, b1, b2, b3, b4] = b.c;
    Form4 {
        c: [
            difference(a0, b0),
            difference(a1, b1),
            difference(a2, b2),
            difference(a3, b3),
            difference(a4, b4),
        ],
    }
}

/// The sum of two forms of degree 2.
#[inline]
pub fn plus2(a: &Form2, b: &Form2) -> Form2
    requires { All IsSmall (sum2 a.now.c b.now.c) }
    ensures coefficients { result.c ≡ sum2 a.now.c b.now.c }
    ensures value { (x y : ℤ) → value2 result.c x y ≡ value2 a.now.c x y +ℤ value2 b.now.c x y }
{
    let [a0, a1, a2] = a.c;
    let [b0, b1, b2] = b.c;
    Form2 {
        c: [sum(a0, b0), sum(a1, b1), sum(a2, b2)],
    }
}

/// A form of degree 2 times a number.
#[inline]
pub fn scale2(a: &Form2, by: i128) -> Form2
    requires { All IsSmall (scaled2 by a.now.c) }
    ensures coefficients { result.c ≡ scaled2 by a.now.c }
    ensures value { (x y : ℤ) → value2 result.c x y ≡ by *ℤ value2 a.now.c x y }
{
    let [a0, a1, a2] = a.c;
    Form2 {
        c: [product(by, a0), product(by, a1), product(by, a2)],
    }
}

/// A form of degree 4 times a number.
#[inline]
pub fn scale4(a: &Form4, by: i128) -> Form4
    requires { All IsSmall (scaled4 by a.now.c) }
    ensures coefficients { result.c ≡ scaled4 by a.now.c }
    ensures value { (x y : ℤ) → value4 result.c x y ≡ by *ℤ value4 a.now.c x y }
{
    let [a0, a1, a2, a3, a4] = a.c;
    Form4 {
        c: [
            product(by, a0),
            product(by, a1),
            product(by, a2),
            product(by, a3),
            product(by, a4),
        ],
    }
}
