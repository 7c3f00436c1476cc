ghost use Rattle.std.specs.Prelude.{◌≡◌, ◌*◌, ◌^◌, ◌<◌, ◌≤◌, Some, IfOk, IfSome, MatchOption, option_map};
ghost use Rattle.space.specs.Ranges.{IsBetween};
ghost use Rattle.cl_lines.specs.Numbers.{bounded, length_of, most_digits, scaled_of, whole_of, with_sign};
ghost use Rattle.cl_lines.specs.Rounding.{scaled};

use crate::decimal::{Decimal, number};
use crate::rounding::rounded;

/// The unit of the lengths in a text.
#[derive(Clone, Copy)]
pub enum Unit {
    Mm,
    Inch,
}

/// Why a text gives no number.
#[derive(Clone, Copy)]
pub enum NumberFault {
    /// The text is no number.
    Syntax,
    /// The rounded number is out of its range.
    Range,
}

/// Reads a length and rounds it to whole micrometres, halves away from zero.
pub fn read_length(text: &[u8], unit: Unit, least: i32, most: i32) -> Result<i32, NumberFault>
    ensures length { result ≡ length_of unit least most text.now }
    ensures range { IfOk result (IsBetween least most) }
{
    match unit {
        Unit::Mm => bounded_number(number(text), 1, 3, least, most),
        Unit::Inch => bounded_number(number(text), 254, 2, least, most),
    }
}

/// Reads a number and rounds it to 1/100,000, halves away from zero.
pub fn read_scaled(text: &[u8], least: i32, most: i32) -> Result<i32, NumberFault>
    ensures number { result ≡ scaled_of least most text.now }
    ensures range { IfOk result (IsBetween least most) }
{
    bounded_number(number(text), 1, 5, least, most)
}

/// The number times base * 10^power, rounded, where it lies between the bounds.
fn bounded_number(
    number: Option<Decimal>,
    base: u128,
    power: u32,
    least: i32,
    most: i32,
) -> Result<i32, NumberFault>
    requires digits { IfSome number (λ n. n.digits < 10 ^ most_digits) }
    requires up { IfSome number (λ n. n.up < 100) }
    requires base { base ≤ 1000 }
    requires power { power ≤ 5 }
    ensures value { result ≡ bounded least most (option_map (whole_of (base * 10 ^ power)) number) }
    ensures range { IfOk result (IsBetween least most) }
{
    let Some(number) = number else {
        return Err(NumberFault::Syntax);
    };
    match rounded_size(number, base, power) {
        Some(size) => within(signed_size(number.negative, size), least, most),
        None => Err(NumberFault::Range),
    }
}

/// The size of a number times base * 10^power, rounded, where any range holds it. The power is added to the number's own, so
/// that a small number is divided by a small one.
fn rounded_size(number: Decimal, base: u128, power: u32) -> Option<u128>
    requires digits { number.digits < 10 ^ most_digits }
    requires up { number.up < 100 }
    requires base { base ≤ 1000 }
    requires power { power ≤ 5 }
    ensures { MatchOption result
        (LARGEST_SIZE < scaled number.digits (base * 10 ^ power) number.up number.down)
        (λ r. (r ≡ scaled number.digits (base * 10 ^ power) number.up number.down) × (r ≤ LARGEST_SIZE)) }
{
    rounded(
        number.digits,
        base,
        number.up + power,
        number.down,
        LARGEST_SIZE,
    )
}

/// The greatest size that any range holds.
const LARGEST_SIZE: u128 = 2_147_483_648;

/// The size with its sign.
fn signed_size(negative: bool, size: u128) -> i64
    requires { size ≤ LARGEST_SIZE }
    ensures { result ≡ with_sign negative size }
{
    let size = size as i64;
    if negative { -size } else { size }
}

/// A value, where it lies between the bounds.
fn within(value: i64, least: i32, most: i32) -> Result<i32, NumberFault>
    ensures value { result ≡ bounded least most (Some value) }
    ensures range { IfOk result (IsBetween least most) }
{
    if value < i64::from(least) || value > i64::from(most) {
        Err(NumberFault::Range)
    } else {
        Ok(value as i32)
    }
}
