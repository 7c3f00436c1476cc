ghost use Rattle.std.specs.Prelude.{◌≡◌, ◌+◌, ◌*◌, ◌^◌, ◌<◌, ◌≤◌, ◌++◌, length, true, IfSome};
ghost use Rattle.std.specs.Char.{is_ascii_digit};
ghost use Rattle.std.specs.List.{list_all};
ghost use Rattle.vf_text.specs.Digits.{spelt};
ghost use Rattle.cl_lines.specs.Numbers.{exponent_of, fraction_of, most_digits, number_of, power_of, signed};

use vf_text::{read_count, spell, split_digits};

/// A decimal number as it is written: its digits, times 10^up, divided by 10^down.
#[derive(Clone, Copy)]
pub struct Decimal {
    pub negative: bool,
    pub digits: u128,
    pub up: u32,
    pub down: u32,
}

/// The most digits of a number.
const MAX_DIGITS: usize = 20;

/// The most digits of an exponent.
const EXPONENT_DIGITS: usize = 2;

/// The decimal number that a text stands for.
pub(crate) fn number(text: &[u8]) -> Option<Decimal>
    ensures number { result ≡ number_of text.now }
    ensures digits { IfSome result (λ n. n.digits < 10 ^ most_digits) }
    ensures up { IfSome result (λ n. n.up < 100) }
{
    let (negative, behind_sign) = behind_sign(text);
    let (whole, behind_whole) = split_digits(behind_sign);
    let (fraction, behind_fraction) = split_fraction(behind_whole);
    let count = whole.len() + fraction.len();
    if count == 0 || count > MAX_DIGITS {
        return None;
    }
    let (up, down) = exponent(behind_fraction)?;
    Some(Decimal {
        negative,
        digits: spell_both(whole, fraction),
        up,
        down: fraction.len() as u32 + down,
    })
}

/// Whether a minus sign is in front, and what follows the sign.
fn behind_sign(text: &[u8]) -> (bool, &[u8])
    ensures sign { result.0 ≡ (signed text.now).0 }
    ensures behind { result.1.now ≡ (signed text.now).1 }
{
    match text {
        [b'-', behind @ ..] => (true, behind),
        [b'+', behind @ ..] => (false, behind),
        _ => (false, text),
    }
}

/// The digits after a point, and what follows them.
fn split_fraction(text: &[u8]) -> (&[u8], &[u8])
    ensures run { result.0.now ≡ (fraction_of text.now).0 }
    ensures behind { result.1.now ≡ (fraction_of text.now).1 }
    ensures digits { list_all is_ascii_digit result.0.now ≡ true }
{
    match text {
        [b'.', behind @ ..] => split_digits(behind),
        _ => text.split_at(0),
    }
}

/// The power of ten that an exponent stands for: one to multiply by and one to divide by.
fn exponent(text: &[u8]) -> Option<(u32, u32)>
    ensures power { result ≡ exponent_of text.now }
    ensures small { IfSome result (λ power. (power.0 < 100) × (power.1 < 100)) }
{
    match text {
        [] => Some((0, 0)),
        [b'E' | b'e', behind @ ..] => power(behind),
        _ => None,
    }
}

/// The power of ten of one or two digits with a sign.
fn power(text: &[u8]) -> Option<(u32, u32)>
    ensures power { result ≡ power_of (signed text.now) }
    ensures small { IfSome result (λ power. (power.0 < 100) × (power.1 < 100)) }
{
    let (negative, digits) = behind_sign(text);
    let size = read_count(digits, EXPONENT_DIGITS)?;
    Some(if negative { (0, size) } else { (size, 0) })
}

/// The number that the digits before the point and those after it spell together.
fn spell_both(whole: &[u8], fraction: &[u8]) -> u128
    requires whole { list_all is_ascii_digit whole.now ≡ true }
    requires fraction { list_all is_ascii_digit fraction.now ≡ true }
    requires few { length whole.now + length fraction.now ≤ most_digits }
    ensures spelt { result ≡ spelt 0 (whole.now ++ fraction.now) }
    ensures bound { result < 10 ^ most_digits }
{
    if whole.len() + fraction.len() <= SHORT_DIGITS {
        spell(spell(0, whole), fraction) as u128
    } else {
        spell_long(spell_long(0, whole), fraction)
    }
}

/// Numbers of no more digits are computed in 64 bits, which is faster.
const SHORT_DIGITS: usize = 18;

/// The number that the digits spell after those of `n`.
fn spell_long(n: u128, digits: &[u8]) -> u128
    requires digits { list_all is_ascii_digit digits.now ≡ true }
    requires fits { (n + 1) * 10 ^ length digits.now ≤ 10 ^ most_digits }
    ensures spelt { result ≡ spelt n digits.now }
    ensures bound { result < (n + 1) * 10 ^ length digits.now }
{
    let mut value = n;
    for digit in digits {
        value = 10 * value + u128::from(*digit - b'0');
    }
    value
}
