ghost use Rattle.std.specs.Prelude.{◌≡◌, ◌<◌, ◌^◌, IfSome};
ghost use Rattle.stock_file.specs.Numbers.{below_zero, has_spare_zero, plain_number, signed_number};

use vf_text::read_count;

/// The most digits of a number.
const MAX_DIGITS: usize = 9;

/// The number that a word is, without a spare zero.
pub(crate) fn read_plain(word: &[u8]) -> Option<u32>
    ensures number { result ≡ plain_number word.now }
    ensures small { IfSome result (λ n. n < 10 ^ 9) }
{
    if has_spare_zero(word) {
        return None;
    }
    read_count(word, MAX_DIGITS)
}

/// Whether the first of several bytes is a zero.
fn has_spare_zero(word: &[u8]) -> bool
    ensures { result ≡ has_spare_zero word.now }
{
    match word {
        [first, _, ..] => *first == b'0',
        _ => false,
    }
}

/// The number that a word is, with or without a sign.
pub(crate) fn read_signed(word: &[u8]) -> Option<i32>
    ensures { result ≡ signed_number word.now }
{
    let (first, digits) = word.split_first()?;
    if *first == b'-' {
        return below_zero(read_plain(digits)?);
    }
    Some(read_plain(word)? as i32)
}

/// The number below zero with these digits, unless it is zero.
fn below_zero(n: u32) -> Option<i32>
    requires { n < 10 ^ 9 }
    ensures { result ≡ below_zero (Some n) }
{
    if n == 0 {
        return None;
    }
    Some(-(n as i32))
}
