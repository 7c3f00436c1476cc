ghost use Rattle.std.specs.Prelude.{◌≡◌, ◌+◌, ◌*◌, ◌^◌, ◌<◌, ◌≤◌, length, true, IfSome};
ghost use Rattle.std.specs.Char.{is_ascii_digit};
ghost use Rattle.std.specs.List.{list_all, prefix_len};
ghost use Rattle.vf_text.specs.Digits.{count_digits, digits_of, number_spelt, spelt};

/// The number that a text spells of 1 to `most` digits and nothing else.
pub fn read_count(digits: &[u8], most: usize) -> Option<u32>
    requires { most ≤ count_digits }
    ensures number { result ≡ number_spelt most digits.now }
    ensures bound { IfSome result (λ n. n < 10 ^ most) }
{
    if digits.is_empty() || digits.len() > most || !has_only_digits(digits) {
        return None;
    }
    Some(spell(0, digits) as u32)
}

/// Whether a text has nothing but digits.
fn has_only_digits(text: &[u8]) -> bool
    ensures { result ≡ list_all is_ascii_digit text.now }
{
    text.iter().all(|b| b.is_ascii_digit())
}

/// The longest run of digits in front, and what follows it.
pub fn split_digits(text: &[u8]) -> (&[u8], &[u8])
    ensures run { result.0.now ≡ (digits_of text.now).0 }
    ensures behind { result.1.now ≡ (digits_of text.now).1 }
    ensures digits { list_all is_ascii_digit result.0.now ≡ true }
{
    text.split_at(digit_count(text))
}

/// How many digits are in front.
pub fn digit_count(text: &[u8]) -> usize
    ensures count { result ≡ prefix_len is_ascii_digit text.now }
    ensures within { result ≤ length text.now }
{
    for (i, b) in text.iter().enumerate() {
        if !b.is_ascii_digit() {
            return i;
        }
    }
    text.len()
}

/// The number that a few digits spell after those of `n`.
pub fn spell(n: u64, digits: &[u8]) -> u64
    requires digits { list_all is_ascii_digit digits.now ≡ true }
    requires fits { (n + 1) * 10 ^ length digits.now ≤ 10 ^ 18 }
    ensures spelt { result ≡ spelt n digits.now }
    ensures bound { result < (n + 1) * 10 ^ length digits.now }
{
    let mut value = n;
    for digit in digits {
        value = 10 * value + u64::from(*digit - b'0');
    }
    value
}
