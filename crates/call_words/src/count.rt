ghost use Rattle.std.specs.Prelude.{◌≡◌, ◌≤◌, IfSome};
ghost use Rattle.vf_text.specs.Digits.{count_digits, number_spelt};
ghost use Rattle.call_words.specs.Words.{within};

use vf_text::read_count;

/// A count of at most `places` digits, between two bounds, both included.
pub fn read_within(least: u32, most: u32, places: usize, word: &str) -> Option<u32>
    requires { places ≤ count_digits }
    ensures count { result ≡ within least most (number_spelt places word.now) }
    ensures least { IfSome result (λ n. least ≤ n) }
    ensures most { IfSome result (λ n. n ≤ most) }
{
    let n = read_count(word.as_bytes(), places)?;
    if least <= n && n <= most {
        Some(n)
    } else {
        None
    }
}
