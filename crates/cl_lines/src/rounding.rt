ghost use Rattle.std.specs.Prelude.{◌≡◌, ◌+◌, ◌*◌, ◌/◌, ◌^◌, ◌<◌, ◌≤◌, MatchOption};
ghost use Rattle.cl_lines.specs.Rounding.{nearest, scaled};

/// From this power of ten downwards every number that is read rounds to 0.
const LARGEST_DIVISOR: u32 = 30;

/// digits * factor * 10^up / 10^down to the nearest whole number, halves up, where that is at most `most`.
pub(crate) fn rounded(digits: u128, factor: u128, up: u32, down: u32, most: u128) -> Option<u128>
    requires digits { digits < 10 ^ 20 }
    requires factor { factor ≤ 100000 }
    requires most { most ≤ 10 ^ 30 }
    ensures { MatchOption result (most < scaled digits factor up down) (λ r. (r ≡ scaled digits factor up down) × (r ≤ most)) }
{
    let n = digits * factor;
    if up >= down {
        raised(n, up - down, most)
    } else {
        let value = lowered(n, down - up);
        if value > most { None } else { Some(value) }
    }
}

/// n * 10^up, where that is at most `most`. It stops as soon as the number passes that.
fn raised(n: u128, up: u32, most: u128) -> Option<u128>
    requires { most ≤ 10 ^ 30 }
    ensures { MatchOption result (most < n * 10 ^ up) (λ r. (r ≡ n * 10 ^ up) × (r ≤ most)) }
{
    let mut value = n;
    for i in 0..up {
        if value == 0 {
            return Some(0);
        }
        if value > most {
            return None;
        }
        value *= 10;
    }
    if value > most { None } else { Some(value) }
}

/// n / 10^down to the nearest whole number, halves up.
fn lowered(n: u128, down: u32) -> u128
    requires { n < 10 ^ 26 }
    ensures { result ≡ nearest n (10 ^ down) }
{
    if down > LARGEST_DIVISOR {
        return 0;
    }
    if n <= SHORT_NUMBER && down <= SHORT_POWER {
        return lowered_short(n as u64, down) as u128;
    }
    let power = 10u128.pow(down);
    (2 * n + power) / (2 * power)
}

/// Up to here a number and a power of ten are divided in 64 bits, which is faster.
const SHORT_NUMBER: u128 = 4_000_000_000_000_000_000;

const SHORT_POWER: u32 = 18;

/// The same in 64 bits.
fn lowered_short(n: u64, down: u32) -> u64
    requires n { n ≤ 4000000000000000000 }
    requires down { down ≤ SHORT_POWER }
    ensures { result ≡ nearest n (10 ^ down) }
{
    let divisor = 10u64.pow(down);
    (2 * n + divisor) / (2 * divisor)
}
