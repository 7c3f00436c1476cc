ghost use Rattle.std.specs.Prelude.{◌≡◌, ◌*◌, ◌<◌, ◌≤◌, ◌*ℤ◌, ℤ, pos, ◌≤ℤ◌, ◌+ℤ◌, ◌^◌, unsigned_abs, true};
ghost use Rattle.space.specs.Ranges.{vector_limit};
ghost use Rattle.space.specs.Vectors.{at};

/// The square of a number's length.
#[inline]
fn square(a: i128) -> i128
    requires { unsigned_abs a ≤ 4 * (vector_limit * vector_limit) }
    ensures value { result ≡ a *ℤ a }
    ensures some { pos 0 ≤ℤ result }
    ensures small { unsigned_abs result ≤ 4 * (vector_limit * vector_limit) * (4 * (vector_limit * vector_limit)) }
{
    a * a
}

/// A length that a vector with these components is not longer than: the root of the squares' sum, rounded up.
pub fn length_up(a: i128, b: i128, c: i128) -> i128
    requires a { unsigned_abs a ≤ 4 * (vector_limit * vector_limit) }
    requires b { unsigned_abs b ≤ 4 * (vector_limit * vector_limit) }
    requires c { unsigned_abs c ≤ 4 * (vector_limit * vector_limit) }
    ensures value { ((a *ℤ a +ℤ b *ℤ b) +ℤ c *ℤ c) ≤ℤ (result *ℤ result) }
    ensures some { pos 0 ≤ℤ result }
    ensures small { unsigned_abs result ≤ 10 ^ 18 }
{
    root_up(square(a) + square(b) + square(c))
}

/// The greatest number of 64 bits. Most squares are no greater, and their roots are found in words of 64 bits.
const SHORT: i128 = 18_446_744_073_709_551_615;

/// The square root of a number of 64 bits, rounded up, by the kit's root.
fn exact_root_up(n: u64) -> u64
    ensures value { n ≤ result * result }
    ensures small { result ≤ 2 ^ 32 }
{
    let below = n.isqrt();
    if below * below == n { below } else { below + 1 }
}

/// The square root of a number of at most 16, rounded up.
#[inline]
fn tiny_root_up(n: u64) -> u64
    requires { n ≤ 16 }
    ensures value { n ≤ result * result }
    ensures small { result ≤ 2 ^ 32 }
{
    if n <= 1 {
        n
    } else if n <= 4 {
        2
    } else if n <= 9 {
        3
    } else {
        4
    }
}

/// A number near a square root, for Newton's rule to begin with: a line from a power of four to the next one, which stays within a
/// thirtieth of the root, and two more, so that no divisor is less than two.
#[inline]
fn first_guess(n: u64) -> u64
    requires { 1 ≤ n }
    ensures some { 2 ≤ result }
    ensures few { result ≤ 2 ^ 63 }
{
    let half = n.ilog2() / 2;
    ((2 << half) + (n >> half)) * 11 / 32 + 2
}

/// A number nearer to a square root than this one, by Newton's rule. It is at least the root rounded down, whatever number this was.
#[inline]
fn nearer(root: u64, n: u64) -> u64
    requires some { 2 ≤ root }
    requires few { root ≤ 2 ^ 63 }
    requires many { 16 ≤ n }
    ensures some { 2 ≤ result }
    ensures few { result ≤ 2 ^ 63 }
{
    (root + n / root) / 2
}

/// Whether a number has 32 bits and a square that is at least this.
#[inline]
fn is_enough(root: u64, n: u64) -> bool
    ensures { result ≡ true → (root < 2 ^ 32) × (n ≤ root * root) }
{
    root < 1 << 32 && n <= root * root
}

/// At least the square root of a number of 64 bits. The kit's root is found bit by bit, and two steps of Newton's rule from a good guess
/// are much quicker. They end no lower than the root rounded down, and above it by less than a millionth of it. A bound need not be the
/// least one, and so that nothing has to be proved of the steps, the square is tested. It is too small only at the very last numbers of
/// 64 bits, and their root is found exactly.
fn quick_root_up(n: u64) -> u64
    ensures value { n ≤ result * result }
    ensures small { result ≤ 2 ^ 32 }
{
    if n < 16 {
        return tiny_root_up(n);
    }
    let near = nearer(nearer(first_guess(n), n), n);
    if is_enough(near, n) {
        near
    } else if is_enough(near + 1, n) {
        near + 1
    } else {
        exact_root_up(n)
    }
}

/// At least the square root of a number of 64 bits, as a length.
#[inline]
fn short_root_up(n: u64) -> i128
    ensures value { pos n ≤ℤ (result *ℤ result) }
    ensures some { pos 0 ≤ℤ result }
    ensures small { unsigned_abs result ≤ 10 ^ 18 }
{
    i128::from(quick_root_up(n))
}

/// No root here is greater.
const MOST_ROOT: i128 = 1_000_000_000_000_000_000;

/// The lesser of a root and the most that there is.
#[inline]
fn limited(root: i128) -> i128
    requires { pos 0 ≤ℤ root }
    ensures value { (n : ℤ) → n ≤ℤ (root *ℤ root) → n ≤ℤ pos (10 ^ 36) → n ≤ℤ (result *ℤ result) }
    ensures some { pos 0 ≤ℤ result }
    ensures small { unsigned_abs result ≤ 10 ^ 18 }
{
    if root < MOST_ROOT { root } else { MOST_ROOT }
}

/// At least the square root of a number of more than 64 bits: the root of how often the unit's square goes into it, with one added
/// for the rest, times the unit.
#[inline]
fn root_in(n: u128, unit: u128) -> i128
    requires small { n ≤ 10 ^ 36 }
    requires some { 1 ≤ unit }
    requires few { unit ≤ 2 ^ 29 }
    requires enough { n < 2 ^ 63 * (unit * unit) }
    ensures value { pos n ≤ℤ (result *ℤ result) }
    ensures some { pos 0 ≤ℤ result }
    ensures small { unsigned_abs result ≤ 10 ^ 18 }
{
    let part = (n / (unit * unit)) as u64 + 1;
    limited(short_root_up(part) * unit as i128)
}

/// The square root, rounded up. That of a number of more than 64 bits is found from its first bits, which is much quicker: it is greater
/// by less than one part in ten million.
pub fn root_up(n: i128) -> i128
    requires some { pos 0 ≤ℤ n }
    requires small { unsigned_abs n ≤ 10 ^ 36 }
    ensures value { n ≤ℤ (result *ℤ result) }
    ensures some { pos 0 ≤ℤ result }
    ensures small { unsigned_abs result ≤ 10 ^ 18 }
{
    if n <= SHORT {
        return short_root_up(n as u64);
    }
    let whole = n as u128;
    if whole < 1 << 79 {
        root_in(whole, 1 << 8)
    } else if whole < 1 << 95 {
        root_in(whole, 1 << 16)
    } else if whole < 1 << 111 {
        root_in(whole, 1 << 24)
    } else {
        root_in(whole, 1 << 29)
    }
}

/// The square root, rounded down.
pub fn root_down(n: i128) -> i128
    requires some { pos 0 ≤ℤ n }
    requires small { n ≤ℤ pos (10 ^ 18) }
    ensures value { (result *ℤ result) ≤ℤ n }
    ensures some { pos 0 ≤ℤ result }
    ensures small { unsigned_abs result ≤ 10 ^ 9 }
{
    i128::from((n as u64).isqrt())
}
