ghost use Rattle.std.specs.Prelude.{◌≡◌, ◌*ℤ◌};

/// The product of two numbers of 64 bits, which takes one step of the machine.
#[inline]
pub fn product(a: i64, b: i64) -> i128
    ensures { result ≡ a *ℤ b }
{
    i128::from(a) * i128::from(b)
}
