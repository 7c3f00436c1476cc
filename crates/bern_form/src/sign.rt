ghost use Rattle.std.specs.Prelude.{◌≡◌, ℕ, pos, ◌<ℤ◌, IsTrue};
ghost use Rattle.bern_form.specs.Forms.{IsPlace, all_negative, all_positive, value2, value4};

use crate::form::{Form2, Form4};

// A form whose coefficients share a strict sign has that sign at every rational place of the interval, ends included: each
// product x^k * y^(n-k) is not below 0 there, and one of x^n and y^n is above 0.

/// Whether every number is above 0.
#[inline]
pub(crate) fn each_above(numbers: &[i128]) -> bool
    ensures { result ≡ all_positive numbers.now }
{
    numbers.iter().all(|c| *c > 0)
}

/// Whether every number is below 0.
#[inline]
pub(crate) fn each_below(numbers: &[i128]) -> bool
    ensures { result ≡ all_negative numbers.now }
{
    numbers.iter().all(|c| *c < 0)
}

impl Form2 {
    /// Whether every coefficient is above 0.
    #[inline]
    #[tactic(auto, using(crate::proofs::Signs::tested_positive2))]
    pub fn all_positive(&self) -> bool
        ensures exact { result ≡ all_positive self.now.c }
        ensures interval { IsTrue result → (x y : ℕ) → IsPlace x y → pos 0 <ℤ value2 self.now.c (pos x) (pos y) }
    {
        each_above(&self.c)
    }

    /// Whether every coefficient is below 0.
    #[inline]
    #[tactic(auto, using(crate::proofs::Signs::tested_negative2))]
    pub fn all_negative(&self) -> bool
        ensures exact { result ≡ all_negative self.now.c }
        ensures interval { IsTrue result → (x y : ℕ) → IsPlace x y → value2 self.now.c (pos x) (pos y) <ℤ pos 0 }
    {
        each_below(&self.c)
    }
}

impl Form4 {
    /// Whether every coefficient is above 0.
    #[inline]
    #[tactic(auto, using(crate::proofs::Signs::tested_positive4))]
    pub fn all_positive(&self) -> bool
        ensures exact { result ≡ all_positive self.now.c }
        ensures interval { IsTrue result → (x y : ℕ) → IsPlace x y → pos 0 <ℤ value4 self.now.c (pos x) (pos y) }
    {
        each_above(&self.c)
    }

    /// Whether every coefficient is below 0.
    #[inline]
    #[tactic(auto, using(crate::proofs::Signs::tested_negative4))]
    pub fn all_negative(&self) -> bool
        ensures exact { result ≡ all_negative self.now.c }
        ensures interval { IsTrue result → (x y : ℕ) → IsPlace x y → value4 self.now.c (pos x) (pos y) <ℤ pos 0 }
    {
        each_below(&self.c)
    }
}
