ghost use Rattle.std.specs.Prelude.{◌≡◌, ◌<◌, ℕ, pos, ◌<ℤ◌, IsTrue, length};
ghost use Rattle.bern_form.specs.Forms.{IsPlace};
ghost use Rattle.bern_form.specs.Grids.{row, rows_negative, rows_positive, value21, value42};

use crate::sign::{each_above, each_below};

// What is said of a form on an interval holds of a grid on a square: along each row the coefficients of one sign give values of
// that sign, and these are the coefficients of a form in time.

/// Coefficients of degree 2 in time and 1 along a line: the sum of `c[k][m] * x^k * y^(2-k) * v^m * w^(1-m)`, where x stands for
/// the time t and y for 1 - t, v for the place s between two points of the line and w for 1 - s.
#[derive(Clone, Copy)]
pub struct Grid21 {
    pub c: [[i128; 2]; 3],
}

/// Coefficients of degree 4 in time and 2 along a line: the sum of `c[k][m] * x^k * y^(4-k) * v^m * w^(2-m)`.
#[derive(Clone, Copy)]
pub struct Grid42 {
    pub c: [[i128; 3]; 5],
}

/// Whether every number of every row is above 0.
#[inline]
fn each_row_above<const Q: usize>(rows: &[[i128; Q]]) -> bool
    ensures exact { result ≡ rows_positive rows.now }
    ensures width { IsTrue result → (k : ℕ) → k < length rows.now → length (row rows.now k) ≡ Q }
{
    for row in rows {
        if !each_above(row) {
            return false;
        }
    }
    true
}

/// Whether every number of every row is below 0.
#[inline]
fn each_row_below<const Q: usize>(rows: &[[i128; Q]]) -> bool
    ensures exact { result ≡ rows_negative rows.now }
    ensures width { IsTrue result → (k : ℕ) → k < length rows.now → length (row rows.now k) ≡ Q }
{
    for row in rows {
        if !each_below(row) {
            return false;
        }
    }
    true
}

impl Grid21 {
    /// Whether every coefficient is above 0.
    pub fn all_positive(&self) -> bool
        ensures exact { result ≡ rows_positive self.now.c }
        ensures square { IsTrue result → (x y v w : ℕ) → IsPlace x y → IsPlace v w
            → pos 0 <ℤ value21 self.now.c (pos x) (pos y) (pos v) (pos w) }
    {
        each_row_above(&self.c)
    }

    /// Whether every coefficient is below 0.
    pub fn all_negative(&self) -> bool
        ensures exact { result ≡ rows_negative self.now.c }
        ensures square { IsTrue result → (x y v w : ℕ) → IsPlace x y → IsPlace v w
            → value21 self.now.c (pos x) (pos y) (pos v) (pos w) <ℤ pos 0 }
    {
        each_row_below(&self.c)
    }
}

impl Grid42 {
    /// Whether every coefficient is above 0.
    pub fn all_positive(&self) -> bool
        ensures exact { result ≡ rows_positive self.now.c }
        ensures square { IsTrue result → (x y v w : ℕ) → IsPlace x y → IsPlace v w
            → pos 0 <ℤ value42 self.now.c (pos x) (pos y) (pos v) (pos w) }
    {
        each_row_above(&self.c)
    }

    /// Whether every coefficient is below 0.
    pub fn all_negative(&self) -> bool
        ensures exact { result ≡ rows_negative self.now.c }
        ensures square { IsTrue result → (x y v w : ℕ) → IsPlace x y → IsPlace v w
            → value42 self.now.c (pos x) (pos y) (pos v) (pos w) <ℤ pos 0 }
    {
        each_row_below(&self.c)
    }
}
