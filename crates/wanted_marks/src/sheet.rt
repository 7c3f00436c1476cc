ghost use Rattle.std.specs.Prelude.{◌≡◌, ◌≤◌, pos, ◌+ℤ◌, ◌*ℤ◌, All};
ghost use Rattle.bern_form.specs.Forms.{IsSmall, scaled4};
ghost use Rattle.wanted_marks.specs.Lines.{FitsAt, heights_at, width_at};
ghost use Rattle.wanted_marks.specs.Sheets.{FitsOn, IsLineOn};
ghost use Rattle.wanted_marks.specs.Widths.{moved5};

use crate::line::{Line, quadratic, wrapped};
use crate::moments::{heights_moved, moved};
use bern_form::{Form2, Form4};
use moment_forms::Moments;

/// a + b l. The parts may be larger than what fits: where the whole fits, wrapping gives back the exact sum.
#[inline]
fn linear(a: i128, b: i128, l: u32) -> i128
    requires { IsSmall (a +ℤ pos l *ℤ b) }
    ensures { result ≡ a +ℤ pos l *ℤ b }
{
    wrapped(a, i128::from(l), b)
}

/// a + b l, coefficient by coefficient of degree 4.
pub fn moved4(a: &Form4, b: &Form4, l: u32) -> Form4
    requires { All IsSmall (moved5 a.now.c b.now.c (pos l)) }
    ensures { result.c ≡ moved5 a.now.c b.now.c (pos l) }
{
    let [a0, a1, a2, a3, a4] = a.c;
    let [b0, b1, b2, b3, b4] = b.c;
    Form4 {
        c: [
            linear(a0, b0, l),
            linear(a1, b1, l),
            linear(a2, b2, l),
            linear(a3, b3, l),
            linear(a4, b4, l),
        ],
    }
}

/// A coefficient taken k times.
#[inline]
fn taken(b: i128, k: u32) -> i128
    requires { IsSmall (pos k *ℤ b) }
    ensures { result ≡ pos k *ℤ b }
{
    linear(0, b, k)
}

/// A form of degree 4 taken k times.
pub fn times4(b: &Form4, k: u32) -> Form4
    requires { All IsSmall (scaled4 (pos k) b.now.c) }
    ensures { result.c ≡ scaled4 (pos k) b.now.c }
{
    let [b0, b1, b2, b3, b4] = b.c;
    Form4 {
        c: [
            taken(b0, k),
            taken(b1, k),
            taken(b2, k),
            taken(b3, k),
            taken(b4, k),
        ],
    }
}

/// u of the point l steps on along a line.
pub fn heights_on(line: &Line, l: u32) -> Form2
    requires { FitsAt line.now (pos l) }
    ensures { result.c ≡ heights_at line.now (pos l) }
{
    let [first, middle, last] = heights_moved(&line.height, &line.height_step, l);
    Form2 {
        c: [i128::from(first), i128::from(middle), i128::from(last)],
    }
}

/// The width form of the point l steps on along a line.
pub fn width_on(line: &Line, l: u32) -> Form4
    requires { All IsSmall (width_at line.now (pos l)) }
    ensures { result.c ≡ width_at line.now (pos l) }
{
    let [a0, a1, a2, a3, a4] = line.constant.c;
    let [b0, b1, b2, b3, b4] = line.first.c;
    let [c0, c1, c2, c3, c4] = line.second.c;
    Form4 {
        c: [
            quadratic(a0, b0, c0, l),
            quadratic(a1, b1, c1, l),
            quadratic(a2, b2, c2, l),
            quadratic(a3, b3, c3, l),
            quadratic(a4, b4, c4, l),
        ],
    }
}

/// The forms of the points of rays side by side on a whole move: the moment of the first point of the first ray, and what it grows by
/// from ray to ray; u likewise, and what it grows by from point to point of a ray; what the number of steps along the first ray is taken
/// times in the width form, and what that grows by from ray to ray; and what its square is, which is the same for all rays.
#[derive(Drop)]
pub struct Sheet {
    pub start: Moments,
    pub side: Moments,
    pub first: Form4,
    pub first_side: Form4,
    pub second: Form4,
    pub height: [i64; 3],
    pub height_step: [i64; 3],
    pub height_side: [i64; 3],
}

impl Sheet {
    /// The line of ray j. Four times the squared length of a moment is the width form.
    pub fn line(&self, j: u32) -> Line
        requires { FitsOn self.now (pos j) }
        ensures { IsLineOn result self.now (pos j) }
    {
        let moments = moved(&self.start, &self.side, j);
        Line {
            constant: Form4 {
                c: moments.four_squares(),
            },
            first: moved4(&self.first, &self.first_side, j),
            second: self.second,
            height: heights_moved(&self.height, &self.height_side, j),
            height_step: self.height_step,
        }
    }
}
