ghost use Rattle.std.specs.Prelude.{◌≡◌, ◌*◌, ◌<◌, ◌≤◌, ℤ, pos, ◌+ℤ◌, ◌*ℤ◌, int_lt, unsigned_abs};
ghost use Rattle.std.specs.Int.{int_wrap};
ghost use mir.Syntax.{w128};
ghost use Rattle.space.specs.Ranges.{IsWithin};
ghost use Rattle.space.specs.Vectors.{at};
ghost use Rattle.bern_form.specs.Forms.{IsSmall, all_negative, all_positive, difference4, scaled4};
ghost use Rattle.bern_form.specs.Sizes.{axis_limit, offset_limit};
ghost use Rattle.moment_forms.specs.Sizes.{moments_limit};
ghost use Rattle.wanted_marks.specs.Lines.{FitsAt, IsLineFrom, coefficient_at, height_at, heights_at, width_at};
ghost use Rattle.wanted_marks.specs.Peaks.{IsPeak};
ghost use Rattle.wanted_marks.specs.Widths.{quadratic};

use crate::moments::{eight_products, linear};
use crate::peak::peak_of;
use bern_form::Form4;
use moment_forms::{Moments, heights};
use width_bisect::product;

/// a + l x, or what is left of it in 128 bits.
#[inline]
pub fn wrapped(a: i128, l: i128, x: i128) -> i128
    ensures { result ≡ int_wrap w128 (a +ℤ l *ℤ x) }
{
    l.wrapping_mul(x).wrapping_add(a)
}

/// a + b l + c l^2. The parts may be larger than what fits: where the whole fits, wrapping gives back the exact sum.
#[inline]
pub fn quadratic(a: i128, b: i128, c: i128, l: u32) -> i128
    requires { IsSmall (quadratic a b c (pos l)) }
    ensures { result ≡ quadratic a b c (pos l) }
{
    let l = i128::from(l);
    wrapped(a, l, wrapped(b, l, c))
}

/// The forms of the points of a line on a whole move, or between two samples of it. The width form 4 (d n - u^2) is kept as that of the
/// first point, and as what l and l^2 are taken times in that of the point l steps on; u as that of the first point and what l is taken
/// times.
#[derive(Drop)]
pub struct Line {
    pub constant: Form4,
    pub first: Form4,
    pub second: Form4,
    pub height: [i64; 3],
    pub height_step: [i64; 3],
}

impl Line {
    /// The line from a point whose offsets from the tip at two samples are given, and the axes a and c there. Along it the offset grows by
    /// the same vector w with each step, so u by w.a and the moment by w x a.
    pub fn between(
        from: &[i64; 3],
        to: &[i64; 3],
        way: &[i64; 3],
        a: &[i64; 3],
        c: &[i64; 3],
    ) -> Line
        requires from { IsWithin offset_limit from.now }
        requires to { IsWithin offset_limit to.now }
        requires way { IsWithin offset_limit way.now }
        requires a { IsWithin axis_limit a.now }
        requires c { IsWithin axis_limit c.now }
        ensures { IsLineFrom result from.now to.now way.now a.now c.now }
    {
        let origin = Moments::between(from, to, a, c);
        let step = Moments::between(way, way, a, c);
        Line {
            constant: Form4 {
                c: origin.four_squares(),
            },
            first: Form4 {
                c: eight_products(&origin, &step),
            },
            second: Form4 {
                c: step.four_squares(),
            },
            height: heights(from, to, a, c),
            height_step: heights(way, way, a, c),
        }
    }

    /// A coefficient of the width form, of the point l steps on.
    #[inline]
    pub fn width(&self, k: usize, l: u32) -> i128
        requires place { k < 5 }
        requires small { IsSmall (coefficient_at self.now k (pos l)) }
        ensures { result ≡ coefficient_at self.now k (pos l) }
    {
        quadratic(self.constant.c[k], self.first.c[k], self.second.c[k], l)
    }

    /// Whether a coefficient at the point l steps on is above its limit.
    #[inline]
    fn is_above(&self, k: usize, l: u32, limit: i128) -> bool
        requires place { k < 5 }
        requires small { IsSmall (coefficient_at self.now k (pos l)) }
        ensures { result ≡ int_lt limit (coefficient_at self.now k (pos l)) }
    {
        limit < self.width(k, l)
    }

    /// Whether each coefficient at the point l steps on is above its limit, where `last` is the last one. That is tested first, for
    /// it is the one that most often isn't.
    #[inline]
    pub fn exceed(&self, l: u32, last: i128, limits: &[i128; 5]) -> bool
        requires fits { FitsAt self.now (pos l) }
        requires last { last ≡ at (width_at self.now (pos l)) 4 }
        ensures { result ≡ all_positive (difference4 (width_at self.now (pos l)) limits.now) }
    {
        if last <= limits[4] {
            return false;
        }
        for k in 0..4 {
            if !self.is_above(k, l, limits[k]) {
                return false;
            }
        }
        true
    }

    /// The same where each limit is a number taken times the factor, which is computed only for those that are compared.
    #[inline]
    pub fn exceed_times(&self, l: u32, last: i128, factor: i64, limits: &[i64; 5]) -> bool
        requires fits { FitsAt self.now (pos l) }
        requires last { last ≡ at (width_at self.now (pos l)) 4 }
        ensures { result ≡ all_positive (difference4 (width_at self.now (pos l)) (scaled4 factor limits.now)) }
    {
        if last <= product(factor, limits[4]) {
            return false;
        }
        for k in 0..4 {
            if !self.is_above(k, l, product(factor, limits[k])) {
                return false;
            }
        }
        true
    }

    /// A coefficient of u, of the point l steps on. It fits 64 bits.
    #[inline]
    fn height(&self, k: usize, l: u32) -> i64
        requires place { k < 3 }
        requires small { unsigned_abs (height_at self.now k (pos l)) ≤ 2 * moments_limit }
        ensures { result ≡ height_at self.now k (pos l) }
    {
        linear(self.height[k], self.height_step[k], l)
    }

    /// u at the last sample, of the point l steps on.
    #[inline]
    pub fn last_height(&self, l: u32) -> i64
        requires { FitsAt self.now (pos l) }
        ensures { result ≡ height_at self.now 2 (pos l) }
    {
        self.height(2, l)
    }

    /// u at the first sample, of the point l steps on, which is its first coefficient, and the middle one.
    #[inline]
    pub fn first_height(&self, l: u32) -> i64
        requires { FitsAt self.now (pos l) }
        ensures { result ≡ height_at self.now 0 (pos l) }
    {
        self.height(0, l)
    }

    #[inline]
    fn middle_height(&self, l: u32) -> i64
        requires { FitsAt self.now (pos l) }
        ensures { result ≡ height_at self.now 1 (pos l) }
    {
        self.height(1, l)
    }

    /// Whether each coefficient of u is below 0 at the point l steps on, where `last` is the last one. That is tested first, for
    /// most points of a line are ahead of the tip at the last sample or behind it throughout.
    #[inline]
    pub fn is_behind(&self, l: u32, last: i64) -> bool
        requires fits { FitsAt self.now (pos l) }
        requires last { last ≡ height_at self.now 2 (pos l) }
        ensures { result ≡ all_negative (heights_at self.now (pos l)) }
    {
        if 0 <= last {
            return false;
        }
        if 0 <= self.height(0, l) {
            return false;
        }
        self.height(1, l) < 0
    }

    /// The peak of u, of the point l steps on, where `last` is the last coefficient.
    #[inline]
    pub fn peak(&self, l: u32, last: i64) -> i128
        requires fits { FitsAt self.now (pos l) }
        requires last { last ≡ height_at self.now 2 (pos l) }
        ensures { IsPeak result (heights_at self.now (pos l)) }
    {
        peak_of(self.first_height(l), self.middle_height(l), last)
    }

    /// 4 (d n - u^2) at the last sample, of the point l steps on.
    #[inline]
    pub fn last_width(&self, l: u32) -> i128
        requires { FitsAt self.now (pos l) }
        ensures { result ≡ at (width_at self.now (pos l)) 4 }
    {
        self.width(4, l)
    }

    /// The same at the first sample.
    #[inline]
    pub fn first_width(&self, l: u32) -> i128
        requires { FitsAt self.now (pos l) }
        ensures { result ≡ at (width_at self.now (pos l)) 0 }
    {
        self.width(0, l)
    }
}
