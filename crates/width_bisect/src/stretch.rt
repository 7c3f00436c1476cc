ghost use Rattle.std.specs.Prelude.{◌≡◌, ◌*◌};
ghost use Rattle.bern_form.specs.Forms.{all_negative, lifted, product22};
ghost use Rattle.bern_form.specs.Sizes.{IsBounded2, axis_limit};
ghost use Rattle.width_bisect.specs.Halved.{first2, first4, last2, last4};
ghost use Rattle.width_bisect.specs.Sizes.{IsWeighted4, height_limit, width_limit};

use crate::forms::WholeForms;
use crate::halves::{first2, first4, last2, last4};
use crate::words::product;

/// The forms of a point between two samples of a move: u and n, in 64 bits, and the width. The forms of each half come from these.
#[derive(Drop)]
pub struct Stretch {
    pub u: [i64; 3],
    pub n: [i64; 3],
    pub width: [i128; 5],
    ghost u_small: { IsBounded2 height_limit u },
    ghost n_small: { IsBounded2 (3 * (axis_limit * axis_limit)) n },
    ghost width_small: { IsWeighted4 width_limit width },
}

impl Stretch {
    /// The whole move.
    #[inline]
    pub fn whole(forms: &WholeForms) -> Stretch
        requires u { IsBounded2 height_limit forms.now.u.c }
        requires n { IsBounded2 (3 * (axis_limit * axis_limit)) forms.now.n.c }
        requires width { IsWeighted4 width_limit forms.now.width.c }
        ensures u { result.u ≡ forms.now.u.c }
        ensures n { result.n ≡ forms.now.n.c }
        ensures width { result.width ≡ forms.now.width.c }
    {
        let [a, b, c] = forms.u.c;
        let [d, e, f] = forms.n.c;
        Stretch {
            u: [a as i64, b as i64, c as i64],
            n: [d as i64, e as i64, f as i64],
            width: forms.width.c,
        }
    }

    /// From the first sample to the one in the middle.
    #[inline]
    pub fn first_half(&self) -> Stretch
        ensures u { result.u ≡ first2 self.now.u }
        ensures n { result.n ≡ first2 self.now.n }
        ensures width { result.width ≡ first4 self.now.width }
    {
        Stretch {
            u: first2(&self.u),
            n: first2(&self.n),
            width: first4(&self.width),
        }
    }

    /// From the sample in the middle to the last one.
    #[inline]
    pub fn last_half(&self) -> Stretch
        ensures u { result.u ≡ last2 self.now.u }
        ensures n { result.n ≡ last2 self.now.n }
        ensures width { result.width ≡ last4 self.now.width }
    {
        Stretch {
            u: last2(&self.u),
            n: last2(&self.n),
            width: last4(&self.width),
        }
    }

    /// Whether the point is behind the tip throughout.
    #[inline]
    pub fn is_behind(&self) -> bool
        ensures { result ≡ all_negative self.now.u }
    {
        let [a, b, c] = self.u;
        a < 0 && b < 0 && c < 0
    }

    /// n raised to degree 4.
    #[inline]
    pub fn raised(&self) -> [i64; 5]
        ensures { result ≡ lifted self.now.n }
    {
        let [a, b, c] = self.n;
        [a, 2 * a + b, a + 2 * b + c, b + 2 * c, c]
    }

    /// u^2.
    #[inline]
    pub fn height(&self) -> [i128; 5]
        ensures { result ≡ product22 self.now.u self.now.u }
    {
        let [a, b, c] = self.u;
        [
            product(a, a),
            2 * product(a, b),
            2 * product(a, c) + product(b, b),
            2 * product(b, c),
            product(c, c),
        ]
    }
}
