ghost use Rattle.std.specs.Prelude.{◌≡◌, ◌≤◌, unsigned_abs};
ghost use Rattle.ray_grid.specs.Turns.{most_moved, most_turned, negated_if};

/// A turn of a part by quarters about the axes, after which it is moved. Lengths are micrometres.
///
/// The new coordinate n is the old coordinate `axis[n]`, negated where `neg[n]`, plus `shift[n]`. Not every value is a turn: an axis
/// may be there twice, and a mirror is none.
#[derive(Clone, Copy)]
pub struct Turn {
    pub axis: [u32; 3],
    pub neg: [bool; 3],
    pub shift: [i32; 3],
}

impl Turn {
    ghost use Rattle.std.specs.Prelude.{◌<◌};
    ghost use Rattle.space.specs.Ranges.{IsWithin};
    ghost use Rattle.ray_grid.specs.Turns.{IsTurn, back, back_at, forth, forth_at, has_axes, is_even_order, is_mirrored, is_odd_order};
    ghost use Rattle.ray_grid.specs.Turns.{is_turn, new_axis};

    /// Whether it is one of the 24 turns.
    pub fn is_turn(&self) -> bool
        ensures { result ≡ is_turn self.now }
    {
        let mirrored = self.is_mirrored();
        self.is_even_order() && !mirrored || self.is_odd_order() && mirrored
    }

    /// Where a point lies when it is turned.
    pub fn forth(&self, point: [i32; 3]) -> [i32; 3]
        requires turn { IsTurn self.now }
        requires point { IsWithin most_turned point }
        ensures there { result ≡ forth self.now point }
        ensures near { IsWithin most_moved result }
    {
        [
            self.forth_at(&point, 0),
            self.forth_at(&point, 1),
            self.forth_at(&point, 2),
        ]
    }

    /// Where a point lay before it was turned.
    pub fn back(&self, point: [i32; 3]) -> [i32; 3]
        requires turn { IsTurn self.now }
        requires point { IsWithin most_turned point }
        ensures there { result ≡ back self.now point }
        ensures near { IsWithin most_moved result }
    {
        [
            self.back_at(&point, self.new_axis(0)),
            self.back_at(&point, self.new_axis(1)),
            self.back_at(&point, self.new_axis(2)),
        ]
    }

    /// New coordinate n of a point.
    fn forth_at(&self, point: &[i32; 3], n: usize) -> i32
        requires turn { IsTurn self.now }
        requires point { IsWithin most_turned point.now }
        requires axis { n < 3 }
        ensures value { result ≡ forth_at self.now point.now n }
        ensures near { unsigned_abs result ≤ most_moved }
    {
        let turned = negated_if(self.neg[n], point[self.axis[n] as usize]);
        turned + self.shift[n]
    }

    /// The old coordinate that new coordinate n gives.
    fn back_at(&self, point: &[i32; 3], n: usize) -> i32
        requires turn { IsTurn self.now }
        requires point { IsWithin most_turned point.now }
        requires axis { n < 3 }
        ensures value { result ≡ back_at self.now point.now n }
        ensures near { unsigned_abs result ≤ most_moved }
    {
        negated_if(self.neg[n], point[n] - self.shift[n])
    }

    /// The new axis on which an old axis lies.
    fn new_axis(&self, old: u32) -> usize
        ensures axis { result ≡ new_axis self.now old }
        ensures three { result < 3 }
    {
        if self.axis[0] == old {
            0
        } else if self.axis[1] == old {
            1
        } else {
            2
        }
    }

    /// Whether the old axes are in this order.
    fn has_axes(&self, x: u32, y: u32, z: u32) -> bool
        ensures { result ≡ has_axes self.now x y z }
    {
        self.axis[0] == x && self.axis[1] == y && self.axis[2] == z
    }

    fn is_even_order(&self) -> bool
        ensures { result ≡ is_even_order self.now }
    {
        self.has_axes(0, 1, 2) || self.has_axes(1, 2, 0) || self.has_axes(2, 0, 1)
    }

    fn is_odd_order(&self) -> bool
        ensures { result ≡ is_odd_order self.now }
    {
        self.has_axes(0, 2, 1) || self.has_axes(1, 0, 2) || self.has_axes(2, 1, 0)
    }

    /// Whether one axis is negated, or all three are.
    fn is_mirrored(&self) -> bool
        ensures { result ≡ is_mirrored self.now }
    {
        self.neg[0] != (self.neg[1] != self.neg[2])
    }
}

/// A coordinate, or its negative.
fn negated_if(negated: bool, z: i32) -> i32
    requires { unsigned_abs z ≤ most_moved }
    ensures value { result ≡ negated_if negated z }
    ensures size { unsigned_abs result ≡ unsigned_abs z }
{
    if negated { -z } else { z }
}
