ghost use Rattle.std.specs.Prelude.{◌≡◌, ◌≤◌, Bool, length};
ghost use Rattle.bern_form.specs.Slab.{SlabSize};
ghost use Rattle.box_bisect.specs.SlabTests.{TurnsAt};
ghost use Rattle.width_bisect.specs.Turns.{IsReachedBefore, StopsAt};

use bern_form::Slab;

/// What the slabs of a stack are tested by from the lowest upwards.
pub trait Reaches {
    ghost reached: { Self → SlabSize → Bool };

    /// Whether it reaches the slab.
    fn reaches(&self, slab: &Slab) -> bool
        ensures { result ≡ reached self.now slab.now };
}

/// From a number downwards to the next slab that passes the test.
#[inline]
pub fn walk_down<T: Reaches>(test: &T, slabs: &[Slab], high: usize) -> usize
    requires { high ≤ length slabs.now }
    ensures { StopsAt (T.reached test.now) slabs.now high result }
{
    let mut at = high;
    while 0 < at {
        if test.reaches(&slabs[at - 1]) {
            return at;
        }
        at -= 1;
    }
    at
}

/// From a number upwards to the next slab that doesn't pass the test, where the one before it does.
#[inline]
pub fn walk_up<T: Reaches>(test: &T, slabs: &[Slab], low: usize) -> usize
    requires { IsReachedBefore (T.reached test.now) slabs.now low }
    ensures { TurnsAt (T.reached test.now) slabs.now result }
{
    let mut at = low;
    while at < slabs.len() {
        if !test.reaches(&slabs[at]) {
            return at;
        }
        at += 1;
    }
    at
}
