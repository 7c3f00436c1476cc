ghost use Rattle.std.specs.Prelude.{◌≡◌, ◌≤◌, ◌<◌, ℕ, List, ℤ, pos, length, true, false, IfOk};
ghost use Rattle.space.specs.Reach.{is_in_reach};
ghost use Rattle.space.specs.Sweeps.{IsSweep, IsTime, SweepOf};
ghost use Rattle.bern_form.specs.Marks.{held_at_sample, is_possible_with, some_holds};
ghost use Rattle.cutter_slabs.specs.Meets.{InLowerAt, InUpperAt, MeetsLower, MeetsUpper};
ghost use Rattle.cutter_slabs.specs.Rising.{IsRising};
ghost use Rattle.cutter_slabs.specs.Stacks.{inner_stack, outer_stack, reach_of};

use crate::cutter::Cutter;
use crate::pair::{Pair, stacks_of};
use bern_form::Slab;
use std::alloc::Global;
use std::marker::Model;
use vf_io::NoMemory;

/// The two stacks of slabs of a cutter, each of at most n slabs and one. The inner stack lies in the lower cutter, and the upper
/// cutter in the outer stack.
#[derive(Drop)]
pub struct Stacks {
    cutter: Cutter,
    slabs: u32,
    inner: Vec<Slab>,
    outer: Vec<Slab>,
}

impl Model for Stacks {
    ghost use Rattle.cutter_slabs.specs.Stacks.{AreStacks, StacksOf};

    ghost Value = { StacksOf };

    ghost view = { λ s. record { cutter = s.cutter; slabs = s.slabs } };

    ghost invariant = { λ s. AreStacks s.cutter s.slabs s.inner.items s.outer.items };
}

impl Stacks {
    /// The stacks of a cutter for `n`, which is 1 to 256. Fails only when out of memory.
    pub fn new(alloc: Global, cutter: Cutter, n: u32) -> Result<Stacks, NoMemory>
        requires some { 1 ≤ n }
        requires few { n ≤ 256 }
        ensures cutter { IfOk result (λ stacks. stacks.cutter ≡ cutter) }
        ensures slabs { IfOk result (λ stacks. stacks.slabs ≡ n) }
    {
        let Pair { inner, outer } = stacks_of(alloc, &cutter, n)?;
        Ok(Stacks {
            cutter,
            slabs: n,
            inner,
            outer,
        })
    }

    /// The inner stack, from the tip upwards: what it holds at a time is in the lower cutter and in the outer stack, and a point
    /// that it holds at a sample is removed by the move, and possible too.
    pub fn inner(&self) -> &[Slab]
        ensures stack { result.now ≡ inner_stack self.now.cutter self.now.slabs }
        ensures rising { IsRising result.now }
        ensures inside { (m : SweepOf) (p : List ℤ) (a b : ℕ) → some_holds result.now m p a b ≡ true → InLowerAt self.now.cutter m p a b }
        ensures enclosed { (m : SweepOf) (p : List ℤ) (a b : ℕ) → some_holds result.now m p a b ≡ true
            → some_holds (outer_stack self.now.cutter self.now.slabs) m p a b ≡ true }
        ensures met { (m : SweepOf) (p : List ℤ) (S : ℕ) → 0 < S → held_at_sample result.now m p S ≡ true → MeetsLower self.now.cutter m p }
        ensures possible { (m : SweepOf) (p : List ℤ) (S : ℕ) → 0 < S → IsSweep m → held_at_sample result.now m p S ≡ true
            → is_possible_with (outer_stack self.now.cutter self.now.slabs) (pos (reach_of self.now.cutter)) m p S ≡ true }
    {
        &self.inner
    }

    /// The outer stack, from the tip upwards: it holds what the upper cutter holds, and a point that is not possible by it is met
    /// by the upper cutter at no rational time of the move.
    pub fn outer(&self) -> &[Slab]
        ensures stack { result.now ≡ outer_stack self.now.cutter self.now.slabs }
        ensures rising { IsRising result.now }
        ensures as_many { length result.now ≡ length (inner_stack self.now.cutter self.now.slabs) }
        ensures encloses { (m : SweepOf) (p : List ℤ) (a b : ℕ) → InUpperAt self.now.cutter m p a b → some_holds result.now m p a b ≡ true }
        ensures clear { (m : SweepOf) (p : List ℤ) (S : ℕ) → 0 < S → IsSweep m
            → is_possible_with result.now (pos (reach_of self.now.cutter)) m p S ≡ false → ¬ MeetsUpper self.now.cutter m p }
    {
        &self.outer
    }

    /// How far a point that the upper cutter holds can be from the tip's path along any axis: its height and its diameter at the
    /// top.
    pub fn reach(&self) -> i32
        ensures value { result ≡ pos (reach_of self.now.cutter) }
        ensures few { reach_of self.now.cutter ≤ 500000 }
        ensures encloses { (m : SweepOf) (p : List ℤ) (a b : ℕ) → IsSweep m → IsTime a b → InUpperAt self.now.cutter m p a b
            → is_in_reach result m.from m.to p ≡ true }
    {
        (self.cutter.height() + self.cutter.top_diameter()) as i32
    }

    /// The cutter whose stacks these are.
    pub fn cutter(&self) -> Cutter
        ensures { result ≡ self.now.cutter }
    {
        self.cutter
    }
}
