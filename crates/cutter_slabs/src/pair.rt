ghost use Rattle.std.specs.Prelude.{◌≡◌, ◌<◌, ◌≤◌, ◌++◌, [], ◌∷◌, nat_lt, if◌then◌else◌, IfOk, OnOk};
ghost use Rattle.cutter_slabs.specs.Stacks.{inner_stack, outer_stack, slab_of};

use crate::cutter::Cutter;
use crate::{cone, profile};
use bern_form::Slab;
use std::alloc::Global;
use vf_io::NoMemory;

/// An inner and an outer stack, from the tip upwards.
#[derive(Drop)]
pub struct Pair {
    pub inner: Vec<Slab>,
    pub outer: Vec<Slab>,
}

/// The slab from `lo` to `hi` with a diameter.
fn slab_between(lo: u32, hi: u32, dia: u32) -> Slab
    requires ordered { lo ≤ hi }
    requires high { hi ≤ 300000 }
    requires wide { dia ≤ 200000 }
    ensures { result ≡ slab_of lo hi dia }
{
    Slab {
        lo: lo as i32,
        hi: hi as i32,
        dia: dia as i32,
    }
}

/// Puts a slab on a stack, where its two heights differ.
fn push_slab(stack: &mut Vec<Slab>, lo: u32, hi: u32, dia: u32) -> Result<(), NoMemory>
    requires high { hi ≤ 300000 }
    requires wide { dia ≤ 200000 }
    ensures ok { OnOk result (stack.new.items ≡ stack.old.items ++ (if nat_lt lo hi then slab_of lo hi dia ∷ [] else [])) }
{
    if lo < hi {
        stack.push(slab_between(lo, hi, dia))?;
    }
    Ok(())
}

/// The stacks of a cutter with an upright flank: the corner, up to its upper end r, is cut into at most n slabs, and one slab
/// with the full diameter reaches from there, or from the base of a cutter without a corner, to h.
#[tactic(auto, using(crate::proofs::Slabs::slabs_more))]
fn rounded(alloc: Global, cutter: &Cutter, n: u32) -> Result<Pair, NoMemory>
    requires upright { cutter.now.flank ≡ 0 }
    requires some { 1 ≤ n }
    requires few { n ≤ 256 }
    ensures inner { IfOk result (λ pair. pair.inner.items ≡ inner_stack cutter.now n) }
    ensures outer { IfOk result (λ pair. pair.outer.items ≡ outer_stack cutter.now n) }
{
    let radius = cutter.corner_radius();
    let flat = cutter.diameter() - 2 * radius;
    let mut inner = Vec::new(alloc);
    let mut outer = Vec::new(alloc);
    let mut lo = 0;
    for j in 0..n {
        let hi = profile::bound(radius, n, j + 1);
        push_slab(
            &mut inner,
            lo,
            hi,
            profile::inner_diameter(flat, radius, lo),
        )?;
        push_slab(
            &mut outer,
            lo,
            hi,
            profile::outer_diameter(flat, radius, hi),
        )?;
        lo = hi;
    }
    let top = slab_between(radius + cutter.base(), cutter.height(), cutter.diameter());
    inner.push(top)?;
    outer.push(top)?;
    Ok(Pair { inner, outer })
}

/// The stacks of a cone: it is cut into at most n slabs from the tip to h.
#[tactic(auto, using(crate::proofs::Slabs::slabs_more))]
fn conical(alloc: Global, cutter: &Cutter, n: u32) -> Result<Pair, NoMemory>
    requires leaning { 0 < cutter.now.flank }
    requires some { 1 ≤ n }
    requires few { n ≤ 256 }
    ensures inner { IfOk result (λ pair. pair.inner.items ≡ inner_stack cutter.now n) }
    ensures outer { IfOk result (λ pair. pair.outer.items ≡ outer_stack cutter.now n) }
{
    let d = cutter.diameter();
    let height = cutter.height();
    let flank = cutter.flank;
    let mut inner = Vec::new(alloc);
    let mut outer = Vec::new(alloc);
    let mut lo = 0;
    for j in 0..n {
        let hi = cone::level(height, n, j + 1);
        push_slab(&mut inner, lo, hi, cone::inner_diameter(d, flank, lo))?;
        push_slab(&mut outer, lo, hi, cone::outer_diameter(d, flank, hi))?;
        lo = hi;
    }
    Ok(Pair { inner, outer })
}

/// The stacks of a cutter for `n`.
pub fn stacks_of(alloc: Global, cutter: &Cutter, n: u32) -> Result<Pair, NoMemory>
    requires some { 1 ≤ n }
    requires few { n ≤ 256 }
    ensures inner { IfOk result (λ pair. pair.inner.items ≡ inner_stack cutter.now n) }
    ensures outer { IfOk result (λ pair. pair.outer.items ≡ outer_stack cutter.now n) }
{
    if cutter.flank == 0 {
        rounded(alloc, cutter, n)
    } else {
        conical(alloc, cutter, n)
    }
}
