ghost use Rattle.std.specs.Prelude.{◌≡◌, ℕ, ◌+◌, ◌-◌, ◌*◌, ◌<◌, ◌≤◌, ◌↔◌, ◌&&◌, ◌||◌, not, nat_le, nat_lt, nat_eq, List, Bool, true, false, Some, IsTrue, IfOk, OnOk, OnErr, length, slice_get, slice_index};
ghost use Rattle.std.specs.List.{list_any};
ghost use Rattle.vf_spans.specs.Members.{has, count_of, count_below, in_range, ranges_of, SameIndices};
ghost use Rattle.vf_spans.specs.Edges.{edges_of, flags_of, AreEdges};
ghost use Rattle.vf_spans.specs.Merge.{combined};

use crate::edges::Edges;
use crate::merge::{Operation, combine_edges};
use crate::stretches::count_numbers;
use std::alloc::Global;
use std::marker::Model;
use vf_io::NoMemory;

/// A set of indices below a bound.
///
/// Its ranges are sorted, disjoint, not adjacent and not empty. They are kept as one ascending list
/// of edges, the first index of each range and the first one past it, so that two sets with one
/// bound and the same indices have the same list. A set with one range or none takes no memory of
/// its own.
#[derive(Drop)]
pub struct Spans {
    bound: u32,
    edges: Edges,
}

impl Model for Spans {
    ghost Value = { List Bool };

    ghost view = { λ s. flags_of s.bound (edges_of s.edges) };

    ghost invariant = { λ s. AreEdges s.bound (edges_of s.edges) };
}

impl Spans {
    /// The empty set. It takes no memory.
    pub fn new(alloc: Global, bound: u32) -> Spans
        ensures bound { length result ≡ bound }
        ensures empty { (i : ℕ) → has result i ≡ false }
    {
        Spans {
            bound,
            edges: Edges::new(alloc),
        }
    }

    /// The indices of the set are below the bound.
    pub fn bound(&self) -> u32
        ensures { result ≡ length self.now }
    {
        self.bound
    }

    /// Whether the set has the index, by a binary search among the edges.
    pub fn has(&self, i: u32) -> bool
        ensures { result ≡ has self.now i }
    {
        self.edges.as_slice().partition_point(|edge| *edge <= i) % 2 == 1
    }

    /// How many indices the set has.
    pub fn count(&self) -> u32
        ensures { result ≡ count_of self.now }
    {
        // No sum of lengths is above the bound, which fits.
        let _bound = self.bound;
        let edges = self.edges.as_slice();
        let mut total = 0;
        for n in 0..edges.len() / 2 {
            total += edges[2 * n + 1] - edges[2 * n];
        }
        total
    }

    /// Whether the set has no index.
    pub fn is_empty(&self) -> bool
        ensures { IsTrue result ↔ ((i : ℕ) → has self.now i ≡ false) }
    {
        self.edges.as_slice().is_empty()
    }

    /// How many indices both sets have. It takes no memory.
    pub fn count_meet(&self, other: &Spans) -> u32
        requires { length other.now ≡ length self.now }
        ensures { result ≡ count_below (length self.now) (λ i. has self.now i && has other.now i) }
    {
        count_numbers(self.edges.as_slice(), other.edges.as_slice(), &[])
    }

    /// How many indices this set has and the other has not. It takes no memory.
    pub fn count_minus(&self, other: &Spans) -> u32
        requires { length other.now ≡ length self.now }
        ensures { result ≡ count_below (length self.now) (λ i. has self.now i && not (has other.now i)) }
    {
        let edges = self.edges.as_slice();
        count_numbers(edges, edges, other.edges.as_slice())
    }

    /// How many indices this set and the second have and the third has not. It takes no memory.
    pub fn count_meet_minus(&self, second: &Spans, third: &Spans) -> u32
        requires second { length second.now ≡ length self.now }
        requires third { length third.now ≡ length self.now }
        ensures { result ≡ count_below (length self.now) (λ i. has self.now i && (has second.now i && not (has third.now i))) }
    {
        count_numbers(
            self.edges.as_slice(),
            second.edges.as_slice(),
            third.edges.as_slice(),
        )
    }

    /// How many ranges the set has.
    pub fn ranges(&self) -> u32
        ensures count { result ≡ length (ranges_of self.now) }
        // The indices of the set are those of its ranges.
        ensures members { (i : ℕ) → has self.now i ≡ list_any (in_range i) (ranges_of self.now) }
    {
        // There are at most half as many ranges as numbers up to the bound.
        let _bound = self.bound;
        (self.edges.as_slice().len() / 2) as u32
    }

    /// The range of that number in ascending order: its first index and the first one past it.
    pub fn range(&self, n: u32) -> (u32, u32)
        requires { n < length (ranges_of self.now) }
        ensures range { slice_get (ranges_of self.now) n ≡ Some result }
        ensures not_empty { result.0 < result.1 }
        ensures within { result.1 ≤ length self.now }
    {
        let edges = self.edges.as_slice();
        let first = 2 * n as usize;
        (edges[first], edges[first + 1])
    }

    /// Whether the sets have one bound and the same indices; then they are one to every contract,
    /// since a set has one list of edges.
    pub fn is_same(&self, other: &Spans) -> bool
        ensures indices { IsTrue result ↔ SameIndices self.now other.now }
        ensures value { IsTrue result ↔ (self.now ≡ other.now) }
    {
        self.bound == other.bound && self.edges.as_slice() == other.edges.as_slice()
    }

    /// Adds the indices from `lo` up to `hi`, `hi` excluded, above all that the set has.
    ///
    /// Where the last range ends at `lo`, it grows, so that no two ranges are adjacent. Memory is
    /// taken from the second range on.
    pub fn push_range(&mut self, lo: u32, hi: u32) -> Result<(), NoMemory>
        requires not_empty { lo < hi }
        requires within { hi ≤ length self.old }
        requires above { (i : ℕ) → IsTrue (has self.old i) → i < lo }
        ensures bound { length self.new ≡ length self.old }
        ensures added { OnOk result ((i : ℕ) → has self.new i ≡ (has self.old i || (nat_le lo i && nat_lt i hi))) }
        ensures unchanged { OnErr result (self.new ≡ self.old) }
    {
        if ends_at(self.edges.as_slice(), lo) {
            self.edges.raise_last(hi);
            return Ok(());
        }
        self.edges.push_range(lo, hi)?;
        Ok(())
    }

    /// Adds one index, above all that the set has.
    pub fn push(&mut self, index: u32) -> Result<(), NoMemory>
        requires within { index < length self.old }
        requires above { (i : ℕ) → IsTrue (has self.old i) → i < index }
        ensures bound { length self.new ≡ length self.old }
        ensures added { OnOk result ((i : ℕ) → has self.new i ≡ (has self.old i || nat_eq i index)) }
        ensures unchanged { OnErr result (self.new ≡ self.old) }
    {
        // The index is below the bound, which fits.
        let _bound = self.bound;
        self.push_range(index, index + 1)
    }

    /// The indices that one of the sets has.
    pub fn union(&self, other: &Spans) -> Result<Spans, NoMemory>
        requires { length other.now ≡ length self.now }
        ensures bound { IfOk result (λ r. length r ≡ length self.now) }
        ensures union { IfOk result (λ r. (i : ℕ) → has r i ≡ (has self.now i || has other.now i)) }
    {
        self.combine(other, Operation::Union)
    }

    /// The indices that this set has and the other has not.
    pub fn minus(&self, other: &Spans) -> Result<Spans, NoMemory>
        requires { length other.now ≡ length self.now }
        ensures bound { IfOk result (λ r. length r ≡ length self.now) }
        ensures minus { IfOk result (λ r. (i : ℕ) → has r i ≡ (has self.now i && not (has other.now i))) }
    {
        self.combine(other, Operation::Minus)
    }

    /// The indices that both sets have.
    pub fn meet(&self, other: &Spans) -> Result<Spans, NoMemory>
        requires { length other.now ≡ length self.now }
        ensures bound { IfOk result (λ r. length r ≡ length self.now) }
        ensures meet { IfOk result (λ r. (i : ℕ) → has r i ≡ (has self.now i && has other.now i)) }
    {
        self.combine(other, Operation::Meet)
    }

    /// The same set with the same bound. That of one range takes no memory.
    pub fn copy(&self) -> Result<Spans, NoMemory>
        ensures { IfOk result (λ r. r ≡ self.now) }
    {
        let edges = self.edges.copy()?;
        Ok(Spans {
            bound: self.bound,
            edges,
        })
    }

    fn combine(&self, other: &Spans, operation: Operation) -> Result<Spans, NoMemory>
        requires { length other.now ≡ length self.now }
        ensures bound { IfOk result (λ r. length r ≡ length self.now) }
        ensures combined { IfOk result (λ r. (i : ℕ) → has r i ≡ combined operation (has self.now i) (has other.now i)) }
    {
        let list = combine_edges(
            self.edges.allocator(),
            self.edges.as_slice(),
            other.edges.as_slice(),
            operation,
        )?;
        let edges = Edges::from_list(list)?;
        Ok(Spans {
            bound: self.bound,
            edges,
        })
    }
}

/// Whether the last of the edges is at the index.
fn ends_at(edges: &[u32], index: u32) -> bool
    ensures { let last = length edges.now - 1 in
        IsTrue result ↔ ((0 < length edges.now) × (slice_index edges.now last ≡ index)) }
{
    !edges.is_empty() && edges[edges.len() - 1] == index
}
