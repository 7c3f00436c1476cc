ghost use Rattle.std.specs.Prelude.{◌≡◌, ℕ, ◌+◌, ◌<◌, ◌≤◌, ◌⊎◌, length, slice_index, IfOk};
ghost use Rattle.vf_spans.specs.Edges.{inside, Ascends, AreEdges};
ghost use Rattle.vf_spans.specs.Merge.{combined, PassesEdge};

use std::alloc::{AllocError, Global};

/// What is made of two sets.
#[derive(Clone, Copy)]
pub enum Operation {
    Union,
    Minus,
    Meet,
}

impl Operation {
    fn combine(self, in_first: bool, in_second: bool) -> bool
        ensures { result ≡ combined self in_first in_second }
    {
        match self {
            Operation::Union => in_first || in_second,
            Operation::Minus => in_first && !in_second,
            Operation::Meet => in_first && in_second,
        }
    }
}

/// The least of the edges that come next.
pub fn next_edge(a: &[u32], i: usize, b: &[u32], j: usize) -> u32
    requires { (i < length a.now) ⊎ (j < length b.now) }
    ensures first { i < length a.now → result ≤ slice_index a.now i }
    ensures second { j < length b.now → result ≤ slice_index b.now j }
    ensures one_of_them { ((i < length a.now) × (result ≡ slice_index a.now i))
        ⊎ ((j < length b.now) × (result ≡ slice_index b.now j)) }
{
    if i >= a.len() {
        return b[j];
    }
    if j >= b.len() {
        return a[i];
    }
    if a[i] < b[j] { a[i] } else { b[j] }
}

/// The place after the edge, if the edge is there.
pub fn past(edges: &[u32], i: usize, edge: u32) -> usize
    requires ascends { Ascends edges.now }
    requires within { i ≤ length edges.now }
    requires least { i < length edges.now → edge ≤ slice_index edges.now i }
    ensures { PassesEdge edges.now i edge result }
{
    if i < edges.len() && edges[i] == edge {
        i + 1
    } else {
        i
    }
}

/// The edges of the set that the operation makes of two, in one walk over the edges of both.
///
/// Between two edges that come next to each other neither set changes, so the result changes only
/// at an edge of one of them; an index is inside a set where it has passed an odd number of edges.
/// Room is taken once, for as many edges as the two sets have.
pub fn combine_edges(
    alloc: Global,
    a: &[u32],
    b: &[u32],
    operation: Operation,
) -> Result<Vec<u32>, AllocError>
    requires first { Ascends a.now }
    requires second { Ascends b.now }
    ensures edges { IfOk result (λ v. (bound : ℕ) → AreEdges bound a.now → AreEdges bound b.now → AreEdges bound v.items) }
    ensures set { IfOk result (λ v. (x : ℕ) → inside v.items x ≡ combined operation (inside a.now x) (inside b.now x)) }
{
    let mut out = Vec::with_capacity(alloc, a.len().saturating_add(b.len()))?;
    let mut i = 0;
    let mut j = 0;
    while i < a.len() || j < b.len() {
        let edge = next_edge(a, i, b, j);
        i = past(a, i, edge);
        j = past(b, j, edge);
        if operation.combine(i % 2 == 1, j % 2 == 1) != (out.len() % 2 == 1) {
            out.push(edge)?;
        }
    }
    Ok(out)
}
