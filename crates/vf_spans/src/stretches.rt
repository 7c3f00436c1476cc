ghost use Rattle.std.specs.Prelude.{◌≡◌, ℕ, ◌-◌, ◌<◌, ◌≤◌, ◌⊎◌, ◌&&◌, not, if◌then◌else◌, length, slice_index};
ghost use Rattle.vf_spans.specs.Edges.{inside, is_odd, Ascends, AreEdges};
ghost use Rattle.vf_spans.specs.Members.{count_below};

use crate::merge::{next_edge, past};

/// The edge, or the one at the place where that comes sooner.
fn sooner(edges: &[u32], i: usize, edge: u32) -> u32
    ensures not_later { result ≤ edge }
    ensures next { i < length edges.now → result ≤ slice_index edges.now i }
    ensures one_of_them { (result ≡ edge) ⊎ ((i < length edges.now) × (result ≡ slice_index edges.now i)) }
{
    if i < edges.len() && edges[i] < edge {
        edges[i]
    } else {
        edge
    }
}

/// How many numbers count from one edge up to the next: all, where the edges passed say that they
/// are inside the first two sets and outside the third, else none.
fn stretch(i: usize, j: usize, k: usize, from: u32, edge: u32) -> u32
    requires { from ≤ edge }
    ensures { result ≡ (if is_odd i && (is_odd j && not (is_odd k)) then edge - from else 0) }
{
    if i % 2 == 1 && j % 2 == 1 && k % 2 == 0 {
        edge - from
    } else {
        0
    }
}

/// How many numbers are inside the first two sets and outside the third, in one walk over the edges
/// of all three, which takes no memory.
///
/// Between two edges that come next to each other no set changes, so all numbers there count or
/// none does. Past the last edge of the first set, or of the second, none counts.
pub fn count_numbers(a: &[u32], b: &[u32], c: &[u32]) -> u32
    requires first { Ascends a.now }
    requires second { Ascends b.now }
    requires third { Ascends c.now }
    ensures { (bound : ℕ) → AreEdges bound a.now → AreEdges bound b.now → AreEdges bound c.now
        → result ≡ count_below bound (λ x. inside a.now x && (inside b.now x && not (inside c.now x))) }
{
    let mut total = 0;
    let mut from = 0;
    let mut i = 0;
    let mut j = 0;
    let mut k = 0;
    while i < a.len() && j < b.len() {
        let edge = sooner(c, k, next_edge(a, i, b, j));
        total += stretch(i, j, k, from, edge);
        i = past(a, i, edge);
        j = past(b, j, edge);
        k = past(c, k, edge);
        from = edge;
    }
    total
}
