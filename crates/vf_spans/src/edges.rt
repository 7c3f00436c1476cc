ghost use Rattle.std.specs.Prelude.{◌≡◌, ℕ, ◌-◌, ◌<◌, ◌≤◌, [], ◌∷◌, ◌++◌, IfOk, OnOk, OnErr, IsOk, length, slice_index, slice_set};
ghost use Rattle.vf_spans.specs.Edges.{edges_kept, edges_of, AreEdges};

use std::alloc::{AllocError, Global};
use std::mem::size_of;

/// The edges of a set, in order, which take memory only where they are more than those of one range.
#[derive(Drop)]
pub struct Edges {
    kept: Kept,
    alloc: Global,
}

/// How the edges are kept. Most sets have one range or none, so a list is kept by a pointer, and
/// edges without one take no more room than they need.
#[derive(Drop)]
enum Kept {
    /// There are none.
    Empty,
    /// Those of one range.
    OneRange([u32; 2]),
    /// Those of any number of ranges.
    Ranges(Box<Vec<u32>>),
}

// A large job has a set for each of hundreds of thousands of rays.
const _: () = prove!(size_of::<Edges>() == 16);

impl Edges {
    /// No edges. It takes no memory.
    pub fn new(alloc: Global) -> Edges
        ensures { edges_of result ≡ [] }
    {
        Edges {
            kept: Kept::Empty,
            alloc,
        }
    }

    /// The edges of the list. Where they are none or those of one range, no memory is taken, and the
    /// list's is given back.
    pub fn from_list(list: Vec<u32>) -> Result<Edges, AllocError>
        requires { (bound : ℕ) × AreEdges bound list.items }
        ensures edges { IfOk result (λ r. edges_of r ≡ list.items) }
        ensures few { length list.items ≤ 2 → IsOk result }
    {
        let alloc = *list.allocator();
        let kept = match list.len() {
            0 => Kept::Empty,
            2 => Kept::OneRange([list[0], list[1]]),
            _ => Kept::Ranges(Box::new(alloc, list)?),
        };
        Ok(Edges { kept, alloc })
    }

    /// The same edges. Those of one range take no memory.
    pub fn copy(&self) -> Result<Edges, AllocError>
        ensures { IfOk result (λ r. edges_of r ≡ edges_of self.now) }
    {
        let alloc = self.alloc;
        let kept = match &self.kept {
            Kept::Empty => Kept::Empty,
            Kept::OneRange(edges) => Kept::OneRange(*edges),
            Kept::Ranges(list) => listed(alloc, list.as_slice())?,
        };
        Ok(Edges { kept, alloc })
    }

    /// What the memory is taken from.
    pub fn allocator(&self) -> Global {
        self.alloc
    }

    /// The edges in order.
    #[inline]
    pub fn as_slice(&self) -> &[u32]
        ensures value { result.now ≡ edges_of self.now }
    {
        match &self.kept {
            Kept::Empty => &[],
            Kept::OneRange(edges) => edges,
            Kept::Ranges(list) => list.as_slice(),
        }
    }

    /// Adds both edges of a range at the end. The first range takes no memory; with the second the
    /// edges move into a list.
    pub fn push_range(&mut self, lo: u32, hi: u32) -> Result<(), AllocError>
        requires { lo < hi }
        ensures added { OnOk result (edges_of self.new ≡ edges_of self.old ++ lo ∷ hi ∷ []) }
        ensures unchanged { OnErr result (edges_of self.new ≡ edges_of self.old) }
        ensures first { edges_of self.old ≡ [] → IsOk result }
    {
        match &mut self.kept {
            Kept::Ranges(list) if !list.is_empty() => list.extend_from_slice(&[lo, hi]),
            Kept::OneRange(edges) => {
                self.kept = listed(self.alloc, &[edges[0], edges[1], lo, hi])?;
                Ok(())
            }
            // There are no edges, however that is kept.
            _ => {
                self.kept = Kept::OneRange([lo, hi]);
                Ok(())
            }
        }
    }

    /// Puts a higher edge in the place of the last.
    pub fn raise_last(&mut self, edge: u32)
        requires some { 0 < length (edges_of self.old) }
        requires higher { slice_index (edges_of self.old) (length (edges_of self.old) - 1) < edge }
        ensures { edges_of self.new ≡ slice_set (edges_of self.old) (length (edges_of self.old) - 1) edge }
    {
        match &mut self.kept {
            Kept::Empty => {}
            Kept::OneRange(edges) => edges[1] = edge,
            Kept::Ranges(list) => {
                let last = list.len() - 1;
                list[last] = edge;
            }
        }
    }
}

/// The edges in a list.
fn listed(alloc: Global, edges: &[u32]) -> Result<Kept, AllocError>
    ensures { IfOk result (λ r. edges_kept r ≡ edges.now) }
{
    let list = Vec::from_slice(alloc, edges)?;
    Ok(Kept::Ranges(Box::new(alloc, list)?))
}
