ghost use Rattle.std.specs.Prelude.{◌≡◌, [], ◌∷◌, ◌++◌, length, IsTrue, ◌↔◌, OnOk, OnErr};

use ray_grid::Ray;
use std::alloc::Global;
use std::marker::Model;
use vf_io::NoMemory;

/// The most queries of a script.
pub const MAX_QUERIES: usize = 1000;

/// What is asked: for one point of the lattice, or for the totals.
#[derive(Clone, Copy)]
pub enum Ask {
    /// The point `l` of a ray, counted from 0.
    Probe { ray: Ray, l: u32 },
    Count,
}

/// A question, and after how many of the edits it is asked.
#[derive(Clone, Copy)]
pub struct Query {
    pub version: u32,
    pub ask: Ask,
}

/// Queries in order. Their value is a list.
#[derive(Drop)]
pub struct Queries {
    items: Vec<Query>,
}

impl Model for Queries {
    ghost use Rattle.std.specs.Prelude.{List};
    ghost use Rattle.edit_plan.specs.declared.query.Query.{Query};

    ghost Value = { List Query };

    ghost view = { λ q. q.items.items };
}

impl Queries {
    /// No queries.
    pub fn new(alloc: Global) -> Queries
        ensures { result ≡ [] }
    {
        Queries {
            items: Vec::new(alloc),
        }
    }

    /// The queries of a list. It takes no memory.
    pub fn from_vec(items: Vec<Query>) -> Queries
        ensures { result ≡ items.items }
    {
        Queries { items }
    }

    /// The list of the queries. It takes no memory.
    pub fn into_vec(self) -> Vec<Query>
        ensures { result.items ≡ self }
    {
        self.items
    }

    /// The queries as they lie in memory.
    pub fn as_slice(&self) -> &[Query]
        ensures { result.now ≡ self.now }
    {
        self.items.as_slice()
    }

    /// How many there are.
    pub fn len(&self) -> usize
        ensures { result ≡ length self.now }
    {
        self.items.len()
    }

    /// Whether there are none.
    pub fn is_empty(&self) -> bool
        ensures { IsTrue result ↔ (self.now ≡ []) }
    {
        self.items.is_empty()
    }

    /// Adds a query at the end. Unchanged where no memory is found.
    pub fn push(&mut self, query: Query) -> Result<(), NoMemory>
        ensures ok { OnOk result (self.new ≡ self.old ++ query ∷ []) }
        ensures err { OnErr result (self.new ≡ self.old) }
    {
        match self.items.push(query) {
            Ok(()) => Ok(()),
            Err(_) => Err(NoMemory),
        }
    }
}
