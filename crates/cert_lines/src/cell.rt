ghost use Rattle.std.specs.Prelude.{◌≡◌, [], ◌∷◌, ◌++◌, length, IsTrue, ◌↔◌, IfOk, OnOk, OnErr};

use ray_grid::Ray;
use std::alloc::Global;
use std::marker::Model;
use vf_io::NoMemory;

/// What one cell line says: the points from `a` on and below `b` of the ray are not met during the part of the move's time from
/// `k / 2^q` to `(k + 1) / 2^q`. `line` is the number of the line, from 1.
#[derive(Clone, Copy)]
pub struct CertCell {
    pub line: u64,
    pub ray: Ray,
    pub q: u32,
    pub k: u32,
    pub a: u32,
    pub b: u32,
}

/// The cells of a certificate in order. They are seen as a list.
#[derive(Drop)]
pub struct Cells {
    items: Vec<CertCell>,
}

impl Model for Cells {
    ghost use Rattle.std.specs.Prelude.{List};
    ghost use Rattle.cert_lines.specs.declared.cell.CertCell.{CertCell};

    ghost Value = { List CertCell };

    ghost view = { λ c. c.items.items };
}

impl Cells {
    /// No cells.
    pub fn new(alloc: Global) -> Cells
        ensures { result ≡ [] }
    {
        Cells {
            items: Vec::new(alloc),
        }
    }

    /// No cells, with room for `n`.
    pub fn with_room(alloc: Global, room: usize) -> Result<Cells, NoMemory>
        ensures { IfOk result (λ cells. cells ≡ []) }
    {
        match Vec::with_capacity(alloc, room) {
            Ok(items) => Ok(Cells { items }),
            Err(_) => Err(NoMemory),
        }
    }

    /// The cells of a list. It takes no memory.
    pub fn from_vec(items: Vec<CertCell>) -> Cells
        ensures { result ≡ items.items }
    {
        Cells { items }
    }

    /// The list of the cells. It takes no memory.
    pub fn into_vec(self) -> Vec<CertCell>
        ensures { result.items ≡ self }
    {
        self.items
    }

    /// The cells as they lie in memory.
    pub fn as_slice(&self) -> &[CertCell]
        ensures { result.now ≡ self.now }
    {
        self.items.as_slice()
    }

    /// How many there are.
    pub fn len(&self) -> usize
        ensures { result ≡ length self.now }
    {
        self.items.len()
    }

    /// Whether there are none.
    pub fn is_empty(&self) -> bool
        ensures { IsTrue result ↔ (self.now ≡ []) }
    {
        self.items.is_empty()
    }

    /// Adds a cell at the end. Unchanged when out of memory.
    pub fn push(&mut self, cell: CertCell) -> Result<(), NoMemory>
        ensures ok { OnOk result (self.new ≡ self.old ++ cell ∷ []) }
        ensures err { OnErr result (self.new ≡ self.old) }
    {
        match self.items.push(cell) {
            Ok(()) => Ok(()),
            Err(_) => Err(NoMemory),
        }
    }
}
