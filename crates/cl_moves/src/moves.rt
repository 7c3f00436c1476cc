ghost use Rattle.std.specs.Prelude.{◌≡◌, [], ◌∷◌, ◌++◌, length, IsTrue, ◌↔◌, IfOk, OnOk, OnErr};

use cl_records::CutterText;
use std::alloc::Global;
use std::marker::Model;
use vf_io::NoMemory;

/// The most moves of a program.
pub const MAX_MOVES: usize = 50_000;

/// A move of the tool, on the line of its record. Tips are in micrometres, axes in 1/100,000. Tip and
/// axis are linear in time from one end to the other.
#[derive(Clone, Copy)]
pub struct Move {
    pub line: u32,
    pub rapid: bool,
    pub from: [i32; 3],
    pub to: [i32; 3],
    pub axis_from: [i32; 3],
    pub axis_to: [i32; 3],
    pub cutter: Option<CutterText>,
}

/// Moves in order. Their value is a list.
#[derive(Drop)]
pub struct Moves {
    items: Vec<Move>,
}

impl Model for Moves {
    ghost use Rattle.std.specs.Prelude.{List};
    ghost use Rattle.cl_moves.specs.declared.moves.Move.{Move};

    ghost Value = { List Move };

    ghost view = { λ m. m.items.items };
}

impl Moves {
    /// No moves.
    pub fn new(alloc: Global) -> Moves
        ensures { result ≡ [] }
    {
        Moves {
            items: Vec::new(alloc),
        }
    }

    /// No moves, with room for `room` of them.
    pub(crate) fn with_room(alloc: Global, room: usize) -> Result<Moves, NoMemory>
        ensures { IfOk result (λ moves. moves ≡ []) }
    {
        match Vec::with_capacity(alloc, room) {
            Ok(items) => Ok(Moves { items }),
            Err(_) => Err(NoMemory),
        }
    }

    /// The moves of a list. It takes no memory.
    pub fn from_vec(items: Vec<Move>) -> Moves
        ensures { result ≡ items.items }
    {
        Moves { items }
    }

    /// The list of the moves. It takes no memory.
    pub fn into_vec(self) -> Vec<Move>
        ensures { result.items ≡ self }
    {
        self.items
    }

    /// The moves as they lie in memory.
    pub fn as_slice(&self) -> &[Move]
        ensures { result.now ≡ self.now }
    {
        self.items.as_slice()
    }

    /// How many there are.
    pub fn len(&self) -> usize
        ensures { result ≡ length self.now }
    {
        self.items.len()
    }

    /// Whether there are none.
    pub fn is_empty(&self) -> bool
        ensures { IsTrue result ↔ (self.now ≡ []) }
    {
        self.items.is_empty()
    }

    /// Adds a move at the end. Unchanged where no memory is found.
    pub fn push(&mut self, next: Move) -> Result<(), NoMemory>
        ensures ok { OnOk result (self.new ≡ self.old ++ next ∷ []) }
        ensures err { OnErr result (self.new ≡ self.old) }
    {
        match self.items.push(next) {
            Ok(()) => Ok(()),
            Err(_) => Err(NoMemory),
        }
    }
}
