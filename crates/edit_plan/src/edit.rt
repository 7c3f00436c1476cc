ghost use Rattle.std.specs.Prelude.{◌≡◌, [], ◌∷◌, ◌++◌, ◌-◌, ◌≤◌, length, replicate, IsTrue, ◌↔◌, OnOk, OnErr};
ghost use Rattle.edit_plan.specs.Edits.{applied_moves};

use std::alloc::Global;
use std::marker::Model;
use vf_io::NoMemory;

/// The most edits of a script.
pub const MAX_EDITS: usize = 100_000;

/// What is done to the moves that are left and to those that were dropped.
#[derive(Clone, Copy, PartialEq, Eq)]
pub enum Edit {
    /// The move of this number, from 0, is applied.
    Apply(u32),
    /// The last move that is left is dropped.
    Undo,
    /// The last move that was dropped is taken back.
    Redo,
}

/// Edits in order. Their value is a list.
#[derive(Drop)]
pub struct Edits {
    items: Vec<Edit>,
}

impl Model for Edits {
    ghost use Rattle.std.specs.Prelude.{List};
    ghost use Rattle.edit_plan.specs.declared.edit.Edit.{Edit};

    ghost Value = { List Edit };

    ghost view = { λ e. e.items.items };
}

impl Edits {
    /// No edits.
    pub fn new(alloc: Global) -> Edits
        ensures { result ≡ [] }
    {
        Edits {
            items: Vec::new(alloc),
        }
    }

    /// The edits of a list. It takes no memory.
    pub fn from_vec(items: Vec<Edit>) -> Edits
        ensures { result ≡ items.items }
    {
        Edits { items }
    }

    /// The list of the edits. It takes no memory.
    pub fn into_vec(self) -> Vec<Edit>
        ensures { result.items ≡ self }
    {
        self.items
    }

    /// The edits as they lie in memory.
    pub fn as_slice(&self) -> &[Edit]
        ensures { result.now ≡ self.now }
    {
        self.items.as_slice()
    }

    /// How many there are.
    pub fn len(&self) -> usize
        ensures { result ≡ length self.now }
    {
        self.items.len()
    }

    /// Whether there are none.
    pub fn is_empty(&self) -> bool
        ensures { IsTrue result ↔ (self.now ≡ []) }
    {
        self.items.is_empty()
    }

    /// Adds an edit at the end. Unchanged where no memory is found.
    pub fn push(&mut self, edit: Edit) -> Result<(), NoMemory>
        ensures ok { OnOk result (self.new ≡ self.old ++ edit ∷ []) }
        ensures err { OnErr result (self.new ≡ self.old) }
    {
        match self.items.push(edit) {
            Ok(()) => Ok(()),
            Err(_) => Err(NoMemory),
        }
    }

    /// Adds the same edit `times` times. Unchanged where no memory is found.
    pub(crate) fn push_times(&mut self, edit: Edit, times: u32) -> Result<(), NoMemory>
        ensures ok { OnOk result (self.new ≡ self.old ++ replicate times edit) }
        ensures err { OnErr result (self.new ≡ self.old) }
    {
        let before = self.items.len();
        for _done in 0..times {
            if self.push(edit).is_err() {
                self.items.truncate(before);
                return Err(NoMemory);
            }
        }
        Ok(())
    }

    /// Applies the moves from `first` on and below `end`, each once in order. Unchanged where no memory is found.
    pub(crate) fn push_moves(&mut self, first: u32, end: u32) -> Result<(), NoMemory>
        requires { first ≤ end }
        ensures ok { OnOk result (self.new ≡ self.old ++ applied_moves first (end - first)) }
        ensures err { OnErr result (self.new ≡ self.old) }
    {
        let before = self.items.len();
        for number in first..end {
            if self.push(Edit::Apply(number)).is_err() {
                self.items.truncate(before);
                return Err(NoMemory);
            }
        }
        Ok(())
    }
}
