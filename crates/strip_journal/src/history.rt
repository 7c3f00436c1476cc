ghost use Rattle.std.specs.Prelude.{◌≡◌, ℕ, ◌+◌, ◌-◌, ◌<◌, ◌≤◌, ◌^◌, [], ◌∷◌, ◌++◌, List, IsTrue, MatchOption, OnErr, OnOk, length, slice_index, take};
ghost use Rattle.std.specs.List.{range_with_len};
ghost use Rattle.vf_spans.specs.Edges.{Ascends};

use std::alloc::Global;
use std::marker::Model;
use vf_io::NoMemory;

/// A list of edits of which most are at their own numbers. Its value is the list 0, 1, .. below `straight` and then the rest: while
/// the k-th edit is number k, an edit more is one number more, and takes no memory.
#[derive(Drop)]
pub struct EditHistory {
    straight: u32,
    rest: Vec<u32>,
}

impl Model for EditHistory {
    ghost Value = { List ℕ };

    ghost view = { λ l. range_with_len 0 l.straight ++ l.rest.items };
}

/// The place of an edit in a list that ascends.
fn place_in(edits: &[u32], edit: u32) -> Option<usize>
    requires { Ascends edits.now }
    ensures { MatchOption result ((k : ℕ) → k < length edits.now → slice_index edits.now k ≡ edit → ⊥)
        (λ k. (k < length edits.now) × (slice_index edits.now k ≡ edit)) }
{
    edits.binary_search(&edit).ok()
}

impl EditHistory {
    /// No edit. It takes no memory.
    pub fn new(alloc: Global) -> EditHistory
        ensures { result ≡ [] }
    {
        EditHistory {
            straight: 0,
            rest: Vec::new(alloc),
        }
    }

    /// How many edits the list has.
    pub fn len(&self) -> usize
        ensures { result ≡ length self.now }
    {
        self.straight as usize + self.rest.len()
    }

    /// The k-th edit.
    pub fn get(&self, k: u32) -> u32
        requires { k < length self.now }
        ensures { result ≡ slice_index self.now k }
    {
        if k < self.straight {
            k
        } else {
            self.rest[(k - self.straight) as usize]
        }
    }

    /// Cuts off what comes from a place on, and adds an edit there. When out of memory nothing is changed; where the edit goes on
    /// straight it takes none.
    pub fn put(&mut self, at: u32, edit: u32) -> Result<(), NoMemory>
        requires { at < 2 ^ 32 - 1 }
        ensures ok { OnOk result (self.new ≡ take at self.old ++ edit ∷ []) }
        ensures unchanged { OnErr result (self.new ≡ self.old) }
    {
        if edit == at && at <= self.straight {
            self.straight = at + 1;
            self.rest.clear();
            return Ok(());
        }
        self.rest.reserve(1)?;
        self.rest
            .truncate(at.saturating_sub(self.straight) as usize);
        self.straight = self.straight.min(at);
        let _put = self.rest.push(edit);
        Ok(())
    }

    /// Whether the first `at` edits are found to be at their own numbers.
    pub fn is_straight(&self, at: u32) -> bool
        ensures { IsTrue result → take at self.now ≡ range_with_len 0 at }
    {
        at <= self.straight
    }

    /// Cuts off what comes from a place on, and adds `count` edits there, each at its own number. It takes no memory.
    pub fn put_straight(&mut self, at: u32, count: u32)
        requires fits { at + count < 2 ^ 32 }
        requires straight { take at self.old ≡ range_with_len 0 at }
        ensures { self.new ≡ take at self.old ++ range_with_len at count }
    {
        self.straight = at + count;
        self.rest.clear();
    }

    /// The place of an edit among those before `at`, if it is one of them.
    pub fn place_of(&self, edit: u32, at: u32) -> Option<usize>
        requires within { at ≤ length self.now }
        requires ascends { Ascends self.now }
        ensures { MatchOption result ((k : ℕ) → k < at → slice_index self.now k ≡ edit → ⊥)
            (λ k. (k < at) × (slice_index self.now k ≡ edit)) }
    {
        // An edit below the straight part's end is at its own number.
        if edit < self.straight {
            return if edit < at { Some(edit as usize) } else { None };
        }
        let ahead = at.saturating_sub(self.straight) as usize;
        match place_in(&self.rest.as_slice()[..ahead], edit) {
            None => None,
            Some(k) => Some(self.straight as usize + k),
        }
    }
}
