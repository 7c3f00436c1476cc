ghost use Rattle.std.specs.Prelude.{◌≡◌, ◌+◌, ◌^◌, ◌<◌, ◌≤◌, true, false, [], ◌∷◌, ◌++◌, OnOk, length, slice_range};
ghost use Rattle.std.specs.List.{slice_index_or};
ghost use Rattle.std.specs.List.Sorted.{IsPartitionPoint};
ghost use Rattle.strip_marks.specs.Marks.{AreInOrder, is_ahead};
ghost use Rattle.strip_journal.specs.Looking.{at_word};
ghost use Rattle.strip_journal.specs.Packed.{no_change};

use crate::packed::PackedChange;
use crate::room::reserve_more;
use std::alloc::Global;
use std::marker::Model;
use strip_marks::WordChange;
use vf_io::NoMemory;

/// A list of changes, most of which are kept in sixteen bytes. Its value is the list, and for how many more there is room.
#[derive(Drop)]
pub struct Changes {
    packed: Vec<PackedChange>,
    /// Those whose points lie too far apart.
    whole: Vec<WordChange>,
}

impl Model for Changes {
    ghost use Rattle.std.specs.Prelude.{◌-◌, map, min, vec_capacity, vec_len};
    ghost use Rattle.strip_journal.specs.Packed.{ArePacked, KeptChanges, unpacked};

    ghost Value = { KeptChanges };

    ghost view = { λ c. record {
      items = map (unpacked c.whole.items) c.packed.items;
      room = min (vec_capacity c.packed - vec_len c.packed) (vec_capacity c.whole - vec_len c.whole);
    } };

    ghost invariant = { λ c. ArePacked c.whole.items c.packed.items };
}

impl Changes {
    /// No change. It takes no memory.
    pub fn new(alloc: Global) -> Changes
        ensures { result.items ≡ [] }
    {
        Changes {
            packed: Vec::new(alloc),
            whole: Vec::new(alloc),
        }
    }

    /// How many changes there are.
    pub fn len(&self) -> usize
        ensures { result ≡ length self.now.items }
    {
        self.packed.len()
    }

    /// Room for `more` changes more, whether they are packed or kept whole.
    pub fn reserve(&mut self, more: usize) -> Result<(), NoMemory>
        ensures items { self.new.items ≡ self.old.items }
        ensures room { OnOk result (more ≤ self.new.room) }
    {
        reserve_more(&mut self.packed, more)?;
        reserve_more(&mut self.whole, more)?;
        Ok(())
    }

    /// Adds a change after the others. It takes no memory.
    fn push(&mut self, change: &WordChange)
        requires room { 0 < self.old.room }
        requires few { length self.old.items + 1 < 2 ^ 32 }
        ensures items { self.new.items ≡ self.old.items ++ change.now ∷ [] }
        ensures room { self.old.room ≤ self.new.room + 1 }
    {
        match PackedChange::of_change(change) {
            Some(packed) => {
                let _packed = self.packed.push(packed);
            }
            None => {
                let _packed = self
                    .packed
                    .push(PackedChange::of_place(self.whole.len() as u32));
                let _whole = self.whole.push(*change);
            }
        }
    }

    /// Adds changes after the others. It takes no memory.
    pub fn append(&mut self, more: &[WordChange])
        requires room { length more.now ≤ self.old.room }
        requires few { length self.old.items + length more.now < 2 ^ 32 }
        ensures { self.new.items ≡ self.old.items ++ more.now }
    {
        for change in more {
            self.push(change);
        }
    }

    /// The changes from a place on and below another.
    pub fn part(&self, from: u32, to: u32) -> ChangesPart<'_>
        requires order { from ≤ to }
        requires within { to ≤ length self.now.items }
        ensures { result ≡ slice_range self.now.items from to }
    {
        ChangesPart {
            packed: &self.packed.as_slice()[from as usize..to as usize],
            whole: self.whole.as_slice(),
        }
    }
}

/// Whether a change comes before a word of ray n.
fn stands_ahead(change: &WordChange, n: u32, word: u32) -> bool
    ensures { result ≡ is_ahead change.now (at_word n word) }
{
    change.ray < n || (change.ray == n && change.word < word)
}

/// Changes that follow each other in a list. Their value is the list of them.
#[derive(Drop)]
pub struct ChangesPart<'a> {
    packed: &'a [PackedChange],
    whole: &'a [WordChange],
}

impl<'a> Model for ChangesPart<'a> {
    ghost use Rattle.std.specs.Prelude.{List, map};
    ghost use Rattle.strip_marks.specs.declared.change.WordChange.{WordChange};
    ghost use Rattle.strip_journal.specs.Packed.{unpacked};

    ghost Value = { List WordChange };

    ghost view = { λ c. map (unpacked c.whole.now) c.packed.now };
}

impl<'a> ChangesPart<'a> {
    /// How many changes there are.
    pub fn len(&self) -> usize
        ensures { result ≡ length self.now }
    {
        self.packed.len()
    }

    /// The k-th of them.
    pub fn get(&self, k: usize) -> WordChange
        requires { k < length self.now }
        ensures { result ≡ slice_index_or self.now k no_change }
    {
        let packed = self.packed;
        packed[k].unpack(self.whole)
    }

    /// The place of the first of them at or after a word of ray n.
    pub fn place_of(&self, n: u32, word: u32) -> usize
        requires { AreInOrder self.now }
        ensures within { result ≤ length self.now }
        ensures parted { IsPartitionPoint (λ change. is_ahead change (at_word n word) ≡ true)
            (λ change. is_ahead change (at_word n word) ≡ false) self.now result }
    {
        let (packed, whole) = (self.packed, self.whole);
        packed.partition_point(|change| stands_ahead(&change.unpack(whole), n, word))
    }
}
