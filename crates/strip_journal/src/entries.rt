ghost use Rattle.std.specs.Prelude.{◌≡◌, ℕ, ◌+◌, ◌-◌, ◌<◌, ◌≤◌, ◌^◌, ◌++◌, ◌∷◌, [], false, OnOk, length, vec_capacity, vec_len};
ghost use Rattle.strip_journal.specs.Entries.{AreAscending, HasRoomFor, IsFirstEntryFrom, are_none, edit_at, entry_at};
ghost use Rattle.strip_journal.specs.Kept.{StillNames, hits_at, hits_room};

use crate::entry::{Entry, Hits};
use crate::room::reserve_more;
use std::alloc::Global;
use std::marker::Model;
use vf_io::NoMemory;

/// The most hits that are kept: their number has 32 bits.
const MOST_HITS: usize = u32::MAX as usize;

/// An entry as it is kept: in place of its hits their number, which is 0 where it found none, and n for the n-th of the list.
#[derive(Clone, Copy)]
struct KeptEntry {
    edit: u32,
    from: u32,
    to: u32,
    removed: u32,
    possible: u32,
    hits: u32,
    is_undo: bool,
}

/// The entries of a strip. Their value is a list of whole ones, and for how many more there is room. Few have hits, so these are
/// in a list of their own, and a kept entry is short.
#[derive(Drop)]
pub struct Entries {
    kept: Vec<KeptEntry>,
    hits: Vec<Hits>,
}

impl Model for Entries {
    ghost use Rattle.std.specs.Prelude.{◌-◌, vec_capacity, vec_len};
    ghost use Rattle.strip_journal.specs.Entries.{EntryList};
    ghost use Rattle.strip_journal.specs.Kept.{NameHits, hits_room, whole_entries};

    ghost Value = { EntryList };

    ghost view = { λ e. record {
      items = whole_entries e.hits.items e.kept.items;
      room = vec_capacity e.kept - vec_len e.kept;
      hits_room = hits_room (vec_capacity e.hits - vec_len e.hits) e.hits.items;
    } };

    ghost invariant = { λ e. NameHits e.hits.items e.kept.items };
}

/// The hits of a number.
fn hits_at(list: &[Hits], number: u32) -> Hits
    requires { number ≤ length list.now }
    ensures { result ≡ hits_at list.now number }
{
    if number == 0 {
        return Hits::none();
    }
    list[number as usize - 1]
}

/// Room for hits, if they are some.
fn reserve_hits(list: &mut Vec<Hits>, hits: &Hits) -> Result<(), NoMemory>
    ensures items { list.new.items ≡ list.old.items }
    ensures room { OnOk result (are_none hits.now ≡ false → 0 < hits_room (vec_capacity list.new - vec_len list.new) list.new.items) }
{
    if hits.is_none() {
        return Ok(());
    }
    if list.len() >= MOST_HITS {
        return Err(NoMemory);
    }
    reserve_more(list, 1)
}

/// Keeps hits, if they are some, and returns their number. It takes no memory.
fn keep_hits(list: &mut Vec<Hits>, hits: Hits) -> u32
    requires { are_none hits ≡ false → 0 < hits_room (vec_capacity list.old - vec_len list.old) list.old.items }
    ensures named { hits_at list.new.items result ≡ hits }
    ensures within { result ≤ length list.new.items }
    ensures still { StillNames list.old.items list.new.items }
{
    if hits.is_none() {
        return 0;
    }
    let _kept = list.push(hits);
    list.len() as u32
}

impl Entries {
    /// No entry. It takes no memory.
    pub fn new(alloc: Global) -> Entries
        ensures { result.items ≡ [] }
    {
        Entries {
            kept: Vec::new(alloc),
            hits: Vec::new(alloc),
        }
    }

    /// How many entries there are.
    pub fn len(&self) -> usize
        ensures { result ≡ length self.now.items }
    {
        self.kept.len()
    }

    /// The edit of the entry at a place.
    pub fn edit_at(&self, place: usize) -> u32
        requires { place < length self.now.items }
        ensures { result ≡ edit_at self.now.items place }
    {
        self.kept[place].edit
    }

    /// The entry at a place.
    pub fn get(&self, place: usize) -> Entry
        requires { place < length self.now.items }
        ensures { result ≡ entry_at self.now.items place }
    {
        let kept = self.kept[place];
        Entry {
            edit: kept.edit,
            from: kept.from,
            to: kept.to,
            is_undo: kept.is_undo,
            hits: hits_at(self.hits.as_slice(), kept.hits),
            removed: kept.removed,
            possible: kept.possible,
        }
    }

    /// The place of the first entry of an edit at or after a version.
    pub fn place_of(&self, version: u32) -> usize
        requires { AreAscending self.now.items }
        ensures { IsFirstEntryFrom self.now.items version result }
    {
        self.kept
            .as_slice()
            .partition_point(|entry| entry.edit < version)
    }

    /// Room for an entry more that has these hits. The entries stay, whatever it returns.
    pub fn reserve(&mut self, hits: &Hits) -> Result<(), NoMemory>
        ensures items { self.new.items ≡ self.old.items }
        ensures room { OnOk result (HasRoomFor self.new hits.now) }
    {
        reserve_hits(&mut self.hits, hits)?;
        reserve_more(&mut self.kept, 1)
    }

    /// Adds an entry. It takes no memory.
    pub fn push(&mut self, entry: &Entry)
        requires { HasRoomFor self.old entry.now.hits }
        ensures { self.new.items ≡ self.old.items ++ entry.now ∷ [] }
    {
        let hits = keep_hits(&mut self.hits, entry.hits);
        let _kept = self.kept.push(KeptEntry {
            edit: entry.edit,
            from: entry.from,
            to: entry.to,
            removed: entry.removed,
            possible: entry.possible,
            hits,
            is_undo: entry.is_undo,
        });
    }
}
