ghost use Rattle.std.specs.Prelude.{◌≡◌, ℕ, ◌<◌, ◌≤◌, ◌↔◌, ◌||◌, List, Some, None, true, false, min, length};
ghost use Rattle.std.specs.Prelude.{is_some, is_err, IfOk, IfSome, OnOk, OnErr};
ghost use Rattle.vf_io.specs.Causes.{HasCause, told_failures, one_more_failure};
ghost use Rattle.vf_io.specs.Files.{bytes_of};
ghost use Rattle.vf_io.specs.Memory.{raised, faults_behind, is_absent};
ghost use Rattle.vf_io.specs.Reading.{TakesBytes, CountsRead};
ghost use Rattle.vf_io.specs.Shelved.{listed_files, file_list, told_files, unread_bytes};
ghost use Rattle.vf_io.specs.Shelved.{call_count, fault_count, failing_calls, fails_next};

use crate::answers::Failed;
use crate::memory_shelf::MemShelf;
use crate::shelf::Shelf;

/// A shelf of files in memory whose reads give few bytes, as those of a pipe or of a slow disk may.
#[derive(Drop)]
pub struct CutShelf {
    shelf: MemShelf,
    piece: u32,
    ghost some: { 1 ≤ piece },
}

impl CutShelf {
    /// A shelf of these files of which a read gives at most `piece` bytes. The calls with these numbers,
    /// counted from 0 over `open` and `next` together, fail. Of two files with one name the first counts.
    pub fn new(files: Vec<(String, Vec<u8>)>, failing: Vec<u64>, piece: u32) -> CutShelf
        requires { 1 ≤ piece }
        ensures files { file_list result.shelf ≡ listed_files files.items }
        ensures failing { failing_calls result.shelf ≡ failing.items }
        ensures counts { (call_count result.shelf ≡ 0) × (fault_count result.shelf ≡ 0) }
        ensures closed { unread_bytes result.shelf ≡ None }
        ensures piece { result.piece ≡ piece }
    {
        CutShelf {
            shelf: MemShelf::new(files, failing),
            piece,
        }
    }
}

impl Shelf for CutShelf {
    ghost files = { λ s. told_files s.shelf };

    ghost is_open = { λ s. is_some (unread_bytes s.shelf) };

    ghost rest = { λ s. unread_bytes s.shelf };

    ghost faults = { λ s. fault_count s.shelf };

    ghost failures = { λ s. told_failures (fault_count s.shelf) };

    ghost reads = { λ _. 0 };

    ghost allows = { λ _ _. Unit {0} };

    fn open(&mut self, name: &str) -> Result<(), Failed>
        ensures opened { OnOk result (is_some (unread_bytes self.new.shelf) ≡ true) }
        ensures rest { OnOk result (IfSome (told_files self.old.shelf) (λ told.
            unread_bytes self.new.shelf ≡ Some (bytes_of told name.now))) }
        ensures closed { OnErr result (is_some (unread_bytes self.new.shelf) ≡ false) }
        ensures failed { is_err result ≡ (fails_next self.old.shelf || is_absent (file_list self.old.shelf) name.now) }
        ensures files { told_files self.new.shelf ≡ told_files self.old.shelf }
        ensures kept { (file_list self.new.shelf ≡ file_list self.old.shelf)
            × (failing_calls self.new.shelf ≡ failing_calls self.old.shelf) }
        ensures piece { self.new.piece ≡ self.old.piece }
        ensures counted { call_count self.new.shelf ≡ raised (call_count self.old.shelf) }
        ensures fault { fault_count self.new.shelf ≡ faults_behind (is_err result) (fault_count self.old.shelf) }
        ensures cause { HasCause (fault_count self.old.shelf) (fault_count self.new.shelf) result }
        ensures calm { OnOk result (told_failures (fault_count self.new.shelf) ≡ told_failures (fault_count self.old.shelf)) }
        ensures failure { OnErr result (told_failures (fault_count self.new.shelf)
            ≡ one_more_failure (told_failures (fault_count self.old.shelf))) }
        ensures reads { 0 ≤ 0 }
        ensures allows { (n : List ℕ) → Unit {0} ↔ Unit {0} }
    {
        self.shelf.open(name)
    }

    fn next(&mut self, buffer: &mut [u8]) -> Result<usize, Failed>
        requires { 0 < length buffer.old }
        ensures bound { IfOk result (λ n. n ≤ length buffer.new) }
        ensures stays_open { OnOk result (is_some (unread_bytes self.new.shelf) ≡ is_some (unread_bytes self.old.shelf)) }
        ensures bytes { is_some (unread_bytes self.old.shelf) ≡ true →
            IfOk result (λ n. IfSome (unread_bytes self.old.shelf) (λ told.
            TakesBytes told (unread_bytes self.new.shelf) buffer.new n)) }
        ensures full { IfOk result (λ n. IfSome (unread_bytes self.old.shelf) (λ told.
            n ≡ min (min self.old.piece (length buffer.old)) (length told))) }
        ensures none_open { is_some (unread_bytes self.old.shelf) ≡ false → IfOk result (λ n. n ≡ 0) }
        ensures closed { OnErr result (is_some (unread_bytes self.new.shelf) ≡ false) }
        ensures failed { is_err result ≡ fails_next self.old.shelf }
        ensures files { told_files self.new.shelf ≡ told_files self.old.shelf }
        ensures kept { (file_list self.new.shelf ≡ file_list self.old.shelf)
            × (failing_calls self.new.shelf ≡ failing_calls self.old.shelf) }
        ensures piece { self.new.piece ≡ self.old.piece }
        ensures counted { call_count self.new.shelf ≡ raised (call_count self.old.shelf) }
        ensures fault { fault_count self.new.shelf ≡ faults_behind (is_err result) (fault_count self.old.shelf) }
        ensures cause { HasCause (fault_count self.old.shelf) (fault_count self.new.shelf) result }
        ensures calm { OnOk result (told_failures (fault_count self.new.shelf) ≡ told_failures (fault_count self.old.shelf)) }
        ensures failure { OnErr result (told_failures (fault_count self.new.shelf)
            ≡ one_more_failure (told_failures (fault_count self.old.shelf))) }
        ensures reads { CountsRead 0 0 result }
        ensures allows { (n : List ℕ) → Unit {0} ↔ Unit {0} }
    {
        let room = buffer.len().min(self.piece as usize);
        self.shelf.next(&mut buffer[..room])
    }
}
