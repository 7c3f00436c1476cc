ghost use Rattle.std.specs.Prelude.{◌≡◌, ℕ, ◌<◌, ◌≤◌, [], Some, None, true, false, min, length};
ghost use Rattle.std.specs.Prelude.{is_some, is_err, IfOk, IfSome, OnOk};
ghost use Rattle.vf_io.specs.Causes.{told_failures};
ghost use Rattle.vf_io.specs.Files.{bytes_of};
ghost use Rattle.vf_io.specs.Reading.{TakesBytes};
ghost use Rattle.vf_io.specs.Shelved.{listed_files, file_list, told_files, unread_bytes, failing_calls};
ghost use Rattle.vf_io.specs.Sure.{unread_or_none};

use crate::answers::Failed;
use crate::memory_shelf::MemShelf;
use crate::shelf::Shelf;

/// A shelf of files in memory, which it shows, and of which no call fails: an absent name is taken as an
/// empty file.
#[derive(Drop)]
pub struct SureShelf {
    shelf: MemShelf,
    // Whether the file that is open is the empty one of an absent name.
    is_absent: bool,
    ghost sure: { failing_calls shelf ≡ [] },
}

impl SureShelf {
    /// A shelf of these files. Of two files with one name the first counts.
    pub fn new(files: Vec<(String, Vec<u8>)>) -> SureShelf
        ensures files { file_list result.shelf ≡ listed_files files.items }
        ensures closed { unread_or_none result.is_absent result.shelf ≡ None }
    {
        let failing = Vec::new(*files.allocator());
        SureShelf {
            shelf: MemShelf::new(files, failing),
            is_absent: false,
        }
    }
}

impl Shelf for SureShelf {
    ghost files = { λ s. told_files s.shelf };

    ghost is_open = { λ s. is_some (unread_or_none s.is_absent s.shelf) };

    ghost rest = { λ s. unread_or_none s.is_absent s.shelf };

    ghost faults = { λ _. 0 };

    ghost failures = { λ _. told_failures 0 };

    ghost reads = { λ _. 0 };

    ghost allows = { λ _ _. Unit {0} };

    fn open(&mut self, name: &str) -> Result<(), Failed>
        ensures sure { is_err result ≡ false }
        ensures opened { OnOk result (is_some (unread_or_none self.new.is_absent self.new.shelf) ≡ true) }
        ensures rest { OnOk result (IfSome (told_files self.old.shelf) (λ told.
            unread_or_none self.new.is_absent self.new.shelf ≡ Some (bytes_of told name.now))) }
        ensures files { told_files self.new.shelf ≡ told_files self.old.shelf }
    {
        self.is_absent = self.shelf.open(name).is_err();
        Ok(())
    }

    fn next(&mut self, buffer: &mut [u8]) -> Result<usize, Failed>
        requires { 0 < length buffer.old }
        ensures sure { is_err result ≡ false }
        ensures bound { IfOk result (λ n. n ≤ length buffer.new) }
        ensures stays_open { OnOk result (is_some (unread_or_none self.new.is_absent self.new.shelf)
            ≡ is_some (unread_or_none self.old.is_absent self.old.shelf)) }
        ensures bytes { is_some (unread_or_none self.old.is_absent self.old.shelf) ≡ true →
            IfOk result (λ n. IfSome (unread_or_none self.old.is_absent self.old.shelf) (λ told.
            TakesBytes told (unread_or_none self.new.is_absent self.new.shelf) buffer.new n)) }
        ensures full { IfOk result (λ n. IfSome (unread_or_none self.old.is_absent self.old.shelf) (λ told.
            n ≡ min (length buffer.old) (length told))) }
        ensures none_open { is_some (unread_or_none self.old.is_absent self.old.shelf) ≡ false → IfOk result (λ n. n ≡ 0) }
        ensures files { told_files self.new.shelf ≡ told_files self.old.shelf }
    {
        if self.is_absent {
            return Ok(0);
        }
        self.shelf.next(buffer)
    }
}
