ghost use Rattle.std.specs.Prelude.{◌≡◌, ℕ, ◌<◌, ◌≤◌, ◌↔◌, List, None, Some, true, false, min, length};
ghost use Rattle.std.specs.Prelude.{is_some, is_err, IfOk, IfSome, OnOk, OnErr, MatchResult, option_and_then};
ghost use Rattle.vf_io.specs.Causes.{HasCause, Rose, told_failures, one_more_failure};
ghost use Rattle.vf_io.specs.Memory.{faults_behind, raised};
ghost use Rattle.vf_io.specs.Reading.{TakesBytes, CountsRead};

use crate::answers::Failed;
use crate::retrying::read_some;
use crate::shelf::Shelf;
use std::rt::Files;
use std::{fs, io};

/// The files below the current folder. Of the open file it shows what the system shows, which is
/// nothing for a real one: what the system returns is trusted.
#[derive(Drop)]
pub struct FolderShelf<'a, R: Files> {
    rt: &'a R,
    file: Option<R::File>,
    faults: u64,
}

impl<'a, R: Files> FolderShelf<'a, R> {
    /// The shelf of the current folder, with no file open.
    pub fn new(rt: &'a R) -> FolderShelf<'a, R>
        ensures closed { ⟦<FolderShelf<'a, R> as Shelf>⟧.is_open result ≡ false }
        ensures counts { ⟦<FolderShelf<'a, R> as Shelf>⟧.faults result ≡ 0 }
    {
        FolderShelf {
            rt,
            file: None,
            faults: 0,
        }
    }

    /// Holds the file that the system opened, or counts that it opened none.
    fn hold(&mut self, opened: io::Result<R::File>) -> Result<(), Failed>
        ensures answer { is_err result ≡ is_err opened }
        ensures held { MatchResult opened (λ file. self.new.file ≡ Some file) (λ _. self.new.file ≡ None) }
        ensures counted { self.new.faults ≡ faults_behind (is_err result) self.old.faults }
        ensures later { self.old.faults ≤ self.new.faults }
    {
        match opened {
            Ok(file) => {
                self.file = Some(file);
                Ok(())
            }
            Err(_) => Err(self.fail()),
        }
    }

    /// Counts a fault, after which no file is open.
    fn fail(&mut self) -> Failed
        ensures closed { self.new.file ≡ None }
        ensures counted { self.new.faults ≡ raised self.old.faults }
        ensures later { self.old.faults ≤ self.new.faults }
    {
        self.faults = self.faults.saturating_add(1);
        self.file = None;
        Failed
    }
}

impl<'a, R: Files> Shelf for FolderShelf<'a, R> {
    ghost files = { λ _. None };

    ghost is_open = { λ s. is_some s.file };

    ghost rest = { λ s. option_and_then R.File.remaining s.file };

    ghost faults = { λ s. s.faults };

    ghost failures = { λ s. told_failures s.faults };

    ghost reads = { λ _. 0 };

    ghost allows = { λ _ _. Unit {0} };

    fn open(&mut self, name: &str) -> Result<(), Failed> {
        let opened = fs::open(self.rt, name);
        self.hold(opened)
    }

    fn next(&mut self, buffer: &mut [u8]) -> Result<usize, Failed> {
        let Some(file) = &mut self.file else {
            return Ok(0);
        };
        match read_some(file, buffer) {
            Ok(count) => Ok(count),
            Err(_) => Err(self.fail()),
        }
    }
}
