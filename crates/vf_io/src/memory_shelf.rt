ghost use Rattle.std.specs.Prelude.{◌≡◌, ℕ, ◌<◌, ◌≤◌, ◌↔◌, ◌||◌, ◌+◌, ◌-◌, ◌^◌, take, drop, List, Some, None, true, false, min, length};
ghost use Rattle.std.specs.Prelude.{is_some, is_err, IfOk, IfSome, OnOk, OnErr, MatchOption};
ghost use Rattle.std.specs.Ordering.{nat_cmp};
ghost use Rattle.std.specs.Cmp.Lexicographic.{slice_cmp};
ghost use Rattle.std.specs.FinMap.{find};
ghost use Rattle.vf_io.specs.Causes.{HasCause, told_failures, one_more_failure};
ghost use Rattle.vf_io.specs.Files.{bytes_of};
ghost use Rattle.vf_io.specs.Memory.{IsPlaceOf, contents_at, raised, faults_behind, is_absent};
ghost use Rattle.vf_io.specs.Reading.{TakesBytes, CountsRead};
ghost use Rattle.vf_io.specs.Shelved.{listed_files, file_list, told_files, unread_bytes};
ghost use Rattle.vf_io.specs.Shelved.{call_count, fault_count, failing_calls, fails_next};

use crate::answers::Failed;
use crate::shelf::Shelf;

/// A shelf of files in memory, which it shows.
#[derive(Drop)]
pub struct MemShelf {
    files: Vec<(String, Vec<u8>)>,
    failing: Vec<u64>,
    calls: u64,
    faults: u64,
    is_open: bool,
    // The place of the file that was opened, and how many of its bytes were taken.
    file: usize,
    taken: usize,
}

impl MemShelf {
    /// A shelf of these files. The calls with these numbers, counted from 0 over `open` and `next`
    /// together, fail. Of two files with one name the first counts.
    pub fn new(files: Vec<(String, Vec<u8>)>, failing: Vec<u64>) -> MemShelf
        ensures files { file_list result ≡ listed_files files.items }
        ensures failing { failing_calls result ≡ failing.items }
        ensures counts { (call_count result ≡ 0) × (fault_count result ≡ 0) }
        ensures closed { unread_bytes result ≡ None }
    {
        MemShelf {
            files,
            failing,
            calls: 0,
            faults: 0,
            is_open: false,
            file: 0,
            taken: 0,
        }
    }

    /// Counts a call, and answers whether it fails by its number.
    fn count_call(&mut self) -> bool
        ensures fails { result ≡ fails_next self.old }
        ensures counted { self.new ≡ record self.old { calls = raised self.old.calls } }
    {
        let failing = self.failing.contains(&self.calls);
        self.calls = self.calls.saturating_add(1);
        failing
    }

    /// Opens the file at a place.
    fn begin(&mut self, file: usize)
        ensures { self.new ≡ record self.old { is_open = true; file = file; taken = 0 } }
    {
        self.is_open = true;
        self.file = file;
        self.taken = 0;
    }

    /// Counts bytes of the open file as taken.
    fn move_on(&mut self, count: usize)
        ensures moved { self.new ≡ record self.old { taken = min (self.old.taken + count) (2 ^ 64 - 1) } }
        ensures small { self.old.taken < 2 ^ 64 }
    {
        self.taken = self.taken.saturating_add(count);
    }

    /// Counts a fault, after which no file is open.
    fn fail(&mut self) -> Failed
        ensures kept { self.new ≡ record self.old { faults = raised self.old.faults; is_open = false } }
        ensures later { self.old.faults ≤ self.new.faults }
    {
        self.faults = self.faults.saturating_add(1);
        self.is_open = false;
        Failed
    }
}

impl Shelf for MemShelf {
    ghost files = { told_files };

    ghost is_open = { λ s. is_some (unread_bytes s) };

    ghost rest = { unread_bytes };

    ghost faults = { fault_count };

    ghost failures = { λ s. told_failures (fault_count s) };

    ghost reads = { λ _. 0 };

    ghost allows = { λ _ _. Unit {0} };

    fn open(&mut self, name: &str) -> Result<(), Failed>
        ensures opened { OnOk result (is_some (unread_bytes self.new) ≡ true) }
        ensures rest { OnOk result (IfSome (told_files self.old) (λ told. unread_bytes self.new ≡ Some (bytes_of told name.now))) }
        ensures closed { OnErr result (is_some (unread_bytes self.new) ≡ false) }
        ensures failed { is_err result ≡ (fails_next self.old || is_absent (file_list self.old) name.now) }
        ensures files { told_files self.new ≡ told_files self.old }
        ensures kept { (file_list self.new ≡ file_list self.old) × (failing_calls self.new ≡ failing_calls self.old) }
        ensures counted { call_count self.new ≡ raised (call_count self.old) }
        ensures fault { fault_count self.new ≡ faults_behind (is_err result) (fault_count self.old) }
        ensures cause { HasCause (fault_count self.old) (fault_count self.new) result }
        ensures calm { OnOk result (told_failures (fault_count self.new) ≡ told_failures (fault_count self.old)) }
        ensures failure { OnErr result (told_failures (fault_count self.new) ≡ one_more_failure (told_failures (fault_count self.old))) }
        ensures reads { 0 ≤ 0 }
        ensures allows { (n : List ℕ) → Unit {0} ↔ Unit {0} }
    {
        let failing = self.count_call();
        match place_of(&self.files, name) {
            Some(file) if !failing => {
                self.begin(file);
                Ok(())
            }
            _ => Err(self.fail()),
        }
    }

    fn next(&mut self, buffer: &mut [u8]) -> Result<usize, Failed>
        requires { 0 < length buffer.old }
        ensures bound { IfOk result (λ n. n ≤ length buffer.new) }
        ensures stays_open { OnOk result (is_some (unread_bytes self.new) ≡ is_some (unread_bytes self.old)) }
        ensures bytes { is_some (unread_bytes self.old) ≡ true →
            IfOk result (λ n. IfSome (unread_bytes self.old) (λ told. TakesBytes told (unread_bytes self.new) buffer.new n)) }
        ensures full { IfOk result (λ n. IfSome (unread_bytes self.old) (λ told. n ≡ min (length buffer.old) (length told))) }
        ensures none_open { is_some (unread_bytes self.old) ≡ false → IfOk result (λ n. n ≡ 0) }
        ensures closed { OnErr result (is_some (unread_bytes self.new) ≡ false) }
        ensures failed { is_err result ≡ fails_next self.old }
        ensures files { told_files self.new ≡ told_files self.old }
        ensures kept { (file_list self.new ≡ file_list self.old) × (failing_calls self.new ≡ failing_calls self.old) }
        ensures counted { call_count self.new ≡ raised (call_count self.old) }
        ensures fault { fault_count self.new ≡ faults_behind (is_err result) (fault_count self.old) }
        ensures cause { HasCause (fault_count self.old) (fault_count self.new) result }
        ensures calm { OnOk result (told_failures (fault_count self.new) ≡ told_failures (fault_count self.old)) }
        ensures failure { OnErr result (told_failures (fault_count self.new) ≡ one_more_failure (told_failures (fault_count self.old))) }
        ensures reads { CountsRead 0 0 result }
        ensures allows { (n : List ℕ) → Unit {0} ↔ Unit {0} }
    {
        if self.count_call() {
            return Err(self.fail());
        }
        if !self.is_open {
            return Ok(0);
        }
        let bytes = behind(contents(&self.files, self.file), self.taken);
        let count = copy_front(buffer, bytes);
        self.move_on(count);
        Ok(count)
    }
}

/// The place of the first file with the name.
fn place_of(files: &[(String, Vec<u8>)], name: &str) -> Option<usize>
    ensures { MatchOption result
        (find (slice_cmp nat_cmp) name.now (listed_files files.now) ≡ None)
        (λ i. IsPlaceOf (listed_files files.now) name.now i) }
{
    for (place, file) in files.iter().enumerate() {
        if file.0.as_str() == name {
            return Some(place);
        }
    }
    None
}

/// The bytes of the file at a place.
fn contents(files: &[(String, Vec<u8>)], place: usize) -> &[u8]
    ensures bytes { result.now ≡ contents_at (listed_files files.now) place }
    ensures small { length result.now < 2 ^ 64 }
{
    match files.get(place) {
        Some(file) => file.1.as_slice(),
        None => &[],
    }
}

/// What comes after the first bytes.
fn behind(bytes: &[u8], taken: usize) -> &[u8]
    ensures { result.now ≡ drop taken bytes.now }
{
    &bytes[taken.min(bytes.len())..]
}

/// Copies as many bytes as the buffer has room for, and returns how many.
fn copy_front(buffer: &mut [u8], bytes: &[u8]) -> usize
    ensures count { result ≡ min (length buffer.old) (length bytes.now) }
    ensures front { take result buffer.new ≡ take result bytes.now }
{
    let count = buffer.len().min(bytes.len());
    buffer[..count].copy_from_slice(&bytes[..count]);
    count
}
