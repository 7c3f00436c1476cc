ghost use Rattle.std.specs.Prelude.{◌≡◌, ℕ, ◌<◌, ◌≤◌, ◌↔◌, List, Option, Some, None, Bool, true, false, length, IfOk, IfSome, OnOk, OnErr};
ghost use Rattle.vf_io.specs.Causes.{HasCause, one_more_failure};
ghost use Rattle.vf_io.specs.Files.{Files, bytes_of};
ghost use Rattle.vf_io.specs.Reading.{TakesBytes, CountsRead};

use crate::answers::Failed;

/// A set of named files of which one may be open.
pub trait Shelf {
    // The files with their bytes, where the shelf shows them.
    ghost files: { Self → Option Files };

    // Whether a file is open.
    ghost is_open: { Self → Bool };

    // The bytes of the open file that are still unread, where the shelf shows them.
    ghost rest: { Self → Option (List ℕ) };

    // How many calls failed, up to the greatest count.
    ghost faults: { Self → ℕ };

    // How many calls failed, where the shelf shows it: a failed call raises it by one, and no other call
    // changes it.
    ghost failures: { Self → Option ℕ } = { λ _. None };

    // A count that no read raises by more than one, and only a read that took bytes.
    ghost reads: { Self → ℕ };

    // Whether the file of this name may be opened.
    ghost allows: { Self → List ℕ → Type 0 };

    /// Opens the named file, in place of the one that is open. A name that no file has is taken as an
    /// empty file, or fails. Where it fails no file is open.
    fn open(&mut self, name: &str) -> Result<(), Failed>
        requires { allows self.old name.now }
        ensures opened { OnOk result (is_open self.new ≡ true) }
        ensures rest { OnOk result (IfSome (files self.old) (λ told. rest self.new ≡ Some (bytes_of told name.now))) }
        ensures closed { OnErr result (is_open self.new ≡ false) }
        ensures files { files self.new ≡ files self.old }
        ensures cause { HasCause (faults self.old) (faults self.new) result }
        ensures calm { OnOk result (failures self.new ≡ failures self.old) }
        ensures failure { OnErr result (failures self.new ≡ one_more_failure (failures self.old)) }
        ensures reads { reads self.new ≤ reads self.old }
        ensures allows { (n : List ℕ) → allows self.old n ↔ allows self.new n };

    /// Moves some of the unread bytes to the front of the buffer, and answers how many: none where none
    /// are left, or where no file is open. Where it fails no file is open.
    fn next(&mut self, buffer: &mut [u8]) -> Result<usize, Failed>
        requires { 0 < length buffer.old }
        ensures bound { IfOk result (λ n. n ≤ length buffer.new) }
        ensures stays_open { OnOk result (is_open self.new ≡ is_open self.old) }
        ensures bytes { is_open self.old ≡ true →
            IfOk result (λ n. IfSome (rest self.old) (λ told. TakesBytes told (rest self.new) buffer.new n)) }
        ensures none_open { is_open self.old ≡ false → IfOk result (λ n. n ≡ 0) }
        ensures closed { OnErr result (is_open self.new ≡ false) }
        ensures files { files self.new ≡ files self.old }
        ensures cause { HasCause (faults self.old) (faults self.new) result }
        ensures calm { OnOk result (failures self.new ≡ failures self.old) }
        ensures failure { OnErr result (failures self.new ≡ one_more_failure (failures self.old)) }
        ensures reads { CountsRead (reads self.old) (reads self.new) result }
        ensures allows { (n : List ℕ) → allows self.old n ↔ allows self.new n };
}
