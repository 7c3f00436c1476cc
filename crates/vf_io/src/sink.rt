ghost use Rattle.std.specs.Prelude.{ℕ, ◌<◌, [], ◌∷◌, List, Option, None, length, OnOk, OnErr};
ghost use Rattle.std.specs.Io.KnownBytes.{Appends};
ghost use Rattle.vf_io.specs.Bytes.{AppendsFront, AddsPieces};
ghost use Rattle.vf_io.specs.Causes.{HasCause};

use crate::answers::Failed;

/// What takes the text that a program writes.
pub trait Sink {
    // The bytes written so far, where the sink shows them.
    ghost written: { Self → Option (List ℕ) };

    // The pieces of all calls so far, of the failed ones too, where the sink shows them.
    ghost pieces: { Self → Option (List (List ℕ)) } = { λ _. None };

    // How many calls failed, up to the greatest count.
    ghost faults: { Self → ℕ };

    /// Writes the bytes. Where it fails it has written a front of them, maybe none.
    fn put(&mut self, bytes: &[u8]) -> Result<(), Failed>
        requires { 0 < length bytes.now }
        ensures ok { OnOk result (Appends (written self.old) (written self.new) bytes.now) }
        ensures err { OnErr result (AppendsFront (written self.old) (written self.new) bytes.now) }
        ensures piece { AddsPieces (pieces self.old) (pieces self.new) (bytes.now ∷ []) }
        ensures cause { HasCause (faults self.old) (faults self.new) result };
}
