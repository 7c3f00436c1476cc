ghost use Rattle.std.specs.Prelude.{◌≡◌, None, false, is_err};

use crate::answers::Failed;
use crate::sink::Sink;

/// A sink that keeps nothing, doesn't show what was written, and of which no put fails.
#[derive(Drop)]
pub struct SureSink;

impl SureSink {
    /// A sink for any text.
    pub fn new() -> SureSink {
        SureSink
    }
}

impl Sink for SureSink {
    ghost written = { λ _. None };

    ghost faults = { λ _. 0 };

    fn put(&mut self, _bytes: &[u8]) -> Result<(), Failed>
        ensures taken { is_err result ≡ false }
    {
        Ok(())
    }
}
