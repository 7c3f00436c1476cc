ghost use Rattle.std.specs.Prelude.{◌≡◌, ◌≤◌, ◌∷◌, [], ℕ, ◌<◌, None, length, IfOk, OnOk, OnErr};
ghost use Rattle.std.specs.Io.KnownBytes.{Appends, Keeps};
ghost use Rattle.vf_io.specs.Bytes.{AppendsFront, AddsPieces};
ghost use Rattle.vf_io.specs.Causes.{HasCause, Rose};
ghost use Rattle.vf_io.specs.Gathered.{gathered_bytes, taken_bytes};

use crate::answers::{Failed, NoMemory};
use crate::retrying::write_whole;
use crate::sink::Sink;
use std::alloc::Global;
use std::io::{BufWriter, Write};

/// The bytes that are gathered before the writer gets them.
const GATHERED: usize = 65536;

/// A sink over a writer, as standard output is. It gathers lines, and shows what the writer shows, which
/// is nothing for standard output: what the system takes is trusted. `flush` hands on what is still
/// gathered.
#[derive(Drop)]
pub struct StdSink<W: Write + Drop> {
    writer: BufWriter<W>,
    faults: u64,
}

impl<W: Write + Drop> StdSink<W> {
    /// The sink that writes to this output.
    pub fn new(alloc: Global, output: W) -> Result<StdSink<W>, NoMemory>
        ensures counts { IfOk result (λ sink. ⟦<StdSink<W> as Sink>⟧.faults sink ≡ 0) }
        ensures written { IfOk result (λ sink. Keeps (W.contents output) (taken_bytes W.contents sink)) }
        ensures empty { IfOk result (λ sink. gathered_bytes sink ≡ []) }
    {
        match BufWriter::with_capacity(alloc, GATHERED, output) {
            Ok(writer) => Ok(StdSink { writer, faults: 0 }),
            Err(_) => Err(NoMemory),
        }
    }

    /// Hands on what is still gathered.
    pub fn flush(&mut self) -> Result<(), Failed>
        ensures written { Keeps (taken_bytes W.contents self.old) (taken_bytes W.contents self.new) }
        ensures empty { OnOk result (gathered_bytes self.new ≡ []) }
        ensures cause { HasCause self.old.faults self.new.faults result }
    {
        match self.writer.flush() {
            Ok(()) => Ok(()),
            Err(_) => Err(self.fail()),
        }
    }

    /// Counts a fault.
    fn fail(&mut self) -> Failed
        ensures kept { self.new.writer ≡ self.old.writer }
        ensures later { self.old.faults ≤ self.new.faults }
        ensures rose { Rose self.old.faults self.new.faults }
    {
        self.faults = self.faults.saturating_add(1);
        Failed
    }
}

impl<W: Write + Drop> Sink for StdSink<W> {
    ghost written = { taken_bytes W.contents };

    ghost faults = { λ s. s.faults };

    fn put(&mut self, bytes: &[u8]) -> Result<(), Failed> {
        match write_whole(&mut self.writer, bytes) {
            Ok(()) => Ok(()),
            Err(_) => Err(self.fail()),
        }
    }
}
