ghost use Rattle.std.specs.Prelude.{◌≡◌, ◌<◌, ◌≤◌, true, length, IfOk, vec_len};

use std::alloc::Global;
use std::io;
use std::io::{ErrorKind, Write};
use std::test::Fail;
use vf_io::{Sink, StdSink};

/// An output whose first writes are interrupted, and which takes half of a text, or is a closed pipe.
#[derive(Drop)]
struct Pipe {
    interrupts: u32,
    closed: bool,
}

impl Write for Pipe {
    fn write(&mut self, bytes: &[u8]) -> io::Result<usize> {
        if self.interrupts > 0 {
            self.interrupts -= 1;
            return Err(io::Error::from(ErrorKind::Interrupted));
        }
        if self.closed {
            return Err(io::Error::from(ErrorKind::BrokenPipe));
        }
        Ok(bytes.len().div_ceil(2))
    }

    fn flush(&mut self) -> io::Result<()> {
        Ok(())
    }
}

/// One byte more than a sink over an output gathers.
const MORE_THAN_GATHERED: usize = 65_537;

/// More bytes than are gathered.
fn long_text(alloc: Global) -> Result<Vec<u8>, Fail>
    ensures { IfOk result (λ long. 0 < vec_len long) }
{
    let mut bytes = Vec::new(alloc);
    bytes.resize(MORE_THAN_GATHERED, b'x')?;
    Ok(bytes)
}

/// Whether a long text that is put and a line that is handed on fail where the output is closed, and only there. The sink shows no count
/// of its faults, so a clause says that it counted both.
fn fails_as_due(sink: &mut StdSink<Pipe>, long: &[u8], closed: bool) -> bool
    requires some { 0 < length long.now }
    requires none { ⟦<StdSink<Pipe> as Sink>⟧.faults sink.old ≡ 0 }
    ensures counted { result ≡ true → closed ≡ true → 2 ≤ ⟦<StdSink<Pipe> as Sink>⟧.faults sink.new }
{
    let put = sink.put(long).is_err();
    let gathered = sink.put(b"one\n").is_err();
    let flushed = sink.flush().is_err();
    put == closed && !gathered && flushed == closed
}

/// The same on a new sink.
fn is_handed_on(alloc: Global, closed: bool) -> Result<bool, Fail> {
    let long = long_text(alloc)?;
    let pipe = Pipe {
        interrupts: 2,
        closed,
    };
    let mut sink = StdSink::new(alloc, pipe)?;
    Ok(fails_as_due(&mut sink, &long, closed))
}

#[test]
fn hands_on_what_is_gathered(rt: HostRuntime) -> Result<(), Fail> {
    let open = is_handed_on(rt.alloc(), false)?;
    assert!(rt; open, "an output that takes all");
    let closed = is_handed_on(rt.alloc(), true)?;
    assert!(rt; closed, "a closed pipe");
    Ok(())
}
