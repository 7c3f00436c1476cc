ghost use Rattle.std.specs.Prelude.{◌<◌, [], ◌∷◌, None, length, OnOk, OnErr};
ghost use Rattle.std.specs.Io.KnownBytes.{Appends};
ghost use Rattle.vf_io.specs.Bytes.{AppendsFront, AddsPieces};
ghost use Rattle.vf_io.specs.Causes.{HasCause};

use std::alloc::Global;
use std::test::Fail;
use vf_io::{Failed, MemSink, Sink, put_lines};

const THREE: &str = "one\ntwo\nthree\n";

/// A text, the room of the sink, the number of the put that fails, and what is written. It is the
/// whole text exactly where no put fails.
#[derive(Clone, Copy)]
struct Text {
    about: &'static str,
    text: &'static str,
    room: usize,
    failing: u64,
    written: &'static str,
}

const TEXTS: [Text; 11] = [
    Text {
        about: "each line",
        text: THREE,
        room: 14,
        failing: 9,
        written: THREE,
    },
    Text {
        about: "no line end at the last",
        text: "one\ntwo",
        room: 14,
        failing: 9,
        written: "one\ntwo",
    },
    Text {
        about: "one line without an end",
        text: "one",
        room: 14,
        failing: 9,
        written: "one",
    },
    Text {
        about: "no text needs no put",
        text: "",
        room: 0,
        failing: 0,
        written: "",
    },
    Text {
        about: "the first put fails",
        text: THREE,
        room: 14,
        failing: 0,
        written: "",
    },
    Text {
        about: "the third put fails",
        text: THREE,
        room: 14,
        failing: 2,
        written: "one\ntwo\n",
    },
    Text {
        about: "behind the last",
        text: "one\ntwo\n",
        room: 14,
        failing: 2,
        written: "one\ntwo\n",
    },
    Text {
        about: "an empty line is put too",
        text: "one\n\n\ntwo",
        room: 14,
        failing: 2,
        written: "one\n\n",
    },
    Text {
        about: "as long as the room",
        text: "one\ntwo\n",
        room: 8,
        failing: 9,
        written: "one\ntwo\n",
    },
    Text {
        about: "one byte past the room",
        text: "one\ntwo\n",
        room: 7,
        failing: 9,
        written: "one\n",
    },
    Text {
        about: "a shorter line is left",
        text: "one\nthree\nx\n",
        room: 7,
        failing: 9,
        written: "one\n",
    },
];

/// Whether the text is written as expected.
fn is_written(alloc: Global, row: &Text) -> Result<bool, Fail> {
    let mut sink = MemSink::new(alloc, row.room, [row.failing].to_vec(alloc)?)?;
    let answer = put_lines(&mut sink, row.text.as_bytes());
    Ok(answer.is_ok() == (row.written == row.text) && sink.written() == row.written.as_bytes())
}

#[test]
fn writes_whole_lines_up_to_the_failing_put(rt: HostRuntime) -> Result<(), Fail> {
    for row in &TEXTS {
        assert!(rt; is_written(rt.alloc(), row)?, "{}", row.about);
    }
    Ok(())
}

/// Counts its puts, of which one may fail, and adds up their lengths, each times ten to its number.
#[derive(Drop)]
struct Tally {
    lengths: usize,
    puts: usize,
    failing: usize,
    faults: u64,
}

impl Sink for Tally {
    ghost written = { λ _. None };

    ghost faults = { λ s. s.faults };

    fn put(&mut self, bytes: &[u8]) -> Result<(), Failed> {
        let number = self.puts;
        self.puts = self.puts.saturating_add(1);
        self.lengths = self.lengths.saturating_mul(10).saturating_add(bytes.len());
        if self.failing == number {
            self.faults = self.faults.saturating_add(1);
            return Err(Failed);
        }
        Ok(())
    }
}

/// A text, the number of the put that fails, and the lengths of the puts as digits.
const PUTS: [(&str, usize, usize); 9] = [
    ("a\n\nfour\n\nno", 9, 21512),
    ("a\n\nfour\n\nno", 0, 2),
    ("a\n\nfour\n\nno", 2, 215),
    ("a\n\nfour\n\nno", 4, 21512),
    ("one", 9, 3),
    ("\n", 9, 1),
    ("\n\n", 9, 11),
    ("one\r\ntwo", 9, 53),
    ("", 0, 0),
];

/// Whether the puts have these lengths, and the answer says whether one failed.
fn are_put(text: &str, failing: usize, lengths: usize) -> bool {
    let mut tally = Tally {
        lengths: 0,
        puts: 0,
        failing,
        faults: 0,
    };
    let answer = put_lines(&mut tally, text.as_bytes());
    tally.lengths == lengths && answer.is_ok() == (tally.faults == 0)
}

#[test]
fn makes_one_put_for_each_line(rt: HostRuntime) {
    for (text, failing, lengths) in &PUTS {
        assert!(rt; are_put(text, *failing, *lengths), "{text:?}, {failing}");
    }
}
