ghost use Rattle.std.specs.Prelude.{◌≡◌};

use crate::word::Word;

/// What is wrong with a cutter location text, in the order in which the faults of one record are judged. The names are those
/// that are printed.
#[derive(Clone, Copy)]
pub enum ClWhy {
    /// The record's text has more bytes than the most.
    LineLong,
    /// The last line continues a record, and no line follows.
    DanglingDollar,
    /// A record that is read or refused holds a byte that is neither a tab nor one from the space to the tilde.
    BadByte,
    /// The record's word can change the motion or the tool axis.
    Unsupported(Word),
    /// The record has another number of parameters than its word takes.
    ParamCount,
    /// Something other than a slash follows the word, or a word parameter is not one that the record takes.
    ParamWord,
    /// A number parameter is not a number.
    NumberSyntax,
    /// A rounded number is out of its range, or a move by a distance ends out of the range of positions.
    NumberRange,
    /// The sizes of a cutter disagree, or make one that is not read.
    CutterShape,
    /// All three components of a tool axis are 0.
    AxisZero,
    /// A move by a distance starts at no known position.
    NoPosition,
    /// The tool axes at both ends of a move are opposite.
    AxisFlip,
    /// The record would make one move more than the greatest number of them.
    TooManyMoves,
}

/// A fault of a cutter location text, with the number of the line where its record begins.
#[derive(Clone, Copy)]
pub struct ClFault {
    pub line: u32,
    pub why: ClWhy,
}

/// How a read ends that gives nothing.
#[derive(Clone, Copy)]
pub enum ClEnd {
    Refused(ClFault),
    NoMemory,
}

impl ClEnd {
    /// The refusal of the record that begins on a line.
    pub fn refused(line: u32, why: ClWhy) -> ClEnd
        ensures { result ≡ ClEnd.Refused (record { line = line; why = why }) }
    {
        ClEnd::Refused(ClFault { line, why })
    }
}
