ghost use Rattle.std.specs.Prelude.{OnOk, OnErr};
ghost use Rattle.std.specs.Io.KnownBytes.{Appends};
ghost use Rattle.vf_io.specs.Bytes.{AppendsFront};
ghost use Rattle.vf_io.specs.Causes.{HasCause};
ghost use Rattle.vf_io.specs.Pieces.{pieces_of};
ghost use Rattle.vf_io.specs.Whole.{HasPut, StopsInPiece};

use crate::answers::Failed;
use crate::pieces::split_line;
use crate::sink::Sink;

/// Writes a text line by line: one call of `put` for each, with its line end. Where one fails no
/// further line is put.
pub fn put_lines<K: Sink>(sink: &mut K, text: &[u8]) -> Result<(), Failed>
    ensures ok { OnOk result (Appends (K.written sink.old) (K.written sink.new) text.now) }
    ensures lines { OnOk result
        (HasPut (K.written sink.old) (K.written sink.new) (K.pieces sink.old) (K.pieces sink.new) (pieces_of text.now)) }
    ensures front { OnErr result (AppendsFront (K.written sink.old) (K.written sink.new) text.now) }
    ensures err { OnErr result
        (StopsInPiece (K.written sink.old) (K.written sink.new) (K.pieces sink.old) (K.pieces sink.new) (pieces_of text.now)) }
    ensures cause { HasCause (K.faults sink.old) (K.faults sink.new) result }
{
    let mut rest = text;
    while !rest.is_empty() {
        let (line, behind) = split_line(rest);
        sink.put(line)?;
        rest = behind;
    }
    Ok(())
}
