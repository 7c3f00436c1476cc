ghost use Rattle.std.specs.Prelude.{◌≡◌, ◌<◌, ◌++◌, ◌∷◌, length};
ghost use Rattle.vf_io.specs.Pieces.{pieces_of};

use memchr::memchr;

/// The first line of a text, with its line end, and the text after it.
pub fn split_line(text: &[u8]) -> (&[u8], &[u8])
    requires { 0 < length text.now }
    ensures first { pieces_of text.now ≡ result.0.now ∷ pieces_of result.1.now }
    ensures whole { text.now ≡ result.0.now ++ result.1.now }
    ensures some { 0 < length result.0.now }
{
    let len = match memchr(b'\n', text) {
        Some(place) => place + 1,
        None => text.len(),
    };
    text.split_at(len)
}
