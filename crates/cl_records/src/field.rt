ghost use Rattle.std.specs.Prelude.{◌≡◌, ◌∷◌, [], length};
ghost use Rattle.std.specs.Option.{option_map_or};
ghost use Rattle.cl_records.specs.Parameters.{fields_of, trimmed};

use memchr::memchr;
use vf_text::{skip_blanks, trim_end};

/// The first field of a text, up to a comma, and the text after the comma.
pub(crate) fn split_field(text: &[u8]) -> (&[u8], Option<&[u8]>)
    ensures { fields_of text.now ≡ result.0.now ∷ option_map_or (λ rest. fields_of rest.now) result.1 [] }
{
    match memchr(b',', text) {
        Some(comma) => (&text[..comma], Some(&text[comma + 1..])),
        None => (text, None),
    }
}

/// How many fields the commas of a text separate.
pub(crate) fn count_fields(text: &[u8]) -> usize
    ensures { result ≡ length (fields_of text.now) }
{
    let mut commas = 0;
    for b in text {
        if *b == b',' {
            commas += 1;
        }
    }
    commas + 1
}

/// A field without the blanks at both its ends.
pub(crate) fn trim(field: &[u8]) -> &[u8]
    ensures { result.now ≡ trimmed field.now }
{
    trim_end(skip_blanks(field))
}
