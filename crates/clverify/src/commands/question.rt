ghost use Rattle.std.specs.Prelude.{◌≡◌, ◌≤◌, map, unsigned_abs, IfSome, string_bytes};
ghost use Rattle.space.specs.Ranges.{IsPoint, metre};
ghost use Rattle.point_marks.specs.Questions.{IsQuestion, deepest, most_slabs};
ghost use Rattle.clverify.specs.Commands.Questions.{coordinate_of, depth_of, point_by, question_of, slabs_of};

use call_words::read_within;
use cl_lines::{Unit, read_length};
use point_marks::Question;

/// How far from the origin a coordinate may be, in micrometres.
const FARTHEST: i32 = 1_000_000;

/// The greatest depth.
const DEEPEST: u32 = 10;

/// The most slabs of a cutter, and how many it has where no word says so.
const MOST_SLABS: u32 = 256;

const USUAL_SLABS: u32 = 16;

/// The most digits of a depth and of a number of slabs.
const MOST_PLACES: usize = 3;

/// The question that the words after the file's name ask, where they ask one.
pub(crate) fn read_question(words: &[String]) -> Option<Question>
    ensures question { result ≡ question_of (map string_bytes words.now) }
    ensures valid { IfSome result IsQuestion }
{
    let [x, y, z, name, depth, more @ ..] = words else {
        return None;
    };
    Some(Question {
        point: read_point(x, y, z)?,
        depth: read_depth(name, depth)?,
        slabs: read_slabs(more)?,
    })
}

/// The point with these coordinates.
fn read_point(x: &str, y: &str, z: &str) -> Option<[i32; 3]>
    ensures point { result ≡ point_by (coordinate_of x.now) (coordinate_of y.now) (coordinate_of z.now) }
    ensures near { IfSome result IsPoint }
{
    Some([
        read_coordinate(x)?,
        read_coordinate(y)?,
        read_coordinate(z)?,
    ])
}

/// A coordinate: millimetres, rounded to whole micrometres.
fn read_coordinate(word: &str) -> Option<i32>
    ensures coordinate { result ≡ coordinate_of word.now }
    ensures near { IfSome result (λ z. unsigned_abs z ≤ metre) }
{
    read_length(word.as_bytes(), Unit::Mm, -FARTHEST, FARTHEST).ok()
}

/// The depth after its name.
fn read_depth(name: &str, word: &str) -> Option<u32>
    ensures depth { result ≡ depth_of name.now word.now }
    ensures shallow { IfSome result (λ n. n ≤ deepest) }
{
    if name == "--depth" {
        read_within(0, DEEPEST, MOST_PLACES, word)
    } else {
        None
    }
}

/// The number of slabs after its name, or the usual one where no words are left.
fn read_slabs(words: &[String]) -> Option<u32>
    ensures slabs { result ≡ slabs_of (map string_bytes words.now) }
    ensures some { IfSome result (λ n. 1 ≤ n) }
    ensures few { IfSome result (λ n. n ≤ most_slabs) }
{
    match words {
        [] => Some(USUAL_SLABS),
        [name, word] if name.as_str() == "--slabs" => read_within(1, MOST_SLABS, MOST_PLACES, word),
        _ => None,
    }
}
