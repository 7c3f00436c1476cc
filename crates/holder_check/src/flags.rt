ghost use Rattle.std.specs.Prelude.{◌≡◌, ℕ, ◌<◌, ◌&&◌, ◌||◌, nat_eq, IsTrue, OnOk, length};
ghost use Rattle.vf_spans.specs.Members.{has};

use vf_io::NoMemory;
use vf_spans::Spans;

/// Adds an index, above all that the set has, if it is wanted.
pub fn push_if(set: &mut Spans, wanted: bool, index: u32) -> Result<(), NoMemory>
    requires within { index < length set.old }
    requires above { (i : ℕ) → IsTrue (has set.old i) → i < index }
    ensures bound { length set.new ≡ length set.old }
    ensures added { OnOk result ((i : ℕ) → has set.new i ≡ (has set.old i || (wanted && nat_eq i index))) }
{
    if !wanted {
        return Ok(());
    }
    set.push(index)
}
