ghost use Rattle.std.specs.Prelude.{◌≡◌, ◌+◌, ◌≤◌, OnOk, vec_capacity, vec_len};

use vf_io::NoMemory;

/// A list of fewer items grows to sixteen times its length, and one of as many or more to four times.
const FEW: usize = 4096;

/// Room for `more` more items. A list that has too little grows to many times its length: so most are copied once or twice, and what
/// they don't fill is mostly never touched. When out of memory nothing is changed.
pub fn reserve_more<T>(list: &mut Vec<T>, more: usize) -> Result<(), NoMemory>
    ensures items { list.new.items ≡ list.old.items }
    ensures room { OnOk result (vec_len list.new + more ≤ vec_capacity list.new) }
{
    if more <= list.capacity() - list.len() {
        return Ok(());
    }
    let times = if list.len() < FEW { 15 } else { 3 };
    let grown = list.len().saturating_mul(times);
    list.reserve(more.max(grown))?;
    Ok(())
}
