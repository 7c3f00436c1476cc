use crate::boards::board;
use sample_job::{edits, plan, stock, strips};
use std::alloc::Global;
use std::test::Fail;
use strip_journal::Strip;
use strip_turns::Turned;
use turn_core::raise;
use vf_io::NoMemory;

/// A strip of a board that is closed after one turn of it. By then all its 21 edits were done, since its first stop comes after them.
fn turned_once(alloc: Global) -> Result<Option<Strip>, NoMemory> {
    let (board, mut pass) = board(alloc, 5)?;
    let turned = board.turn(&mut pass, 0);
    let mut strips = board.close(alloc, pass)?;
    if turned != (Turned::Moved { from: 0, to: 8 }) || strips.len() != 9 {
        return Ok(None);
    }
    Ok(Some(strips.swap_remove(0)))
}

/// The same strip, of which no edit past the eighth was ever done.
fn raised_to_eight(alloc: Global) -> Result<Option<Strip>, NoMemory> {
    let plan = plan(alloc, edits(alloc, 5)?)?;
    let mut strips = strips(alloc, &plan, &stock(alloc)?)?;
    if strips.len() != 9 {
        return Ok(None);
    }
    raise(&mut strips[0], &plan, 8)?;
    Ok(Some(strips.swap_remove(0)))
}

/// Whether two strips are at their eighth edit, with the same number of moves left, and count alike at each version up to it.
fn are_alike(one: &Strip, other: &Strip) -> bool {
    if one.done() != 8 || other.done() != 8 || one.left() != other.left() {
        return false;
    }
    for version in 0..9 {
        if one.counts_at(version) != other.counts_at(version) {
            return false;
        }
    }
    true
}

/// Whether the strip that was turned once is given as it was seen, at its eighth edit.
fn is_given_as_seen(alloc: Global) -> Result<bool, NoMemory> {
    match (turned_once(alloc)?, raised_to_eight(alloc)?) {
        (Some(given), Some(due)) => Ok(are_alike(&given, &due)),
        _ => Ok(false),
    }
}

/// A strip that worked past the version at which it is seen goes back there when the board is closed.
#[test]
fn given_as_it_is_seen(rt: HostRuntime) -> Result<(), Fail> {
    assert!(rt; is_given_as_seen(rt.alloc())?);
    Ok(())
}
