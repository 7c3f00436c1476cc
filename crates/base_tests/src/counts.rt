use job_counts::{Counts, HolderCounts};

/// Counts of which one may be set.
fn counts(place: u32) -> Counts {
    let mut counts = Counts::none();
    match place {
        0 => counts.removed = 1,
        1 => counts.possible = 1,
        2 => counts.part_sure = 1,
        3 => counts.part_possible = 1,
        4 => counts.fix_sure = 1,
        5 => counts.fix_possible = 1,
        6 => counts.rapid_sure = 1,
        7 => counts.rapid_possible = 1,
        _ => {}
    }
    counts
}

/// Whether a move is safe with one point at each of the counts, and with none.
const SAFE: [bool; 9] = [true, true, true, false, true, false, true, false, true];

#[test]
fn safe_moves(rt: HostRuntime) {
    for (place, safe) in SAFE.iter().enumerate() {
        let is_due = counts(place as u32).is_safe() == *safe;
        assert!(rt; is_due, "one point at the count {place}");
    }
}

/// Counts of a holder of which one may be set.
fn holder_counts(place: u32) -> HolderCounts {
    let mut counts = HolderCounts::none();
    match place {
        0 => counts.part_sure = 1,
        1 => counts.part_possible = 1,
        2 => counts.fix_sure = 1,
        3 => counts.fix_possible = 1,
        4 => counts.stock_sure = 1,
        5 => counts.stock_possible = 1,
        _ => {}
    }
    counts
}

/// Whether a holder is clear with one point at each of the counts, and with none.
const CLEAR: [bool; 7] = [true, false, true, false, true, false, true];

#[test]
fn clear_holders(rt: HostRuntime) {
    for (place, clear) in CLEAR.iter().enumerate() {
        let is_due = holder_counts(place as u32).is_clear() == *clear;
        assert!(rt; is_due, "one point at the count {place}");
    }
}
