use space::{is_flank, is_in_reach, is_near, least_widening, most_widening, top_diameter};

/// Degrees, a height, and the widening at the least and at the most. Tangents by hand: 0.017455065, 0.087488664, 0.176326981,
/// 0.267949192, 0.577350269 and 1.
const FLANKS: [(u32, u32, u64, u64); 8] = [
    (0, 300_000, 0, 0),
    (1, 1, 0, 1),
    (1, 1_000, 17, 18),
    (5, 300_000, 26_246, 26_247),
    (10, 300_000, 52_897, 52_899),
    (15, 1_000, 267, 268),
    (30, 1_000, 577, 578),
    (45, 1_000, 1_000, 1_000),
];
/// Whether an angle widens a cutter up to this height by this much.
fn is_widened(degrees: u32, x: u32, least: u64, most: u64) -> bool {
    is_flank(degrees) && least_widening(degrees, x) == least && most_widening(degrees, x) == most
}

#[test]
fn flanks(rt: HostRuntime) {
    for (degrees, x, least, most) in &FLANKS {
        let is_due = is_widened(*degrees, *x, *least, *most);
        assert!(rt; is_due, "{degrees} degrees, {x} high");
    }
    assert!(rt; !is_flank(4), "4 degrees are not read");
    assert_eq!(rt; top_diameter(1_000, 1_000, 30), 2_156);
}

/// Coordinates, and whether they are within 10 of the stretch from 100 to 200.
const NEAR: [(i32, bool); 5] = [
    (89, false),
    (90, true),
    (150, true),
    (210, true),
    (211, false),
];

/// Whether both ways along the stretch give the same answer for the coordinate.
fn is_told(x: i32, found: bool) -> bool {
    is_near(10, 100, 200, x) == found && is_near(10, 200, 100, x) == found
}

#[test]
fn near(rt: HostRuntime) {
    for (x, found) in &NEAR {
        assert!(rt; is_told(*x, *found), "{x}");
    }
    let upwards = [0, 0, 100];
    let corner = is_in_reach(10, &[0, 0, 0], &upwards, &[-10, 10, 110]);
    assert!(rt; corner, "the corner of the reach");
    let above = is_in_reach(10, &[0, 0, 0], &upwards, &[0, 0, 111]);
    assert!(rt; !above, "too high alone");
}
