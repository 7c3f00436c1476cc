use bern_form::{Form1, Form2, Form4, isqrt_ceil, isqrt_floor};

/// Numbers, with their roots rounded down and up.
const ROOTS: [(u128, u128, u128); 6] = [
    (0, 0, 0),
    (1, 1, 1),
    (2, 1, 2),
    (120_156, 346, 347),
    (999_999_999_999, 999_999, 1_000_000),
    (1_000_000_000_000, 1_000_000, 1_000_000),
];

/// Whether the number has these roots.
fn are_roots(n: u128, floor: u128, ceil: u128) -> bool {
    n <= 1_000_000_000_000 && isqrt_floor(n) == floor && isqrt_ceil(n) == ceil
}

#[test]
fn roots(rt: HostRuntime) {
    for (n, floor, ceil) in &ROOTS {
        assert!(rt; are_roots(*n, *floor, *ceil), "roots of {n}");
    }
}

/// Coefficients, and whether all are above 0 and below.
const SIGNS: [([i128; 3], bool, bool); 5] = [
    ([1, 2, 3], true, false),
    ([-1, -2, -3], false, true),
    ([1, 0, 3], false, false),
    ([-1, 0, -3], false, false),
    ([1, -2, 3], false, false),
];

/// Whether forms of these coefficients, and of more with the same ones between, have these signs.
fn have_signs(c: [i128; 3], positive: bool, negative: bool) -> bool {
    let [first, middle, last] = c;
    let form = Form2 { c };
    let raised = Form4 {
        c: [first, middle, middle, middle, last],
    };
    form.all_positive() == positive
        && form.all_negative() == negative
        && raised.all_positive() == positive
        && raised.all_negative() == negative
}

#[test]
fn signs(rt: HostRuntime) {
    for (c, positive, negative) in &SIGNS {
        assert!(rt; have_signs(*c, *positive, *negative), "signs of {c:?}");
    }
}
