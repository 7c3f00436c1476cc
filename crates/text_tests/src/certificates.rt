use cert_lines::{CertEnd, CertWhy, cert_text, fits_cert, read_cert};
use ray_grid::Grid;
use std::alloc::Global;
use std::test::Fail;

/// Three nodes an axis, and six points a ray.
fn small_grid() -> Grid {
    Grid {
        origin: [0, 0, 0],
        pitch: 1_000,
        step: 500,
        counts: [3, 3, 3],
    }
}

/// Texts that are read, how many cells they have, and the line of the last one, or 0.
const READ: [(&[u8], usize, u64); 6] = [
    (b"cert 1\nslabs 1\nend\n", 0, 0),
    (b"cert 1\nslabs 256\nray X 0 0\nray Y 2 2\nend\n", 0, 0),
    (
        b"cert 1\nslabs 1\nray Z 1 1\ncell 0 0 1 2\nray Z 1 2\ncell 0 0 1 2\nend\n",
        2,
        6,
    ),
    (
        b"cert 1\nslabs 001\nray Z 00 000000001\ncell 010 1023 0 6\nend\n",
        1,
        4,
    ),
    (
        b"cert 1\nslabs 8\nray Z 1 1\ncell 1 0 0 6\ncell 1 1 0 6\ncell 1 1 0 6\nend\n",
        3,
        6,
    ),
    (
        b"cert 1\nslabs 8\nray Y 2 0\ncell 3 7 5 6\nray X 0 2\ncell 2 3 0 1\nend\n",
        2,
        6,
    ),
];

/// Texts that are refused, and the line of the fault: first those that are none of the form, then those with a number out of range.
const SYNTAX: [(&[u8], u32); 33] = [
    (b"", 1),
    (b"\n", 1),
    (b"cert 1", 1),
    (b"cert 01\nslabs 1\nend\n", 1),
    (b"cert 2\nslabs 1\nend\n", 1),
    (b"cert 1\r\nslabs 1\r\nend\r\n", 1),
    (b"cert  1\nslabs 1\nend\n", 1),
    (b"cert 1 \nslabs 1\nend\n", 1),
    (b" cert 1\nslabs 1\nend\n", 1),
    (b"cert\t1\nslabs 1\nend\n", 1),
    (b"cert 1\n", 2),
    (b"cert 1\ncert 1\n", 2),
    (b"cert 1\nslabs\nend\n", 2),
    (b"cert 1\nslabs x\nend\n", 2),
    (b"cert 1\nslabs 0000000001\nend\n", 2),
    (b"cert 1\nend\n", 2),
    (b"cert 1\nslabs 1\n", 3),
    (b"cert 1\nslabs 1\nend", 3),
    (b"cert 1\nslabs 1\nslabs 1\nend\n", 3),
    (b"cert 1\nslabs 1\ncell 0 0 1 2\nend\n", 3),
    (b"cert 1\nslabs 1\nray z 1 1\nend\n", 3),
    (b"cert 1\nslabs 1\nray Z 1\nend\n", 3),
    (b"cert 1\nslabs 1\nray Z 1 1 1\nend\n", 3),
    (b"cert 1\nslabs 1\nray Z 1 -1\nend\n", 3),
    (b"cert 1\nslabs 1\nray Z 1 1\ncell 0 0 1\nend\n", 4),
    (b"cert 1\nslabs 1\nray Z 1 1\ncell 0 0 1 2 3\nend\n", 4),
    (b"cert 1\nslabs 1\nray Z 1 1\ncell 0 0  1 2\nend\n", 4),
    (b"cert 1\nslabs 1\nray Z 1 1\ncell 0 0 1 2\r\nend\n", 4),
    (b"cert 1\nslabs 1\nray Z 1 1\n\nend\n", 4),
    (b"cert 1\nslabs 1\nend \n", 3),
    (b"cert 1\nslabs 1\nend\n\n", 4),
    (b"cert 1\nslabs 1\nend\nx", 4),
    (b"cert 1\nslabs 1\nend\nend\n", 4),
];

const RANGE: [(&[u8], u32); 12] = [
    (b"cert 1\nslabs 0\nx\n", 2),
    (b"cert 1\nslabs 257\nx\n", 2),
    (b"cert 1\nslabs 1\nray Z 3 0\nx\n", 3),
    (b"cert 1\nslabs 1\nray X 0 3\nx\n", 3),
    (b"cert 1\nslabs 1\nray Z 1 1\ncell 11 0 1 2\nx\n", 4),
    (b"cert 1\nslabs 1\nray Z 1 1\ncell 1 2 1 2\nx\n", 4),
    (b"cert 1\nslabs 1\nray Z 1 1\ncell 0 1 1 2\nx\n", 4),
    (b"cert 1\nslabs 1\nray Z 1 1\ncell 10 1024 1 2\nx\n", 4),
    (b"cert 1\nslabs 1\nray Z 1 1\ncell 0 0 2 2\nx\n", 4),
    (b"cert 1\nslabs 1\nray Z 1 1\ncell 0 0 3 2\nx\n", 4),
    (b"cert 1\nslabs 1\nray Z 1 1\ncell 0 0 0 7\nx\n", 4),
    (
        b"cert 1\nslabs 1\nray Z 1 1\ncell 999999999 999999999 0 999999999\nx\n",
        4,
    ),
];

/// The line of the fault and whether it is one of range, of a text that is refused.
fn fault_of(alloc: Global, text: &[u8]) -> Option<(u32, bool)> {
    if !fits_cert(text) {
        return None;
    }
    match read_cert(alloc, &small_grid(), text) {
        Err(CertEnd::Refused(fault)) => Some((fault.line, matches!(fault.why, CertWhy::CertRange))),
        _ => None,
    }
}

#[test]
fn texts_that_are_read(rt: HostRuntime) -> Result<(), Fail> {
    for (text, cells, line) in &READ {
        assert!(rt; fits_cert(text));
        let Ok(cert) = read_cert(rt.alloc(), &small_grid(), text) else {
            assert!(rt; false, "{text:?} is refused");
            continue;
        };
        assert_eq!(rt; cert.cells.len(), *cells, "{text:?}");
        let last = match cert.cells.as_slice().last() {
            Some(cell) => cell.line,
            None => 0,
        };
        assert_eq!(rt; last, *line, "{text:?}");
    }
    Ok(())
}

#[test]
fn texts_that_are_refused(rt: HostRuntime) -> Result<(), Fail> {
    for (text, line) in &SYNTAX {
        assert_eq!(rt;
            fault_of(rt.alloc(), text),
            Some((*line, false)),
            "{text:?}"
        );
    }
    for (text, line) in &RANGE {
        assert_eq!(rt; fault_of(rt.alloc(), text), Some((*line, true)), "{text:?}");
    }
    Ok(())
}

#[test]
fn a_text_is_written_as_it_was_read(rt: HostRuntime) -> Result<(), Fail> {
    let text: &[u8] =
        b"cert 1\nslabs 8\nray Y 2 0\ncell 3 7 5 6\ncell 0 0 0 1\nray X 0 2\ncell 2 3 0 1\nend\n";
    assert!(rt; fits_cert(text));
    let Ok(cert) = read_cert(rt.alloc(), &small_grid(), text) else {
        assert!(rt; false, "it is refused");
        return Ok(());
    };
    let written = cert_text(rt.alloc(), &cert)?;
    assert_eq!(rt; written.as_slice(), text);
    Ok(())
}
