use ray_grid::{Family, Grid, Ray};
use std::alloc::Global;
use std::test::Fail;
use stock_file::{SavedStock, StockEnd, StockWhy, fits_stock, read_stock};
use vf_spans::Spans;

/// Three, three and two nodes, and six or four points a ray.
fn small_grid() -> Grid {
    Grid {
        origin: [-1_000, 0, 0],
        pitch: 1_000,
        step: 500,
        counts: [3, 3, 2],
    }
}

/// Texts that are read, and written again as they were.
const READ: [&[u8]; 5] = [
    b"stock 1\ngrid 0 0 0 1 1 1 1 1\nend\n",
    b"stock 1\ngrid -1000000 -1 0 1000000 1000 1 1 1\nray Z 0 0 0 1\nend\n",
    b"stock 1\ngrid 0 0 0 1000 500 3 3 2\nray Z 0 0 0 2\nray Z 0 1 0 1 2 4\nray X 0 0 0 6\nray Y 2 1 5 6\nend\n",
    b"stock 1\ngrid 0 0 0 1000 500 3 3 2\nray X 2 1 0 1 2 3 4 5\nray Y 0 0 1 2\nend\n",
    b"stock 1\ngrid 0 0 0 1000000 1000000 1 1 1\nray Y 0 0 0 1\nend\n",
];

/// Texts that are refused, the line of the fault, and which fault it is: 40 for the form, 41 for the grid, 42 for the order.
const REFUSED: [(&[u8], u32, u32); 49] = [
    (b"", 1, 40),
    (b"\n", 1, 40),
    (b"stock 1", 1, 40),
    (b"stock 01\n", 1, 40),
    (b"stock 1\r\ngrid 0 0 0 1 1 1 1 1\r\nend\r\n", 1, 40),
    (b"stock 1\n", 2, 40),
    (b"stock 1\nend\n", 2, 40),
    (b"stock 1\ngrid 0 0 0 1 1 1 1 1", 2, 40),
    (b"stock 1\ngrid 0 0 0 1 1 1 1\nend\n", 2, 40),
    (b"stock 1\ngrid 0 0 0 1 1 1 1 1 1\nend\n", 2, 40),
    (b"stock 1\ngrid 0 0 0  1 1 1 1 1\nend\n", 2, 40),
    (b"stock 1\ngrid 0 0 0 1 1 1 1 1 \nend\n", 2, 40),
    (b"stock 1\ngrid -0 0 0 1 1 1 1 1\nend\n", 2, 40),
    (b"stock 1\ngrid +1 0 0 1 1 1 1 1\nend\n", 2, 40),
    (b"stock 1\ngrid 00 0 0 1 1 1 1 1\nend\n", 2, 40),
    (b"stock 1\ngrid 0 0 0 -1 1 1 1 1\nend\n", 2, 40),
    (b"stock 1\ngrid 0 0 0 1 01 1 1 1\nend\n", 2, 40),
    (b"stock 1\ngrid 0 0 0 1000000000 1 1 1 1\nend\n", 2, 40),
    (b"stock 1\ngrid 0 0 0 0 1 1 1 x\nend\n", 2, 40),
    (b"stock 1\ngrid 1000001 0 0 1 1 1 1 1\nx\n", 2, 41),
    (b"stock 1\ngrid 0 -1000001 0 1 1 1 1 1\nx\n", 2, 41),
    (b"stock 1\ngrid 0 0 0 0 1 1 1 1\nx\n", 2, 41),
    (b"stock 1\ngrid 0 0 0 1000001 1 1 1 1\nx\n", 2, 41),
    (b"stock 1\ngrid 0 0 0 1 0 1 1 1\nx\n", 2, 41),
    (b"stock 1\ngrid 0 0 0 1 2 1 1 1\nx\n", 2, 41),
    (b"stock 1\ngrid 0 0 0 5 2 1 1 1\nx\n", 2, 41),
    (b"stock 1\ngrid 0 0 0 1001 1 1 1 1\nx\n", 2, 41),
    (b"stock 1\ngrid 0 0 0 1 1 0 1 1\nx\n", 2, 41),
    (b"stock 1\ngrid 0 0 0 1 1 1 401 1\nx\n", 2, 41),
    (b"stock 1\ngrid 0 0 1000000 2 1 1 1 1\nx\n", 2, 41),
    (b"stock 1\ngrid 0 0 0 1000 500 3 3 2\n", 3, 40),
    (b"stock 1\ngrid 0 0 0 1000 500 3 3 2\nend", 3, 40),
    (b"stock 1\ngrid 0 0 0 1000 500 3 3 2\nend\n\n", 4, 40),
    (b"stock 1\ngrid 0 0 0 1000 500 3 3 2\nend\nx", 4, 40),
    (
        b"stock 1\ngrid 0 0 0 1000 500 3 3 2\nray z 0 0 0 2\nend\n",
        3,
        40,
    ),
    (b"stock 1\ngrid 0 0 0 1000 500 3 3 2\nray Z 0\nend\n", 3, 40),
    (
        b"stock 1\ngrid 0 0 0 1000 500 3 3 2\nray Z 0 0 0 02\nend\n",
        3,
        40,
    ),
    (
        b"stock 1\ngrid 0 0 0 1000 500 3 3 2\nray Z 0 0 2 1 x\nend\n",
        3,
        40,
    ),
    (
        b"stock 1\ngrid 0 0 0 1000 500 3 3 2\nray Z 0 0 0 2\r\nend\n",
        3,
        40,
    ),
    (
        b"stock 1\ngrid 0 0 0 1000 500 3 3 2\nray Z 3 0 0 2\nend\n",
        3,
        42,
    ),
    (
        b"stock 1\ngrid 0 0 0 1000 500 3 3 2\nray Z 0 0\nend\n",
        3,
        42,
    ),
    (
        b"stock 1\ngrid 0 0 0 1000 500 3 3 2\nray Z 0 0 1\nend\n",
        3,
        42,
    ),
    (
        b"stock 1\ngrid 0 0 0 1000 500 3 3 2\nray Z 0 0 1 1\nend\n",
        3,
        42,
    ),
    (
        b"stock 1\ngrid 0 0 0 1000 500 3 3 2\nray Z 0 0 0 5\nend\n",
        3,
        42,
    ),
    (
        b"stock 1\ngrid 0 0 0 1000 500 3 3 2\nray Z 0 0 0 1 1 2\nend\n",
        3,
        42,
    ),
    (
        b"stock 1\ngrid 0 0 0 1000 500 3 3 2\nray Z 0 1 0 2\nray Z 0 1 0 2\nend\n",
        4,
        42,
    ),
    (
        b"stock 1\ngrid 0 0 0 1000 500 3 3 2\nray Z 0 1 0 2\nray Z 0 0 0 2\nend\n",
        4,
        42,
    ),
    (
        b"stock 1\ngrid 0 0 0 1000 500 3 3 2\nray X 0 0 0 2\nray Z 2 2 0 2\nend\n",
        4,
        42,
    ),
    (
        b"stock 1\ngrid 0 0 0 1000 500 3 3 2\nray Y 0 0 0 2\nray X 2 1 0 2\nend\n",
        4,
        42,
    ),
];

/// Whether a text is read, and written again as it was.
fn is_kept(alloc: Global, text: &[u8]) -> bool {
    if !fits_stock(text) {
        return false;
    }
    let Ok(stock) = read_stock(alloc, text) else {
        return false;
    };
    match stock.saved_text() {
        Ok(written) => written.as_slice() == text,
        Err(_) => false,
    }
}

/// The line and the number of the fault of a text that is refused.
fn fault_of(alloc: Global, text: &[u8]) -> Option<(u32, u32)> {
    if !fits_stock(text) {
        return None;
    }
    match read_stock(alloc, text) {
        Err(StockEnd::Refused(fault)) => {
            let number = match fault.why {
                StockWhy::StockSyntax => 40,
                StockWhy::StockGrid => 41,
                StockWhy::StockOrder => 42,
            };
            Some((fault.line, number))
        }
        _ => None,
    }
}

#[test]
fn texts_are_read_or_refused(rt: HostRuntime) -> Result<(), Fail> {
    for text in &READ {
        assert!(rt; is_kept(rt.alloc(), text), "{text:?}");
    }
    for (text, line, number) in &REFUSED {
        assert_eq!(rt;
            fault_of(rt.alloc(), text),
            Some((*line, *number)),
            "{text:?}"
        );
    }
    Ok(())
}

#[test]
fn a_set_is_put(rt: HostRuntime) -> Result<(), Fail> {
    let grid = small_grid();
    let ray = Ray {
        family: Family::Y,
        i: 1,
        j: 1,
    };
    if !grid.has_point(&ray, 5) {
        assert!(rt; false, "the grid has the ray");
        return Ok(());
    }
    let mut stock = SavedStock::new(rt.alloc(), grid)?;
    assert!(rt; stock.spans(&ray).is_empty());
    let mut set = Spans::new(rt.alloc(), grid.points(Family::Y));
    set.push_range(1, 6)?;
    stock.put(&ray, set);
    assert_eq!(rt; stock.spans(&ray).count(), 5);
    assert_eq!(rt; stock.grid().counts, [3, 3, 2]);
    let text = stock.saved_text()?;
    let due: &[u8] = b"stock 1\ngrid -1000 0 0 1000 500 3 3 2\nray Y 1 1 1 6\nend\n";
    assert_eq!(rt; text.as_slice(), due);
    let rays = stock.into_rays();
    assert_eq!(rt; rays.len(), 21);
    Ok(())
}
