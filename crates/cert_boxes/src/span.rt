ghost use Rattle.std.specs.Prelude.{◌≡◌};
ghost use Rattle.cert_boxes.specs.Rows.{is_throughout};

/// What a line says of its ray: the finest cells of time from `from` on and below `to`, and the indices from `a` on and below `b`.
/// There are 1,024 finest cells, and one is 2^(10-q) cells of level q.
#[derive(Clone, Copy)]
pub struct CellSpan {
    pub from: u16,
    pub to: u16,
    pub a: u32,
    pub b: u32,
}

impl CellSpan {
    /// Whether the span has all of the finest cells from one on and below another.
    pub fn is_throughout(&self, from: u16, to: u16) -> bool
        ensures { result ≡ is_throughout from to self.now }
    {
        self.from <= from && to <= self.to
    }
}
