ghost use Rattle.std.specs.Prelude.{◌≡◌};

/// What is wrong with a line of a saved stock, in the order in which one line is judged. The names are those that are printed.
#[derive(Clone, Copy)]
pub enum StockWhy {
    /// The line is not the one that the form allows there, or a line is missing.
    StockSyntax,
    /// The numbers of the second line make no grid.
    StockGrid,
    /// The ray is not in the grid or not after the one before it, or its bounds are not those of ranges in order.
    StockOrder,
}

/// A fault of a saved stock, with the number of its line.
#[derive(Clone, Copy)]
pub struct StockFault {
    pub line: u32,
    pub why: StockWhy,
}

/// How a read ends that gives no stock.
#[derive(Clone, Copy)]
pub enum StockEnd {
    Refused(StockFault),
    NoMemory,
}

impl StockEnd {
    /// The refusal of a line.
    pub fn refused(line: u32, why: StockWhy) -> StockEnd
        ensures { result ≡ StockEnd.Refused (record { line = line; why = why }) }
    {
        StockEnd::Refused(StockFault { line, why })
    }
}
