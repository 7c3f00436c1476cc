use cert_lines::CertFault;
use cl_lines::ClFault;
use edit_plan::ScriptFault;
use ray_grid::Ray;
use setup_keys::SetupFault;
use stock_file::StockFault;

/// The files that are read.
#[derive(Clone, Copy)]
pub enum Input {
    /// The cutter location text.
    Cl,
    /// The setup.
    Setup,
    /// The script.
    Script,
    /// The certificate.
    Cert,
    /// The saved stock.
    Stock,
}

/// Why an input is refused.
#[derive(Clone, Copy)]
pub enum Fault {
    /// The file has more bytes than its limit.
    TooLong(Input),
    /// The cutter location text has a fault.
    Cl(ClFault),
    /// The setup has a fault.
    Setup(SetupFault),
    /// The cutter of the move on this line is less high than its corner radius.
    CutterHeight(u32),
    /// The script has a fault.
    Script(ScriptFault),
    /// No move has the number that was asked for: they are counted from 1 to this many.
    MoveRange { asked: u32, moves: u32 },
    /// The certificate has a fault.
    Cert(CertFault),
    /// The saved stock has a fault.
    Stock(StockFault),
    /// The saved stock is one of another grid; where the setup turns it, of another pitch or step.
    StockOther,
    /// This point of the saved stock has no place on the setup's grid when it is turned.
    TurnOutside { ray: Ray, l: u32 },
}
