ghost use Rattle.std.specs.Prelude.{◌≡◌};

/// What is wrong with a line of a certificate, in the order in which one line is judged. The names are those that are printed.
#[derive(Clone, Copy)]
pub enum CertWhy {
    /// The line is not one that the form allows there, or a line is missing.
    CertSyntax,
    /// The number of slabs, the ray, the part of the time or the points are out of range.
    CertRange,
}

/// A fault of a certificate, with the number of its line.
#[derive(Clone, Copy)]
pub struct CertFault {
    pub line: u32,
    pub why: CertWhy,
}

/// How a read ends that gives no certificate.
#[derive(Clone, Copy)]
pub enum CertEnd {
    Refused(CertFault),
    NoMemory,
}

impl CertEnd {
    /// The refusal of a line.
    pub fn refused(line: u32, why: CertWhy) -> CertEnd
        ensures { result ≡ CertEnd.Refused (record { line = line; why = why }) }
    {
        CertEnd::Refused(CertFault { line, why })
    }
}
