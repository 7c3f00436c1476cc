//! The text of a certificate: which points of rays a move does not meet during which part of its time, read and written.
#![tactic(auto)]

mod cell;
mod cert;
mod fault;
mod line;
mod reading;
mod text;
mod words;

pub use cell::{Cells, CertCell};
pub use cert::{Cert, MAX_CERT_BYTES, fits_cert, read_cert};
pub use fault::{CertEnd, CertFault, CertWhy};
pub use text::{cert_text, is_last};
