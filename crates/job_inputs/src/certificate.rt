ghost use Rattle.std.specs.Prelude.{◌≡◌, ◌≤◌, length, false, IfOk, IfSome};
ghost use Rattle.vf_io.specs.Files.{bytes_of};
ghost use Rattle.cert_lines.specs.Certificates.{IsInRange};
ghost use Rattle.cert_lines.specs.Limits.{most_cert_bytes};
ghost use Rattle.job_inputs.specs.Asked.{cert_read_of};
ghost use Rattle.job_inputs.specs.Inputs.{GivesInput, is_read_fault};
ghost use Rattle.job_inputs.specs.Reads.{ReadsOnce};

use crate::input::read_input;
use cert_lines::{Cert, CertEnd, MAX_CERT_BYTES, read_cert};
use input_faults::{Fault, Input, Stopped};
use ray_grid::Grid;
use std::alloc::Global;
use vf_io::Shelf;

/// Reads the certificate of a file over a grid. The file's bytes are freed at the end.
pub fn read_certificate<S: Shelf>(
    alloc: Global,
    file: &str,
    grid: &Grid,
    shelf: &mut S,
) -> Result<Cert, Stopped>
    requires { S.allows shelf.old file.now }
    ensures gives { IfSome (S.files shelf.old) (λ files. GivesInput result (cert_read_of grid.now (bytes_of files file.now))) }
    ensures ranges { IfOk result (IsInRange grid.now) }
    ensures read { ReadsOnce S.files S.faults S.failures (is_read_fault result) shelf.old shelf.new }
{
    match read_input(alloc, Input::Cert, file, MAX_CERT_BYTES as u32, shelf) {
        Ok(bytes) => cert_in(alloc, grid, &bytes),
        Err(stopped) => Err(stopped),
    }
}

/// Reads the certificate of a text.
fn cert_in(alloc: Global, grid: &Grid, bytes: &[u8]) -> Result<Cert, Stopped>
    requires { length bytes.now ≤ most_cert_bytes }
    ensures gives { GivesInput result (cert_read_of grid.now bytes.now) }
    ensures ranges { IfOk result (IsInRange grid.now) }
    ensures no_read { is_read_fault result ≡ false }
{
    match read_cert(alloc, grid, bytes) {
        Ok(cert) => Ok(cert),
        Err(CertEnd::Refused(fault)) => Err(Stopped::Refused(Fault::Cert(fault))),
        Err(CertEnd::NoMemory) => Err(Stopped::NoMemory),
    }
}
