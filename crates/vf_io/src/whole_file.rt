ghost use Rattle.std.specs.Prelude.{◌≡◌, ◌≢◌, ℕ, ◌+◌, ◌<◌, ◌≤◌, ◌↔◌, List, [], Some, Err, true, false, length, vec_len, IfOk, IfSome, OnOk};
ghost use Rattle.vf_io.specs.Causes.{Rose, one_more_failure};
ghost use Rattle.vf_io.specs.Files.{bytes_of};

use crate::shelf::Shelf;
use std::alloc::{AllocError, Global};

/// How a read of a whole file ends that gives no bytes.
#[derive(Clone, Copy, PartialEq, Eq)]
pub enum ReadEnd {
    /// A call outside failed.
    Failed,
    /// The file has more bytes than the limit.
    TooLong,
    /// No memory was found.
    NoMemory,
}

/// The bytes that one call reads at the most.
const BUFFER: usize = 65536;

/// Reads the named file to its end. It takes bytes at most `limit + 1` times, so it ends over any shelf.
pub fn read_all<S: Shelf>(
    alloc: Global,
    shelf: &mut S,
    name: &str,
    limit: u32,
) -> Result<Vec<u8>, ReadEnd>
    requires { S.allows shelf.old name.now }
    ensures bytes { IfOk result (λ v. IfSome (S.files shelf.old) (λ told. v.items ≡ bytes_of told name.now)) }
    ensures to_the_end { OnOk result (IfSome (S.files shelf.old) (λ _. S.rest shelf.new ≡ Some [])) }
    ensures within { IfOk result (λ v. vec_len v ≤ limit) }
    ensures too_long { result ≡ Err ReadEnd.TooLong → IfSome (S.files shelf.old) (λ told. limit < length (bytes_of told name.now)) }
    ensures failed { result ≡ Err ReadEnd.Failed → Rose (S.faults shelf.old) (S.faults shelf.new) }
    ensures calm { result ≢ Err ReadEnd.Failed → S.failures shelf.new ≡ S.failures shelf.old }
    ensures failure { result ≡ Err ReadEnd.Failed → S.failures shelf.new ≡ one_more_failure (S.failures shelf.old) }
    ensures closed { result ≡ Err ReadEnd.Failed → S.is_open shelf.new ≡ false }
    ensures later { S.faults shelf.old ≤ S.faults shelf.new }
    ensures files { S.files shelf.new ≡ S.files shelf.old }
    ensures reads { S.reads shelf.new ≤ S.reads shelf.old + limit + 1 }
    ensures allows { (n : List ℕ) → S.allows shelf.old n ↔ S.allows shelf.new n }
{
    let Ok(mut buffer) = new_buffer(alloc) else {
        return Err(ReadEnd::NoMemory);
    };
    if shelf.open(name).is_err() {
        return Err(ReadEnd::Failed);
    }
    read_open(alloc, shelf, buffer.as_mut_slice(), limit)
}

/// The memory that reads fill.
fn new_buffer(alloc: Global) -> Result<Vec<u8>, AllocError>
    ensures { IfOk result (λ buffer. 0 < vec_len buffer) }
{
    vec![in alloc; 0u8; BUFFER]
}

/// Reads what is left of the open file, piece by piece.
fn read_open<S: Shelf>(
    alloc: Global,
    shelf: &mut S,
    buffer: &mut [u8],
    limit: u32,
) -> Result<Vec<u8>, ReadEnd>
    requires open { S.is_open shelf.old ≡ true }
    requires room { 0 < length buffer.old }
    ensures bytes { IfOk result (λ v. IfSome (S.rest shelf.old) (λ left. v.items ≡ left)) }
    ensures to_the_end { OnOk result (IfSome (S.rest shelf.old) (λ _. S.rest shelf.new ≡ Some [])) }
    ensures within { IfOk result (λ v. vec_len v ≤ limit) }
    ensures too_long { result ≡ Err ReadEnd.TooLong → IfSome (S.rest shelf.old) (λ left. limit < length left) }
    ensures failed { result ≡ Err ReadEnd.Failed → Rose (S.faults shelf.old) (S.faults shelf.new) }
    ensures calm { result ≢ Err ReadEnd.Failed → S.failures shelf.new ≡ S.failures shelf.old }
    ensures failure { result ≡ Err ReadEnd.Failed → S.failures shelf.new ≡ one_more_failure (S.failures shelf.old) }
    ensures closed { result ≡ Err ReadEnd.Failed → S.is_open shelf.new ≡ false }
    ensures later { S.faults shelf.old ≤ S.faults shelf.new }
    ensures files { S.files shelf.new ≡ S.files shelf.old }
    ensures reads { S.reads shelf.new ≤ S.reads shelf.old + limit + 1 }
    ensures allows { (n : List ℕ) → S.allows shelf.old n ↔ S.allows shelf.new n }
{
    let mut bytes = Vec::new(alloc);
    loop {
        let Ok(count) = shelf.next(buffer) else {
            return Err(ReadEnd::Failed);
        };
        if count == 0 {
            return Ok(bytes);
        }
        if count > limit as usize - bytes.len() {
            return Err(ReadEnd::TooLong);
        }
        if bytes.extend_from_slice(&buffer[..count]).is_err() {
            return Err(ReadEnd::NoMemory);
        }
    }
}
