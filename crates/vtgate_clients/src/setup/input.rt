//! Reading a whole input.
ghost use Rattle.std.specs.Prelude.{◌≡◌, ℕ, ◌<◌, List, ◌++◌, false, length, vec_len, IfOk, IfErr};
ghost use Rattle.std.specs.Io.KnownBytes.{Consumes, IsAtEnd};
ghost use Rattle.vtgate_clients.specs.setup.Statuses.{status_of};

use crate::setup::run_fault::{FAILURE, RunFault};
use session::conversation::Source;
use std::alloc::Global;

/// How many bytes are asked of an input at once.
const PIECE: usize = 1 << 16;

fn zeroed(alloc: Global) -> Result<Vec<u8>, RunFault>
    ensures len { IfOk result (λ bytes. vec_len bytes ≡ PIECE) }
    ensures fault { IfErr result (λ f. status_of f ≡ FAILURE) }
{
    match vec![in alloc; 0u8; PIECE] {
        Ok(bytes) => Ok(bytes),
        Err(_) => Err(RunFault::OutOfMemory),
    }
}

// Puts the next piece of the input after the others, and returns whether there was one.
fn read_piece<I: Source>(
    input: &mut I,
    buffer: &mut [u8],
    bytes: &mut Vec<u8>,
) -> Result<bool, RunFault>
    requires room { 0 < length buffer.old }
    ensures len { length buffer.new ≡ length buffer.old }
    ensures read { IfOk result (λ more. (piece : List ℕ) × Consumes (I.unread input.old) (I.unread input.new) piece
        × (bytes.new.items ≡ bytes.old.items ++ piece)) }
    ensures end { IfOk result (λ more. more ≡ false → IsAtEnd (I.unread input.new)) }
    ensures fault { IfErr result (λ f. status_of f ≡ FAILURE) }
{
    let Ok(n) = input.read(buffer) else {
        return Err(RunFault::Failed);
    };
    match bytes.extend_from_slice(&buffer[..n]) {
        Ok(()) => Ok(n > 0),
        Err(_) => Err(RunFault::OutOfMemory),
    }
}

/// All that is left of the input. An input that gave 2^64 - 1 pieces counts as failed.
pub fn read_all<I: Source>(alloc: Global, input: &mut I) -> Result<Vec<u8>, RunFault>
    ensures read { IfOk result (λ bytes. Consumes (I.unread input.old) (I.unread input.new) bytes.items) }
    ensures end { IfOk result (λ bytes. IsAtEnd (I.unread input.new)) }
    ensures fault { IfErr result (λ f. status_of f ≡ FAILURE) }
{
    let mut buffer = zeroed(alloc)?;
    let mut bytes = Vec::new(alloc);
    for _ in 0..u64::MAX {
        if !read_piece(input, &mut buffer, &mut bytes)? {
            return Ok(bytes);
        }
    }
    Err(RunFault::Failed)
}
