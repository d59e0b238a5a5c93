//! Why a run has failed, and its status.
ghost use Rattle.std.specs.Prelude.{◌≡◌, ◌≢◌, ◌≤◌};
ghost use Rattle.vtgate_clients.specs.setup.Statuses.{status_of};

use session::conversation::Sink;
use vschema::SchemaFault;
use vt_value::Refusal;
use vtgate_lines::refusal_line;

/// The status of a run that did its work.
pub const SUCCESS: u8 = 0;

/// The status of a run that failed.
pub const FAILURE: u8 = 1;

/// The status of a run whose words are wrong.
pub const WRONG_WORDS: u8 = 2;

/// How to call the program.
pub const USAGE: &[u8] = b"usage: vtgate serve|plan|script\n";

/// What a run says that can't bind a port.
pub const CANNOT_BIND: &[u8] = b"cannot bind\n";

/// What a run says that failed.
pub const FAILED: &[u8] = b"failed\n";

/// What a script says that has no memory.
pub const OUT_OF_MEMORY: &[u8] = b"out of memory\n";

/// Why a run has failed.
#[derive(Clone, Copy, Debug)]
pub enum RunFault {
    /// The words of the command line are wrong.
    WrongWords,
    /// The input declares no VSchema.
    Schema(SchemaFault),
    /// The statement of a plan is refused.
    Refused(Refusal),
    /// There is no memory.
    OutOfMemory,
    /// A port can't be bound.
    CannotBind,
    /// A device failed.
    Failed,
}

// By one write, so that no line of a log comes between.
fn put_schema_fault<E: Sink>(errors: &mut E, fault: SchemaFault) {
    if let Some(number) = fault.number() {
        let mut line = *b"VSchema V0\n";
        line[9] = b'0' + number % 10;
        let _ = errors.write(&line);
    }
}

/// Prints why a run has failed, as `refuse` does, and returns its status; want of memory is printed as any other failure.
pub fn refuse_plainly<O: Sink, E: Sink>(fault: RunFault, output: &mut O, errors: &mut E) -> u8
    ensures failed { result ≢ SUCCESS }
    ensures status { result ≡ status_of fault }
    ensures most { result ≤ 2 }
{
    match fault {
        RunFault::OutOfMemory => refuse(RunFault::Failed, output, errors),
        _ => refuse(fault, output, errors),
    }
}

// Promise: A run that has failed has the status 2 if its words or its VSchema are wrong, and otherwise 1
// With: ranges_of, schema_of, has_too_many
// Clauses: status, fault, many
/// Prints why a run has failed, and returns its status: 2 if the words or the VSchema are wrong, otherwise 1.
pub fn refuse<O: Sink, E: Sink>(fault: RunFault, output: &mut O, errors: &mut E) -> u8
    ensures failed { result ≢ SUCCESS }
    ensures status { result ≡ status_of fault }
    ensures most { result ≤ 2 }
{
    match fault {
        RunFault::WrongWords => {
            let _ = errors.write(USAGE);
            WRONG_WORDS
        }
        RunFault::Schema(fault) => {
            put_schema_fault(errors, fault);
            WRONG_WORDS
        }
        RunFault::Refused(refusal) => {
            let _ = output.write(refusal_line(refusal).as_slice());
            FAILURE
        }
        RunFault::OutOfMemory => {
            let _ = errors.write(OUT_OF_MEMORY);
            FAILURE
        }
        RunFault::CannotBind => {
            let _ = errors.write(CANNOT_BIND);
            FAILURE
        }
        RunFault::Failed => {
            let _ = errors.write(FAILED);
            FAILURE
        }
    }
}
