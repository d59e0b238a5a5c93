//! What the bytes of an execution make of a statement.
ghost use Rattle.std.specs.Prelude.{◌≡◌, ℕ, List, None, Some, IfOk, IfErr};
ghost use Rattle.statement_values.specs.declared.ParameterType.{ParameterType as KindOfValue};
ghost use Rattle.prepared_statements.specs.inner.Cutting.{not_read};
ghost use Rattle.prepared_statements.specs.Held.{RunOf};

use crate::filling::filled;
use crate::held::{NotExecuted, Prepared};
use crate::long_data::LongFault;
use statement_values::{Execution, ParameterType, Unread, read_execution};
use std::alloc::Global;
use vt_value::Items;

fn not_read(why: Unread) -> NotExecuted
    ensures { result ≡ not_read why }
{
    match why {
        Unread::OutOfMemory => NotExecuted::OutOfMemory,
        Unread::NotSupported => NotExecuted::NotSupported,
        Unread::Wrong => NotExecuted::Wrong,
    }
}

/// What an execution gives: the text to run, and the types of its values.
#[derive(Drop)]
pub(crate) struct Run {
    pub text: Vec<u8>,
    pub types: Items<ParameterType>,
}

/// What these bytes make of a statement for which all long data was taken.
fn run_sound(alloc: Global, held: &Prepared, bytes: &[u8]) -> Result<Run, NotExecuted>
    requires { held.now.fault ≡ None }
    ensures found { IfOk result (λ run. RunOf held.now bytes.now run.text.items run.types) }
    ensures refused { IfErr result (λ e. (e ≡ NotExecuted.OutOfMemory → ⊥) → (text : List ℕ) (types : List KindOfValue) → RunOf held.now bytes.now text types → ⊥) }
    ensures read { IfErr result (λ e. (e ≡ NotExecuted.Unknown → ⊥) × (e ≡ NotExecuted.TooLarge → ⊥)) }
{
    let read = read_execution(alloc, held.types.as_slice(), held.long.as_slice(), bytes);
    match read {
        Ok(Execution { types, values }) => {
            let text = filled(alloc, held.pieces.as_slice(), values.as_slice())?;
            Ok(Run { text, types })
        }
        Err(why) => Err(not_read(why)),
    }
}

/// What these bytes make of a statement.
pub(crate) fn run_of(alloc: Global, held: &Prepared, bytes: &[u8]) -> Result<Run, NotExecuted>
    ensures found { IfOk result (λ run. RunOf held.now bytes.now run.text.items run.types) }
    ensures refused { IfErr result (λ e. (e ≡ NotExecuted.OutOfMemory → ⊥) → (text : List ℕ) (types : List KindOfValue) → RunOf held.now bytes.now text types → ⊥) }
    ensures known { IfErr result (λ e. e ≡ NotExecuted.Unknown → ⊥) }
    ensures large { IfErr result (λ e. e ≡ NotExecuted.TooLarge → held.now.fault ≡ Some LongFault.TooLarge) }
{
    match held.fault {
        None => run_sound(alloc, held, bytes),
        Some(LongFault::OutOfMemory) => Err(NotExecuted::OutOfMemory),
        Some(LongFault::TooLarge) => Err(NotExecuted::TooLarge),
        Some(LongFault::Wrong) => Err(NotExecuted::Wrong),
    }
}
