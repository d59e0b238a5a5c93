//! What becomes of a statement by its commands.
ghost use Rattle.std.specs.Prelude.{◌≡◌, ◌+◌, ◌<◌, ◌≤◌, ◌^◌};
ghost use Rattle.prepared_statements.specs.Holes.{all_long};
ghost use Rattle.prepared_statements.specs.Held.{after_execution, after_reset, TakesLong};

use crate::held::Prepared;
use statement_values::ParameterType;
use std::alloc::Global;
use vt_value::Items;

/// It was executed by values of these types.
pub(crate) fn execute(held: &mut Prepared, types: Items<ParameterType>)
    ensures { held.new ≡ after_execution held.old types }
{
    held.types = types;
    held.long.clear();
}

/// It gives up its long data, and why that wasn't taken.
pub(crate) fn reset(held: &mut Prepared)
    ensures { held.new ≡ after_reset held.old }
{
    held.long.clear();
    held.fault = None;
}

/// It takes long data, if there is so much room for that.
pub(crate) fn take(alloc: Global, held: &mut Prepared, room: usize, bytes: &[u8])
    requires { all_long held.old.long + room < 2 ^ 64 }
    ensures takes { TakesLong room held.old bytes.now held.new }
    ensures pieces { held.new.pieces ≡ held.old.pieces }
    ensures room { all_long held.new.long ≤ all_long held.old.long + room }
{
    if held.fault.is_some() {
        return;
    }
    match held.long.take(alloc, room, bytes) {
        Ok(()) => {}
        Err(why) => {
            held.fault = Some(why);
        }
    }
}
