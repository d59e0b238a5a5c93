//! The next value after a value.
ghost use Rattle.std.specs.Prelude.{◌≡◌, ◌++◌, ◌∷◌, [], ◌+ℤ◌, pos, IfOk, IfSome};
ghost use Rattle.vt_value.specs.declared.value.Value.{Value as V};
ghost use Rattle.vt_value.specs.declared.value.Comparison.TheVariants.{Ge, Gt};
ghost use Rattle.vt_value.specs.Values.{value_cmp, fits_order};

use std::alloc::{AllocError, Global};
use vt_value::{Items, Value};

fn next_number(number: i128) -> Option<Value>
    ensures { IfSome result (λ v. v ≡ Value.Int (number +ℤ pos 1)) }
{
    if number == i128::MAX {
        return None;
    }
    Some(Value::Int(number + 1))
}

fn next_text(alloc: Global, text: &Items<u8>) -> Result<Value, AllocError>
    ensures ok { IfOk result (λ v. v ≡ Value.Bytes (text.now ++ 0 ∷ [])) }
{
    let mut bytes = Vec::from_slice(alloc, text.as_slice())?;
    bytes.push(0)?;
    Ok(Value::Bytes(Items::from_vec(bytes)))
}

/// The next value, between which and this one none lies: the next number, or the text with a zero byte more. None after NULL and after the greatest number.
/// Refuses for want of memory.
pub fn next_value(alloc: Global, value: &Value) -> Result<Option<Value>, AllocError>
    ensures ok { IfOk result (λ next. IfSome next (λ w. (x : V) → fits_order Gt (value_cmp x value.now) ≡ fits_order Ge (value_cmp x w))) }
{
    match value {
        Value::Null => Ok(None),
        Value::Int(number) => Ok(next_number(*number)),
        Value::Bytes(text) => {
            let next = next_text(alloc, text)?;
            Ok(Some(next))
        }
    }
}
