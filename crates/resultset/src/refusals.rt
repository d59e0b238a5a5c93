//! Refusals by their messages, of which no two are equal.
ghost use Rattle.std.specs.Prelude.{◌≡◌, Some};
ghost use Rattle.vt_value.specs.declared.refusal.Refusal.{Refusal};
ghost use Rattle.vt_value.specs.Refusals.{message_of};

use vt_value::{REFUSALS, Refusal};

pub(crate) fn refusal_of(message: &[u8]) -> Option<Refusal>
    ensures { (r : Refusal) → message.now ≡ message_of r → result ≡ Some r }
{
    for refusal in &REFUSALS {
        if refusal.message().as_bytes() == message {
            return Some(*refusal);
        }
    }
    None
}
