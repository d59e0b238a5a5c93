//! What every aggregate provides, so that each shard can aggregate its own rows and the router joins the parts.
ghost use Rattle.std.specs.Prelude.{◌≡◌, List, [], ◌∷◌, OnOk, OnErr, IfOk};
ghost use Rattle.vt_value.specs.declared.value.Value.{Value};
ghost use Rattle.aggregate.specs.Aggregates.{IsHeld};
ghost use Rattle.aggregate.specs.Laws.{PartLaws};

use std::alloc::{AllocError, Global};
use vt_value::Value;

/// An aggregate over a bag of values, which may be cut into bags: each has a part, and parts are joined.
pub trait Aggregate {
    /// What is kept of a bag of values.
    type Part: Drop;

    // the part of a bag of values
    ghost part_of: { List Value → Self.Part };

    // the part of two bags together
    ghost joined: { Self.Part → Self.Part → Self.Part };

    // the part's number fits its type
    ghost can_hold: { Self.Part → Type 0 };

    // what a part gives
    ghost finished: { Self.Part → Value };

    // what the aggregate gives over a bag of values
    ghost meaning: { List Value → Value };

    // Promise: Each aggregate keeps a part of a bag of values: parts are joined in any order and grouping, that of no values is the unit,
    // that of two bags together is the join of theirs, and a part gives what the aggregate means over the bag
    // With: Aggregate::{add, join, finish, laws, holds}, evaluate, Count::{empty, add, join, finish}, CountStar::{empty, add, join,
    // finish}, Sum::{empty, add, join, finish}, Min::{empty, add, join, finish}, Max::{empty, add, join, finish}
    /// The part of no values.
    fn empty() -> Self::Part
        ensures { result ≡ part_of [] };

    /// Adds a value to the bag. Refuses only for want of memory, and leaves the part then.
    fn add(alloc: Global, part: &mut Self::Part, value: &Value) -> Result<(), AllocError>
        requires { can_hold (joined part.old (part_of (value.now ∷ []))) }
        ensures ok { OnOk result (part.new ≡ joined part.old (part_of (value.now ∷ []))) }
        ensures kept { OnErr result (part.new ≡ part.old) };

    /// Adds the values of another bag. Refuses only for want of memory, and leaves the part then.
    fn join(alloc: Global, part: &mut Self::Part, other: &Self::Part) -> Result<(), AllocError>
        requires { can_hold (joined part.old other.now) }
        ensures ok { OnOk result (part.new ≡ joined part.old other.now) }
        ensures kept { OnErr result (part.new ≡ part.old) };

    /// What the aggregate gives over the bag.
    fn finish(part: Self::Part) -> Value
        ensures value { result ≡ finished part }
        ensures means { (values : List Value) → part ≡ part_of values → result ≡ meaning values };

    ghost laws: { PartLaws part_of joined };

    // the part of values fits if they are few enough
    ghost holds: { (values : List Value) → IsHeld values → can_hold (part_of values) };
}

/// What an aggregate gives over a bag of values. Refuses only for want of memory.
pub fn evaluate<A: Aggregate>(alloc: Global, values: &[Value]) -> Result<Value, AllocError>
    requires { IsHeld values.now }
    ensures ok { IfOk result (λ value. value ≡ A.meaning values.now) }
{
    let mut part = A::empty();
    for value in values {
        A::add(alloc, &mut part, value)?;
    }
    Ok(A::finish(part))
}
