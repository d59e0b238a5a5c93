//! LIMIT and OFFSET. It stops calling its input once it has what it needs.
ghost use Rattle.std.specs.Prelude.{◌≡◌, [], ◌∷◌, IsTrue, IfOk, IsErr, IsOk, OnErr, OnOk, ◌↔◌, MatchOption, true, false, drop, ℕ};
ghost use Rattle.operators.specs.Slices.{sliced};
ghost use Rattle.operators.specs.Calls.{Calls, CallsAtMost, most_calls};

use crate::pulling::Operator;
use std::alloc::{AllocError, Global};
use vt_value::Row;

/// The slice of an input's rows that LIMIT leaves. It calls its input at most offset plus count times, and never again once the input
/// has failed.
#[derive(Drop)]
pub struct Limit<O> {
    input: O,
    /// What LIMIT still leaves of the rows that the input has.
    rest: Option<sql_tree::LimitClause>,
    failed: bool,
}

/// Passes over `count` rows, or all if there are fewer.
fn pass_over<O: Operator>(alloc: Global, input: &mut O, count: u64) -> Result<(), AllocError>
    ensures ok { OnOk result (O.to_come input.new ≡ drop count (O.to_come input.old)) }
    ensures calls { CallsAtMost O.one_call count input.old input.new }
{
    for _ in 0..count {
        let Some(_row) = input.next(alloc)? else {
            return Ok(());
        };
    }
    Ok(())
}

impl<O: Operator> Limit<O> {
    ghost use Rattle.operators.specs.declared.slicing.Limit.{Limit};
    ghost use Rattle.operators.specs.inner.Limits.{input_of, LimitCall};

    // Promise: LIMIT calls its input's `next` at most offset plus count times however often it is called itself, never for no rows and
    // never again once the input failed; without LIMIT once a call
    // With: Limit::next
    // Clauses: calls, call
    /// What `limit` leaves of the input's rows, all of them if it is `None`.
    pub fn new(input: O, limit: Option<sql_tree::LimitClause>) -> Limit<O>
        ensures rows { ⟦<Limit<O> as Operator>⟧.to_come result ≡ sliced limit (O.to_come input) }
        ensures fresh { IsTrue (⟦<Limit<O> as Operator>⟧.has_failed result) → IsTrue (O.has_failed input) }

        // However often the limit is called, `later` being what it is then.
        ensures calls { (calls : ℕ) (later : Limit O) → Calls ⟦<Limit<O> as Operator>⟧.one_call calls result later
            → CallsAtMost O.one_call (most_calls limit calls) input (input_of later) }
    {
        Limit {
            input,
            rest: limit,
            failed: false,
        }
    }

    /// The next row, if no call failed before.
    fn pull(&mut self, alloc: Global) -> Result<Option<Row>, AllocError>
        requires { self.old.failed ≡ false }
        ensures row { IfOk result (λ next. MatchOption next
            ((sliced self.old.rest (O.to_come self.old.input) ≡ []) × (sliced self.new.rest (O.to_come self.new.input) ≡ []))
            (λ row. sliced self.old.rest (O.to_come self.old.input) ≡ row ∷ sliced self.new.rest (O.to_come self.new.input))) }
        ensures call { OnOk result (LimitCall O.one_call self.old self.new) }
        ensures failing { OnErr result (LimitCall O.one_call self.old (record self.new { failed = true })) }
        ensures same { self.new.failed ≡ false }
    {
        let Some(limit) = self.rest else {
            return self.input.next(alloc);
        };
        if limit.count == 0 {
            return Ok(None);
        }
        pass_over(alloc, &mut self.input, limit.offset)?;
        let Some(row) = self.input.next(alloc)? else {
            self.rest = Some(sql_tree::LimitClause {
                count: 0,
                offset: 0,
            });
            return Ok(None);
        };
        self.rest = Some(sql_tree::LimitClause {
            count: limit.count - 1,
            offset: 0,
        });
        Ok(Some(row))
    }
}

impl<O: Operator> Operator for Limit<O> {
    ghost use Rattle.operators.specs.Slices.{sliced};
    ghost use Rattle.operators.specs.inner.Limits.{LimitCall};

    ghost to_come = { λ limit. sliced limit.rest (O.to_come limit.input) };

    ghost has_failed = { λ limit. limit.failed };

    ghost one_call = { LimitCall O.one_call };

    fn next(&mut self, alloc: Global) -> Result<Option<Row>, AllocError> {
        if self.failed {
            return Err(AllocError);
        }
        let next = self.pull(alloc);
        self.failed = next.is_err();
        next
    }
}
