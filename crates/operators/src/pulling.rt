//! What every operator is: something that gives one row at a time.
ghost use Rattle.std.specs.Prelude.{◌≡◌, List, [], ◌∷◌, ◌↔◌, Bool, IsTrue, IsErr, IfOk, MatchOption, ⊤};
ghost use Rattle.vt_value.specs.declared.value.Value.{Value};

use std::alloc::{AllocError, Global};
use vt_value::{Items, Row};

/// Gives rows, one at a time.
pub trait Operator: Drop {
    // the rows that are still to come
    ghost to_come: { Self → List (List Value) };

    // a call had no memory
    ghost has_failed: { Self → Bool };

    // what one call of `next` may make of an operator: by this relation calls are counted
    ghost one_call: { Self → Self → Type 0 } = { λ _ _. ⊤ };

    // Promise: An operator gives its rows in order, one at a time; if it once had no memory it gives none again
    // With: Rows::next, Concat::next, MergeSort::next, Limit::next, Project::next
    // Clauses: row, failed, fails
    /// The next row, or `None` if no row is left. Refuses only for want of memory, and then each later call does.
    fn next(&mut self, alloc: Global) -> Result<Option<Row>, AllocError>
        ensures row { IfOk result (λ next. MatchOption next
            ((to_come self.old ≡ []) × (to_come self.new ≡ []))
            (λ row. to_come self.old ≡ row ∷ to_come self.new)) }
        ensures failed { IsTrue (has_failed self.old) → IsErr result }
        ensures fails { IsTrue (has_failed self.new) ↔ IsErr result }
        ensures call { one_call self.old self.new };
}

/// The rows that are still to come, as a `Vec`. Refuses only for want of memory.
pub fn pull_all<O: Operator>(alloc: Global, input: &mut O) -> Result<Vec<Row>, AllocError>
    ensures ok { IfOk result (λ rows. rows.items ≡ O.to_come input.old) }
{
    let mut rows = Vec::new(alloc);
    while let Some(row) = input.next(alloc)? {
        rows.push(row)?;
    }
    Ok(rows)
}

/// The rows that are still to come. Refuses only for want of memory.
pub fn collect<O: Operator>(alloc: Global, input: &mut O) -> Result<Items<Row>, AllocError>
    ensures ok { IfOk result (λ rows. rows ≡ O.to_come input.old) }
{
    Ok(Items::from_vec(pull_all(alloc, input)?))
}
