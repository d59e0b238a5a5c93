//! What a shard is asked of a plan.
ghost use Rattle.std.specs.Prelude.{◌≡◌, IfOk};
ghost use Rattle.planner.specs.Plans.{piece_of};
ghost use Rattle.shard_calls.specs.inner.Pieces.{query_in};

use keyrange::KeyRange;
use planner::Plan;
use std::alloc::{AllocError, Global};
use std::marker::Model;
use vschema::{Query, Table};
use vt_value::Boxed;

/// The query that a shard is asked: the plan's, or one that was made for the shard. Contracts see the query.
#[derive(Drop)]
pub struct Piece<'e> {
    whole: &'e Query,
    own: Option<Boxed<Query>>,
}

impl<'e> Model for Piece<'e> {
    ghost use Rattle.vschema.specs.contracts.schema.Query as select;
    ghost use Rattle.vschema.specs.declared.schema.Query.{Query as Q};
    ghost use Rattle.shard_calls.specs.inner.Pieces.{query_in};

    ghost Value = { Q };

    ghost coded = { select.the_row.coded };

    ghost view = { λ p. query_in p.whole.now p.own };
}

impl<'e> Piece<'e> {
    /// The query.
    pub fn get(&self) -> &Query
        ensures { result.now ≡ self.now }
    {
        match &self.own {
            None => self.whole,
            Some(own) => own.get(),
        }
    }
}

/// What the shard of a range is asked. It is copied only under IN, where each shard gets its own members. Refuses only for want of memory.
pub fn piece_for<'e>(
    alloc: Global,
    table: &Table,
    plan: &'e Plan,
    range: &KeyRange,
) -> Result<Piece<'e>, AllocError>
    ensures ok { IfOk result (λ piece. piece ≡ piece_of table.now plan.now range.now) }
{
    match plan.whole_piece() {
        Some(whole) => Ok(Piece { whole, own: None }),
        None => {
            let own = plan.piece_for(alloc, table, range)?;
            Ok(Piece {
                whole: &plan.piece,
                own: Some(Boxed::new(alloc, own)?),
            })
        }
    }
}
