//! What a client's statement is answered, with rows that are shown as they are encoded.

use resultset::Column;
use route_engine::ShownRows;
use std::marker::Model;
use vt_value::{Items, Refusal};

/// A result set whose rows are still to be shown. Contracts see the result set.
#[derive(Drop)]
pub struct ShownSet<'e> {
    pub columns: Items<Column<'e>>,
    pub rows: ShownRows,
}

impl<'e> Model for ShownSet<'e> {
    ghost use Rattle.resultset.specs.declared.ResultSet.{ResultSet};

    ghost Value = { ResultSet };

    ghost view = { λ s. record { columns = s.columns; rows = s.rows } };
}

/// An outcome whose rows are still to be shown.
#[derive(Drop)]
pub enum ClientReplyKind<'e> {
    Rows(ShownSet<'e>),
    Count(u64),
    Refused(Refusal),
}

/// What a statement gives its client. Contracts see the outcome.
#[derive(Drop)]
pub struct ClientReply<'e> {
    pub reply_kind: ClientReplyKind<'e>,
}

impl<'e> Model for ClientReply<'e> {
    ghost use Rattle.resultset.specs.declared.Outcome.{Outcome};
    ghost use Rattle.session.specs.conversation.inner.Tellings.{outcome_of_reply};

    ghost Value = { Outcome };

    ghost view = { λ t. outcome_of_reply t.reply_kind };
}
