//! Columns under the names that a client gave.
ghost use Rattle.std.specs.Prelude.{◌≡◌, ◌⊎◌, ◌++◌, ◌∷◌, [], IfOk, OnOk, IfSome, reverse, slice_get, unwrap_or};
ghost use Rattle.resultset.specs.declared.Outcome.{Outcome};
ghost use Rattle.session.specs.conversation.GivesText.{named_column, named_columns, named_outcome};
ghost use Rattle.session.specs.conversation.inner.Means.{IsRows};

use crate::conversation::client_reply::{ClientReply, ClientReplyKind, ShownSet};
use resultset::{Column, ColumnText};
use sql_tree::Name;
use std::alloc::{AllocError, Global};
use vt_value::{Items, Refusal};

/// A column under a name.
fn with_name(column: Column<'_>, name: Name) -> Column<'_>
    ensures { result ≡ record column.entry { name = name } }
{
    let mut column = column;
    column.name = ColumnText::own(name);
    column
}

/// The column at a position under the name there, if there is one.
fn named_column<'e>(
    alloc: Global,
    names: &[Option<Name>],
    at: usize,
    column: Column<'e>,
) -> Result<Column<'e>, AllocError>
    ensures { IfOk result (λ c. c ≡ named_column (slice_get names.now at) column.entry) }
{
    match names.get(at) {
        Some(Some(name)) => Ok(with_name(column, Items::from_slice(alloc, name.as_slice())?)),
        _ => Ok(column),
    }
}

/// The columns under their names, the last one first.
#[tactic(auto, using(crate::proofs::conversation::NamedColumns::joins_named, crate::proofs::conversation::NamedColumns::none_named))]
fn last_first<'e>(
    alloc: Global,
    names: &[Option<Name>],
    columns: Items<Column<'e>>,
) -> Result<Vec<Column<'e>>, AllocError>
    ensures { IfOk result (λ named. reverse named.items ≡ named_columns names.now columns.entry) }
{
    let mut rest = columns;
    let mut named = Vec::new(alloc);
    while let Some(column) = rest.pop() {
        let column = named_column(alloc, names, rest.len(), column)?;
        named.push(column)?;
    }
    Ok(named)
}

/// Columns under their names.
pub(crate) fn named_list<'e>(
    alloc: Global,
    names: &[Option<Name>],
    columns: Items<Column<'e>>,
) -> Result<Items<Column<'e>>, AllocError>
    ensures { IfOk result (λ named. named ≡ named_columns names.now columns.entry) }
{
    let mut columns = last_first(alloc, names, columns)?;
    columns.reverse();
    Ok(Items::from_vec(columns))
}

fn named_set<'e>(
    alloc: Global,
    set: ShownSet<'e>,
    names: &[Option<Name>],
) -> Result<ShownSet<'e>, AllocError>
    ensures { IfOk result (λ named. named ≡ record set.entry { columns = named_columns names.now set.entry.columns }) }
{
    let ShownSet { columns, rows } = set;
    Ok(ShownSet {
        columns: named_list(alloc, names, columns)?,
        rows,
    })
}

/// Rows whose columns have these names, or, if there is no memory for them, the refusal that says so.
fn named_rows<'e>(alloc: Global, set: ShownSet<'e>, names: &[Option<Name>]) -> ClientReply<'e>
    ensures { (result ≡ named_outcome names.now (Outcome.Rows set.entry)) ⊎ (result ≡ Outcome.Refused Refusal.OutOfMemory) }
{
    match named_set(alloc, set, names) {
        Ok(set) => ClientReply {
            reply_kind: ClientReplyKind::Rows(set),
        },
        Err(_) => ClientReply {
            reply_kind: ClientReplyKind::Refused(Refusal::OutOfMemory),
        },
    }
}

/// A reply whose columns have these names, or, if there is no memory for them, the refusal that says so.
pub fn named<'e>(alloc: Global, reply: ClientReply<'e>, names: &[Option<Name>]) -> ClientReply<'e>
    ensures { (result ≡ named_outcome names.now reply.entry) ⊎ (IsRows reply.entry × (result ≡ Outcome.Refused Refusal.OutOfMemory)) }
{
    match reply.reply_kind {
        ClientReplyKind::Rows(set) => named_rows(alloc, set, names),
        ClientReplyKind::Count(count) => ClientReply {
            reply_kind: ClientReplyKind::Count(count),
        },
        ClientReplyKind::Refused(why) => ClientReply {
            reply_kind: ClientReplyKind::Refused(why),
        },
    }
}
