//! Column definitions.
ghost use Rattle.std.specs.Prelude.{◌≡◌, ℕ, List, ◌++◌, length, map, IfOk, IsTrue, IfSome, Some};
ghost use Rattle.std.specs.List.{AllByRecursion};
ghost use Rattle.mysql_packet.specs.Numbers.{length_encoded_string};
ghost use Rattle.resultset.specs.declared.Column.{Column};
ghost use Rattle.resultset.specs.declared.Kind.{Kind};
ghost use Rattle.resultset.specs.Flags.{type_of, length_of};
ghost use Rattle.resultset.specs.inner.Flags.{flags_fit};
ghost use Rattle.resultset.specs.Encoding.{definition_payload, name_fields, fixed_fields, IsByteLong};
ghost use Rattle.resultset.specs.inner.Reading.{OnceRead};

use crate::unread::Unread;
use crate::{Column, ColumnText, Kind};
use mysql_message::numbers::read_length_encoded_string;
use std::alloc::Global;
use vt_value::Items;

pub(crate) fn columns(
    alloc: Global,
    payloads: &[Items<u8>],
) -> Result<Items<Column<'static>>, Unread>
    ensures len { IfOk result (λ x. length x ≡ length payloads.now) }
    ensures again { (cs : List Column) → AllByRecursion (λ c. IsByteLong c.kind) cs
        → payloads.now ≡ map definition_payload cs → OnceRead result (λ x. x ≡ cs) }
{
    let mut columns = Items::new(alloc);
    for payload in payloads {
        columns.push(column(alloc, payload.as_slice())?)?;
    }
    Ok(columns)
}

fn column(alloc: Global, payload: &[u8]) -> Result<Column<'static>, Unread>
    ensures { (c : Column) → IsByteLong c.kind → payload.now ≡ definition_payload c → OnceRead result (λ x. x ≡ c) }
{
    let (names, rest) = names_at(payload)?;
    let (kind, flags) = kind_at(rest)?;
    Ok(Column {
        schema: owned(alloc, names.schema)?,
        table: owned(alloc, names.table)?,
        name: owned(alloc, names.name)?,
        org_name: owned(alloc, names.org_name)?,
        kind,
        flags,
    })
}

/// A copy of a name.
fn owned(alloc: Global, name: &[u8]) -> Result<ColumnText<'static>, Unread>
    ensures { OnceRead result (λ x. x ≡ name.now) }
{
    Ok(ColumnText::own(Items::from_slice(alloc, name)?))
}

/// The names of a column definition.
#[derive(Clone, Copy)]
struct Names<'a> {
    schema: &'a [u8],
    table: &'a [u8],
    name: &'a [u8],
    org_name: &'a [u8],
}

fn names_at(bytes: &[u8]) -> Result<(Names<'_>, &[u8]), Unread>
    ensures { (c : Column) (rest : List ℕ) → bytes.now ≡ name_fields c ++ rest
        → OnceRead result (λ x. (x.0.schema.now ≡ c.schema) × (x.0.table.now ≡ c.table) × (x.0.name.now ≡ c.name)
        × (x.0.org_name.now ≡ c.org_name) × (x.1.now ≡ rest)) }
{
    let (_, after_catalog) = string_at(bytes)?;
    let (schema, after_schema) = string_at(after_catalog)?;
    let (table, after_table) = string_at(after_schema)?;
    let (_, after_tables) = string_at(after_table)?;
    let (name, after_name) = string_at(after_tables)?;
    let (org_name, rest) = string_at(after_name)?;
    let names = Names {
        schema,
        table,
        name,
        org_name,
    };
    Ok((names, rest))
}

/// The kind and the flags that the fixed fields of a column definition give.
fn kind_at(fields: &[u8]) -> Result<(Kind, u16), Unread>
    ensures allowed { IfOk result (λ x. IsTrue (flags_fit x.0 x.1)) }
    ensures again { (kind : Kind) (flags : ℕ) → IsByteLong kind → IsTrue (flags_fit kind flags)
        → fields.now ≡ fixed_fields kind flags → OnceRead result (λ x. (x.0 ≡ kind) × (x.1 ≡ flags)) }
{
    let [_, _, _, length, _, _, _, code, low, high, ..] = fields else {
        return Err(Unread::Malformed);
    };
    let flags = u16::from(*low) + 256 * u16::from(*high);
    match kind_of(*code, *length, flags) {
        Some(kind) => Ok((kind, flags)),
        None => Err(Unread::Malformed),
    }
}

fn string_at(bytes: &[u8]) -> Result<(&[u8], &[u8]), Unread>
    ensures { (text rest : List ℕ) → bytes.now ≡ length_encoded_string text ++ rest
        → OnceRead result (λ x. (x.0.now ≡ text) × (x.1.now ≡ rest)) }
{
    read_length_encoded_string(bytes).ok_or(Unread::Malformed)
}

/// The kind with this type, this length and these flags.
fn kind_of(code: u8, length: u8, flags: u16) -> Option<Kind>
    ensures allowed { IfSome result (λ kind. IsTrue (flags_fit kind flags)) }
    ensures again { (kind : Kind) → code ≡ type_of kind → length ≡ length_of kind → IsTrue (flags_fit kind flags)
        → result ≡ Some kind }
{
    let kind = match (code, length) {
        (0x08, 20) if flags < 160 => Kind::BigInt,
        (0x08, 20) => Kind::BigIntUnsigned,
        (0x08, 21) => Kind::Count,
        (0xFD, most) => Kind::VarBinary(most),
        (0xF6, 41) => Kind::Sum,
        _ => return None,
    };
    if flags_fit(kind, flags) {
        Some(kind)
    } else {
        None
    }
}

fn flags_fit(kind: Kind, flags: u16) -> bool
    ensures { result ≡ flags_fit kind flags }
{
    match kind {
        Kind::BigInt | Kind::VarBinary(_) => matches!(flags, 128 | 129 | 131),
        Kind::BigIntUnsigned => matches!(flags, 160 | 161 | 163),
        Kind::Count => flags == 129,
        Kind::Sum => flags == 128,
    }
}
