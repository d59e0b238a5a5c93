//! Column definitions whose names are short, as most are: each takes one packet, whose length is known before it is written.
ghost use Rattle.std.specs.Prelude.{◌≡◌, ◌↔◌, ◌+◌, ◌<◌, ◌≤◌, ◌++◌, length, IsTrue};
ghost use Rattle.mysql_packet.specs.Numbers.{length_encoded_string};
ghost use Rattle.mysql_packet.specs.Frames.{packet};
ghost use Rattle.resultset.specs.Encoding.{definition_payload};
ghost use Rattle.resultset.specs.inner.Parts.{HasShortNames, names_payload};

use crate::Column;
use crate::writing::fixed_fields;
use bytes::BytesMut;

/// The bytes of such a definition beside its names: the catalog with its length, the lengths of five names, and the fixed fields.
const BESIDE_NAMES: usize = 22;

/// Whether each name's length takes one byte.
pub(crate) fn has_short_names(column: &Column) -> bool
    ensures { IsTrue result ↔ HasShortNames column.now }
{
    column.schema.as_slice().len() < 251
        && column.table.as_slice().len() < 251
        && column.name.as_slice().len() < 251
        && column.org_name.as_slice().len() < 251
}

/// How many bytes the definition takes.
pub(crate) fn short_definition_len(column: &Column) -> usize
    requires { HasShortNames column.now }
    ensures len { result ≡ length (definition_payload column.now) }
    ensures short { result < 2048 }
{
    let schema = column.schema.as_slice().len();
    let table = column.table.as_slice().len();
    let name = column.name.as_slice().len();
    let org_name = column.org_name.as_slice().len();
    schema + table + table + name + org_name + BESIDE_NAMES
}

/// Appends a name after its length.
fn put_name(name: &[u8], out: &mut BytesMut)
    requires short { length name.now < 251 }
    requires room { length name.now + 1 ≤ out.old.spare }
    ensures items { out.new.items ≡ out.old.items ++ length_encoded_string name.now }
    ensures spare { out.new.spare + 1 + length name.now ≡ out.old.spare }
{
    out.extend_reserved(&[name.len() as u8]);
    out.extend_reserved(name);
}

/// Appends the names: each of the table's and the column's has two.
fn put_short_names(column: &Column, out: &mut BytesMut)
    requires short { HasShortNames column.now }
    requires room { length (names_payload column.now) ≤ out.old.spare }
    ensures items { out.new.items ≡ out.old.items ++ names_payload column.now }
    ensures spare { out.new.spare + length (names_payload column.now) ≡ out.old.spare }
{
    put_name(column.schema.as_slice(), out);
    put_name(column.table.as_slice(), out);
    put_name(column.table.as_slice(), out);
    put_name(column.name.as_slice(), out);
    put_name(column.org_name.as_slice(), out);
}

/// Appends the packet of the definition, which takes so many bytes. Its catalog is `def`.
pub(crate) fn put_short_definition(number: u8, len: usize, column: &Column, out: &mut BytesMut)
    requires short { HasShortNames column.now }
    requires len { len ≡ length (definition_payload column.now) }
    requires below { len < 2048 }
    requires room { len + 4 ≤ out.old.spare }
    ensures items { out.new.items ≡ out.old.items ++ packet number (definition_payload column.now) }
    ensures spare { out.new.spare + 4 + len ≡ out.old.spare }
{
    let low = (len % 256) as u8;
    let high = (len / 256) as u8;
    out.extend_reserved(&[low, high, 0, number, 3, b'd', b'e', b'f']);
    put_short_names(column, out);
    out.extend_reserved(&fixed_fields(column.kind, column.flags));
}
