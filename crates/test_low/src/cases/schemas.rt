//! VSchemas, and plans under them.
use crate::cases::lines::without_end;
use keyrange::KeyRange;
use shard_run::ShardRecord;
use shard_run::opening::{empty_tables, opening_shards};
use std::alloc::Global;
use test_fields::{CaseAnswer, Unanswered, fields, text_of};
use vindex::AnyVindex;
use vschema::{Column, ColumnType, Keyspace, Table, VSchema};
use vt_value::Refusal;
use vtgate_lines::{plan_line, read_ranges, refusal_line};

/// The keyspaces and tables of a VSchema, or the number of its fault.
pub(crate) fn schema(alloc: Global, case: &str, told: &mut CaseAnswer) -> Result<(), Unanswered> {
    match VSchema::read(alloc, case) {
        Ok(schema) => put_schema(told, &schema),
        Err(fault) => told.show(&fault),
    }
    Ok(())
}

fn put_schema(told: &mut CaseAnswer, schema: &VSchema) {
    put_keyspaces(told, schema.keyspaces.as_slice());
    for table in schema.tables.as_slice() {
        told.put("; ");
        put_table(told, table);
    }
}

fn put_keyspaces(told: &mut CaseAnswer, keyspaces: &[Keyspace]) {
    for (i, keyspace) in keyspaces.iter().enumerate() {
        told.put(if i == 0 { "" } else { " " });
        told.put_text(keyspace.name.as_slice());
        told.put(if keyspace.sharded {
            " sharded"
        } else {
            " unsharded"
        });
    }
}

// A table with the ordinals of its keyspace, of its primary key, and of its vindex's column.
fn put_table(told: &mut CaseAnswer, table: &Table) {
    told.put_text(table.name.as_slice());
    told.put(" of ");
    told.show(&table.keyspace);
    told.put(" (");
    put_columns(told, table.columns.as_slice());
    told.put(") key");
    put_ordinals(told, table.primary_key.as_slice());
    if let Some(on) = &table.vindex {
        told.put(" ");
        told.put(vindex_name(on.vindex));
        told.put(" on ");
        told.show(&on.column);
    }
}

fn put_ordinals(told: &mut CaseAnswer, ordinals: &[usize]) {
    for ordinal in ordinals {
        told.put(" ");
        told.show(ordinal);
    }
}

fn put_columns(told: &mut CaseAnswer, columns: &[Column]) {
    for (i, column) in columns.iter().enumerate() {
        told.put(if i == 0 { "" } else { ", " });
        told.put_text(column.name.as_slice());
        put_type(told, column.kind);
        told.put(if column.nullable { " null" } else { "" });
    }
}

fn put_type(told: &mut CaseAnswer, kind: ColumnType) {
    match kind {
        ColumnType::BigInt => told.put(" BIGINT"),
        ColumnType::BigIntUnsigned => told.put(" BIGINT UNSIGNED"),
        ColumnType::VarBinary(length) => {
            told.put(" VARBINARY(");
            told.show(&length);
            told.put(")");
        }
    }
}

fn vindex_name(vindex: AnyVindex) -> &'static str {
    match vindex {
        AnyVindex::Numeric => "numeric",
        AnyVindex::ReverseBits => "reverse_bits",
        AnyVindex::Binary => "binary",
        AnyVindex::BinaryMd5 => "binary_md5",
    }
}

/// The shards of the opening that has no rows, and how many tables each has.
pub(crate) fn opening_slots(
    alloc: Global,
    case: &str,
    told: &mut CaseAnswer,
) -> Result<(), Unanswered> {
    let (shards, declared) = fields(case)?;
    let Some(ranges) = read_ranges(alloc, shards)? else {
        return Err(Unanswered::BadLine);
    };
    match VSchema::read(alloc, declared) {
        Ok(schema) => put_opening(alloc, &schema, &ranges, told),
        Err(fault) => {
            told.show(&fault);
            Ok(())
        }
    }
}

fn put_opening(
    alloc: Global,
    schema: &VSchema,
    ranges: &[KeyRange],
    told: &mut CaseAnswer,
) -> Result<(), Unanswered> {
    for shard in opening_shards(alloc, schema, ranges)?.as_slice() {
        put_shard(told, shard);
        told.put("; ");
    }
    told.show(&empty_tables(schema));
    told.put(" tables");
    Ok(())
}

fn put_shard(told: &mut CaseAnswer, shard: &ShardRecord) {
    told.show(&shard.slot);
    told.put(" ");
    told.show(&shard.place.keyspace);
    told.put(" ");
    told.show(&shard.place.range);
}

/// The line of a plan.
pub(crate) fn plan(alloc: Global, case: &str, told: &mut CaseAnswer) -> Result<(), Unanswered> {
    let (shards, rest) = fields(case)?;
    let (declared, sql) = fields(rest)?;
    let sql = text_of(alloc, sql)?;
    match read_ranges(alloc, shards) {
        Ok(Some(ranges)) => put_plan(alloc, &ranges, declared, &sql, told),
        Ok(None) => told.put("none"),
        Err(_) => told.put_text(without_end(refusal_line(Refusal::OutOfMemory).as_slice())),
    }
    Ok(())
}

fn put_plan(alloc: Global, ranges: &[KeyRange], declared: &str, sql: &[u8], told: &mut CaseAnswer) {
    match VSchema::read(alloc, declared) {
        Ok(schema) => put_plan_under(alloc, ranges, &schema, sql, told),
        Err(fault) => told.show(&fault),
    }
}

fn put_plan_under(
    alloc: Global,
    ranges: &[KeyRange],
    schema: &VSchema,
    sql: &[u8],
    told: &mut CaseAnswer,
) {
    match plan_line(alloc, schema, ranges, sql) {
        Ok(line) => told.put_text(without_end(&line)),
        Err(refusal) => told.put_text(without_end(refusal_line(refusal).as_slice())),
    }
}
