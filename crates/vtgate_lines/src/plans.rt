//! The line of a plan: the name of a statement's route, and the shards that it has.
ghost use Rattle.std.specs.Prelude.{◌≡◌, ◌++◌, List, flat_map, slice_get, IfOk, IfErr, OnOk};
ghost use Rattle.vtgate_lines.specs.Plans.{route_name, insert_name, range_word, shards_text, plan_text, write_text, typed_text, IsPlanLine, IsPlanRefusal};

use crate::rows::put;
use keyrange::KeyRange;
use planner::{Query, Route, Typed, VSchema, Write, query_route, shards, write_route};
use sql_parser::parse;
use std::alloc::{AllocError, Global};
use vt_value::Refusal;

fn route_name(route: &Route) -> &'static [u8]
    ensures { result.now ≡ route_name route.now }
{
    match route {
        Route::Unsharded => b"Unsharded",
        Route::None => b"None",
        Route::EqualUnique(_) => b"EqualUnique",
        Route::In(_) => b"IN",
        Route::Scatter => b"Scatter",
    }
}

// An INSERT whose rows have one shard is EqualUnique.
fn insert_name(route: &Route, shards: usize) -> &'static [u8]
    ensures { result.now ≡ insert_name route.now shards }
{
    match route {
        Route::In(_) if shards == 1 => b"EqualUnique",
        _ => route_name(route),
    }
}

fn put_shard(
    alloc: Global,
    out: &mut Vec<u8>,
    ranges: &[KeyRange],
    ordinal: usize,
) -> Result<(), AllocError>
    ensures ok { OnOk result (out.new.items ≡ out.old.items ++ range_word (slice_get ranges.now ordinal)) }
{
    match ranges.get(ordinal) {
        Some(range) => {
            let name = format!(in alloc; " {range}")?;
            put(out, name.as_bytes())
        }
        None => Ok(()),
    }
}

fn put_shards(
    alloc: Global,
    out: &mut Vec<u8>,
    ranges: &[KeyRange],
    ordinals: &[usize],
) -> Result<(), AllocError>
    ensures ok { OnOk result (out.new.items ≡ out.old.items ++ flat_map (λ n. range_word (slice_get ranges.now n)) ordinals.now) }
{
    for ordinal in ordinals {
        put_shard(alloc, out, ranges, *ordinal)?;
    }
    Ok(())
}

// Puts the shards of a route; the one of the unsharded keyspace is `0`.
fn put_route(
    alloc: Global,
    out: &mut Vec<u8>,
    route: &Route,
    ranges: &[KeyRange],
    ordinals: &[usize],
) -> Result<(), AllocError>
    ensures ok { OnOk result (out.new.items ≡ out.old.items ++ shards_text route.now ranges.now ordinals.now) }
{
    match route {
        Route::Unsharded => put(out, b" 0"),
        _ => put_shards(alloc, out, ranges, ordinals),
    }
}

fn printed(
    alloc: Global,
    name: &[u8],
    route: &Route,
    ranges: &[KeyRange],
    ordinals: &[usize],
) -> Result<Vec<u8>, AllocError>
    ensures ok { IfOk result (λ line. line.items ≡ plan_text name.now route.now ranges.now ordinals.now) }
{
    let mut out = Vec::new(alloc);
    put(&mut out, name)?;
    put(&mut out, b":")?;
    put_route(alloc, &mut out, route, ranges, ordinals)?;
    put(&mut out, b"\n")?;
    Ok(out)
}

fn write_line(
    alloc: Global,
    schema: &VSchema,
    ranges: &[KeyRange],
    write: &Write,
) -> Result<Vec<u8>, AllocError>
    ensures ok { IfOk result (λ line. line.items ≡ write_text schema.now ranges.now write.now) }
{
    let route = write_route(alloc, schema, write)?;
    let (Write::Insert(ordinal, _) | Write::Update(ordinal, _, _) | Write::Delete(ordinal, _)) =
        write;
    let Some(table) = schema.tables.as_slice().get(*ordinal) else {
        return printed(alloc, route_name(&route), &route, ranges, &[]);
    };
    let ordinals = shards(alloc, table, &route, ranges)?;
    let name = match write {
        Write::Insert(_, _) => insert_name(&route, ordinals.len()),
        Write::Update(_, _, _) | Write::Delete(_, _) => route_name(&route),
    };
    printed(alloc, name, &route, ranges, &ordinals)
}

fn owned_line(
    alloc: Global,
    schema: &VSchema,
    ranges: &[KeyRange],
    write: Write,
) -> Result<Vec<u8>, AllocError>
    ensures ok { IfOk result (λ line. line.items ≡ write_text schema.now ranges.now write) }
{
    let line = write_line(alloc, schema, ranges, &write);
    drop(write);
    line
}

fn query_line(
    alloc: Global,
    schema: &VSchema,
    ranges: &[KeyRange],
    query: &Query,
) -> Result<Vec<u8>, AllocError>
    ensures ok { IfOk result (λ line. line.items ≡ typed_text schema.now ranges.now (Typed.Select query.now)) }
{
    let route = query_route(alloc, schema, query)?;
    let Some(table) = schema.tables.as_slice().get(query.table) else {
        return printed(alloc, route_name(&route), &route, ranges, &[]);
    };
    let ordinals = shards(alloc, table, &route, ranges)?;
    printed(alloc, route_name(&route), &route, ranges, &ordinals)
}

fn typed_line(
    alloc: Global,
    schema: &VSchema,
    ranges: &[KeyRange],
    typed: Typed,
) -> Result<Vec<u8>, AllocError>
    ensures ok { IfOk result (λ line. line.items ≡ typed_text schema.now ranges.now typed) }
{
    match typed {
        Typed::Select(query) => {
            let line = query_line(alloc, schema, ranges, &query);
            drop(query);
            line
        }
        Typed::Write(write) => owned_line(alloc, schema, ranges, write),
        Typed::Begin | Typed::Commit | Typed::Rollback | Typed::SetNames => {
            printed(alloc, b"None", &Route::None, ranges, &[])
        }
    }
}

// Promise: A plan's line is that of the text's route and shards; a refusal comes for its cause
/// The line of a statement's plan over the ranges of the sharded keyspace, in their order: the name of its route, a colon,
/// and each shard that it has after a blank, as `IN: -80 80-`. A table of the unsharded keyspace has the shard `0`; a
/// statement without a table has none. An INSERT into a sharded table is `EqualUnique` if its rows have one shard, and
/// `IN` elsewhere. Refuses a text that has no tree, one that its VSchema refuses, and, for want of memory, any.
pub fn plan_line(
    alloc: Global,
    schema: &VSchema,
    ranges: &[KeyRange],
    sql: &[u8],
) -> Result<Vec<u8>, Refusal>
    ensures ok { IfOk result (λ line. IsPlanLine schema.now ranges.now sql.now line.items) }
    ensures err { IfErr result (λ r. IsPlanRefusal schema.now sql.now r) }
{
    let statement = parse(alloc, sql)?;
    let typed = schema.resolve(alloc, statement)?;
    Ok(typed_line(alloc, schema, ranges, typed)?)
}
