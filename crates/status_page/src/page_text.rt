//! The page.
ghost use Rattle.std.specs.Prelude.{IfOk};
ghost use Rattle.status_page.specs.Table.{ShowsShards};

use crate::page_parts::{put_endings, put_events, put_keyspaces, put_statements, put_workflow};
use crate::page_script::SCRIPT;
use crate::page_style::STYLE;
use crate::page_table::{put_rows, put_text};
use crate::texts::{put, put_number};
use status_figures::{ConnectionFigures, Counter, Figures, Totals};
use std::alloc::{AllocError, Global};

/// How many bytes there is room for at first.
const ROOM: usize = 1 << 16;

const HEAD: &[u8] =
    b"<!DOCTYPE html>\n<html lang=en><head><meta charset=utf-8><meta name=viewport content=\"width=device-width, initial-scale=1\">\
<title>Peamslik: status</title><link rel=icon href=\"data:,\"><style>";

const TOP: &[u8] = b"</style></head><body>\n<header><h1>Peamslik</h1><p>version ";

const NAVIGATION: &[u8] =
    b"</p><p id=told role=status>as it was when this was loaded</p><nav aria-label=\"This page\"><button id=pause hidden \
aria-pressed=false>Pause</button><a href=\"/metrics\">metrics</a></nav></header>\n<main>\n";

const TABLE_HEAD: &[u8] =
    b"<section><h2>Shards</h2><div class=scroll tabindex=0 role=region aria-label=\"Shards\"><table><caption>Rows and entries, and how much of their \
limits</caption><thead><tr><th scope=col>range<th scope=col>keyspace<th scope=col>slot<th scope=col>mode<th scope=col>rows<th scope=col>of limit\
<th scope=col>entries<th scope=col>of limit</tr></thead><tbody>\n";

// Puts how long ago it started.
fn put_age(out: &mut Vec<u8>, seconds: u64) -> Result<(), AllocError> {
    put(out, b"up ")?;
    put_number(out, seconds / 3600)?;
    put(out, b" h ")?;
    put_number(out, seconds / 60 % 60)?;
    put(out, b" min ")?;
    put_number(out, seconds % 60)?;
    put(out, b" s")
}

// Puts a term and what it is.
fn put_term(out: &mut Vec<u8>, term: &[u8], value: u64) -> Result<(), AllocError> {
    put(out, b"<dt>")?;
    put(out, term)?;
    put(out, b"<dd>")?;
    put_number(out, value)
}

// Puts the connections and what they moved.
fn put_connections(
    out: &mut Vec<u8>,
    connections: &ConnectionFigures,
    totals: &Totals,
    lost: u64,
) -> Result<(), AllocError> {
    put(out, b"<section><h2>Connections</h2><dl>")?;
    put_term(out, b"now", connections.live)?;
    put_term(out, b"not taken by a worker yet", connections.queued)?;
    put_term(out, b"workers", connections.workers)?;
    put_term(
        out,
        b"statements that wait for a cutover",
        connections.waiting,
    )?;
    put_term(out, b"of them at most", connections.buffer)?;
    put_term(out, b"begun", totals.of(Counter::Begun))?;
    put_term(out, b"rows sent or changed", totals.of(Counter::Rows))?;
    put_term(out, b"bytes received", totals.of(Counter::Received))?;
    put_term(out, b"bytes sent", totals.of(Counter::Sent))?;
    put_term(out, b"lines of the log lost", lost)?;
    put_endings(out, totals)?;
    put(out, b"</dl></section>\n")
}

// Puts all before the figures. The age is in seconds.
fn put_front(out: &mut Vec<u8>, figures: &Figures<'_>, age: u64) -> Result<(), AllocError> {
    put(out, HEAD)?;
    put(out, STYLE.as_bytes())?;
    put(out, TOP)?;
    put_text(out, figures.version.as_bytes())?;
    put(out, b", <span id=up>")?;
    put_age(out, age)?;
    put(out, b"</span>")?;
    put(out, NAVIGATION)
}

// Puts all before the rows of shards.
fn put_top(
    alloc: Global,
    out: &mut Vec<u8>,
    figures: &Figures<'_>,
    age: u64,
) -> Result<(), AllocError> {
    put_front(out, figures, age)?;
    put_keyspaces(alloc, out, &figures.shards)?;
    put(out, TABLE_HEAD)
}

// All after the rows of shards.
fn rest_of(alloc: Global, figures: &Figures<'_>) -> Result<Vec<u8>, AllocError> {
    let mut out = Vec::with_capacity(alloc, ROOM / 4)?;
    put(
        &mut out,
        b"</tbody></table></div></section>\n<div class=two>",
    )?;
    put_workflow(&mut out, &figures.workflow)?;
    put_connections(
        &mut out,
        &figures.connections,
        &figures.totals,
        figures.lost,
    )?;
    put(&mut out, b"</div>\n")?;
    put_statements(&mut out, &figures.totals)?;
    put_events(&mut out, &figures.events)?;
    put(&mut out, b"</main>\n<script>")?;
    put(&mut out, SCRIPT.as_bytes())?;
    put(&mut out, b"</script></body></html>\n")?;
    Ok(out)
}

// Promise: The page has a row for each shard in the order of its figures: its range, its keyspace, its slot, its mode, its rows, its entries, and how much
// of both limits these are
/// The page, so many seconds after the start. Refuses for want of memory.
pub fn page(alloc: Global, figures: &Figures<'_>, age: u64) -> Result<Vec<u8>, AllocError>
    ensures shards { IfOk result (λ page. ShowsShards page.items figures.now.shards.items) }
{
    let mut out = Vec::with_capacity(alloc, ROOM)?;
    put_top(alloc, &mut out, figures, age)?;
    put_rows(alloc, &mut out, &figures.shards)?;
    let rest = rest_of(alloc, figures)?;
    put(&mut out, &rest)?;
    Ok(out)
}
