//! The parts of the page that show figures.

use crate::page_table::{put_tenths, put_text, thousandths_of};
use crate::samples::{mode_word, put_range};
use crate::texts::{put, put_number, put_seconds};
use status_figures::{
    BOUNDS, BUCKETS, Counter, CutoverFigures, ENDINGS, Edge, KINDS, Kind, REFUSALS, ShardFigures,
    ShardMode, Totals, WorkflowFigures, WorkflowState,
};
use std::alloc::{AllocError, Global};

/// How many ids a thousandth of a keyspace has.
const THOUSANDTH: u64 = u64::MAX / 1000;

/// How many thousandths a shard has at least in whose part its range is written.
const WIDE: u64 = 110;

/// How full a shard is, in thousandths of the limit that is nearer.
pub(crate) fn fullness(shard: &ShardFigures<'_>) -> u64 {
    let rows = thousandths_of(shard.rows, shard.rows_limit);
    rows.max(thousandths_of(shard.stored, shard.stored_limit))
}

// Where an edge lies, in thousandths of the keyspace.
fn place_of(edge: &Edge) -> u64 {
    let mut number = 0u64;
    for place in 0..8 {
        let byte = edge.as_slice().get(place).copied().unwrap_or(0);
        number = number.wrapping_mul(256).wrapping_add(u64::from(byte));
    }
    (number / THOUSANDTH).min(1000)
}

// Where a shard's range begins and ends, in thousandths of the keyspace.
fn places_of(shard: &ShardFigures<'_>) -> (u64, u64) {
    let begin = place_of(&shard.range.begin);
    let end = match &shard.range.end {
        Some(end) => place_of(end),
        None => 1000,
    };
    (begin, end.max(begin))
}

// Puts a rectangle of the bar: its place and its width in thousandths, and how far from the top it begins.
fn put_rectangle(
    out: &mut Vec<u8>,
    class: &[&[u8]],
    place: u64,
    width: u64,
    top: u64,
) -> Result<(), AllocError> {
    put(out, b"<rect class=\"")?;
    for word in class {
        put(out, word)?;
    }
    put(out, b"\" x=\"")?;
    put_tenths(out, place)?;
    put(out, b"%\" width=\"")?;
    put_tenths(out, width)?;
    put(out, b"%\" y=\"")?;
    put_tenths(out, top)?;
    put(out, b"%\" height=\"")?;
    put_tenths(out, 1000u64.saturating_sub(top))?;
    put(out, b"%\"/>")
}

// Puts a shard's part of the bar.
fn put_part(alloc: Global, out: &mut Vec<u8>, shard: &ShardFigures<'_>) -> Result<(), AllocError> {
    let (begin, end) = places_of(shard);
    let width = end.saturating_sub(begin);
    let mode = mode_word(shard.mode).as_bytes();
    let top = 1000u64.saturating_sub(fullness(shard));
    put(out, b"<g><title>")?;
    put_range(alloc, out, shard.range)?;
    put(out, b", ")?;
    put(out, mode)?;
    put(out, b"</title>")?;
    put_rectangle(out, &[mode, b" edge"], begin, width, 0)?;
    put_rectangle(out, &[mode, b"-full"], begin, width, top)?;
    if width >= WIDE {
        put(out, b"<text text-anchor=\"middle\" y=\"1.1rem\" x=\"")?;
        put_tenths(out, begin.saturating_add(width / 2))?;
        put(out, b"%\">")?;
        put_range(alloc, out, shard.range)?;
        put(out, b"</text>")?;
    }
    put(out, b"</g>")
}

// Puts a bar of the shards of a keyspace that are being filled, or of those that aren't.
fn put_bar(
    alloc: Global,
    out: &mut Vec<u8>,
    shards: &[ShardFigures<'_>],
    label: &[u8],
    fills: bool,
) -> Result<(), AllocError> {
    if !shards
        .iter()
        .any(|shard| (shard.mode == ShardMode::Following) == fills)
    {
        return Ok(());
    }
    put(out, b"<svg class=bar role=img aria-label=\"")?;
    put(out, label)?;
    put(out, b"\">")?;
    for shard in shards {
        if (shard.mode == ShardMode::Following) == fills {
            put_part(alloc, out, shard)?;
        }
    }
    put(out, b"</svg>")
}

// Puts a keyspace: its bars.
fn put_keyspace(
    alloc: Global,
    out: &mut Vec<u8>,
    name: &[u8],
    shards: &[ShardFigures<'_>],
) -> Result<(), AllocError> {
    put(out, b"<section><h2>Keyspace ")?;
    put_text(out, name)?;
    put(out, b"</h2>")?;
    put_bar(
        alloc,
        out,
        shards,
        b"The shards that serve, as the table has them",
        false,
    )?;
    put_bar(
        alloc,
        out,
        shards,
        b"The shards that are filled, as the table has them",
        true,
    )?;
    put(out, b"</section>\n")
}

const LEGEND: &[u8] =
    b"<ul class=legend><li><svg class=key aria-hidden=true><rect class=serving-full width=100% height=100% /></svg>serving\
<li><svg class=key aria-hidden=true><rect class=frozen-full width=100% height=100% /></svg>frozen: queries alone\
<li><svg class=key aria-hidden=true><rect class=following-full width=100% height=100% /></svg>following: is filled\
<li><svg class=key aria-hidden=true><rect class=retired-full width=100% height=100% /></svg>retired\
<li>height: how full it is</ul>";

// How many of the first shards are of this keyspace.
fn front_len(shards: &[ShardFigures<'_>], keyspace: &[u8]) -> usize {
    for (place, shard) in shards.iter().enumerate() {
        if shard.keyspace != keyspace {
            return place;
        }
    }
    shards.len()
}

// Puts the keyspace of the first of some shards, and returns how many of them it has.
fn put_first(
    alloc: Global,
    out: &mut Vec<u8>,
    shards: &[ShardFigures<'_>],
) -> Result<usize, AllocError> {
    let Some(first) = shards.first() else {
        return Ok(0);
    };
    let len = front_len(shards, first.keyspace);
    let front = shards.get(..len).unwrap_or(shards);
    put_keyspace(alloc, out, first.keyspace, front)?;
    Ok(len)
}

/// Puts each keyspace. The shards of one follow one another.
pub(crate) fn put_keyspaces(
    alloc: Global,
    out: &mut Vec<u8>,
    shards: &[ShardFigures<'_>],
) -> Result<(), AllocError> {
    put(out, LEGEND)?;
    let mut begin = 0usize;
    for _ in 0..shards.len() {
        let rest = shards.get(begin..).unwrap_or(&[]);
        begin = begin.saturating_add(put_first(alloc, out, rest)?);
    }
    Ok(())
}

// Puts a step of the workflow.
fn put_step(out: &mut Vec<u8>, name: &[u8], is_present: bool) -> Result<(), AllocError> {
    put(
        out,
        if is_present {
            b"<li aria-current=step>"
        } else {
            b"<li>"
        },
    )?;
    put(out, name)?;
    put(out, b"</li>")
}

// Puts a term and what it is.
fn put_term(out: &mut Vec<u8>, term: &[u8], value: u64) -> Result<(), AllocError> {
    put(out, b"<dt>")?;
    put(out, term)?;
    put(out, b"<dd>")?;
    put_number(out, value)
}

// Puts a term and a time.
fn put_time(out: &mut Vec<u8>, term: &[u8], micros: u64) -> Result<(), AllocError> {
    put(out, b"<dt>")?;
    put(out, term)?;
    put(out, b"<dd>")?;
    put_seconds(out, micros)?;
    put(out, b" s")
}

// Puts the last cutover.
fn put_cutover(out: &mut Vec<u8>, times: &CutoverFigures) -> Result<(), AllocError> {
    put_time(out, b"last cutover: frozen after", times.froze)?;
    put_time(out, b"retired after", times.retired)?;
    put_time(out, b"published after", times.published)?;
    put_time(out, b"released after", times.released)?;
    put_term(out, b"statements that waited", times.waited)?;
    put_time(out, b"longest wait", times.longest)
}

/// Puts the workflow.
pub(crate) fn put_workflow(
    out: &mut Vec<u8>,
    workflow: &WorkflowFigures,
) -> Result<(), AllocError> {
    let state = workflow.state;
    put(
        out,
        b"<section id=workflow><h2>Split or merge</h2><ol class=steps>",
    )?;
    put_step(out, b"none", state == WorkflowState::None)?;
    put_step(
        out,
        b"copying and following",
        state == WorkflowState::Following,
    )?;
    put_step(out, b"cutover", state == WorkflowState::Switching)?;
    put_step(out, b"switched", state == WorkflowState::Switched)?;
    put(out, b"</ol><dl>")?;
    put_term(out, b"steps that copied rows", workflow.copied)?;
    put_term(out, b"steps that followed", workflow.followed)?;
    put_term(out, b"targets with rows left to copy", workflow.copying)?;
    put_term(out, b"entries left to follow", workflow.behind)?;
    put_term(out, b"cutovers", workflow.cutovers)?;
    if let Some(times) = &workflow.cutover {
        put_cutover(out, times)?;
    }
    put(out, b"</dl></section>\n")
}

// Puts the bound of the bucket in which so many hundredths of a kind's statements are.
fn put_quantile(
    out: &mut Vec<u8>,
    totals: &Totals,
    kind: Kind,
    hundredths: u64,
) -> Result<(), AllocError> {
    put(out, b"<td>")?;
    let all = totals.statements(kind);
    let mut seen = 0u64;
    for (bucket, bound) in BOUNDS.iter().enumerate() {
        seen = seen.saturating_add(totals.of(Counter::Bucket(kind, bucket)));
        if all > 0 && seen.saturating_mul(100) >= all.saturating_mul(hundredths) {
            put(out, "≤ ".as_bytes())?;
            put_number(out, *bound)?;
            return put(out, " µs".as_bytes());
        }
    }
    if all > 0 {
        put(out, b"&gt; 10 s")
    } else {
        Ok(())
    }
}

// Puts the counts of a kind's buckets, for the script.
fn put_buckets(out: &mut Vec<u8>, totals: &Totals, kind: Kind) -> Result<(), AllocError> {
    put(out, b"<tr data-kind=")?;
    put(out, kind.name().as_bytes())?;
    put(out, b" data-buckets=\"")?;
    for bucket in 0..BUCKETS {
        if bucket > 0 {
            put(out, b",")?;
        }
        put_number(out, totals.of(Counter::Bucket(kind, bucket)))?;
    }
    put(out, b"\">")
}

// Puts the line of a kind.
fn put_kind(out: &mut Vec<u8>, totals: &Totals, kind: Kind) -> Result<(), AllocError> {
    put_buckets(out, totals, kind)?;
    put(out, b"<th scope=row>")?;
    put(out, kind.name().as_bytes())?;
    put(out, b"<td>")?;
    put_number(out, totals.statements(kind))?;
    put(out, b"<td>")?;
    put_quantile(out, totals, kind, 50)?;
    put_quantile(out, totals, kind, 99)?;
    put(out, b"<td></tr>\n")
}

/// Puts the statements by kind. The script puts the rates in, and the times of the last minute.
pub(crate) fn put_statements(out: &mut Vec<u8>, totals: &Totals) -> Result<(), AllocError> {
    put(out, STATEMENTS_HEAD)?;
    for kind in &KINDS {
        if totals.statements(*kind) > 0 {
            put_kind(out, totals, *kind)?;
        }
    }
    put(out, b"</tbody></table></div></section>\n")
}

const STATEMENTS_HEAD: &[u8] =
    b"<section><h2>Statements</h2><div class=scroll tabindex=0 role=region aria-label=\"Statements\"><table><caption>All \
since the start; a second, and the times of the last minute</caption><thead><tr><th scope=col>kind<th scope=col>all<th scope=col>a second\
<th scope=col>p50<th scope=col>p99<th scope=col>a minute</tr></thead><tbody>\n";

/// Puts how connections ended, and which refusals were sent.
pub(crate) fn put_endings(out: &mut Vec<u8>, totals: &Totals) -> Result<(), AllocError> {
    for ending in &ENDINGS {
        let count = totals.of(Counter::Ended(*ending));
        if count > 0 {
            put(out, b"<dt>ended: ")?;
            put(out, ending.name().as_bytes())?;
            put(out, b"<dd>")?;
            put_number(out, count)?;
        }
    }
    for number in 1..REFUSALS {
        let count = totals.of(Counter::Refusal(number as u8));
        if count > 0 {
            put(out, b"<dt>refused: F")?;
            put_number(out, number as u64)?;
            put(out, b"<dd>")?;
            put_number(out, count)?;
        }
    }
    Ok(())
}

/// Puts the last events, the last one first.
pub(crate) fn put_events(out: &mut Vec<u8>, events: &[Vec<u8>]) -> Result<(), AllocError> {
    put(out, EVENTS_HEAD)?;
    for event in events {
        put(out, b"<li>")?;
        put_text(out, event.as_slice())?;
        put(out, b"</li>\n")?;
    }
    if events.is_empty() {
        put(out, b"<li>none that was logged</li>")?;
    }
    put(out, b"</ol></div></section>\n")
}

const EVENTS_HEAD: &[u8] =
    b"<section><h2>Last events of the log</h2><div class=scroll tabindex=0 role=region aria-label=\"Last events of the log\"><ol class=events>\n";
