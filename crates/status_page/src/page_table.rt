//! The table of shards on the page.
ghost use Rattle.std.specs.Prelude.{◌≡◌, ◌++◌, flat_map, OnOk};
ghost use Rattle.status_page.specs.Table.{escaped_byte, escaped_text, place_cells, range_begin, range_cell, row_begin, shard_row, share_text, state_cells, tenths_text, thousandths};

use crate::samples::mode_word;
use crate::texts::{put, put_number};
use status_figures::ShardFigures;
use std::alloc::{AllocError, Global};

// Puts a byte that doesn't mean markup.
fn put_text_byte(out: &mut Vec<u8>, byte: u8) -> Result<(), AllocError>
    ensures ok { OnOk result (out.new.items ≡ out.old.items ++ escaped_byte byte) }
{
    match byte {
        b'<' => put(out, b"&lt;"),
        b'>' => put(out, b"&gt;"),
        b'&' => put(out, b"&amp;"),
        b'"' => put(out, b"&quot;"),
        _ => put(out, &[byte]),
    }
}

/// Puts a text in which no byte means markup.
#[tactic(auto, unfolding(crate::specs::Table::escaped_text))]
pub(crate) fn put_text(out: &mut Vec<u8>, text: &[u8]) -> Result<(), AllocError>
    ensures ok { OnOk result (out.new.items ≡ out.old.items ++ escaped_text text.now) }
{
    for byte in text {
        put_text_byte(out, *byte)?;
    }
    Ok(())
}

/// Puts thousandths as a number of hundredths, with one decimal.
#[tactic(auto, unfolding(crate::specs::Table::tenths_text))]
pub(crate) fn put_tenths(out: &mut Vec<u8>, part: u64) -> Result<(), AllocError>
    ensures ok { OnOk result (out.new.items ≡ out.old.items ++ tenths_text part) }
{
    put_number(out, part / 10)?;
    put(out, b".")?;
    put_number(out, part % 10)
}

/// How many thousandths of a limit that is.
#[tactic(auto, unfolding(crate::specs::Table::thousandths))]
pub(crate) fn thousandths_of(count: u64, limit: u64) -> u64
    ensures { result ≡ thousandths count limit }
{
    if limit == 0 {
        return 1000;
    }
    let part = u128::from(count) * 1000 / u128::from(limit);
    if part >= 1000 { 1000 } else { part as u64 }
}

// Puts a count, and how much of its limit it is.
#[tactic(auto, unfolding(crate::specs::Table::share_text))]
fn put_share(out: &mut Vec<u8>, count: u64, limit: u64) -> Result<(), AllocError>
    ensures ok { OnOk result (out.new.items ≡ out.old.items ++ share_text count limit) }
{
    put(out, b"<td>")?;
    put_number(out, count)?;
    put(out, b"<td>")?;
    put_tenths(out, thousandths_of(count, limit))?;
    put(out, b" %")
}

// What a row begins with.
#[tactic(auto, unfolding(crate::specs::Table::row_begin))]
fn begin_of_row() -> &'static [u8]
    ensures { result.now ≡ row_begin }
{
    b"<tr data-slot="
}

// What is before the range in it.
#[tactic(auto, unfolding(crate::specs::Table::range_begin))]
fn begin_of_range() -> &'static [u8]
    ensures { result.now ≡ range_begin }
{
    b"><th scope=row>"
}

// Puts the range of a shard.
#[tactic(auto, unfolding(crate::specs::Table::range_cell))]
fn put_range_cell(
    alloc: Global,
    out: &mut Vec<u8>,
    shard: &ShardFigures<'_>,
) -> Result<(), AllocError>
    ensures ok { OnOk result (out.new.items ≡ out.old.items ++ range_cell shard.now) }
{
    let range = shard.range;
    let name = format!(in alloc; "{range}")?;
    put(out, begin_of_range())?;
    put(out, name.as_bytes())?;
    put(out, b"<td>")
}

// Puts which shard a row is of.
#[tactic(auto, unfolding(crate::specs::Table::place_cells))]
fn put_place(alloc: Global, out: &mut Vec<u8>, shard: &ShardFigures<'_>) -> Result<(), AllocError>
    ensures ok { OnOk result (out.new.items ≡ out.old.items ++ place_cells shard.now) }
{
    put(out, begin_of_row())?;
    put_number(out, shard.slot)?;
    put_range_cell(alloc, out, shard)?;
    put_text(out, shard.keyspace)
}

// Puts what a shard has.
#[tactic(auto, unfolding(crate::specs::Table::state_cells))]
fn put_state(out: &mut Vec<u8>, shard: &ShardFigures<'_>) -> Result<(), AllocError>
    ensures ok { OnOk result (out.new.items ≡ out.old.items ++ state_cells shard.now) }
{
    put(out, b"<td>")?;
    put_number(out, shard.slot)?;
    put(out, b"<td>")?;
    put(out, mode_word(shard.mode).as_bytes())?;
    put_share(out, shard.rows, shard.rows_limit)?;
    put_share(out, shard.stored, shard.stored_limit)?;
    put(out, b"</tr>\n")
}

// Puts the row of a shard.
#[tactic(auto, unfolding(crate::specs::Table::shard_row))]
fn put_row(alloc: Global, out: &mut Vec<u8>, shard: &ShardFigures<'_>) -> Result<(), AllocError>
    ensures ok { OnOk result (out.new.items ≡ out.old.items ++ shard_row shard.now) }
{
    put_place(alloc, out, shard)?;
    put_state(out, shard)
}

/// Puts the rows of shards, in their order.
pub(crate) fn put_rows(
    alloc: Global,
    out: &mut Vec<u8>,
    shards: &[ShardFigures<'_>],
) -> Result<(), AllocError>
    ensures ok { OnOk result (out.new.items ≡ out.old.items ++ flat_map shard_row shards.now) }
{
    for shard in shards {
        put_row(alloc, out, shard)?;
    }
    Ok(())
}
