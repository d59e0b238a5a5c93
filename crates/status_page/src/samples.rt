//! The samples of a family.
ghost use Rattle.std.specs.Prelude.{◌≡◌, ◌++◌, flat_map, OnOk};
ghost use Rattle.status_figures.specs.Names.{range_text};
ghost use Rattle.status_page.specs.Texts.{family_text, head_text, labelled_text, plain_text};
ghost use Rattle.status_page.specs.Shards.{label_text, mode_labels, mode_text, place_labels, shard_line, shards_text};

use crate::families::Family;
use crate::texts::{put, put_label, put_number};
use itoa::Buffer;
use status_figures::{KeyRange, ShardFigures, ShardMode};
use std::alloc::{AllocError, Global};

// Puts what a family is, and of which type.
#[tactic(auto, unfolding(crate::specs::Texts::head_text))]
fn put_head_of(out: &mut Vec<u8>, name: &str, help: &str, kind: &str) -> Result<(), AllocError>
    ensures ok { OnOk result (out.new.items ≡ out.old.items ++ head_text name.now help.now kind.now) }
{
    put(out, b"# HELP ")?;
    put(out, name.as_bytes())?;
    put(out, b" ")?;
    put(out, help.as_bytes())?;
    put(out, b"\n# TYPE ")?;
    put(out, name.as_bytes())?;
    put(out, b" ")?;
    put(out, kind.as_bytes())?;
    put(out, b"\n")
}

/// Puts what a family is.
#[tactic(auto, unfolding(crate::specs::Texts::family_text))]
pub(crate) fn put_head(out: &mut Vec<u8>, family: Family) -> Result<(), AllocError>
    ensures ok { OnOk result (out.new.items ≡ out.old.items ++ family_text family) }
{
    put_head_of(out, family.name(), family.help(), family.kind())
}

/// Puts a family of one sample.
#[tactic(auto, unfolding(crate::specs::Texts::plain_text))]
pub(crate) fn put_plain(out: &mut Vec<u8>, family: Family, value: u64) -> Result<(), AllocError>
    ensures ok { OnOk result (out.new.items ≡ out.old.items ++ plain_text family value) }
{
    put_head(out, family)?;
    put(out, family.name().as_bytes())?;
    put(out, b" ")?;
    put_number(out, value)?;
    put(out, b"\n")
}

/// Puts a sample with one label.
#[tactic(auto, unfolding(crate::specs::Texts::labelled_text))]
pub(crate) fn put_labelled(
    out: &mut Vec<u8>,
    family: Family,
    label: &[u8],
    value: &[u8],
    number: u64,
) -> Result<(), AllocError>
    ensures ok { OnOk result (out.new.items ≡ out.old.items ++ labelled_text family label.now value.now number) }
{
    put(out, family.name().as_bytes())?;
    put(out, b"{")?;
    put(out, label)?;
    put(out, b"=\"")?;
    put_label(out, value)?;
    put(out, b"\"} ")?;
    put_number(out, number)?;
    put(out, b"\n")
}

/// What is shown of a shard.
#[derive(Clone, Copy)]
pub enum Measure {
    Rows,
    RowsLimit,
    Stored,
    StoredLimit,
}

impl Measure {
    ghost use Rattle.std.specs.Prelude.{◌≡◌};
    ghost use Rattle.status_page.specs.Shards.{measure_help, measure_name, measured};

    // The name of its family.
    fn name(self) -> &'static str
        ensures { result.now ≡ measure_name self }
    {
        match self {
            Measure::Rows => "peamslik_shard_rows",
            Measure::RowsLimit => "peamslik_shard_rows_limit",
            Measure::Stored => "peamslik_shard_stored_entries",
            Measure::StoredLimit => "peamslik_shard_stored_entries_limit",
        }
    }

    // What its family is.
    fn help(self) -> &'static str
        ensures { result.now ≡ measure_help self }
    {
        match self {
            Measure::Rows => "Rows of a shard.",
            Measure::RowsLimit => "How many rows a shard may have.",
            Measure::Stored => "Entries that a shard has stored in its life. Each write takes one.",
            Measure::StoredLimit => "How many entries a shard may store in its life.",
        }
    }

    // What a shard has of it.
    fn of(self, shard: &ShardFigures<'_>) -> u64
        ensures { result ≡ measured self shard.now }
    {
        match self {
            Measure::Rows => shard.rows,
            Measure::RowsLimit => shard.rows_limit,
            Measure::Stored => shard.stored,
            Measure::StoredLimit => shard.stored_limit,
        }
    }
}

/// The word for what a shard does.
pub(crate) fn mode_word(mode: ShardMode) -> &'static str
    ensures { result.now ≡ mode_text mode }
{
    match mode {
        ShardMode::Following => "following",
        ShardMode::Serving => "serving",
        ShardMode::Frozen => "frozen",
        ShardMode::Retired => "retired",
    }
}

/// Puts the name of a range.
pub(crate) fn put_range(alloc: Global, out: &mut Vec<u8>, range: KeyRange) -> Result<(), AllocError>
    ensures ok { OnOk result (out.new.items ≡ out.old.items ++ range_text range) }
{
    let name = format!(in alloc; "{range}")?;
    put(out, name.as_bytes())
}

// Puts a label, with its value.
#[tactic(auto, unfolding(crate::specs::Shards::label_text))]
fn put_pair(out: &mut Vec<u8>, name: &[u8], value: &[u8]) -> Result<(), AllocError>
    ensures ok { OnOk result (out.new.items ≡ out.old.items ++ label_text name.now value.now) }
{
    put(out, name)?;
    put(out, b"=\"")?;
    put_label(out, value)?;
    put(out, b"\"")
}

// Puts the keyspace and the range of a shard.
#[tactic(auto, unfolding(crate::specs::Shards::place_labels))]
fn put_place(alloc: Global, out: &mut Vec<u8>, shard: &ShardFigures<'_>) -> Result<(), AllocError>
    ensures ok { OnOk result (out.new.items ≡ out.old.items ++ place_labels shard.now) }
{
    let range = shard.range;
    let name = format!(in alloc; "{range}")?;
    put(out, b"{")?;
    put_pair(out, b"keyspace", shard.keyspace)?;
    put(out, b",")?;
    put_pair(out, b"range", name.as_bytes())
}

// Puts the slot and the mode of a shard.
#[tactic(auto, unfolding(crate::specs::Shards::mode_labels))]
fn put_mode(out: &mut Vec<u8>, shard: &ShardFigures<'_>) -> Result<(), AllocError>
    ensures ok { OnOk result (out.new.items ≡ out.old.items ++ mode_labels shard.now) }
{
    let mut buffer = Buffer::new();
    put(out, b",")?;
    put_pair(out, b"slot", buffer.format(shard.slot).as_bytes())?;
    put(out, b",")?;
    put_pair(out, b"mode", mode_word(shard.mode).as_bytes())?;
    put(out, b"} ")
}

// Puts the sample of a shard.
#[tactic(auto, unfolding(crate::specs::Shards::shard_line))]
fn put_shard(
    alloc: Global,
    out: &mut Vec<u8>,
    measure: Measure,
    shard: &ShardFigures<'_>,
) -> Result<(), AllocError>
    ensures ok { OnOk result (out.new.items ≡ out.old.items ++ shard_line measure shard.now) }
{
    put(out, measure.name().as_bytes())?;
    put_place(alloc, out, shard)?;
    put_mode(out, shard)?;
    put_number(out, measure.of(shard))?;
    put(out, b"\n")
}

// Puts a sample for each shard.
fn put_samples(
    alloc: Global,
    out: &mut Vec<u8>,
    measure: Measure,
    shards: &[ShardFigures<'_>],
) -> Result<(), AllocError>
    ensures ok { OnOk result (out.new.items ≡ out.old.items ++ flat_map (shard_line measure) shards.now) }
{
    for shard in shards {
        put_shard(alloc, out, measure, shard)?;
    }
    Ok(())
}

/// Puts a family that has a sample for each shard.
#[tactic(auto, unfolding(crate::specs::Shards::shards_text))]
pub(crate) fn put_shards(
    alloc: Global,
    out: &mut Vec<u8>,
    measure: Measure,
    shards: &[ShardFigures<'_>],
) -> Result<(), AllocError>
    ensures ok { OnOk result (out.new.items ≡ out.old.items ++ shards_text measure shards.now) }
{
    put_head_of(out, measure.name(), measure.help(), "gauge")?;
    put_samples(alloc, out, measure, shards)
}
