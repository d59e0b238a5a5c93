//! The statements by kind, and the histogram of their times.
ghost use Rattle.std.specs.Prelude.{◌≡◌, ◌≤◌, ◌<◌, ◌++◌, flat_map, OnOk};
ghost use Rattle.status_page.specs.Texts.{first_lines};
ghost use Rattle.status_page.specs.Metrics.{bucket_line, kind_line, kind_times, last_bucket_line, statements_text, sum_lines, times_label, times_text};

use crate::families::Family;
use crate::samples::{put_head, put_labelled};
use crate::texts::{put, put_number, put_seconds};
use status_figures::{BOUNDS, Counter, KINDS, Kind, Totals};
use std::alloc::AllocError;

// Puts the name of a sample, and its kind.
#[tactic(auto, unfolding(crate::specs::Metrics::times_label))]
fn put_kind(out: &mut Vec<u8>, suffix: &[u8], kind: Kind) -> Result<(), AllocError>
    ensures ok { OnOk result (out.new.items ≡ out.old.items ++ times_label suffix.now kind) }
{
    put(out, Family::Times.name().as_bytes())?;
    put(out, suffix)?;
    put(out, b"{kind=\"")?;
    put(out, kind.name().as_bytes())?;
    put(out, b"\"")
}

// Puts how many statements of a kind took at most the bound of a bucket.
#[tactic(auto, unfolding(crate::specs::Metrics::bucket_line))]
fn put_bucket(
    out: &mut Vec<u8>,
    totals: &Totals,
    kind: Kind,
    bucket: usize,
) -> Result<(), AllocError>
    requires { bucket < 17 }
    ensures ok { OnOk result (out.new.items ≡ out.old.items ++ bucket_line totals.now kind bucket) }
{
    put_kind(out, b"_bucket", kind)?;
    put(out, b",le=\"")?;
    put_seconds(out, BOUNDS[bucket])?;
    put(out, b"\"} ")?;
    put_number(out, totals.within(kind, bucket + 1))?;
    put(out, b"\n")
}

// Puts the buckets of a kind that have a bound.
fn put_buckets(out: &mut Vec<u8>, totals: &Totals, kind: Kind) -> Result<(), AllocError>
    ensures ok { OnOk result (out.new.items ≡ out.old.items ++ first_lines (bucket_line totals.now kind) 17) }
{
    for bucket in 0..17 {
        put_bucket(out, totals, kind, bucket)?;
    }
    Ok(())
}

// Puts the bucket of a kind that has no bound.
#[tactic(auto, unfolding(crate::specs::Metrics::last_bucket_line))]
fn put_last_bucket(out: &mut Vec<u8>, totals: &Totals, kind: Kind) -> Result<(), AllocError>
    ensures ok { OnOk result (out.new.items ≡ out.old.items ++ last_bucket_line totals.now kind) }
{
    put_kind(out, b"_bucket", kind)?;
    put(out, b",le=\"+Inf\"} ")?;
    put_number(out, totals.statements(kind))?;
    put(out, b"\n")
}

// Puts how long the statements of a kind took together, and how many there were.
#[tactic(auto, unfolding(crate::specs::Metrics::sum_lines))]
fn put_sum(out: &mut Vec<u8>, totals: &Totals, kind: Kind) -> Result<(), AllocError>
    ensures ok { OnOk result (out.new.items ≡ out.old.items ++ sum_lines totals.now kind) }
{
    put_kind(out, b"_sum", kind)?;
    put(out, b"} ")?;
    put_seconds(out, totals.of(Counter::Micros(kind)))?;
    put(out, b"\n")?;
    put_kind(out, b"_count", kind)?;
    put(out, b"} ")?;
    put_number(out, totals.statements(kind))?;
    put(out, b"\n")
}

// Puts the histogram of a kind.
#[tactic(auto, unfolding(crate::specs::Metrics::kind_times))]
fn put_kind_times(out: &mut Vec<u8>, totals: &Totals, kind: Kind) -> Result<(), AllocError>
    ensures ok { OnOk result (out.new.items ≡ out.old.items ++ kind_times totals.now kind) }
{
    put_buckets(out, totals, kind)?;
    put_last_bucket(out, totals, kind)?;
    put_sum(out, totals, kind)
}

// Puts the histograms of kinds.
fn put_all_times(out: &mut Vec<u8>, totals: &Totals, kinds: &[Kind]) -> Result<(), AllocError>
    ensures ok { OnOk result (out.new.items ≡ out.old.items ++ flat_map (kind_times totals.now) kinds.now) }
{
    for kind in kinds {
        put_kind_times(out, totals, *kind)?;
    }
    Ok(())
}

/// Puts the times of statements by kind.
#[tactic(auto, unfolding(crate::specs::Metrics::times_text))]
pub(crate) fn put_times(out: &mut Vec<u8>, totals: &Totals) -> Result<(), AllocError>
    ensures ok { OnOk result (out.new.items ≡ out.old.items ++ times_text totals.now) }
{
    put_head(out, Family::Times)?;
    put_all_times(out, totals, &KINDS)
}

// Puts how many statements of a kind there were.
#[tactic(auto, unfolding(crate::specs::Metrics::kind_line))]
fn put_kind_count(out: &mut Vec<u8>, totals: &Totals, kind: Kind) -> Result<(), AllocError>
    ensures ok { OnOk result (out.new.items ≡ out.old.items ++ kind_line totals.now kind) }
{
    let count = totals.statements(kind);
    put_labelled(
        out,
        Family::Statements,
        b"kind",
        kind.name().as_bytes(),
        count,
    )
}

// Puts how many statements of each of these kinds there were.
fn put_kind_counts(out: &mut Vec<u8>, totals: &Totals, kinds: &[Kind]) -> Result<(), AllocError>
    ensures ok { OnOk result (out.new.items ≡ out.old.items ++ flat_map (kind_line totals.now) kinds.now) }
{
    for kind in kinds {
        put_kind_count(out, totals, *kind)?;
    }
    Ok(())
}

/// Puts how many statements there were by kind.
#[tactic(auto, unfolding(crate::specs::Metrics::statements_text))]
pub(crate) fn put_statements(out: &mut Vec<u8>, totals: &Totals) -> Result<(), AllocError>
    ensures ok { OnOk result (out.new.items ≡ out.old.items ++ statements_text totals.now) }
{
    put_head(out, Family::Statements)?;
    put_kind_counts(out, totals, &KINDS)
}
