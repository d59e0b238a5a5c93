//! The lines of the admin port.
ghost use Rattle.std.specs.Prelude.{◌≡◌, ◌≢◌, ◌∷◌, ◌++◌, ℕ, List, codes, IfOk, IfSome, IfNone, IsUtf8};
ghost use Rattle.std.specs.List.{AllByRecursion};
ghost use Rattle.keyrange.specs.declared.KeyRange.{KeyRange};
ghost use Rattle.vtgate_lines.specs.Partitions.{IsListOf};
ghost use Rattle.vtgate_lines.specs.AdminLines.{single_words, IsCreate, AsksFor};

use crate::lines::bytes_after;
use crate::ranges::named_ranges;
use keyrange::KeyRange;
use std::alloc::{AllocError, Global};
use std::str;

/// What a line of the admin port asks for.
#[derive(Drop)]
pub enum AdminLine {
    /// Which shards serve, and how far a workflow is.
    Status,
    /// A workflow: shards of the second ranges take the place of those of the first.
    Create(Vec<KeyRange>, Vec<KeyRange>),
    /// The next step of the targets.
    Step,
    /// The whole cutover.
    Switch,
    /// The next step of the cutover.
    Advance,
    /// A cutover that stopped is undone or ended.
    Resume,
    /// The end of a workflow whose sources still serve.
    Cancel,
    /// The end of a workflow whose targets serve.
    Complete,
    /// None of these.
    Unknown,
}

// The ranges of which two texts have the names, with a blank between the texts.
fn two_lists(
    alloc: Global,
    text: &str,
) -> Result<Option<(Vec<KeyRange>, Vec<KeyRange>)>, AllocError>
    ensures found { IfOk result (λ o. IfSome o (λ x. (from : List ℕ) × (into : List ℕ) × (text.now ≡ from ++ 0x20 ∷ into)
        × IsListOf from x.0.items × IsListOf into x.1.items)) }
    ensures none { IfOk result (λ o. IfNone o ((from into : List ℕ) (a b : List KeyRange) → text.now ≡ from ++ 0x20 ∷ into → IsListOf from a → IsListOf into b → ⊥)) }
{
    let Some((from, into)) = text.split_once(' ') else {
        return Ok(None);
    };
    let Some(sources) = named_ranges(alloc, from)? else {
        return Ok(None);
    };
    match named_ranges(alloc, into)? {
        Some(targets) => Ok(Some((sources, targets))),
        None => Ok(None),
    }
}

fn read_create(
    alloc: Global,
    words: &[u8],
) -> Result<Option<(Vec<KeyRange>, Vec<KeyRange>)>, AllocError>
    ensures found { IfOk result (λ o. IfSome o (λ x. IsCreate words.now x.0.items x.1.items)) }
    ensures none { IfOk result (λ o. IfNone o ((sources targets : List KeyRange) → IsCreate words.now sources targets → ⊥)) }
{
    let Some(lists) = bytes_after(words, b"create ") else {
        return Ok(None);
    };
    let Ok(text) = str::from_utf8(lists) else {
        return Ok(None);
    };
    two_lists(alloc, text)
}

// What a line of one word asks for.
fn single_word(words: &[u8]) -> Option<AdminLine>
    ensures found { IfSome result (AsksFor words.now) }
    ensures none { IfNone result (AllByRecursion (λ word. words.now ≢ word) single_words) }
{
    if words == b"status".as_slice() {
        return Some(AdminLine::Status);
    }
    if words == b"step".as_slice() {
        return Some(AdminLine::Step);
    }
    if words == b"switch".as_slice() {
        return Some(AdminLine::Switch);
    }
    if words == b"advance".as_slice() {
        return Some(AdminLine::Advance);
    }
    if words == b"resume".as_slice() {
        return Some(AdminLine::Resume);
    }
    if words == b"cancel".as_slice() {
        return Some(AdminLine::Cancel);
    }
    if words == b"complete".as_slice() {
        return Some(AdminLine::Complete);
    }
    None
}

// Promise: The words of an admin line ask for exactly one thing, or are unknown
/// What the words of a line ask for. Refuses for want of memory for the ranges.
pub fn read_admin_line(alloc: Global, words: &[u8]) -> Result<AdminLine, AllocError>
    ensures ok { IfOk result (AsksFor words.now) }
{
    if let Some(line) = single_word(words) {
        return Ok(line);
    }
    match read_create(alloc, words)? {
        Some((sources, targets)) => Ok(AdminLine::Create(sources, targets)),
        None => Ok(AdminLine::Unknown),
    }
}
