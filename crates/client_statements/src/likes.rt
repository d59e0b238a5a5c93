//! Names that a pattern of LIKE fits.
ghost use Rattle.std.specs.Prelude.{◌≡◌, ◌++◌, ◌<◌, suc, [], false, length, nat_lt, slice_index_or, ◌∷◌, IfOk, OnOk};
ghost use Rattle.client_statements.specs.Likes.{pieces, pattern_piece, is_any, fits_step, like_fits, is_like};
ghost use Rattle.client_statements.specs.inner.Patterns.{FitSame, IsReadAs, is_left_out, needed, needed_by};
ghost use Rattle.client_statements.specs.inner.Rows.{next_row, row_of};

use sql_tree::Name;
use std::alloc::{AllocError, Global};
use std::marker::Model;
use vt_value::Items;

/// A part of a pattern.
#[derive(Clone, Copy, Debug, PartialEq, Eq)]
pub enum Piece {
    /// `%`, any bytes.
    Any,
    /// `_`, one byte.
    One,
    /// This byte; a letter in any case.
    Byte(u8),
}

fn pattern_piece(byte: u8) -> Piece
    ensures { result ≡ pattern_piece byte }
{
    match byte {
        b'%' => Piece::Any,
        b'_' => Piece::One,
        _ => Piece::Byte(byte),
    }
}

/// Whether a byte is a `%` before another, which fits no more than that one.
fn is_left_out(byte: u8, rest: &[u8]) -> bool
    ensures { result ≡ is_left_out byte rest.now }
{
    byte == b'%' && matches!(rest, [b'%', ..])
}

/// Puts the piece of a byte that stands for itself, unless it is left out.
#[tactic(auto, using(crate::proofs::Patterns::fit_pushed))]
fn push_byte(found: &mut Vec<Piece>, byte: u8, rest: &[u8]) -> Result<(), AllocError>
    ensures { OnOk result (FitSame (found.new.items ++ pieces rest.now) (found.old.items ++ pattern_piece byte ∷ pieces rest.now)) }
{
    if !is_left_out(byte, rest) {
        found.push(pattern_piece(byte))?;
    }
    Ok(())
}

/// Puts the first part of a pattern, unless it is left out, and gives what comes after it.
fn push_piece<'s>(found: &mut Vec<Piece>, pattern: &'s [u8]) -> Result<&'s [u8], AllocError>
    ensures same { IfOk result (λ rest. FitSame (found.new.items ++ pieces rest.now) (found.old.items ++ pieces pattern.now)) }
    ensures shorter { IfOk result (λ rest. 0 < length pattern.now → length rest.now < length pattern.now) }
{
    match pattern {
        [] => Ok(pattern),
        [b'\\', byte, rest @ ..] => {
            found.push(Piece::Byte(*byte))?;
            Ok(rest)
        }
        [byte, rest @ ..] => {
            push_byte(found, *byte, rest)?;
            Ok(rest)
        }
    }
}

/// The parts of a pattern, no `%` right after another.
fn pieces(alloc: Global, pattern: &[u8]) -> Result<Vec<Piece>, AllocError>
    ensures { IfOk result (λ v. IsReadAs pattern.now v.items) }
{
    let mut found = Vec::new(alloc);
    let mut rest = pattern;
    while !rest.is_empty() {
        rest = push_piece(&mut found, rest)?;
    }
    Ok(found)
}

fn is_any(piece: Piece) -> bool
    ensures { result ≡ is_any piece }
{
    matches!(piece, Piece::Any)
}

/// Whether a piece and those after it fit a byte and those after it: by whether those after the piece fit them all, all fit
/// the bytes after the first, and those after the piece fit these.
fn step(piece: Piece, byte: u8, skipped: bool, stayed: bool, passed: bool) -> bool
    ensures { result ≡ fits_step piece byte skipped stayed passed }
{
    match piece {
        Piece::Any => skipped || stayed,
        Piece::One => passed,
        Piece::Byte(wanted) => byte.eq_ignore_ascii_case(&wanted) && passed,
    }
}

/// From whether pieces fit a text from each position on, makes whether those with one more piece before them do.
fn next_row(piece: Piece, text: &[u8], row: &mut [bool])
    requires { length row.old ≡ suc (length text.now) }
    ensures { row.new ≡ next_row piece text.now row.old }
{
    let mut at = text.len();
    let mut passed = row[at];
    row[at] = is_any(piece) && passed;
    while at > 0 {
        at -= 1;
        let skipped = row[at];
        row[at] = step(piece, text[at], skipped, row[at + 1], passed);
        passed = skipped;
    }
}

/// Whether no pieces fit a text from each position on: they fit the end alone.
fn last_row(alloc: Global, text: &[u8]) -> Result<Vec<bool>, AllocError>
    ensures { IfOk result (λ v. v.items ≡ row_of [] text.now) }
{
    let mut row = vec![in alloc; false; text.len()]?;
    row.push(true)?;
    Ok(row)
}

/// The first of a row.
fn first(row: &[bool]) -> bool
    ensures { result ≡ slice_index_or row.now 0 false }
{
    match row {
        [] => false,
        [first, ..] => *first,
    }
}

/// How many bytes a piece needs.
fn needed_by(piece: Piece) -> usize
    ensures { result ≡ needed_by piece }
{
    match piece {
        Piece::Any => 0,
        Piece::One | Piece::Byte(_) => 1,
    }
}

/// Whether pieces need more bytes than these. Looks at no more pieces than that takes.
fn need_more(pieces: &[Piece], bytes: usize) -> bool
    ensures { result ≡ nat_lt bytes (needed pieces.now) }
{
    let mut count = 0;
    for piece in pieces {
        count += needed_by(*piece);
        if count > bytes {
            return true;
        }
    }
    false
}

/// Whether pieces fit a name. If no `%` stands right after another, that takes time by the name's length alone: those that need more
/// bytes than it has don't fit, and the others are few.
fn fits(alloc: Global, pieces: &[Piece], name: &[u8]) -> Result<bool, AllocError>
    ensures { IfOk result (λ b. b ≡ like_fits pieces.now name.now) }
{
    if need_more(pieces, name.len()) {
        return Ok(false);
    }
    let mut row = last_row(alloc, name)?;
    let mut left = pieces.len();
    while left > 0 {
        left -= 1;
        next_row(pieces[left], name, row.as_mut_slice());
    }
    Ok(first(row.as_slice()))
}

/// A pattern of LIKE, read once for all names. Contracts see its text.
#[derive(Drop)]
pub struct Pattern {
    text: Name,
    pieces: Vec<Piece>,
}

impl Model for Pattern {
    ghost use Rattle.std.specs.Prelude.{ℕ, List};
    ghost use Rattle.client_statements.specs.inner.Patterns.{IsReadAs};

    ghost Value = { List ℕ };

    ghost view = { λ p. p.text };

    ghost invariant = { λ p. IsReadAs p.text p.pieces.items };
}

impl Pattern {
    /// Reads a pattern.
    pub fn new(alloc: Global, text: &[u8]) -> Result<Pattern, AllocError>
        ensures { IfOk result (λ p. p ≡ text.now) }
    {
        let pieces = pieces(alloc, text)?;
        let text = Items::from_slice(alloc, text)?;
        Ok(Pattern { text, pieces })
    }

    /// Its text.
    pub fn as_slice(&self) -> &[u8]
        ensures { result.now ≡ self.now }
    {
        self.text.as_slice()
    }

    /// Whether it fits a name.
    #[tactic(auto, unfolding(crate::specs::Likes::is_like))]
    pub fn fits(&self, alloc: Global, name: &[u8]) -> Result<bool, AllocError>
        ensures { IfOk result (λ b. b ≡ is_like self.now name.now) }
    {
        fits(alloc, self.pieces.as_slice(), name)
    }
}

// Promise: LIKE fits a name as its pattern says
/// Whether a pattern of LIKE fits a name: `%` any bytes, `_` one, a byte after a backslash itself, and letters in any case.
pub fn is_like(alloc: Global, pattern: &[u8], name: &[u8]) -> Result<bool, AllocError>
    ensures { IfOk result (λ b. b ≡ is_like pattern.now name.now) }
{
    Pattern::new(alloc, pattern)?.fits(alloc, name)
}
