//! Long data: values that come before their statement is executed, piece by piece.
ghost use Rattle.std.specs.Prelude.{◌≡◌, ◌<◌, ◌≤◌, ◌^◌, ◌++◌, ℕ, List, length, IfOk, IfErr, IfSome, IsSomeAnd, OnOk, OnErr};
ghost use Rattle.mysql_packet.specs.Numbers.{little_endian};
ghost use Rattle.prepared_statements.specs.Holes.{appended, no_long, none_each, no_values, put_long, NamesHole};

use crate::filling::first_piece;
use std::alloc::{AllocError, Global};
use std::marker::Model;
use vt_value::Items;

/// Why the long data of a statement isn't taken, by which its execution is refused.
#[derive(Clone, Copy, Debug, PartialEq, Eq)]
pub enum LongFault {
    OutOfMemory,
    /// All that a connection's statements hold would be more than a payload's limit.
    TooLarge,
    /// It is for a hole that isn't there.
    Wrong,
}

impl From<AllocError> for LongFault {
    ghost use Rattle.std.specs.Prelude.{◌≡◌};
    ghost use Rattle.prepared_statements.specs.declared.long_data.LongFault.TheVariants.{OutOfMemory};

    ghost from_gives = { λ _ e. e ≡ OutOfMemory };

    fn from(_error: AllocError) -> LongFault {
        LongFault::OutOfMemory
    }
}

/// What came for each hole of a statement, if anything. Contracts see it by holes.
pub struct LongData {
    holes: Vec<Option<Items<u8>>>,
    size: usize,
}

impl Drop for LongData {
    // Who drops one calls this, and need not know what it owns.
    fn drop(self) {
        let LongData { holes, size: _ } = self;
        drop(holes);
    }
}

impl Model for LongData {
    ghost use Rattle.std.specs.Prelude.{◌≡◌, ℕ, List, Option};
    ghost use Rattle.prepared_statements.specs.Holes.{all_long};

    ghost Value = { List (Option (List ℕ)) };

    ghost view = { λ l. l.holes.items };

    ghost invariant = { λ l. l.size ≡ all_long l.holes.items };
}

/// The number of a hole at the front, and the bytes after it.
fn hole_at(bytes: &[u8]) -> Option<(u16, &[u8])>
    ensures found { IfSome result (λ x. bytes.now ≡ little_endian 2 x.0 ++ x.1.now) }
    ensures below { IfSome result (λ x. x.0 < 2 ^ 16) }
    ensures only { (n : ℕ) (rest : List ℕ) → n < 2 ^ 16 → bytes.now ≡ little_endian 2 n ++ rest → IsSomeAnd result (λ x. (x.0 ≡ n) × (x.1.now ≡ rest)) }
{
    match bytes {
        [a, b, rest @ ..] => Some((u16::from_le_bytes([*a, *b]), rest)),
        _ => None,
    }
}

/// More data for a hole.
fn append_in(alloc: Global, hole: &mut Option<Items<u8>>, more: &[u8]) -> Result<(), AllocError>
    ensures { OnOk result (hole.new ≡ appended hole.old more.now) }
{
    let more = Items::from_slice(alloc, more)?;
    match hole {
        Some(content) => content.append(more),
        None => {
            *hole = Some(more);
            Ok(())
        }
    }
}

/// None for each of these pieces.
fn none_each(alloc: Global, pieces: &[Items<u8>]) -> Result<Vec<Option<Items<u8>>>, AllocError>
    ensures ok { IfOk result (λ none. none.items ≡ none_each pieces.now) }
{
    let mut none = Vec::new(alloc);
    let mut left = pieces;
    while let [_, more @ ..] = left {
        none.push(None)?;
        left = more;
    }
    Ok(none)
}

/// None for the holes of a text with these pieces: one after each piece but the last.
fn no_values(alloc: Global, pieces: &[Items<u8>]) -> Result<Vec<Option<Items<u8>>>, AllocError>
    ensures ok { IfOk result (λ none. none.items ≡ no_values pieces.now) }
{
    match first_piece(pieces) {
        Some((_, more)) => none_each(alloc, more),
        None => Ok(Vec::new(alloc)),
    }
}

/// Puts what these bytes say, the number of a hole and data for it, if there is so much room for that. Returns how much it is.
fn put_in(
    alloc: Global,
    holes: &mut Vec<Option<Items<u8>>>,
    room: usize,
    bytes: &[u8],
) -> Result<usize, LongFault>
    ensures ok { IfOk result (λ added. (hole : ℕ) × (more : List ℕ) × NamesHole holes.old.items bytes.now hole more × (added ≡ length more)
        × (length more ≤ room) × (holes.new.items ≡ put_long holes.old.items hole more)) }
    ensures err { OnErr result (length holes.new.items ≡ length holes.old.items) }
    ensures large { IfErr result (λ e. e ≡ LongFault.TooLarge → (hole : ℕ) × (more : List ℕ) × NamesHole holes.old.items bytes.now hole more × (room < length more)) }
    ensures wrong { IfErr result (λ e. e ≡ LongFault.Wrong → (hole : ℕ) (more : List ℕ) → NamesHole holes.old.items bytes.now hole more → ⊥) }
{
    let Some((hole, more)) = hole_at(bytes) else {
        return Err(LongFault::Wrong);
    };
    let hole = usize::from(hole);
    if hole >= holes.len() {
        return Err(LongFault::Wrong);
    }
    if more.len() > room {
        return Err(LongFault::TooLarge);
    }
    append_in(alloc, &mut holes[hole], more)?;
    Ok(more.len())
}

/// Gives up what came for these holes.
fn clear_holes(holes: &mut Vec<Option<Items<u8>>>)
    ensures { holes.new.items ≡ no_long holes.old.items }
{
    let mut hole = 0;
    while hole < holes.len() {
        holes[hole] = None;
        hole += 1;
    }
}

impl LongData {
    ghost use Rattle.std.specs.Prelude.{◌≡◌, ◌+◌, ◌<◌, ◌≤◌, ◌^◌, ℕ, List, length, IfOk, IfErr, OnOk, OnErr};
    ghost use Rattle.prepared_statements.specs.Holes.{all_long, no_long, no_values, put_long, NamesHole};

    /// None for the holes of a text of these pieces.
    pub(crate) fn none(alloc: Global, pieces: &[Items<u8>]) -> Result<LongData, AllocError>
        ensures ok { IfOk result (λ long. long ≡ no_values pieces.now) }
    {
        let holes = no_values(alloc, pieces)?;
        Ok(LongData { holes, size: 0 })
    }

    pub(crate) fn as_slice(&self) -> &[Option<Items<u8>>]
        ensures { result.now ≡ self.now }
    {
        self.holes.as_slice()
    }

    /// How many bytes came.
    pub(crate) fn size(&self) -> usize
        ensures { result ≡ all_long self.now }
    {
        self.size
    }

    /// Gives it up.
    pub(crate) fn clear(&mut self)
        ensures { self.new ≡ no_long self.old }
    {
        clear_holes(&mut self.holes);
        self.size = 0;
    }

    /// Takes what these bytes say, the number of a hole and data for it, if there is so much room for that. Else it gives up what came.
    pub(crate) fn take(&mut self, alloc: Global, room: usize, bytes: &[u8]) -> Result<(), LongFault>
        requires { all_long self.old + room < 2 ^ 64 }
        ensures ok { OnOk result ((hole : ℕ) × (more : List ℕ) × NamesHole self.old bytes.now hole more × (length more ≤ room) × (self.new ≡ put_long self.old hole more)) }
        ensures err { OnErr result (self.new ≡ no_long self.old) }
        ensures large { IfErr result (λ e. e ≡ LongFault.TooLarge → (hole : ℕ) × (more : List ℕ) × NamesHole self.old bytes.now hole more × (room < length more)) }
        ensures wrong { IfErr result (λ e. e ≡ LongFault.Wrong → (hole : ℕ) (more : List ℕ) → NamesHole self.old bytes.now hole more → ⊥) }
    {
        match put_in(alloc, &mut self.holes, room, bytes) {
            Ok(added) => {
                self.size += added;
                Ok(())
            }
            Err(why) => {
                clear_holes(&mut self.holes);
                self.size = 0;
                Err(why)
            }
        }
    }
}
