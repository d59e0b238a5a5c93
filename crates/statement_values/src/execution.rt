//! Reads what a client sends to execute a statement.
ghost use Rattle.std.specs.Prelude.{◌≡◌, ◌⊎◌, ◌↔◌, true, ◌+◌, ◌/◌, ◌++◌, ℕ, List, [], ◌∷◌, length, Err, Some, None, IfOk, IfErr, IfSome, IsSomeAnd, MatchResult};
ghost use Rattle.vt_value.specs.declared.value.Value.{Value};
ghost use Rattle.statement_values.specs.declared.ParameterType.{ParameterType};
ghost use Rattle.statement_values.specs.Executions.{has_bit, BindsHole, Binds, HoldTypes, Parts, PartsForeign, PartsOther, TellsForeign, HoleIsOther, HoldsOther, once, Executes, IsNotSupported, IsRefusedSo};
ghost use Rattle.statement_values.specs.inner.Refusals.{AsksCursor};

use crate::ParameterType;
use crate::reading::read_value;
use crate::types::read_types;
use crate::unread::Unread;
use std::alloc::Global;
use vt_value::{Items, Value};

/// What executes a statement: the types of its values, which are kept for the next time, and the values.
#[derive(Debug, Drop)]
pub struct Execution {
    pub types: Items<ParameterType>,
    pub values: Items<Value>,
}

/// Whether a hole's value is NULL by the bitmap.
fn has_bit(bitmap: &[u8], hole: usize) -> bool
    ensures { result ≡ has_bit bitmap.now hole }
{
    let byte = bitmap.get(hole / 8).copied().unwrap_or(0);
    let place = 1 << (hole % 8);
    byte / place % 2 == 1
}

// The value of a hole for which no long data came.
fn read_sent(
    alloc: Global,
    is_null: bool,
    kind: ParameterType,
    bytes: &[u8],
) -> Result<(Value, &[u8]), Unread>
    ensures found { IfOk result (λ x. (front : List ℕ) × (bytes.now ≡ front ++ x.1.now) × BindsHole is_null None kind front x.0) }
    ensures only { (front rest : List ℕ) (v : Value) → BindsHole is_null None kind front v → bytes.now ≡ front ++ rest
        → MatchResult result (λ x. (x.0 ≡ v) × (x.1.now ≡ rest)) (λ e. e ≡ Unread.OutOfMemory) }
    ensures other { IfErr result (λ e. e ≡ Unread.NotSupported → (front : List ℕ) × (rest : List ℕ) × (bytes.now ≡ front ++ rest) × HoleIsOther is_null None kind front) }
    ensures refused { (front rest : List ℕ) → HoleIsOther is_null None kind front → bytes.now ≡ front ++ rest → result ≡ Err Unread.NotSupported }
{
    if is_null {
        return Ok((Value::Null, bytes));
    }
    read_value(alloc, kind, bytes)
}

/// The value of a hole, and the bytes after it.
fn read_hole<'b>(
    alloc: Global,
    is_null: bool,
    long: &Option<Items<u8>>,
    kind: ParameterType,
    bytes: &'b [u8],
) -> Result<(Value, &'b [u8]), Unread>
    ensures found { IfOk result (λ x. (front : List ℕ) × (bytes.now ≡ front ++ x.1.now) × BindsHole is_null long.now kind front x.0) }
    ensures only { (front rest : List ℕ) (v : Value) → BindsHole is_null long.now kind front v → bytes.now ≡ front ++ rest
        → MatchResult result (λ x. (x.0 ≡ v) × (x.1.now ≡ rest)) (λ e. e ≡ Unread.OutOfMemory) }
    ensures other { IfErr result (λ e. e ≡ Unread.NotSupported → (front : List ℕ) × (rest : List ℕ) × (bytes.now ≡ front ++ rest) × HoleIsOther is_null long.now kind front) }
    ensures refused { (front rest : List ℕ) → HoleIsOther is_null long.now kind front → bytes.now ≡ front ++ rest → result ≡ Err Unread.NotSupported }
{
    match long {
        Some(content) => {
            let copied = Items::from_slice(alloc, content.as_slice())?;
            Ok((Value::Bytes(copied), bytes))
        }
        None => read_sent(alloc, is_null, kind, bytes),
    }
}

/// What came for the first of some holes, and its type; and those of the others.
#[derive(Clone, Copy)]
struct Hole<'a> {
    long: &'a Option<Items<u8>>,
    kind: ParameterType,
    more: &'a [Option<Items<u8>>],
    kinds: &'a [ParameterType],
}

fn first_hole<'a>(long: &'a [Option<Items<u8>>], types: &'a [ParameterType]) -> Option<Hole<'a>>
    ensures long { IfSome result (λ hole. long.now ≡ hole.long.now ∷ hole.more.now) }
    ensures types { IfSome result (λ hole. types.now ≡ hole.kind ∷ hole.kinds.now) }
    ensures none { result ≡ None → (long.now ≡ []) ⊎ (types.now ≡ []) }
{
    let [long, more @ ..] = long else {
        return None;
    };
    let [kind, kinds @ ..] = types else {
        return None;
    };
    Some(Hole {
        long,
        kind: *kind,
        more,
        kinds,
    })
}

/// Whether each hole has its value, and each byte is one's.
fn is_done(long: &[Option<Items<u8>>], types: &[ParameterType], bytes: &[u8]) -> bool
    ensures done { result ≡ true → (long.now ≡ []) × (types.now ≡ []) × (bytes.now ≡ []) }
    ensures only { (long.now ≡ []) → (types.now ≡ []) → (bytes.now ≡ []) → result ≡ true }
{
    long.is_empty() && types.is_empty() && bytes.is_empty()
}

/// The values of all holes.
fn read_holes(
    alloc: Global,
    bitmap: &[u8],
    long: &[Option<Items<u8>>],
    types: &[ParameterType],
    bytes: &[u8],
) -> Result<Items<Value>, Unread>
    ensures found { IfOk result (λ values. Binds bitmap.now 0 long.now types.now bytes.now values) }
    ensures only { (values : List Value) → Binds bitmap.now 0 long.now types.now bytes.now values
        → MatchResult result (λ x. x ≡ values) (λ e. e ≡ Unread.OutOfMemory) }
    ensures other { result ≡ Err Unread.NotSupported → HoldsOther bitmap.now 0 long.now types.now bytes.now }
    ensures refused { HoldsOther bitmap.now 0 long.now types.now bytes.now → IsRefusedSo result }
{
    let mut values = Items::new(alloc);
    let mut left = long;
    let mut kinds = types;
    let mut rest = bytes;
    while let Some(hole) = first_hole(left, kinds) {
        let is_null = has_bit(bitmap, values.len());
        let (value, after) = read_hole(alloc, is_null, hole.long, hole.kind, rest)?;
        values.push(value)?;
        left = hole.more;
        kinds = hole.kinds;
        rest = after;
    }
    if is_done(left, kinds, rest) {
        return Ok(values);
    }
    Err(Unread::Wrong)
}

/// The byte at the front, and those after it.
fn first_byte(bytes: &[u8]) -> Option<(u8, &[u8])>
    ensures some { IfSome result (λ x. bytes.now ≡ x.0 ∷ x.1.now) }
    ensures none { result ≡ None → bytes.now ≡ [] }
{
    match bytes {
        [first, more @ ..] => Some((*first, more)),
        [] => None,
    }
}

/// The types that hold, and the bytes after what tells them.
fn held_types<'b>(
    alloc: Global,
    kept: &[ParameterType],
    holes: usize,
    bytes: &'b [u8],
) -> Result<(Items<ParameterType>, &'b [u8]), Unread>
    ensures found { IfOk result (λ x. HoldTypes kept.now holes bytes.now x.0 x.1.now) }
    ensures only { (types : List ParameterType) (rest : List ℕ) → HoldTypes kept.now holes bytes.now types rest
        → MatchResult result (λ x. (x.0 ≡ types) × (x.1.now ≡ rest)) (λ e. e ≡ Unread.OutOfMemory) }
    ensures foreign { result ≡ Err Unread.NotSupported → (told : List ℕ) × (bytes.now ≡ 0x01 ∷ told) × TellsForeign holes told }
    ensures refused { (told : List ℕ) → bytes.now ≡ 0x01 ∷ told → TellsForeign holes told → IsRefusedSo result }
{
    match first_byte(bytes) {
        Some((0, rest)) => {
            let types = Items::from_slice(alloc, kept)?;
            Ok((types, rest))
        }
        Some((1, told)) => {
            let (types, rest) = read_types(alloc, holes, told)?;
            Ok((types, rest))
        }
        _ => Err(Unread::Wrong),
    }
}

/// The NULL bitmap of so many holes at the front, and the bytes after it.
fn bitmap_at(holes: usize, bytes: &[u8]) -> Option<(&[u8], &[u8])>
    ensures found { IfSome result (λ x. (bytes.now ≡ x.0.now ++ x.1.now) × (length x.0.now ≡ (holes + 7) / 8)) }
    ensures only { (bitmap told : List ℕ) → length bitmap ≡ (holes + 7) / 8 → bytes.now ≡ bitmap ++ told
        → IsSomeAnd result (λ x. (x.0.now ≡ bitmap) × (x.1.now ≡ told)) }
{
    let len = holes / 8 + if holes % 8 == 0 { 0 } else { 1 };
    if bytes.len() < len {
        return None;
    }
    Some(bytes.split_at(len))
}

/// The types and the values of holes.
fn read_parts(
    alloc: Global,
    kept: &[ParameterType],
    long: &[Option<Items<u8>>],
    bytes: &[u8],
) -> Result<Execution, Unread>
    ensures found { IfOk result (λ x. Parts kept.now long.now bytes.now x.types x.values) }
    ensures only { (types : List ParameterType) (values : List Value) → Parts kept.now long.now bytes.now types values
        → MatchResult result (λ x. (x.types ≡ types) × (x.values ≡ values)) (λ e. e ≡ Unread.OutOfMemory) }
    ensures foreign { result ≡ Err Unread.NotSupported → PartsForeign (length long.now) bytes.now ⊎ PartsOther kept.now long.now bytes.now }
    ensures refused { PartsForeign (length long.now) bytes.now → IsRefusedSo result }
    ensures other { PartsOther kept.now long.now bytes.now → IsRefusedSo result }
{
    let Some((bitmap, told)) = bitmap_at(long.len(), bytes) else {
        return Err(Unread::Wrong);
    };
    let (types, rest) = held_types(alloc, kept, long.len(), told)?;
    let values = read_holes(alloc, bitmap, long, types.as_slice(), rest)?;
    Ok(Execution { types, values })
}

/// The bytes after those that say that a statement is executed once, without a cursor.
fn after_once(bytes: &[u8]) -> Result<&[u8], Unread>
    ensures found { IfOk result (λ parts. bytes.now ≡ once ++ parts.now) }
    ensures only { (parts : List ℕ) → bytes.now ≡ once ++ parts → MatchResult result (λ x. x.now ≡ parts) (λ e. ⊥) }
    ensures cursor { result ≡ Err Unread.NotSupported ↔ AsksCursor bytes.now }
{
    match bytes {
        [0, 1, 0, 0, 0, parts @ ..] => Ok(parts),
        [cursor, ..] if *cursor != 0 => Err(Unread::NotSupported),
        _ => Err(Unread::Wrong),
    }
}

/// Whether nothing is sent, and nothing has to be.
fn is_bare(long: &[Option<Items<u8>>], parts: &[u8]) -> bool
    ensures { result ≡ true ↔ ((long.now ≡ []) × (parts.now ≡ [])) }
{
    long.is_empty() && parts.is_empty()
}

// Promise: What executes a statement has the values that its bytes spell, and bytes that spell values are taken
// Clauses: found, only
// Promise: It is refused as not supported exactly for what isn't: a cursor, a type that isn't taken, or a float that isn't a whole number in range
// Clauses: not_supported, refused
/// The types and the values by which these bytes execute a statement, for whose holes this long data came, and whose values had these types
/// the last time. Bytes that have no values are refused as `Wrong`, or as `NotSupported` if they ask for a cursor, tell a type that isn't taken, or
/// have a FLOAT or a DOUBLE that is no whole number of BIGINT, with or without a sign.
pub fn read_execution(
    alloc: Global,
    kept: &[ParameterType],
    long: &[Option<Items<u8>>],
    bytes: &[u8],
) -> Result<Execution, Unread>
    ensures found { IfOk result (λ x. Executes kept.now long.now bytes.now x.types x.values) }
    ensures not_supported { result ≡ Err Unread.NotSupported → IsNotSupported kept.now long.now bytes.now }
    // If they ask for what isn't supported, that is the refusal, unless memory runs out.
    ensures refused { IsNotSupported kept.now long.now bytes.now → IsRefusedSo result }
    ensures only { (types : List ParameterType) (values : List Value) → Executes kept.now long.now bytes.now types values
        → MatchResult result (λ x. (x.types ≡ types) × (x.values ≡ values)) (λ e. e ≡ Unread.OutOfMemory) }
{
    let parts = after_once(bytes)?;
    if is_bare(long, parts) {
        let types = Items::from_slice(alloc, kept)?;
        return Ok(Execution {
            types,
            values: Items::new(alloc),
        });
    }
    read_parts(alloc, kept, long, parts)
}
