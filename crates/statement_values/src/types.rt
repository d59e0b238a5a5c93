//! Reads the types of values.
ghost use Rattle.std.specs.Prelude.{◌≡◌, ◌<◌, ℕ, List, ◌∷◌, length, IfOk, IfSome, MatchResult, Err, None};
ghost use Rattle.statement_values.specs.declared.ParameterType.{ParameterType};
ghost use Rattle.statement_values.specs.Values.{is_text_type, is_decimal_type, width_named, number_type, type_named};
ghost use Rattle.statement_values.specs.Executions.{TellsTypes, TellsForeign, IsRefusedSo};

use crate::unread::Unread;
use crate::{ParameterType, Width};
use std::alloc::Global;
use vt_value::Items;

fn is_text_type(named: u8) -> bool
    ensures { result ≡ is_text_type named }
{
    named == 0x0F || (0xF9 <= named && named <= 0xFE)
}

fn is_decimal_type(named: u8) -> bool
    ensures { result ≡ is_decimal_type named }
{
    named == 0x00 || named == 0xF6
}

fn width_named(named: u8) -> Option<Width>
    ensures { result ≡ width_named named }
{
    if named == 0x01 {
        Some(Width::One)
    } else if named == 0x02 {
        Some(Width::Two)
    } else if named == 0x03 || named == 0x09 {
        Some(Width::Four)
    } else if named == 0x08 {
        Some(Width::Eight)
    } else {
        None
    }
}

fn number_type(width: Option<Width>, flags: u8) -> Option<ParameterType>
    ensures { result ≡ number_type width flags }
{
    match width {
        Some(width) => Some(ParameterType::Number(width, 0x80 <= flags)),
        None => None,
    }
}

/// The type that two bytes name, if it is one that is taken.
fn type_named(named: u8, flags: u8) -> Option<ParameterType>
    ensures { result ≡ type_named named flags }
{
    if named == 0x06 {
        Some(ParameterType::Null)
    } else if is_text_type(named) {
        Some(ParameterType::Text)
    } else if named == 0x04 {
        Some(ParameterType::Single)
    } else if named == 0x05 {
        Some(ParameterType::Double)
    } else if is_decimal_type(named) {
        Some(ParameterType::Decimal)
    } else {
        number_type(width_named(named), flags)
    }
}

/// The two bytes at the front, and those after them.
fn two_bytes(bytes: &[u8]) -> Option<(u8, u8, &[u8])>
    ensures some { IfSome result (λ x. bytes.now ≡ x.0 ∷ x.1 ∷ x.2.now) }
    ensures none { result ≡ None → length bytes.now < 2 }
{
    match bytes {
        [first, second, more @ ..] => Some((*first, *second, more)),
        _ => None,
    }
}

/// So many types at the front, and the bytes after them.
pub(crate) fn read_types(
    alloc: Global,
    count: usize,
    bytes: &[u8],
) -> Result<(Items<ParameterType>, &[u8]), Unread>
    ensures found { IfOk result (λ x. TellsTypes count bytes.now x.0 x.1.now) }
    ensures only { (types : List ParameterType) (rest : List ℕ) → TellsTypes count bytes.now types rest
        → MatchResult result (λ x. (x.0 ≡ types) × (x.1.now ≡ rest)) (λ e. e ≡ Unread.OutOfMemory) }
    ensures foreign { result ≡ Err Unread.NotSupported → TellsForeign count bytes.now }
    ensures refused { TellsForeign count bytes.now → IsRefusedSo result }
{
    let mut types = Items::new(alloc);
    let mut rest = bytes;
    while types.len() < count {
        let Some((named, flags, more)) = two_bytes(rest) else {
            return Err(Unread::Wrong);
        };
        let Some(kind) = type_named(named, flags) else {
            return Err(Unread::NotSupported);
        };
        types.push(kind)?;
        rest = more;
    }
    Ok((types, rest))
}
