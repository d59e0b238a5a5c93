//! What a client answers to the greeting.
ghost use Rattle.std.specs.Prelude.{◌≡◌, ◌==◌, ℕ, ◌<◌, ◌^◌, ◌++◌, ◌∷◌, [], List, Option, length, Contains, IfErr, IfOk, IfSome, IsOkAnd, IsSomeAnd, option_map, slice_index, take, IfNone};
ghost use Rattle.mysql_packet.specs.Numbers.{little_endian};
ghost use Rattle.mysql_handshake.specs.Handshakes.{is_set, answered_of, field_before, Answered, HasNoZero, IsField, IsResponse};

use vt_value::Refusal;

/// The client sends passwords in the newer form.
pub const LONG_PASSWORD: u32 = 0x1;

/// The client wants all flags of columns.
pub const LONG_FLAG: u32 = 0x4;

/// The client names a database.
pub const CONNECT_WITH_DB: u32 = 0x8;

/// The client speaks the protocol since version 4.1.
pub const PROTOCOL_41: u32 = 0x200;

/// The client knows the status flags of transactions.
pub const TRANSACTIONS: u32 = 0x2000;

/// The client answers by native passwords of 20 bytes.
pub const SECURE_CONNECTION: u32 = 0x8000;

/// The client names an authentication plugin.
pub const PLUGIN_AUTH: u32 = 0x8_0000;

/// A result set ends without an EOF packet after its definitions.
pub const DEPRECATE_EOF: u32 = 0x100_0000;

/// A client's answer to the greeting. It borrows from its payload.
#[derive(Clone, Copy, Debug)]
pub struct Response<'a> {
    pub capabilities: u32,
    pub user: &'a [u8],
    pub answer: &'a [u8],
    pub database: Option<&'a [u8]>,
    pub plugin: Option<&'a [u8]>,
}

/// Whether a capability is set.
pub fn is_set(flag: u32, capabilities: u32) -> bool
    requires { 0 < flag }
    ensures { result ≡ is_set flag capabilities }
{
    capabilities / flag % 2 == 1
}

fn zero_at(bytes: &[u8]) -> Option<usize>
    ensures within { IfSome result (λ at. at < length bytes.now) }
    ensures at { IfSome result (λ at. slice_index bytes.now at ≡ 0x00) }
    ensures first { IfSome result (λ at. HasNoZero (take at bytes.now)) }
    ensures none { IfNone result (HasNoZero bytes.now) }
{
    bytes.iter().position(|byte| *byte == 0)
}

// The text up to the first zero, and what follows the zero.
fn split_at_zero(bytes: &[u8]) -> Option<(&[u8], &[u8])>
    ensures found { IfSome result (λ x. bytes.now ≡ x.0.now ++ (0x00 ∷ x.1.now)) }
    ensures first { IfSome result (λ x. HasNoZero x.0.now) }
    ensures only { (text rest : List ℕ) → HasNoZero text → bytes.now ≡ text ++ (0x00 ∷ rest)
        → IsSomeAnd result (λ x. (x.0.now ≡ text) × (x.1.now ≡ rest)) }
{
    let at = zero_at(bytes)?;
    let (text, rest) = bytes.split_at(at);
    Some((text, &rest[1..]))
}

// So many bytes, and what follows them.
fn split(bytes: &[u8], len: usize) -> Option<(&[u8], &[u8])>
    ensures found { IfSome result (λ x. (bytes.now ≡ x.0.now ++ x.1.now) × (length x.0.now ≡ len)) }
    ensures only { (front rest : List ℕ) → bytes.now ≡ front ++ rest → length front ≡ len → IsSomeAnd result (λ x. (x.0.now ≡ front) × (x.1.now ≡ rest)) }
{
    if bytes.len() < len {
        return None;
    }
    Some(bytes.split_at(len))
}

// The number of the first four bytes, the lowest first, and what follows them.
fn split_number(bytes: &[u8]) -> Option<(u32, &[u8])>
    ensures found { IfSome result (λ x. bytes.now ≡ little_endian 4 x.0 ++ x.1.now) }
    ensures only { (n : ℕ) (rest : List ℕ) → n < 2 ^ 32 → bytes.now ≡ little_endian 4 n ++ rest → IsSomeAnd result (λ x. (x.0 ≡ n) × (x.1.now ≡ rest)) }
{
    match bytes {
        [first, second, third, fourth, rest @ ..] => {
            Some((u32::from_le_bytes([*first, *second, *third, *fourth]), rest))
        }
        _ => None,
    }
}

// The text of a field that is there or not, and what follows the field.
fn split_field(is_there: bool, bytes: &[u8]) -> Option<(Option<&[u8]>, &[u8])>
    ensures found { IfSome result (λ x. bytes.now ≡ field_before (option_map (λ t. t.now) x.0) x.1.now) }
    ensures field { IfSome result (λ x. IsField is_there (option_map (λ t. t.now) x.0)) }
    ensures only { (field : Option (List ℕ)) (rest : List ℕ) → IsField is_there field
        → bytes.now ≡ field_before field rest
        → IsSomeAnd result (λ x. (option_map (λ t. t.now) x.0 ≡ field) × (x.1.now ≡ rest)) }
{
    if !is_there {
        return Some((None, bytes));
    }
    let (text, rest) = split_at_zero(bytes)?;
    Some((Some(text), rest))
}

// The length and the bytes of a response to the salt, and what follows them.
fn split_answer(bytes: &[u8]) -> Option<(&[u8], &[u8])>
    ensures found { IfSome result (λ x. bytes.now ≡ length x.0.now ∷ (x.0.now ++ x.1.now)) }
    ensures short { IfSome result (λ x. length x.0.now < 256) }
    ensures only { (answer rest : List ℕ) → bytes.now ≡ length answer ∷ (answer ++ rest)
        → IsSomeAnd result (λ x. (x.0.now ≡ answer) × (x.1.now ≡ rest)) }
{
    let (len, rest) = bytes.split_first()?;
    split(rest, usize::from(*len))
}

#[tactic(auto, using(crate::proofs::Responses::response_found))]
fn response_in(payload: &[u8]) -> Option<Response<'_>>
    ensures found { IfSome result (λ r. IsResponse payload.now (answered_of r)) }
    ensures only { (r : Answered) → IsResponse payload.now r → IsSomeAnd result (λ x. answered_of x ≡ r) }
{
    let (capabilities, rest) = split_number(payload)?;
    if !is_set(PROTOCOL_41, capabilities) || !is_set(SECURE_CONNECTION, capabilities) {
        return None;
    }
    let (_, rest) = split(rest, 28)?;
    let (user, rest) = split_at_zero(rest)?;
    let (answer, rest) = split_answer(rest)?;
    let (database, rest) = split_field(is_set(CONNECT_WITH_DB, capabilities), rest)?;
    let (plugin, _) = split_field(is_set(PLUGIN_AUTH, capabilities), rest)?;
    Some(Response {
        capabilities,
        user,
        answer,
        database,
        plugin,
    })
}

// Promise: A client's answer to the greeting is read exactly when the payload has its layout and the needed capabilities are set, else it
// is refused
/// A client's answer to the greeting. It is refused if it has not the layout of one, or a capability that the server needs
/// isn't set.
pub fn read_response(payload: &[u8]) -> Result<Response<'_>, Refusal>
    ensures found { IfOk result (λ r. IsResponse payload.now (answered_of r)) }
    ensures only { (r : Answered) → IsResponse payload.now r → IsOkAnd result (λ x. answered_of x ≡ r) }
    ensures err { IfErr result (λ e. e ≡ Refusal.BadHandshake) }
{
    match response_in(payload) {
        Some(response) => Ok(response),
        None => Err(Refusal::BadHandshake),
    }
}
