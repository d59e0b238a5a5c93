//! The words of `vtgate serve`.
ghost use Rattle.std.specs.Prelude.{◌≡◌, ◌<◌, ◌≤◌, ◌^◌, ℕ, List, [], ◌∷◌, length, map, codes, Some, None, IfSome, IfNone, bytes_eq};
ghost use Rattle.std.specs.Fmt.{decimal};
ghost use Rattle.hex.specs.Hex.{IsBytes, encode_lower};
ghost use Rattle.vtgate_clients.specs.setup.ServeArgs.{ServeArgsView, IsServeCommand, stage2_text};

use crate::setup::word::Word;
use hex::{decode_to_slice, encode_to_slice};
use itoa::Buffer;
use std::marker::Model;

/// What the words ask for: the words of the shards and of the two ports, how many workers there are, how many statements may wait in
/// the buffer, after how many connections it ends (0 stands for 2^32 - 1), whom it lets in, and what its salts are made of.
#[derive(Drop)]
pub struct ServeArgs<'w> {
    pub shards: &'w str,
    pub address: &'w str,
    pub admin: &'w str,
    pub workers: u32,
    pub buffer: u32,
    pub connections: u32,
    pub user: &'w [u8],
    pub stage2: Option<[u8; 20]>,
    pub nonce: &'w [u8],
}

impl<'w> Model for ServeArgs<'w> {
    ghost use Rattle.vtgate_clients.specs.setup.ServeArgs.{ServeArgsView};

    ghost Value = { ServeArgsView };

    ghost view = { λ a. record { shards = a.shards.now; address = a.address.now; admin = a.admin.now; workers = a.workers; buffer = a.buffer; connections = a.connections; user = a.user.now; stage2 = a.stage2; nonce = a.nonce.now } };
}

/// The number that a text writes in decimal digits without leading zeros.
fn read_number(text: &str) -> Option<u32>
    ensures found { IfSome result (λ n. text.now ≡ decimal n) }
    ensures below { IfSome result (λ n. n < 2 ^ 32) }
    ensures none { IfNone result ((n : ℕ) → n < 2 ^ 32 → text.now ≡ decimal n → ⊥) }
{
    let Ok(number) = text.parse::<u32>() else {
        return None;
    };
    let mut buffer = Buffer::new();
    if buffer.format(number).as_bytes() == text.as_bytes() {
        Some(number)
    } else {
        None
    }
}

fn read_between(text: &str, most: u32) -> Option<u32>
    ensures found { IfSome result (λ n. (text.now ≡ decimal n) × (1 ≤ n) × (n ≤ most)) }
    ensures none { IfNone result ((n : ℕ) → 1 ≤ n → n ≤ most → text.now ≡ decimal n → ⊥) }
{
    let number = read_number(text)?;
    if number < 1 {
        return None;
    }
    if number > most {
        return None;
    }
    Some(number)
}

/// The 20 bytes that 40 lower-case hexadecimal digits spell.
fn read_digest(text: &[u8]) -> Option<[u8; 20]>
    ensures found { IfSome result (λ bytes. text.now ≡ encode_lower bytes) }
    ensures bytes { IfSome result (λ bytes. IsBytes bytes × (length bytes ≡ 20)) }
    ensures none { IfNone result ((bytes : List ℕ) → IsBytes bytes → length bytes ≡ 20 → text.now ≡ encode_lower bytes → ⊥) }
{
    let mut bytes = [0u8; 20];
    let Ok(()) = decode_to_slice(text, &mut bytes) else {
        return None;
    };
    let mut digits = [0u8; 40];
    let _ = encode_to_slice(&bytes, &mut digits).unwrap();
    if digits.as_slice() == text {
        Some(bytes)
    } else {
        None
    }
}

/// What the server knows of the password: nothing if there is none.
fn read_stage2(text: &[u8]) -> Option<Option<[u8; 20]>>
    ensures found { IfSome result (λ stage2. text.now ≡ stage2_text stage2) }
    ensures bytes { IfSome result (λ stage2. IfSome stage2 (λ bytes. IsBytes bytes × (length bytes ≡ 20))) }
    ensures none { IfNone result ((stage2 : _) → IfSome stage2 (λ bytes. IsBytes bytes × (length bytes ≡ 20)) → text.now ≡ stage2_text stage2 → ⊥) }
{
    if text == b"-".as_slice() {
        return Some(None);
    }
    Some(Some(read_digest(text)?))
}

fn is_serve(text: &str) -> bool
    ensures { result ≡ bytes_eq text.now (codes "serve") }
{
    text.as_bytes() == b"serve".as_slice()
}

// Promise: Words ask `serve` for something exactly when they write it
/// What the words ask for, if they are the words of `serve`.
pub fn read_words(words: &[Word]) -> Option<ServeArgs<'_>>
    ensures found { IfSome result (λ a. IsServeCommand words.now a) }
    ensures none { IfNone result ((a : ServeArgsView) → IsServeCommand words.now a → ⊥) }
{
    let [
        word,
        shards,
        address,
        admin,
        workers,
        buffer,
        connections,
        user,
        stage2,
        nonce,
    ] = words
    else {
        return None;
    };
    if !is_serve(word.text()?) {
        return None;
    }
    let Some(workers) = read_between(workers.text()?, 32) else {
        return None;
    };
    let Some(buffer) = read_between(buffer.text()?, 1000) else {
        return None;
    };
    let Some(connections) = read_number(connections.text()?) else {
        return None;
    };
    let Some(stage2) = read_stage2(stage2.text()?.as_bytes()) else {
        return None;
    };
    Some(ServeArgs {
        shards: shards.text()?,
        address: address.text()?,
        admin: admin.text()?,
        workers,
        buffer,
        connections,
        user: user.text()?.as_bytes(),
        stage2,
        nonce: nonce.text()?.as_bytes(),
    })
}
