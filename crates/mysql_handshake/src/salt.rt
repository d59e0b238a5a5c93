//! The salts of connections.
ghost use Rattle.std.specs.Prelude.{◌≡◌, map};
ghost use Rattle.mysql_handshake.specs.Salts.{printable, salt_of};

use sha1::Sha1;

/// One of the 94 bytes from `!` to `~`.
fn printable(byte: u8) -> u8
    ensures { result ≡ printable byte }
{
    33 + byte % 94
}

#[tactic(auto, using(crate::proofs::Printables::none_yet, crate::proofs::Printables::one_more, crate::proofs::Printables::all))]
fn all_printable(bytes: &[u8; 20]) -> [u8; 20]
    ensures { result ≡ map printable bytes.now }
{
    let mut all = *bytes;
    for ordinal in 0..20usize {
        all[ordinal] = printable(bytes[ordinal]);
    }
    all
}

// Promise: A connection is greeted by the salt of its number and the nonce, and its bytes are then the conversation, over any device
// With: vtgate_clients::serve_connection
/// The salt of the connection with the number: SHA-1 over the nonce and the number, as printable bytes.
pub fn salt_of(nonce: &[u8], number: u64) -> [u8; 20]
    ensures { result ≡ salt_of nonce.now number }
{
    let mut hasher = Sha1::new();
    hasher.update(nonce);
    hasher.update(&number.to_be_bytes());
    all_printable(&hasher.finalize())
}
