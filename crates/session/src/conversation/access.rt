//! Whom a session lets in, and what it greets its client with.
use vt_value::Items;

/// Whom a server lets in: the user's name, and SHA1(SHA1(password)), if the user has a password.
#[derive(Debug, Drop)]
pub struct Access {
    pub user: Items<u8>,
    pub stage2: Option<[u8; 20]>,
}

/// What a session greets its client with, and whom it lets in.
#[derive(Debug, Drop)]
pub struct Handshake {
    pub access: Access,
    pub salt: [u8; 20],
    pub id: u32,
}
