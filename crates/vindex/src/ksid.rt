//! A keyspace id, which borrows the key if the two are the same bytes.
ghost use Rattle.std.specs.Prelude.{◌≡◌};
ghost use Rattle.vindex.specs.Ksids.{ksid_bytes};

/// A keyspace id: the bytes that a vindex made of a key, or the key itself. Contracts see its bytes as `ksid_bytes`.
#[derive(Clone, Copy, Debug, Drop)]
pub enum Ksid<'k> {
    /// An id of 8 bytes.
    Eight([u8; 8]),
    /// An id of 16 bytes.
    Sixteen([u8; 16]),
    /// The key's own bytes.
    Key(&'k [u8]),
}

impl Ksid<'_> {
    /// The id's bytes.
    pub fn as_slice(&self) -> &[u8]
        ensures { result.now ≡ ksid_bytes self.now }
    {
        match self {
            Ksid::Eight(bytes) => bytes,
            Ksid::Sixteen(bytes) => bytes,
            Ksid::Key(bytes) => bytes,
        }
    }
}
