//! The key by which the values of groups are hashed.
ghost use Rattle.std.specs.Prelude.{◌≡◌};

use std::hash::{BuildHasher, DefaultHasher, RandomState};
use std::io;
use std::marker::Model;
use std::random::RandomSource;

/// A hasher that has its key already. Who doesn't know the key can't choose values with one hash. No result depends on it, so contracts see
/// nothing of it.
#[derive(Drop)]
pub struct Hashing {
    hasher: DefaultHasher,
}

impl Model for Hashing {
    ghost use Rattle.std.specs.Prelude.{⊤};

    ghost Value = { ⊤ };

    ghost view = { λ h. tt };
}

impl Hashing {
    /// The hasher whose key is 0, which everybody knows: for tests, and for a program without clients.
    pub fn known() -> Hashing {
        Hashing {
            hasher: DefaultHasher::new(),
        }
    }

    /// A hasher with a key that the system's random source gives. Fails if that does.
    pub fn random<R: RandomSource>(rt: &R) -> io::Result<Hashing> {
        let keys = RandomState::new(rt)?;
        Ok(Hashing {
            hasher: keys.build_hasher(),
        })
    }

    /// A hasher with the same key.
    pub fn copy(&self) -> Hashing
        ensures { result ≡ self.now }
    {
        Hashing {
            hasher: self.hasher,
        }
    }

    /// What a hasher begins as.
    pub fn hasher(&self) -> DefaultHasher {
        self.hasher
    }
}
