//! Whom a server lets in, and what its salts are made of.
ghost use Rattle.std.specs.Prelude.{◌≡◌, IfOk, IfErr};
ghost use Rattle.vtgate_clients.specs.setup.Statuses.{status_of};

use crate::setup::{FAILURE, RunFault, ServeArgs};
use session::Access;
use std::alloc::Global;
use vt_value::Items;

/// What the words ask for, and whom they let in.
#[derive(Drop)]
pub struct Admission<'w> {
    pub(crate) asked: &'w ServeArgs<'w>,
    pub(crate) access: Access,
    ghost user: { access.user ≡ asked.now.user },
    ghost stage2: { access.stage2 ≡ asked.now.stage2 },
}

impl<'w> Admission<'w> {
    /// What the words ask for.
    pub fn asked(&self) -> &'w ServeArgs<'w>
        ensures { result.now ≡ self.now.asked.now }
    {
        self.asked
    }

    /// What the salts of its greetings are made of, with the numbers of the connections.
    pub fn nonce(&self) -> &'w [u8]
        ensures { result.now ≡ self.now.asked.now.nonce }
    {
        let asked = self.asked;
        asked.nonce
    }
}

// Promise: The server lets in the user and the password of its words, and greets by their nonce
// With: serve_connection
/// The admission that the words ask for. Refuses only for want of memory.
pub fn admission_of<'w>(alloc: Global, asked: &'w ServeArgs<'w>) -> Result<Admission<'w>, RunFault>
    ensures asked { IfOk result (λ a. a.asked.now ≡ asked.now) }
    ensures fault { IfErr result (λ f. status_of f ≡ FAILURE) }
{
    match Items::from_slice(alloc, asked.user) {
        Ok(user) => Ok(Admission {
            asked,
            access: Access {
                user,
                stage2: asked.stage2,
            },
        }),
        Err(_) => Err(RunFault::Failed),
    }
}
