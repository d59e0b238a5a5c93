//! A pass that may only look: what a worker gets of its session's pass.
use crate::law::{Law, Naming};
use crate::pass::Pass;
use std::marker::Model;

/// A pass that was split off, by which nobody appends: no call takes it that does. Contracts see a `PassView`.
#[derive(Drop)]
pub struct LookingPass<L: Law, J: Naming> {
    pub(crate) pass: Pass<L, J>,
}

impl<L: Law, J: Naming> Model for LookingPass<L, J> {
    ghost use Rattle.journal.specs.Views.{PassView};

    ghost Value = { PassView L.Entry };

    ghost view = { λ p. p.pass };
}
