//! Opens sessions: gives each a number that no other has.
ghost use Rattle.std.specs.Prelude.{◌≡◌, ◌⊎◌, ◌+◌, ◌<◌, ◌≤◌, ◌^◌, [], Some, IfOk, IfErr};
ghost use Rattle.std.specs.List.{filter};
ghost use Rattle.vt_value.specs.declared.refusal.Refusal.TheVariants.{OutOfMemory, ShardFull};

use crate::law::{Law, Naming};
use crate::looking::LookingPass;
use crate::pass::Pass;
use crate::words::{Knower, Words};
use std::marker::Model;
use std::sync::Arc;
use vt_value::Refusal;

/// So many sessions are opened at most; their numbers are below it.
pub const MOST_SESSIONS: u64 = 1 << 62;

/// Opens sessions. There is one for a table, and it gives each number once, from 0 up. Contracts see it as the next
/// number.
#[derive(Drop)]
pub struct Opener<L: Law, J: Naming> {
    pub(crate) words: Arc<Words<L, J>>,
    pub(crate) seat: Knower<L>,
    pub(crate) next: u64,
}

impl<L: Law, J: Naming> Model for Opener<L, J> {
    ghost use Rattle.std.specs.Prelude.{◌≡◌, ℕ};
    ghost use Rattle.journal.specs.Held.{IsOpener};

    ghost Value = { ℕ };

    ghost view = { λ o. o.next };

    ghost invariant = { λ o. (o.seat.table_id ≡ J.table) × IsOpener o.next o.seat.me };
}

impl<L: Law, J: Naming> Opener<L, J> {
    ghost use Rattle.std.specs.Prelude.{ℕ};
    ghost use Rattle.journal.specs.Runs.{by_session};
    ghost use Rattle.journal.specs.Views.{new_pass};

    /// The number that the next session gets, which is how many were opened.
    pub fn next(&self) -> u64
        ensures number { result ≡ self.now }
        ensures most { result ≤ 2 ^ 62 }
    {
        self.next
    }

    // Promise: Of the commits that a pass has seen none is of a number that wasn't given out; of a session none that its own pass hasn't
    // seen, once the two were compared, and their statement numbers were given out
    // With: Pass::{confirm, session}
    // Clauses: unopened, same, pass, own, either, theirs, below
    /// Nothing changes. Of the commits that the pass has seen none is of a session that isn't opened yet.
    pub fn confirm(&mut self, pass: &mut Pass<L, J>)
        ensures same { self.new ≡ self.old }
        ensures pass { pass.new ≡ pass.old }
        ensures unopened { (n : ℕ) → self.old ≤ n → filter (by_session L.commit_of n) pass.old.seen ≡ [] }
    {
        self.words.compare(&mut self.seat, &mut pass.seat);
    }

    // Promise: The opener gives each session number once, to a pass that has seen what its parent had, and refuses only if the numbers
    // are used up (F24) or for want of memory
    // With: Opener::next
    /// A pass with the next session number, which has seen what `pass` has. No entry is of its session yet. It refuses
    /// `ShardFull` once 2^62 numbers are used up, and before that `OutOfMemory` if there are too many handles; then
    /// nothing has changed.
    pub fn open(&mut self, pass: &mut Pass<L, J>) -> Result<Pass<L, J>, Refusal>
        ensures parent { pass.new ≡ pass.old }
        ensures new { IfOk result (λ p. p ≡ new_pass pass.old.seen (Some self.old)) }
        ensures next { IfOk result (λ _. (self.old < 2 ^ 62) × (self.new ≡ self.old + 1)) }
        ensures fresh { IfOk result (λ p. filter (by_session L.commit_of self.old) p.seen ≡ []) }
        ensures unchanged { IfErr result (λ _. self.new ≡ self.old) }
        ensures refused { IfErr result (λ e. ((e ≡ ShardFull) × (2 ^ 62 ≤ self.old)) ⊎ ((e ≡ OutOfMemory) × (self.old < 2 ^ 62))) }
    {
        if self.next >= MOST_SESSIONS {
            return Err(Refusal::ShardFull);
        }
        let words = Arc::try_clone(&self.words)?;
        let seat = words.open(&mut self.seat, &mut pass.seat);
        let number = self.next;
        self.next = number + 1;
        Ok(Pass {
            words,
            seat,
            number: Some(number),
            statements: 0,
        })
    }
    /// That by a pass that may only look, for who opens sessions and appends nothing itself.
    pub fn open_after(&mut self, pass: &mut LookingPass<L, J>) -> Result<Pass<L, J>, Refusal>
        ensures parent { pass.new ≡ pass.old }
        ensures new { IfOk result (λ p. p ≡ new_pass pass.old.seen (Some self.old)) }
        ensures next { IfOk result (λ _. (self.old < 2 ^ 62) × (self.new ≡ self.old + 1)) }
        ensures fresh { IfOk result (λ p. filter (by_session L.commit_of self.old) p.seen ≡ []) }
        ensures unchanged { IfErr result (λ _. self.new ≡ self.old) }
        ensures refused { IfErr result (λ e. ((e ≡ ShardFull) × (2 ^ 62 ≤ self.old)) ⊎ ((e ≡ OutOfMemory) × (self.old < 2 ^ 62))) }
    {
        self.open(&mut pass.pass)
    }
}
