//! What one session has seen of the run. Passes meet where threads exchange what they have seen, and each commit is numbered by its pass.
ghost use Rattle.std.specs.Prelude.{ℕ, Some, ◌≡◌, ◌≢◌, ◌⊎◌, ◌+◌, ◌++◌, [], None, IfOk, IfErr, ◌≤◌, ◌<◌, ◌^◌};
ghost use Rattle.vt_value.specs.declared.refusal.Refusal.TheVariants.{ShardFull};

use crate::law::{Law, Naming};
use crate::looking::LookingPass;
use crate::words::{Knower, Words};
use std::alloc::AllocError;
use std::marker::Model;
use std::sync::Arc;
use vt_value::Refusal;

/// So many statements of a session are numbered at most.
pub const MOST_STATEMENTS: u64 = 1 << 62;

/// What one session, or one worker of it, has seen of the run, with the looks that it made: each look's slot, and how
/// long the run was then. Contracts see a `PassView`.
#[derive(Drop)]
pub struct Pass<L: Law, J: Naming> {
    pub(crate) words: Arc<Words<L, J>>,
    pub(crate) seat: Knower<L>,
    pub(crate) number: Option<u64>,
    pub(crate) statements: u64,
}

impl<L: Law, J: Naming> Model for Pass<L, J> {
    ghost use Rattle.journal.specs.Views.{PassView};

    ghost Value = { PassView L.Entry };

    ghost use Rattle.std.specs.Prelude.{◌≡◌};
    ghost use Rattle.journal.specs.Held.{IsPass, pass_view};

    ghost view = { λ p. pass_view p.number p.statements p.seat.me };

    ghost invariant = { λ p. (p.seat.table_id ≡ J.table) × IsPass L.commit_of L.may_follow p.number p.statements p.seat.me };
}

impl<L: Law, J: Naming> Pass<L, J> {
    ghost use Rattle.std.specs.List.{filter};
    ghost use mathlib.Core.List.{IsPrefix};
    ghost use Rattle.journal.specs.Runs.{IsLegal, NumbersBelow, by_session};
    ghost use Rattle.journal.specs.Views.{IsLonger, new_pass};

    /// The number of its session; none if it was split off or came first. What it has seen is legal, and the commits
    /// of its session there have numbers that it has given out.
    pub fn session(&self) -> Option<u64>
        ensures number { result ≡ self.now.session }
        ensures legal { IsLegal L.may_follow self.now.seen }
        ensures below { (n : ℕ) → self.now.session ≡ Some n → NumbersBelow L.commit_of n (self.now.statements + 1) self.now.seen }
    {
        self.number
    }

    /// How many statements of its session were numbered.
    pub fn statements(&self) -> u64
        ensures { result ≡ self.now.statements }
    {
        self.statements
    }

    // Promise: A pass numbers its session's statements from 1, each above all commits of the session that it has seen, which is legal
    // With: Pass::session
    // Clauses: number, counted, above, legal, full, unchanged
    /// The number of the session's next statement, from 1 on. It is above those of all commits of its session that the
    /// pass has seen. It refuses `ShardFull` once 2^62 statements were numbered; then nothing has changed.
    pub fn next_statement(&mut self) -> Result<u64, Refusal>
        ensures number { IfOk result (λ n. (n ≡ self.old.statements + 1) × (n ≤ 2 ^ 62)) }
        ensures counted { IfOk result (λ n. self.new ≡ record self.old { statements = n }) }
        ensures above { IfOk result (λ k. (n : ℕ) → self.old.session ≡ Some n → NumbersBelow L.commit_of n k self.old.seen) }
        ensures legal { IsLegal L.may_follow self.new.seen }
        ensures full { IfErr result (λ e. (e ≡ ShardFull) × (2 ^ 62 ≤ self.old.statements)) }
        ensures unchanged { IfErr result (λ _. self.new ≡ self.old) }
    {
        if self.statements >= MOST_STATEMENTS {
            return Err(Refusal::ShardFull);
        }
        self.statements += 1;
        Ok(self.statements)
    }

    // Promise: A pass that is split off has seen as much and has no number; passes that met have seen the longer of what they had seen; a
    // pass that joined another has its looks too; no two passes have one session number
    // With: Pass::{meet, join}
    /// A pass without a session number or looks, which has seen as much and may only look: a worker's, to be joined
    /// back. It refuses only if there are too many handles.
    pub fn split(&mut self) -> Result<LookingPass<L, J>, AllocError>
        ensures same { self.new ≡ self.old }
        ensures new { IfOk result (λ p. p ≡ new_pass self.old.seen None) }
    {
        let words = Arc::try_clone(&self.words)?;
        let seat = words.note(&mut self.seat);
        Ok(LookingPass {
            pass: Pass {
                words,
                seat,
                number: None,
                statements: 0,
            },
        })
    }

    /// Both have then seen the longer of what they had seen, in which neither finds a new commit of its session. They
    /// are of two sessions, if of any.
    pub fn meet(&mut self, other: &mut Pass<L, J>)
        ensures seen { IsLonger L.slot_of L.commit_of L.may_follow self.old other.old self.new.seen }
        ensures mine { self.new ≡ record self.old { seen = self.new.seen } }
        ensures theirs { other.new ≡ record other.old { seen = self.new.seen } }
        ensures apart { (n : ℕ) → self.old.session ≡ Some n → other.old.session ≢ Some n }
    {
        self.words.meet(&mut self.seat, &mut other.seat);
    }

    /// Nothing changes. Of what the two have seen one begins the other, and the other has seen no commit of its session
    /// that it hasn't.
    pub fn confirm(&mut self, other: &mut Pass<L, J>)
        ensures same { self.new ≡ self.old }
        ensures theirs { other.new ≡ other.old }
        ensures either { (IsPrefix self.old.seen other.old.seen) ⊎ (IsPrefix other.old.seen self.old.seen) }
        ensures own { (n : ℕ) → self.old.session ≡ Some n → IsPrefix self.old.seen other.old.seen → filter (by_session L.commit_of n) other.old.seen ≡ filter (by_session L.commit_of n) self.old.seen }
    {
        self.words.compare(&mut self.seat, &mut other.seat);
    }

    // It has then seen the longer of what both had seen, and has the looks of both, its own first.
    fn take_in(&mut self, other: Pass<L, J>)
        ensures seen { IsLonger L.slot_of L.commit_of L.may_follow self.old other self.new.seen }
        ensures mine { self.new ≡ record self.old { seen = self.new.seen; looks = self.old.looks ++ other.looks } }
        ensures apart { (n : ℕ) → self.old.session ≡ Some n → other.session ≢ Some n }
    {
        let Pass {
            words: _,
            mut seat,
            number: _,
            statements: _,
        } = other;
        self.words.meet(&mut self.seat, &mut seat);
        self.words.absorb(&mut self.seat, seat);
    }

    /// It has then seen the longer of what both had seen, and has the looks of both, its own first.
    pub fn join(&mut self, other: LookingPass<L, J>)
        ensures seen { IsLonger L.slot_of L.commit_of L.may_follow self.old other self.new.seen }
        ensures mine { self.new ≡ record self.old { seen = self.new.seen; looks = self.old.looks ++ other.looks } }
        ensures apart { (n : ℕ) → self.old.session ≡ Some n → other.session ≢ Some n }
    {
        let LookingPass { pass } = other;
        self.take_in(pass);
    }
}
