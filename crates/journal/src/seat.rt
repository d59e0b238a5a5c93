//! The right to append to one slot. There is one seat a slot, kept under the shard's lock, so a slot has one writer.
ghost use Rattle.std.specs.Prelude.{◌≡◌, ◌<◌, ◌≤◌, ◌^◌, ◌++◌, ◌∷◌, [], Some, length, List, ℕ};
ghost use Rattle.std.specs.List.{filter};

use crate::law::{Law, Naming};
use crate::looking::LookingPass;
use crate::pass::Pass;
use crate::words::{Knower, Words};
use std::marker::Model;
use std::sync::Arc;

/// The one seat through which entries on its slot are appended. It is kept under the shard's lock. Contracts see a
/// `SeatView`: the run that it has seen, and its slot.
#[derive(Drop)]
pub struct ShardSeat<L: Law, J: Naming> {
    pub(crate) words: Arc<Words<L, J>>,
    pub(crate) seat: Knower<L>,
    pub(crate) slot: usize,
}

impl<L: Law, J: Naming> Model for ShardSeat<L, J> {
    ghost use Rattle.journal.specs.Views.{SeatView};

    ghost Value = { SeatView L.Entry };

    ghost use Rattle.std.specs.Prelude.{◌≡◌};
    ghost use Rattle.journal.specs.Held.{IsSeat, seat_view};

    ghost view = { λ s. seat_view s.slot s.seat.me };

    ghost invariant = { λ s. (s.seat.table_id ≡ J.table) × IsSeat L.may_follow s.slot s.seat.me };
}

impl<L: Law, J: Naming> ShardSeat<L, J> {
    ghost use Rattle.journal.specs.Runs.{IsLegal, on_slot};
    ghost use Rattle.journal.specs.Views.{IsLater};

    // Promise: A seat returns its slot; what it has seen is legal
    /// Its slot, from 0 on. What it has seen is legal.
    pub fn slot(&self) -> usize
        ensures slot { result ≡ self.now.slot }
        ensures below { result < 64 }
        ensures legal { IsLegal L.may_follow self.now.seen }
    {
        self.slot
    }

    // Promise: After a look seat and pass have seen one legal run, which begins with what either had seen and has no more entries on the
    // slot or of the session; the count is that of the slot; the look is kept, with its slot and the run's length
    /// Seat and pass see the run as it is, and the pass keeps the look. The answer is the number of the run's entries
    /// on the slot.
    pub fn look(&mut self, pass: &mut Pass<L, J>) -> u64
        ensures seen { IsLater L.slot_of L.commit_of L.may_follow self.old pass.old self.new.seen }
        ensures count { result ≡ length (filter (on_slot L.slot_of self.old.slot) self.new.seen) }
        ensures seat { self.new ≡ record self.old { seen = self.new.seen } }
        ensures pass { pass.new ≡ record pass.old { seen = self.new.seen; looks = pass.old.looks ++ (self.old.slot, length self.new.seen) ∷ [] } }
    {
        self.words.look(&mut self.seat, &mut pass.seat, self.slot)
    }

    /// That by a pass that may only look.
    pub fn look_for(&mut self, pass: &mut LookingPass<L, J>) -> u64
        ensures seen { IsLater L.slot_of L.commit_of L.may_follow self.old pass.old self.new.seen }
        ensures count { result ≡ length (filter (on_slot L.slot_of self.old.slot) self.new.seen) }
        ensures seat { self.new ≡ record self.old { seen = self.new.seen } }
        ensures pass { pass.new ≡ record pass.old { seen = self.new.seen; looks = pass.old.looks ++ (self.old.slot, length self.new.seen) ∷ [] } }
    {
        self.look(&mut pass.pass)
    }

    // Promise: An append adds exactly its entry, after any such run, if the entry is lawful
    /// Adds the entry to the run, and this entry alone; seat and pass have then seen the run up to it. A commit is of
    /// the pass's session, and has a number that the pass has given out. The entry is lawful after any legal run that
    /// begins with what was seen and has no more entries on the slot or of the session.
    pub fn append(&mut self, pass: &mut Pass<L, J>, entry: &L::Entry)
        requires slot { L.slot_of entry.now ≡ self.old.slot }
        requires session { (c : ℕ × ℕ) → L.commit_of entry.now ≡ Some c → (pass.old.session ≡ Some c.0) × (c.1 ≤ pass.old.statements) }
        requires room { length (filter (on_slot L.slot_of self.old.slot) self.old.seen) < 2 ^ 63 }
        requires lawful { (run : List L.Entry) → IsLater L.slot_of L.commit_of L.may_follow self.old pass.old run → L.may_follow run entry.now }
        ensures seen { (run : List L.Entry) × IsLater L.slot_of L.commit_of L.may_follow self.old pass.old run × (self.new.seen ≡ run ++ entry.now ∷ []) }
        ensures legal { IsLegal L.may_follow self.new.seen }
        ensures seat { self.new ≡ record self.old { seen = self.new.seen } }
        ensures pass { pass.new ≡ record pass.old { seen = self.new.seen } }
    {
        self.words
            .append(&mut self.seat, &mut pass.seat, self.slot, entry);
    }
}
