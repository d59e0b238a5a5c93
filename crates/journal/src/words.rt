//! The atomic words behind the journal. Each step here is one atomic operation, with what the rule says of it; seats, passes and the opener
//! call them.
ghost use Rattle.std.specs.Prelude.{◌≡◌, ◌<◌, ◌≤◌, ◌^◌, ◌++◌, []};
ghost use Rattle.std.specs.List.{count_by};
ghost use mathlib.Core.List.{IsPrefix};

use crate::law::{Law, Naming};
use crate::rule::{
    Append, Compare, Hold, Look, LookNote, NextSession, NextSlot, Note, Return, Rule, Sessions,
    Settle, View,
};
use atomic_table::{Seat, Table};
use std::alloc::Global;
use std::marker::PhantomData;

/// A seat at the table of words.
pub(crate) type Knower<L> = Seat<<L as Law>::Entry, View<<L as Law>::Entry>>;

/// The words that all seats of the table named by J step on.
#[derive(Drop)]
pub(crate) struct Words<L: Law, J: Naming> {
    pub(crate) table: Table<L::Entry, View<L::Entry>, (), Rule<L>, Global>,
    pub(crate) of: PhantomData<J>,
    ghost named: { table.shared.table_id ≡ J.table },
    ghost long: { table.shared.table_id.words ≡ 64 },
}

impl<L: Law, J: Naming> Words<L, J> {
    ghost use Rattle.journal.specs.Runs.{on_slot};
    ghost use Rattle.journal.specs.Rules.{noted, look_noted, seeing, hears, hears_looks, borrows, returns};
    ghost use Rattle.journal.specs.inner.Steps.{Grows};
    ghost use Rattle.journal.specs.Rules.{later_sessions, first_session, later_slots, first_slot};
    ghost use Rattle.journal.specs.Rules.{without_sessions, sessions_of, IsCovered};
    ghost use Rattle.journal.specs.inner.Steps.{settled, looked, Agrees, LooksBoth, AppendsBoth};
    ghost use Rattle.journal.specs.inner.Steps.{IsEntitled, MayPut, PutsEntry, IsPlain, NoneHeld, NoCommon};

    // Tells `to` what `from` has seen.
    pub(crate) fn tell(&self, from: &mut Knower<L>, to: &mut Knower<L>)
        requires { (from.old.table_id ≡ J.table) × (to.old.table_id ≡ J.table) }
        ensures from { (from.new.table_id ≡ from.old.table_id) × (from.new.me ≡ from.old.me) }
        ensures to { (to.new.table_id ≡ to.old.table_id) × (to.new.me ≡ (hears to.old.me.0 (noted from.old.me.0), to.old.me.1)) }
    {
        let note = self.table.shared.split_seat::<Note>(from);
        self.table.shared.join_seat::<Note>(to, note);
    }

    // Tells `to` what `from` has seen, as a look that `to` then keeps.
    pub(crate) fn tell_look(&self, from: &mut Knower<L>, to: &mut Knower<L>)
        requires { (from.old.table_id ≡ J.table) × (to.old.table_id ≡ J.table) }
        ensures from { (from.new.table_id ≡ from.old.table_id) × (from.new.me ≡ from.old.me) }
        ensures to { (to.new.table_id ≡ to.old.table_id) × (to.new.me ≡ (hears_looks to.old.me.0 (look_noted from.old.me.0), to.old.me.1)) }
    {
        let note = self.table.shared.split_seat::<LookNote>(from);
        self.table.shared.join_seat::<LookNote>(to, note);
    }

    // A load of the slot's word, by which the seat keeps the longer of what it has seen and what it was told.
    pub(crate) fn settle(&self, seat: &mut Knower<L>, slot: usize) -> u64
        requires table { seat.old.table_id ≡ J.table }
        requires slot { slot < 64 }
        ensures seat { seat.new.table_id ≡ seat.old.table_id }
        ensures seen { settled L.slot_of L.commit_of L.may_follow slot seat.old.me result seat.new.me }
    {
        self.table.shared.load::<Settle<L>>(seat, slot)
    }

    // A load of the slot's word, by which the seat sees the run as it is.
    fn see(&self, seat: &mut Knower<L>, slot: usize) -> u64
        requires table { seat.old.table_id ≡ J.table }
        requires slot { slot < 64 }
        ensures seat { seat.new.table_id ≡ seat.old.table_id }
        ensures seen { looked L.slot_of L.commit_of L.may_follow slot seat.old.me result seat.new.me }
    {
        self.table.shared.load::<Look<L>>(seat, slot)
    }

    // Both have then seen the longer of what they had seen. If the first has the right to the slot, the answer is
    // the number of entries on it.
    pub(crate) fn agree(&self, one: &mut Knower<L>, other: &mut Knower<L>, slot: usize) -> u64
        requires table { (one.old.table_id ≡ J.table) × (other.old.table_id ≡ J.table) }
        requires slot { slot < 64 }
        ensures table { (one.new.table_id ≡ J.table) × (other.new.table_id ≡ J.table) }
        ensures seen { Agrees L.slot_of L.commit_of L.may_follow one.old.me other.old.me one.new.me other.new.me }
        ensures found { (one.old.me.0.slot_from ≤ slot) × (slot < one.old.me.0.slot_end) → result ≡ count_by (on_slot L.slot_of slot) one.new.me.0.seen }
    {
        self.tell(other, one);
        let found = self.settle(one, slot);
        self.tell(one, other);
        self.settle(other, slot);
        found
    }

    // The two have no session number in common: `one` is lent the other's for one load, and no seat has a number twice.
    pub(crate) fn part(&self, one: &mut Knower<L>, other: &mut Knower<L>)
        requires table { (one.old.table_id ≡ J.table) × (other.old.table_id ≡ J.table) }
        requires plain { IsPlain one.old.me.0 × IsPlain other.old.me.0 }
        requires seen { other.old.me.0.seen ≡ one.old.me.0.seen }
        ensures table { (one.new.table_id ≡ J.table) × (other.new.table_id ≡ J.table) }
        ensures told { (one.new.me ≡ one.old.me) × (other.new.me ≡ other.old.me) × NoCommon one.old.me.0 other.old.me.0 }
    {
        let right = self.table.shared.split_seat::<Sessions>(other);
        self.table.shared.join_seat::<Hold>(one, right);
        self.settle(one, 0);
        let right = self.table.shared.split_seat::<Hold>(one);
        self.table.shared.join_seat::<Return>(other, right);
    }

    // Both have then seen the longer of what they had seen. They have no session number in common.
    pub(crate) fn meet(&self, one: &mut Knower<L>, other: &mut Knower<L>)
        requires table { (one.old.table_id ≡ J.table) × (other.old.table_id ≡ J.table) }
        requires held { NoneHeld one.old.me.0 × NoneHeld other.old.me.0 }
        ensures table { (one.new.table_id ≡ J.table) × (other.new.table_id ≡ J.table) }
        ensures seen { Agrees L.slot_of L.commit_of L.may_follow one.old.me other.old.me one.new.me other.new.me }
        ensures apart { NoCommon one.old.me.0 other.old.me.0 }
    {
        self.agree(one, other, 0);
        self.part(one, other);
    }

    // A seat with the first session number that the opener has, which has seen what the parent has.
    pub(crate) fn open(&self, opener: &mut Knower<L>, parent: &mut Knower<L>) -> Knower<L>
        requires table { (opener.old.table_id ≡ J.table) × (parent.old.table_id ≡ J.table) }
        requires left { opener.old.me.0.session_from < opener.old.me.0.session_end }
        requires blank { opener.old.me.0.seen ≡ [] }
        ensures table { (opener.new.table_id ≡ J.table) × (parent.new.table_id ≡ J.table) × (result.table_id ≡ J.table) }
        ensures opener { opener.new.me ≡ (later_sessions opener.old.me.0, opener.old.me.1) }
        ensures parent { parent.new.me ≡ parent.old.me }
        ensures seat { (result.me ≡ (seeing (first_session opener.old.me.0) parent.old.me.0.seen, [])) × Grows L.slot_of L.commit_of L.may_follow (first_session opener.old.me.0) parent.old.me.0.seen }
    {
        let mut seat = self.table.shared.split_seat::<NextSession>(opener);
        self.tell(parent, &mut seat);
        self.settle(&mut seat, 0);
        seat
    }

    // A seat with the first slot.
    pub(crate) fn deal(&self, from: &mut Knower<L>) -> Knower<L>
        requires table { from.old.table_id ≡ J.table }
        requires left { from.old.me.0.slot_from < from.old.me.0.slot_end }
        ensures table { (from.new.table_id ≡ J.table) × (result.table_id ≡ J.table) }
        ensures from { from.new.me ≡ (later_slots from.old.me.0, from.old.me.1) }
        ensures seat { result.me ≡ (first_slot from.old.me.0, []) }
    {
        self.table.shared.split_seat::<NextSlot>(from)
    }

    // A seat with no right, which has seen as much.
    pub(crate) fn note(&self, from: &mut Knower<L>) -> Knower<L>
        requires { from.old.table_id ≡ J.table }
        ensures table { (from.new.table_id ≡ J.table) × (result.table_id ≡ J.table) }
        ensures from { from.new.me ≡ from.old.me }
        ensures seat { result.me ≡ (noted from.old.me.0, []) }
    {
        self.table.shared.split_seat::<Note>(from)
    }

    // It is handed the looks of the other, which has seen as much.
    pub(crate) fn absorb(&self, seat: &mut Knower<L>, other: Knower<L>)
        requires table { (seat.old.table_id ≡ J.table) × (other.table_id ≡ J.table) }
        requires out { other.me.1 ≡ [] }
        requires seen { other.me.0.seen ≡ seat.old.me.0.seen }
        ensures table { seat.new.table_id ≡ J.table }
        ensures looks { seat.new.me ≡ (record seat.old.me.0 { told = []; looks = seat.old.me.0.looks ++ other.me.0.looks }, seat.old.me.1) }
    {
        self.table.shared.join_seat::<LookNote>(seat, other);
        self.settle(seat, 0);
    }

    // `one` is told what `other` has seen, which has no more entries that `one` has the right to, and keeps what it had seen.
    pub(crate) fn compare(&self, one: &mut Knower<L>, other: &mut Knower<L>)
        requires table { (one.old.table_id ≡ J.table) × (other.old.table_id ≡ J.table) }
        ensures table { (one.new.table_id ≡ J.table) × (other.new.table_id ≡ J.table) }
        ensures one { one.new.me ≡ (record one.old.me.0 { told = [] }, one.old.me.1) }
        ensures other { other.new.me ≡ other.old.me }
        ensures covered { IsCovered L.slot_of L.commit_of L.may_follow (hears one.old.me.0 (noted other.old.me.0)) }
    {
        self.tell(other, one);
        self.table.shared.load::<Compare<L>>(one, 0);
    }

    // Both have then seen the run as it is.
    pub(crate) fn look(&self, seat: &mut Knower<L>, pass: &mut Knower<L>, slot: usize) -> u64
        requires table { (seat.old.table_id ≡ J.table) × (pass.old.table_id ≡ J.table) }
        requires slot { slot < 64 }
        ensures table { (seat.new.table_id ≡ J.table) × (pass.new.table_id ≡ J.table) }
        ensures seen { LooksBoth L.slot_of L.commit_of L.may_follow slot seat.old.me pass.old.me result seat.new.me pass.new.me }
    {
        self.tell(pass, seat);
        let found = self.see(seat, slot);
        self.tell_look(seat, pass);
        self.settle(pass, slot);
        found
    }

    // The seat is lent the sessions of the pass.
    fn lend(&self, pass: &mut Knower<L>, seat: &mut Knower<L>)
        requires table { (pass.old.table_id ≡ J.table) × (seat.old.table_id ≡ J.table) }
        requires seen { IsPrefix pass.old.me.0.seen seat.old.me.0.seen }
        ensures pass { (pass.new.table_id ≡ J.table) × (pass.new.me ≡ (without_sessions pass.old.me.0, pass.old.me.1)) }
        ensures seat { (seat.new.table_id ≡ J.table) × (seat.new.me ≡ (borrows seat.old.me.0 (sessions_of pass.old.me.0), seat.old.me.1)) }
    {
        let right = self.table.shared.split_seat::<Sessions>(pass);
        self.table.shared.join_seat::<Sessions>(seat, right);
    }

    // The pass has its sessions back, and sees what the seat has seen.
    fn give_back(&self, seat: &mut Knower<L>, pass: &mut Knower<L>)
        requires table { (pass.old.table_id ≡ J.table) × (seat.old.table_id ≡ J.table) }
        requires seen { IsPrefix pass.old.me.0.seen seat.old.me.0.seen }
        ensures pass { (pass.new.table_id ≡ J.table) × (pass.new.me ≡ (returns pass.old.me.0 (sessions_of seat.old.me.0), pass.old.me.1)) }
        ensures seat { (seat.new.table_id ≡ J.table) × (seat.new.me ≡ (without_sessions seat.old.me.0, seat.old.me.1)) }
    {
        let right = self.table.shared.split_seat::<Sessions>(seat);
        self.table.shared.join_seat::<Return>(pass, right);
    }

    // The exchange: the entry comes next in the run, and the slot's word is one more.
    fn put(&self, seat: &mut Knower<L>, slot: usize, count: u64, entry: &L::Entry)
        requires table { seat.old.table_id ≡ J.table }
        requires slot { slot < 64 }
        requires count { (count ≡ count_by (on_slot L.slot_of slot) seat.old.me.0.seen) × (count < 2 ^ 63) }
        requires may { MayPut L.slot_of L.commit_of L.may_follow slot entry.now seat.old.me.0 }
        ensures table { seat.new.table_id ≡ J.table }
        ensures seen { PutsEntry L.slot_of L.commit_of L.may_follow entry.now seat.old.me seat.new.me }
    {
        self.table
            .shared
            .compare_exchange_with::<Append<L>>(seat, slot, count, count + 1, entry);
    }

    // The entry comes next in the run, and both have seen it. The pass lends its session to the seat for the exchange.
    pub(crate) fn append(
        &self,
        seat: &mut Knower<L>,
        pass: &mut Knower<L>,
        slot: usize,
        entry: &L::Entry,
    )
        requires table { (seat.old.table_id ≡ J.table) × (pass.old.table_id ≡ J.table) }
        requires slot { slot < 64 }
        requires count { count_by (on_slot L.slot_of slot) seat.old.me.0.seen < 2 ^ 63 }
        requires may { IsEntitled L.slot_of L.commit_of L.may_follow slot entry.now seat.old.me.0 pass.old.me.0 }
        ensures table { (seat.new.table_id ≡ J.table) × (pass.new.table_id ≡ J.table) }
        ensures seen { AppendsBoth L.slot_of L.commit_of L.may_follow entry.now seat.old.me pass.old.me seat.new.me pass.new.me }
    {
        let count = self.agree(seat, pass, slot);
        self.lend(pass, seat);
        self.put(seat, slot, count, entry);
        self.give_back(seat, pass);
    }
}
