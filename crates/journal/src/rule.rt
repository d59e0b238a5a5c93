//! The rule of the shared words: what each step may do to them, and what it tells the seat that takes it. These types are in proofs alone;
//! they are what the kit's table of atomic words is proved with.
use crate::law::Law;
use atomic_table::{Join, Play, Split, TableRule};
use std::collections::LinkedList;
use std::marker::PhantomData;

/// What a seat at the table knows. No value of it is made: it is in the proofs alone.
pub struct View<E> {
    pub seen: LinkedList<E>,
    // A prefix of the run, which another seat has seen.
    pub told: LinkedList<E>,
    pub looks: LinkedList<(u64, u64)>,
    // The slots and the sessions whose entries only this seat appends.
    pub slot_from: u64,
    pub slot_end: u64,
    pub session_from: u64,
    pub session_end: u64,
    // Sessions that another seat lends besides those.
    pub held_from: u64,
    pub held_end: u64,
}

/// The rule of the words: there is one legal run, which each word counts on its slot and each view begins.
pub struct Rule<L> {
    law: PhantomData<L>,
}

impl<L: Law> TableRule<L::Entry, View<L::Entry>, ()> for Rule<L> {
    ghost use Rattle.journal.specs.Rules.{HasRun, opening_view};

    ghost holds = { λ _. HasRun L.slot_of L.commit_of L.may_follow };

    ghost first = { λ _. opening_view };
}

/// A load that sees the run.
pub struct Look<L> {
    law: PhantomData<L>,
}

impl<L: Law> Play<L::Entry, View<L::Entry>> for Look<L> {
    ghost use Rattle.journal.specs.Rules.{Looks};

    ghost then = { Looks L.slot_of L.commit_of L.may_follow };
}

/// A load that keeps the longer of what was seen and what was told.
pub struct Settle<L> {
    law: PhantomData<L>,
}

impl<L: Law> Play<L::Entry, View<L::Entry>> for Settle<L> {
    ghost use Rattle.journal.specs.Rules.{Settles};

    ghost then = { Settles L.slot_of L.commit_of L.may_follow };
}

/// A load that compares what was told with what was seen, and keeps what was seen.
pub struct Compare<L> {
    law: PhantomData<L>,
}

impl<L: Law> Play<L::Entry, View<L::Entry>> for Compare<L> {
    ghost use Rattle.journal.specs.Rules.{Compares};

    ghost then = { Compares L.slot_of L.commit_of L.may_follow };
}

/// The exchange that appends an entry.
pub struct Append<L> {
    law: PhantomData<L>,
}

impl<L: Law> Play<L::Entry, View<L::Entry>> for Append<L> {
    ghost use Rattle.journal.specs.Rules.{Appends};

    ghost then = { Appends L.slot_of L.commit_of L.may_follow };
}

/// A seat with no right, which has seen as much.
pub struct Note;

impl<E> Split<View<E>> for Note {
    ghost use Rattle.journal.specs.Rules.{noted};

    ghost left = { λ v. v };

    ghost right = { noted };
}

/// Told what another seat has seen.
impl<E> Join<View<E>> for Note {
    ghost use Rattle.journal.specs.Rules.{hears, knower};
    ghost use Rattle.std.specs.Prelude.{[]};

    ghost both = { hears };

    ghost spent = { knower [] [] };
}

/// A note that counts as a look.
pub struct LookNote;

impl<E> Split<View<E>> for LookNote {
    ghost use Rattle.journal.specs.Rules.{look_noted};

    ghost left = { λ v. v };

    ghost right = { look_noted };
}

/// Told what another seat has seen, and handed its looks.
impl<E> Join<View<E>> for LookNote {
    ghost use Rattle.journal.specs.Rules.{hears_looks, knower};
    ghost use Rattle.std.specs.Prelude.{[]};

    ghost both = { hears_looks };

    ghost spent = { knower [] [] };
}

/// The rights to sessions, lent and given back.
pub struct Sessions;

impl<E> Split<View<E>> for Sessions {
    ghost use Rattle.journal.specs.Rules.{without_sessions, sessions_of};

    ghost left = { without_sessions };

    ghost right = { sessions_of };
}

impl<E> Join<View<E>> for Sessions {
    ghost use Rattle.journal.specs.Rules.{borrows, knower};
    ghost use Rattle.std.specs.Prelude.{[]};

    ghost both = { borrows };

    ghost spent = { knower [] [] };
}

/// The right to another's sessions, besides its own.
pub struct Hold;

impl<E> Join<View<E>> for Hold {
    ghost use Rattle.journal.specs.Rules.{holding, knower};
    ghost use Rattle.std.specs.Prelude.{[]};

    ghost both = { holding };

    ghost spent = { knower [] [] };
}

impl<E> Split<View<E>> for Hold {
    ghost use Rattle.journal.specs.Rules.{without_held, held_of};

    ghost left = { without_held };

    ghost right = { held_of };
}

/// The way back.
pub struct Return;

impl<E> Join<View<E>> for Return {
    ghost use Rattle.journal.specs.Rules.{returns, knower};
    ghost use Rattle.std.specs.Prelude.{[]};

    ghost both = { returns };

    ghost spent = { knower [] [] };
}

/// The first session number.
pub struct NextSession;

impl<E> Split<View<E>> for NextSession {
    ghost use Rattle.journal.specs.Rules.{later_sessions, first_session};

    ghost left = { later_sessions };

    ghost right = { first_session };
}

/// The first slot.
pub struct NextSlot;

impl<E> Split<View<E>> for NextSlot {
    ghost use Rattle.journal.specs.Rules.{later_slots, first_slot};

    ghost left = { later_slots };

    ghost right = { first_slot };
}
