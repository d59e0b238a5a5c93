//! A new journal. Its seats, its opener and its first pass are handed out once, under a name of their own, so that those of two journals
//! are never mixed.
ghost use Rattle.std.specs.Prelude.{◌≡◌, [], None, IfOk, IfErr, OnOk};
ghost use Rattle.vt_value.specs.declared.refusal.Refusal.TheVariants.{OutOfMemory};

use crate::law::{Law, Naming};
use crate::opener::Opener;
use crate::pass::Pass;
use crate::rule::{Rule, View};
use crate::seat::ShardSeat;
use crate::words::{Knower, Words};
use atomic_table::Table;
use std::alloc::{AllocError, Global};
use std::marker::{Model, PhantomData};
use std::sync::Arc;
use vt_value::Refusal;

/// How many slots a table has.
pub const SLOTS: usize = 64;

/// A table of words with an empty run, which has no name yet. Contracts see it as its identity, by which a call picks
/// the name.
#[derive(Drop)]
pub struct Opened<L: Law> {
    table: Table<L::Entry, View<L::Entry>, (), Rule<L>, Global>,
    seat: Knower<L>,
}

impl<L: Law> Model for Opened<L> {
    ghost use Rattle.std.specs.Prelude.{◌≡◌, []};
    ghost use Rattle.atomic_table.specs.Seated.{TableId, table_id_coded};
    ghost use Rattle.journal.specs.Rules.{opening_view};

    ghost Value = { TableId };

    ghost coded = { table_id_coded };

    ghost view = { λ o. o.table.shared.table_id };

    ghost invariant = { λ o. (o.table.shared.table_id.words ≡ 64) × (o.seat.table_id ≡ o.table.shared.table_id) × (o.seat.me ≡ (opening_view, [])) };
}

impl<L: Law> Opened<L> {
    ghost use Rattle.journal.specs.inner.Steps.{dealing_view};
    ghost use Rattle.journal.specs.Views.{new_pass, fresh_seats};

    // Promise: A new table of words has an empty run, a seat for each of its 64 slots, and one opener
    // With: Opened::named
    /// Opens a table, each word 0. It refuses `OutOfMemory` if no block is given.
    pub fn new(alloc: Global) -> Result<Opened<L>, Refusal>
        ensures refused { IfErr result (λ e. e ≡ OutOfMemory) }
    {
        let (table, seat) = Table::of_words(alloc, &[0; 64], &())?;
        Ok(Opened { table, seat })
    }

    // The seats of the slots in order, each with its slot from the seat that has all of them.
    fn dealt<J: Naming>(
        alloc: Global,
        words: &Arc<Words<L, J>>,
        from: &mut Knower<L>,
    ) -> Result<Vec<ShardSeat<L, J>>, AllocError>
        requires table { from.old.table_id ≡ J.table }
        requires all { from.old.me ≡ (dealing_view 0, []) }
        ensures table { from.new.table_id ≡ J.table }
        ensures none { OnOk result (from.new.me ≡ (dealing_view 64, [])) }
        ensures seats { IfOk result (λ seats. seats.items ≡ fresh_seats 64) }
    {
        let mut seats = Vec::with_capacity(alloc, SLOTS)?;
        for slot in 0..SLOTS {
            let words = Arc::try_clone(words)?;
            let seat = words.deal(from);
            seats.push(ShardSeat { words, seat, slot })?;
        }
        Ok(seats)
    }

    /// The seats of the slots in order, the opener, which gives number 0 first, and a first pass without a session
    /// number, all under the table's name. It refuses only if no block is given.
    pub fn named<J: Naming>(
        self,
        alloc: Global,
    ) -> Result<(Vec<ShardSeat<L, J>>, Opener<L, J>, Pass<L, J>), AllocError>
        requires name { self ≡ J.table }
        ensures seats { IfOk result (λ r. r.0.items ≡ fresh_seats 64) }
        ensures opener { IfOk result (λ r. r.1 ≡ 0) }
        ensures pass { IfOk result (λ r. r.2 ≡ new_pass [] None) }
    {
        let Opened { table, mut seat } = self;
        let words = Arc::new(
            alloc,
            Words {
                table,
                of: PhantomData,
            },
        )?;
        let seats = Self::dealt(alloc, &words, &mut seat)?;
        let own = Arc::try_clone(&words)?;
        let first = own.note(&mut seat);
        let pass = Pass {
            words: own,
            seat: first,
            number: None,
            statements: 0,
        };
        let opener = Opener {
            words,
            seat,
            next: 0,
        };
        Ok((seats, opener, pass))
    }
}
