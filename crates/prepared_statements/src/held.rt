//! The statements that a connection holds.
ghost use Rattle.std.specs.Prelude.{◌≡◌, ◌<◌, ℕ, length, None, Some, IfOk, IfSome};
ghost use Rattle.prepared_statements.specs.declared.held.Numbered.{Numbered as NumberedView};
ghost use Rattle.prepared_statements.specs.Holes.{no_values};
ghost use Rattle.prepared_statements.specs.Held.{found_in, newly_prepared};
ghost use Rattle.prepared_statements.specs.inner.Keeping.{IsFirst};

use crate::bytes::{number_at, only_number};
use crate::keeping::{execute, reset, take};
use crate::long_data::{LongData, LongFault};
use crate::running::{Run, run_of};
use crate::size::{MAX_SIZE, left_after};
use statement_values::ParameterType;
use std::alloc::{AllocError, AllocFailed, Global};
use std::marker::Model;
use vt_value::Items;

/// The most statements that a connection holds at once.
pub const MAX_STATEMENTS: usize = 1024;

/// The last number that a statement may have.
const MAX_NUMBER: u32 = u32::MAX;

/// A statement that was prepared: the bytes between its holes, the types that its values had last, what came before its values for each hole, and why
/// that isn't taken, if it isn't.
#[derive(Drop)]
pub struct Prepared {
    pub pieces: Items<Items<u8>>,
    pub types: Items<ParameterType>,
    pub long: LongData,
    pub fault: Option<LongFault>,
}

/// A statement that is held, and its number.
#[derive(Drop)]
pub struct Numbered {
    pub number: u32,
    pub statement: Prepared,
}

/// Why no statement is executed.
#[derive(Clone, Copy, Debug, PartialEq, Eq)]
pub enum NotExecuted {
    OutOfMemory,
    NotSupported,
    /// No statement has the number.
    Unknown,
    /// Its long data was more than there is room for.
    TooLarge,
    /// What is sent are no values of it.
    Wrong,
}

/// Why a text isn't held.
#[derive(Clone, Copy, Debug, PartialEq, Eq)]
pub enum NotHeld {
    OutOfMemory,
    TooMany,
}

impl From<AllocError> for NotHeld {
    ghost use Rattle.std.specs.Prelude.{◌≡◌};
    ghost use Rattle.prepared_statements.specs.declared.held.NotHeld.TheVariants.{OutOfMemory};

    ghost from_gives = { λ _ e. e ≡ OutOfMemory };

    fn from(_error: AllocError) -> NotHeld {
        NotHeld::OutOfMemory
    }
}

impl<T: Drop> From<AllocFailed<T>> for NotHeld {
    ghost use Rattle.std.specs.Prelude.{◌≡◌};
    ghost use Rattle.prepared_statements.specs.declared.held.NotHeld.TheVariants.{OutOfMemory};

    ghost from_gives = { λ _ e. e ≡ OutOfMemory };

    fn from(_failed: AllocFailed<T>) -> NotHeld {
        NotHeld::OutOfMemory
    }
}

impl From<AllocError> for NotExecuted {
    ghost use Rattle.std.specs.Prelude.{◌≡◌};
    ghost use Rattle.prepared_statements.specs.declared.held.NotExecuted.TheVariants.{OutOfMemory};

    ghost from_gives = { λ _ e. e ≡ OutOfMemory };

    fn from(_error: AllocError) -> NotExecuted {
        NotExecuted::OutOfMemory
    }
}

/// A text that nothing has executed.
fn newly_prepared(alloc: Global, pieces: Items<Items<u8>>) -> Result<Prepared, AllocError>
    ensures ok { IfOk result (λ held. held ≡ newly_prepared pieces (no_values pieces)) }
{
    let long = LongData::none(alloc, pieces.as_slice())?;
    Ok(Prepared {
        pieces,
        types: Items::new(alloc),
        long,
        fault: None,
    })
}

/// Where the statement of a number is.
fn place_in(statements: &[Numbered], number: u32) -> Option<usize>
    ensures some { IfSome result (λ k. (k < length statements.now) × ((s : NumberedView) × IsFirst number statements.now k s)) }
    ensures none { result ≡ None → found_in statements.now number ≡ None }
{
    for (n, held) in statements.iter().enumerate() {
        if held.number == number {
            return Some(n);
        }
    }
    None
}

/// The statements of a connection, each with its number. Contracts see them and the last number that was given.
pub struct Held {
    last: u32,
    size: usize,
    long: usize,
    statements: Vec<Numbered>,
}

impl Drop for Held {
    // Who drops one calls this, and need not know what it owns.
    fn drop(self) {
        let Held {
            last: _,
            size: _,
            long: _,
            statements,
        } = self;
        drop(statements);
    }
}

impl Model for Held {
    ghost use Rattle.prepared_statements.specs.Held.{HeldStatements};
    ghost use Rattle.prepared_statements.specs.inner.Keeping.{AreKept};

    ghost Value = { HeldStatements };

    ghost view = { λ h. record { last = h.last; statements = h.statements.items } };

    ghost invariant = { λ h. AreKept h.size h.long h.last h.statements.items };
}

impl Held {
    ghost use Rattle.std.specs.Prelude.{◌≡◌, ◌↔◌, ◌⊎◌, true, false, Err, ◌≤◌, ◌<◌, ◌^◌, ◌+◌, ◌-◌, ℕ, List, [], ◌∷◌, ◌++◌, length, option_copied, Some, None, IfOk, IfErr, IfSome, OnOk, OnErr, slice_set};
    ghost use Rattle.mysql_packet.specs.Numbers.{little_endian};
    ghost use Rattle.prepared_statements.specs.declared.held.Prepared.{Prepared as PreparedView};
    ghost use Rattle.prepared_statements.specs.declared.held.Numbered.{Numbered as NumberedView};
    ghost use Rattle.prepared_statements.specs.Held.{HeldStatements, none_held, max_statements, max_number, max_size, size_of, held_size, held_long, IsFull, held_at, held_with, held_without, newly_prepared, after_execution, after_reset, AddsHeld, RunOf, RunsHeld, UsesHeld, WasTooLarge, ClosesHeld, ResetsHeld, TakesLong, LongHeld};
    ghost use Rattle.prepared_statements.specs.Holes.{all_long, no_values};
    ghost use Rattle.prepared_statements.specs.inner.Keeping.{IsFirst};
    ghost use Rattle.statement_values.specs.declared.ParameterType.{ParameterType as KindOfValue};

    /// None.
    pub fn new(alloc: Global) -> Held
        ensures { result ≡ none_held }
    {
        Held {
            last: 0,
            size: 0,
            long: 0,
            statements: Vec::new(alloc),
        }
    }

    /// Where the statement of a number is.
    fn place_of(&self, number: u32) -> Option<usize>
        ensures some { IfSome result (λ k. (k < length self.now.statements) × ((s : NumberedView) × IsFirst number self.now.statements k s)) }
        ensures none { result ≡ None → held_at self.now number ≡ None }
    {
        place_in(self.statements.as_slice(), number)
    }

    /// How much texts would count with this one, if it may be held.
    fn size_with(&self, pieces: &[Items<u8>]) -> Option<usize>
        ensures some { IfSome result (λ size. (size ≡ held_size self.now + size_of pieces.now) × (size ≤ max_size)) }
        ensures none { result ≡ None → max_size < held_size self.now + size_of pieces.now }
    {
        let left = left_after(pieces, (MAX_SIZE + 1).saturating_sub(self.size));
        if left == 0 {
            return None;
        }
        Some(MAX_SIZE + 1 - left)
    }

    /// Whether no more statement is held, whatever its text is.
    fn has_all(&self) -> bool
        ensures { result ≡ true ↔ ((max_statements ≤ length self.now.statements) ⊎ (max_number ≤ self.now.last)) }
    {
        self.statements.len() >= MAX_STATEMENTS || self.last >= MAX_NUMBER
    }

    /// One more statement, with which texts count so much.
    fn put(&mut self, size: usize, statement: Prepared) -> Result<u32, AllocError>
        requires few { length self.old.statements < max_statements }
        requires number { self.old.last < max_number }
        requires size { size ≡ held_size self.old + size_of statement.pieces }
        requires long { all_long statement.long ≡ 0 }
        ensures ok { IfOk result (λ number. AddsHeld self.old statement number self.new) }
        ensures unknown { IfOk result (λ number. held_at self.old number ≡ None) }
        ensures err { OnErr result (self.new ≡ self.old) }
    {
        let number = self.last + 1;
        self.statements.push(Numbered { number, statement })?;
        self.last = number;
        self.size = size;
        Ok(number)
    }

    // Promise: A statement is held under a number that no statement of the connection had before. It is refused as too many exactly if 1,024 are held,
    // if their texts and its own would count more than a payload's limit, or if each number was given
    /// Holds a text that is cut at its holes, and gives its number. Refuses if as many or as much is held as may be, and for want of memory.
    pub fn add(&mut self, alloc: Global, pieces: Items<Items<u8>>) -> Result<u32, NotHeld>
        ensures ok { IfOk result (λ number. AddsHeld self.old (newly_prepared pieces (no_values pieces)) number self.new) }
        ensures unknown { IfOk result (λ number. held_at self.old number ≡ None) }
        ensures err { OnErr result (self.new ≡ self.old) }
        ensures full { IfErr result (λ e. e ≡ NotHeld.TooMany → IsFull self.old pieces) }
        ensures refused { IsFull self.old pieces → result ≡ Err NotHeld.TooMany }
    {
        if self.has_all() {
            return Err(NotHeld::TooMany);
        }
        let Some(size) = self.size_with(pieces.as_slice()) else {
            return Err(NotHeld::TooMany);
        };
        let held = newly_prepared(alloc, pieces)?;
        let number = self.put(size, held)?;
        Ok(number)
    }

    /// What bytes after a statement's number make of the statement in a place.
    fn run_at(&self, alloc: Global, place: usize, bytes: &[u8]) -> Result<Run, NotExecuted>
        requires { place < length self.now.statements }
        ensures found { IfOk result (λ run. (n : ℕ) (s : NumberedView) → IsFirst n self.now.statements place s → RunOf s.statement bytes.now run.text.items run.types) }
        ensures known { IfErr result (λ e. e ≡ NotExecuted.Unknown → ⊥) }
        ensures large { IfErr result (λ e. e ≡ NotExecuted.TooLarge → (n : ℕ) (s : NumberedView) → IsFirst n self.now.statements place s → s.statement.fault ≡ Some LongFault.TooLarge) }
        ensures refused { IfErr result (λ e. (e ≡ NotExecuted.OutOfMemory → ⊥) → (n : ℕ) (s : NumberedView) → IsFirst n self.now.statements place s
            → (text : List ℕ) (types : List KindOfValue) → RunOf s.statement bytes.now text types → ⊥) }
    {
        run_of(alloc, &self.statements[place].statement, bytes)
    }

    /// The statement in a place was executed by values of these types.
    fn execute_at(&mut self, place: usize, types: Items<ParameterType>)
        requires { place < length self.old.statements }
        ensures { (n : ℕ) (s : NumberedView) → IsFirst n self.old.statements place s → self.new ≡ held_with self.old n (after_execution s.statement types) }
    {
        let held = &mut self.statements[place].statement;
        self.long -= held.long.size();
        execute(held, types);
    }

    /// The statement in a place gives up its long data, and why that wasn't taken.
    fn reset_at(&mut self, place: usize)
        requires { place < length self.old.statements }
        ensures { (n : ℕ) (s : NumberedView) → IsFirst n self.old.statements place s → self.new ≡ held_with self.old n (after_reset s.statement) }
    {
        let held = &mut self.statements[place].statement;
        self.long -= held.long.size();
        reset(held);
    }

    /// The statement in a place takes long data.
    fn take_at(&mut self, alloc: Global, place: usize, bytes: &[u8])
        requires { place < length self.old.statements }
        ensures { (n : ℕ) (s : NumberedView) → IsFirst n self.old.statements place s
            → (then : PreparedView) × (self.new ≡ held_with self.old n then) × TakesLong (max_size - held_long self.old) s.statement bytes.now then }
    {
        let room = MAX_SIZE.saturating_sub(self.long);
        let held = &mut self.statements[place].statement;
        let others = self.long - held.long.size();
        take(alloc, held, room, bytes);
        self.long = others + held.long.size();
    }

    /// The statement in a place is given up.
    fn give_up_at(&mut self, place: usize)
        requires { place < length self.old.statements }
        ensures closes { (n : ℕ) (s : NumberedView) → IsFirst n self.old.statements place s → self.new ≡ held_without self.old n }
        ensures gone { (n : ℕ) (s : NumberedView) → IsFirst n self.old.statements place s → held_at self.new n ≡ None }
    {
        let given_up = self.statements.remove(place);
        self.size = left_after(given_up.statement.pieces.as_slice(), self.size);
        self.long -= given_up.statement.long.size();
    }

    // Promise: What executes a statement runs its text with the values that its bytes spell, each as a literal, and with the long data that came for its
    // holes; types are kept, and long data is given up, also if it is refused
    /// The text to run for these bytes of EXECUTE. Refuses if no statement has the number, if its long data wasn't taken, if the bytes aren't values of
    /// it, and for want of memory.
    pub fn execute(&mut self, alloc: Global, bytes: &[u8]) -> Result<Vec<u8>, NotExecuted>
        ensures ok { IfOk result (λ text. RunsHeld self.old bytes.now text.items self.new) }
        ensures err { OnErr result (UsesHeld self.old bytes.now self.new) }
        // Unless memory runs out, it is refused only if nothing is executed by the bytes; as unknown only if their number has no statement, and as too
        // large only if its long data was.
        ensures refused { IfErr result (λ e. (e ≡ NotExecuted.OutOfMemory → ⊥) → (text : List ℕ) (then : HeldStatements) → RunsHeld self.old bytes.now text then → ⊥) }
        ensures unknown { IfErr result (λ e. e ≡ NotExecuted.Unknown → (n : ℕ) (rest : List ℕ) (q : PreparedView) → n < 2 ^ 32
            → bytes.now ≡ little_endian 4 n ++ rest → held_at self.old n ≡ Some q → ⊥) }
        ensures large { IfErr result (λ e. e ≡ NotExecuted.TooLarge → WasTooLarge self.old bytes.now) }
    {
        let Some((number, rest)) = number_at(bytes) else {
            return Err(NotExecuted::Unknown);
        };
        let Some(place) = self.place_of(number) else {
            return Err(NotExecuted::Unknown);
        };
        match self.run_at(alloc, place, rest) {
            Ok(Run { text, types }) => {
                self.execute_at(place, types);
                Ok(text)
            }
            Err(why) => {
                self.reset_at(place);
                Err(why)
            }
        }
    }

    // Promise: Long data goes to its hole of its statement, after what came for that before, while all that is held is at most a payload's limit; if it
    // isn't taken, the statement's next execution is refused for that
    /// Takes the long data whose statement's number these bytes begin with, if one has it.
    pub fn take_long(&mut self, alloc: Global, bytes: &[u8])
        ensures { LongHeld self.old bytes.now self.new }
    {
        let Some((number, rest)) = number_at(bytes) else {
            return;
        };
        if let Some(place) = self.place_of(number) {
            self.take_at(alloc, place, rest);
        }
    }

    // Promise: A statement that is closed is given up, and no other
    /// Gives up the statement whose number these bytes are, if one has it.
    pub fn close(&mut self, bytes: &[u8])
        ensures closes { ClosesHeld self.old bytes.now self.new }
        ensures gone { (n : ℕ) → n < 2 ^ 32 → bytes.now ≡ little_endian 4 n → held_at self.new n ≡ None }
    {
        let Some(number) = only_number(bytes) else {
            return;
        };
        if let Some(place) = self.place_of(number) {
            self.give_up_at(place);
        }
    }

    // Promise: A reset gives up the long data of its statement, and why it wasn't taken
    /// Gives up the long data of the statement whose number these bytes are. Returns whether one has it.
    pub fn reset(&mut self, bytes: &[u8]) -> bool
        ensures reset { result ≡ true → ResetsHeld self.old bytes.now self.new }
        ensures unknown { result ≡ false → (then : HeldStatements) → ResetsHeld self.old bytes.now then → ⊥ }
        ensures unchanged { result ≡ false → self.new ≡ self.old }
    {
        let Some(number) = only_number(bytes) else {
            return false;
        };
        let Some(place) = self.place_of(number) else {
            return false;
        };
        self.reset_at(place);
        true
    }
}
