//! Texts that may be prepared: as they are, or since they say in other words what may be.
ghost use Rattle.std.specs.Prelude.{◌≡◌, ◌⊎◌, ℕ, List, IfOk, IfErr, negsuc};
ghost use Rattle.sql_lexer.specs.Value.TheVariants.{Int, Null};
ghost use Rattle.sql_tree.specs.declared.Statement.{Statement};
ghost use Rattle.sql_parser.specs.Grammar.{Reads};
ghost use Rattle.prepared_statements.specs.Texts.{MayBePrepared};
ghost use Rattle.client_words.specs.Aliases.{Names};
ghost use Rattle.session.specs.conversation.Prepared.{SaysStatement, SaysTried, MayBeHeld};

use client_words::{Said, said_as};
use prepared_statements::{PreparedText, cut, read_prepared, with_minus_one, with_null};
use sql_parser::parse;
use sql_tree::{Name, Statement};
use std::alloc::Global;
use vschema::VSchema;
use vt_value::{Items, Refusal};

/// A statement, and the names that a client gives its columns.
#[derive(Drop)]
struct SaidStatement {
    statement: Statement,
    names: Items<Option<Name>>,
}

/// What a text says, if that has a tree.
fn said_statement(alloc: Global, said: Said) -> Result<SaidStatement, Refusal>
    ensures found { IfOk result (λ x. Reads said.text x.statement × (x.names ≡ said.names)) }
    ensures only { (statement : Statement) → Reads said.text statement → IfErr result (λ e. e ≡ Refusal.OutOfMemory) }
    ensures err { IfErr result (λ e. (e ≡ Refusal.OutOfMemory) ⊎ (e ≡ Refusal.SyntaxError)) }
{
    let Said { text, names } = said;
    match parse(alloc, text.as_slice()) {
        Ok(statement) => return Ok(SaidStatement { statement, names }),
        Err(why) => return Err(why),
    }
}

/// The statement that a text says in other words.
fn statement_of(alloc: Global, schema: &VSchema, text: &[u8]) -> Result<SaidStatement, Refusal>
    ensures found { IfOk result (λ x. SaysStatement schema.now text.now x.statement x.names) }
    ensures err { IfErr result (λ e. (e ≡ Refusal.OutOfMemory)
        ⊎ ((e ≡ Refusal.SyntaxError) × ((statement : Statement) (names : Names) → SaysStatement schema.now text.now statement names → ⊥))) }
{
    match said_as(alloc, schema, text) {
        Ok(Some(said)) => said_statement(alloc, said),
        Ok(None) => Err(Refusal::SyntaxError),
        Err(_) => Err(Refusal::OutOfMemory),
    }
}

/// The statement that pieces say with -1 where a literal stands.
fn with_number(
    alloc: Global,
    schema: &VSchema,
    pieces: &[Items<u8>],
) -> Result<SaidStatement, Refusal>
    ensures found { IfOk result (λ x. SaysTried schema.now (Int (negsuc 0)) pieces.now x.statement x.names) }
    ensures err { IfErr result (λ e. (e ≡ Refusal.OutOfMemory)
        ⊎ ((e ≡ Refusal.SyntaxError) × ((statement : Statement) (names : Names) → SaysTried schema.now (Int (negsuc 0)) pieces.now statement names → ⊥))) }
{
    match with_minus_one(alloc, pieces) {
        Ok(text) => statement_of(alloc, schema, text.as_slice()),
        Err(why) => Err(why),
    }
}

/// The statement that pieces say with NULL where a literal stands.
fn with_nothing(
    alloc: Global,
    schema: &VSchema,
    pieces: &[Items<u8>],
) -> Result<SaidStatement, Refusal>
    ensures found { IfOk result (λ x. SaysTried schema.now Null pieces.now x.statement x.names) }
    ensures err { IfErr result (λ e. (e ≡ Refusal.OutOfMemory)
        ⊎ ((e ≡ Refusal.SyntaxError) × ((statement : Statement) (names : Names) → SaysTried schema.now Null pieces.now statement names → ⊥))) }
{
    match with_null(alloc, pieces) {
        Ok(text) => statement_of(alloc, schema, text.as_slice()),
        Err(why) => Err(why),
    }
}

/// A text that may be prepared: its pieces, the statement that it is with NULL in the holes of literals, and the names of its columns.
#[derive(Drop)]
pub(crate) struct HeldText {
    pub pieces: Items<Items<u8>>,
    pub statement: Statement,
    pub names: Items<Option<Name>>,
}

/// The pieces with what they say with NULL in their holes.
fn held_text(alloc: Global, schema: &VSchema, pieces: Items<Items<u8>>) -> Result<HeldText, Refusal>
    ensures found { IfOk result (λ x. (x.pieces ≡ pieces) × SaysTried schema.now Null pieces x.statement x.names) }
    ensures err { IfErr result (λ e. (e ≡ Refusal.OutOfMemory)
        ⊎ ((e ≡ Refusal.SyntaxError) × ((statement : Statement) (names : Names) → SaysTried schema.now Null pieces statement names → ⊥))) }
{
    match with_nothing(alloc, schema, pieces.as_slice()) {
        Ok(SaidStatement { statement, names }) => Ok(HeldText {
            pieces,
            statement,
            names,
        }),
        Err(why) => Err(why),
    }
}

/// A text that says in other words what may be prepared.
fn read_said(alloc: Global, schema: &VSchema, text: &[u8]) -> Result<HeldText, Refusal>
    requires other { (pieces : List (List ℕ)) (statement : Statement) → MayBePrepared text.now pieces statement → ⊥ }
    ensures found { IfOk result (λ x. MayBeHeld schema.now text.now x.pieces x.statement x.names) }
    ensures err { IfErr result (λ e. (e ≡ Refusal.OutOfMemory)
        ⊎ ((e ≡ Refusal.SyntaxError) × ((pieces : List (List ℕ)) (statement : Statement) (names : Names) → MayBeHeld schema.now text.now pieces statement names → ⊥))) }
{
    let pieces = match cut(alloc, text) {
        Ok(pieces) => pieces,
        Err(why) => return Err(why),
    };
    match with_number(alloc, schema, pieces.as_slice()) {
        Ok(said) => drop(said),
        Err(why) => return Err(why),
    }
    held_text(alloc, schema, pieces)
}

/// A text that may be prepared, as it is or in other words. Else it is a syntax error.
pub(crate) fn read_held(alloc: Global, schema: &VSchema, text: &[u8]) -> Result<HeldText, Refusal>
    ensures found { IfOk result (λ x. MayBeHeld schema.now text.now x.pieces x.statement x.names) }
    ensures err { IfErr result (λ e. (e ≡ Refusal.OutOfMemory)
        ⊎ ((e ≡ Refusal.SyntaxError) × ((pieces : List (List ℕ)) (statement : Statement) (names : Names) → MayBeHeld schema.now text.now pieces statement names → ⊥))) }
{
    match read_prepared(alloc, text) {
        Ok(PreparedText { pieces, statement }) => Ok(HeldText {
            pieces,
            statement,
            names: Items::new(alloc),
        }),
        Err(Refusal::SyntaxError) => read_said(alloc, schema, text),
        Err(why) => Err(why),
    }
}
