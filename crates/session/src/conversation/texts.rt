//! What a text gives its client: over the tables, in a transaction that is opened first if autocommit is off; or what it asks of the server.
ghost use Rattle.std.specs.Prelude.{List, ◌≡◌, ◌↔◌, ◌⊎◌, ℕ, true, false, Some, None, is_some, IsSome, IsNone, IfOk, IfErr, IfSome, Option, codes};
ghost use Rattle.route_engine.specs.Pendings.{IsOf};
ghost use Rattle.route_engine.specs.Answer.{Answer};
ghost use Rattle.sql_tree.specs.declared.Statement.{Statement};
ghost use Rattle.resultset.specs.declared.Outcome.{Outcome};
ghost use Rattle.client_statements.specs.declared.statement.ClientStatement.{ClientStatement};
ghost use Rattle.client_statements.specs.Asks.{Asks};
ghost use Rattle.session.specs.declared.conversation.access.Handshake.{Handshake};
ghost use Rattle.session.specs.declared.conversation.connection_state.Settings.{Settings};
ghost use Rattle.session.specs.conversation.Columns.{AreColumns};
ghost use Rattle.session.specs.conversation.Means.{Means, Shows, HasRows, context_of};
ghost use Rattle.session.specs.conversation.GivesText.{opens_one, OpensOne, RunsText, AnswersClient, GivesText, named_outcome};
ghost use Rattle.session.specs.conversation.inner.Means.{LeadsKept, GivesNoRows, IsReading, AnswersAsked, opens_read};
ghost use Rattle.session.specs.conversation.inner.Tellings.{turns_on};

use crate::conversation::client_reply::{ClientReply, ClientReplyKind, ShownSet};
use crate::conversation::columns::columns_of;
use crate::conversation::connection_state::Settings;
use crate::conversation::local_answers::{done, local_answer, refused, turns_on};
use crate::conversation::named_columns::named;
use crate::conversation::responder::Responder;
use client_statements::{ClientStatement, read};
use client_words::{Said, said_as};
use journal::Naming;
use route_engine::{Answer, Gate, Selected, ShardPass, Tx, World};
use sql_parser::parse;
use sql_tree::Statement;
use std::alloc::{AllocError, Global};
use std::sync::Wait;
use std::thread::Threads;
use vschema::VSchema;
use vt_value::Refusal;

fn result_set<'e>(
    alloc: Global,
    schema: &'e VSchema,
    selected: Selected,
) -> Result<ShownSet<'e>, AllocError>
    ensures columns { IfOk result (λ set. AreColumns schema.now selected.table selected.join selected.items selected.qualified set.columns) }
    ensures rows { IfOk result (λ set. set.rows ≡ selected.rows) }
{
    let columns = columns_of(
        alloc,
        schema,
        selected.table,
        selected.join,
        selected.items.as_slice(),
        selected.qualified.as_slice(),
    )?;
    Ok(ShownSet {
        columns,
        rows: selected.rows,
    })
}

/// An answer as a client's reply, or, if there is no memory for rows, the refusal that says so.
fn shown<'e>(alloc: Global, schema: &'e VSchema, answer: Answer) -> ClientReply<'e>
    ensures { Shows schema.now answer result ⊎ (HasRows answer × (result ≡ Outcome.Refused Refusal.OutOfMemory)) }
{
    match answer {
        Answer::Count(count) => ClientReply {
            reply_kind: ClientReplyKind::Count(count),
        },
        Answer::Rows(selected) => shown_rows(alloc, schema, selected),
    }
}

/// Rows as a client's reply, or the refusal. A reply without rows isn't moved with these.
#[inline(never)]
fn shown_rows<'e>(alloc: Global, schema: &'e VSchema, selected: Selected) -> ClientReply<'e>
    ensures { Shows schema.now (Answer.Rows selected) result ⊎ (result ≡ Outcome.Refused Refusal.OutOfMemory) }
{
    match result_set(alloc, schema, selected) {
        Ok(set) => ClientReply {
            reply_kind: ClientReplyKind::Rows(set),
        },
        Err(_) => ClientReply {
            reply_kind: ClientReplyKind::Refused(Refusal::OutOfMemory),
        },
    }
}

/// Whether a statement opens a transaction, if autocommit is off and none is open.
fn opens_one(statement: &Statement) -> bool
    ensures { result ≡ opens_one statement.now }
{
    matches!(
        statement,
        Statement::Select(_) | Statement::Insert(_) | Statement::Update(_) | Statement::Delete(_)
    )
}

/// The same of a text that was read; one without a tree opens none.
fn opens_read(parsed: &Result<Statement, Refusal>) -> Result<bool, Refusal>
    ensures { result ≡ opens_read parsed.now }
{
    match parsed {
        Ok(statement) => Ok(opens_one(statement)),
        Err(Refusal::OutOfMemory) => Err(Refusal::OutOfMemory),
        Err(_) => Ok(false),
    }
}

/// Whether a text is such a statement. It is read again to be run.
fn text_opens_one(alloc: Global, text: &[u8]) -> Result<bool, Refusal>
    ensures opens { IfOk result (λ opens. opens ≡ true ↔ OpensOne text.now) }
    ensures err { IfErr result (λ why. why ≡ Refusal.OutOfMemory) }
{
    let parsed = parse(alloc, text);
    let opens = opens_read(&parsed);
    drop(parsed);
    opens
}

impl<
    'e,
    W: World + Send + Sync,
    J: Naming + Send + Sync,
    G: Gate,
    R: Threads + Wait + Sync,
> Responder<'e, W, J, G, R> {
    /// What the text of a statement gives its client.
    #[inline(always)]
    fn outcome_of(
        &self,
        pass: &mut ShardPass<W, J>,
        tx: &mut Tx<W, J>,
        text: &[u8],
    ) -> ClientReply<'e>
        requires session { IsSome pass.old.session }
        requires tx { IsOf W.opening tx.old pass.old }
        ensures means { LeadsKept W.opening pass.old tx.old pass.new tx.new (λ s now. Means W.opening W.limits s text.now result now) }
        ensures tx { IsOf W.opening tx.new pass.new }
        ensures session { pass.new.session ≡ pass.old.session }
    {
        match self.engine.execute(self.rt, self.alloc, pass, tx, text) {
            Ok(reply) => {
                drop(reply.reads);
                shown(self.alloc, self.engine.schema(), reply.answer)
            }
            Err(refusal) => ClientReply {
                reply_kind: ClientReplyKind::Refused(refusal),
            },
        }
    }

    /// Runs BEGIN if none is open, or COMMIT, which give no rows.
    fn run_command(
        &self,
        pass: &mut ShardPass<W, J>,
        tx: &mut Tx<W, J>,
        command: &[u8],
    ) -> Result<(), Refusal>
        requires session { IsSome pass.old.session }
        requires tx { IsOf W.opening tx.old pass.old }
        requires no_rows { GivesNoRows command.now tx.old }
        ensures ok { IfOk result (λ _. LeadsKept W.opening pass.old tx.old pass.new tx.new (λ s now. Means W.opening W.limits s command.now (Outcome.Count 0) now)) }
        ensures err { IfErr result (λ why. LeadsKept W.opening pass.old tx.old pass.new tx.new (λ s now. Means W.opening W.limits s command.now (Outcome.Refused why) now)) }
        ensures tx { IsOf W.opening tx.new pass.new }
        ensures session { pass.new.session ≡ pass.old.session }
    {
        match self.engine.execute(self.rt, self.alloc, pass, tx, command) {
            Ok(reply) => {
                drop(reply);
                Ok(())
            }
            Err(why) => Err(why),
        }
    }

    /// What a text gives after BEGIN, or BEGIN's refusal.
    fn after_begin(
        &self,
        pass: &mut ShardPass<W, J>,
        tx: &mut Tx<W, J>,
        text: &[u8],
    ) -> ClientReply<'e>
        requires session { IsSome pass.old.session }
        requires tx { IsOf W.opening tx.old pass.old }
        requires closed { tx.old ≡ None }
        ensures runs { (handshake : Handshake) (set : Settings) → set.autocommit ≡ false → OpensOne text.now → LeadsKept W.opening pass.old tx.old pass.new tx.new
            (λ s now. RunsText (context_of W.opening handshake) (Means W.opening W.limits) set s text.now result now) }
        ensures tx { IsOf W.opening tx.new pass.new }
        ensures session { pass.new.session ≡ pass.old.session }
    {
        match self.run_command(pass, tx, b"BEGIN") {
            Ok(()) => self.outcome_of(pass, tx, text),
            Err(why) => ClientReply {
                reply_kind: ClientReplyKind::Refused(why),
            },
        }
    }

    /// What a text gives that is run over the tables while autocommit is off and no transaction is open: one is opened first, if it needs that.
    #[inline(never)]
    fn run_unopened(
        &self,
        pass: &mut ShardPass<W, J>,
        tx: &mut Tx<W, J>,
        settings: Settings,
        text: &[u8],
    ) -> ClientReply<'e>
        requires session { IsSome pass.old.session }
        requires tx { IsOf W.opening tx.old pass.old }
        requires off { settings.autocommit ≡ false }
        requires closed { tx.old ≡ None }
        ensures runs { (handshake : Handshake) → LeadsKept W.opening pass.old tx.old pass.new tx.new
            (λ s now. RunsText (context_of W.opening handshake) (Means W.opening W.limits) settings s text.now result now) }
        ensures tx { IsOf W.opening tx.new pass.new }
        ensures session { pass.new.session ≡ pass.old.session }
    {
        match text_opens_one(self.alloc, text) {
            Ok(true) => self.after_begin(pass, tx, text),
            Ok(false) => self.outcome_of(pass, tx, text),
            Err(why) => ClientReply {
                reply_kind: ClientReplyKind::Refused(why),
            },
        }
    }

    /// What a text gives that is run over the tables.
    pub(crate) fn run_text(
        &self,
        pass: &mut ShardPass<W, J>,
        tx: &mut Tx<W, J>,
        settings: Settings,
        text: &[u8],
    ) -> ClientReply<'e>
        requires session { IsSome pass.old.session }
        requires tx { IsOf W.opening tx.old pass.old }
        ensures runs { (handshake : Handshake) → LeadsKept W.opening pass.old tx.old pass.new tx.new
            (λ s now. RunsText (context_of W.opening handshake) (Means W.opening W.limits) settings s text.now result now) }
        ensures tx { IsOf W.opening tx.new pass.new }
        ensures session { pass.new.session ≡ pass.old.session }
    {
        if settings.autocommit || tx.is_open() {
            return self.outcome_of(pass, tx, text);
        }
        self.run_unopened(pass, tx, settings, text)
    }

    /// What turning autocommit on gives, and what then holds for commands. It commits an open transaction, and stays off if that is refused.
    fn turned_on(
        &self,
        pass: &mut ShardPass<W, J>,
        tx: &mut Tx<W, J>,
        settings: Settings,
    ) -> (ClientReply<'e>, Settings)
        requires session { IsSome pass.old.session }
        requires tx { IsOf W.opening tx.old pass.old }
        requires off { settings.autocommit ≡ false }
        ensures gives { (handshake : Handshake) → LeadsKept W.opening pass.old tx.old pass.new tx.new
            (λ s now. AnswersClient (context_of W.opening handshake) (Means W.opening W.limits) settings s (ClientStatement.Set (Some true)) result.0 result.1 now) }
        ensures tx { IsOf W.opening tx.new pass.new }
        ensures session { pass.new.session ≡ pass.old.session }
    {
        if !tx.is_open() {
            return (done(), settings.with_autocommit(true));
        }
        match self.run_command(pass, tx, b"COMMIT") {
            Ok(()) => (done(), settings.with_autocommit(true)),
            Err(why) => (refused(why), settings),
        }
    }

    /// What a statement gives that asks something of the server, and what then holds for commands.
    fn statement_outcome(
        &self,
        pass: &mut ShardPass<W, J>,
        tx: &mut Tx<W, J>,
        settings: Settings,
        statement: &ClientStatement,
    ) -> (ClientReply<'e>, Settings)
        requires session { IsSome pass.old.session }
        requires tx { IsOf W.opening tx.old pass.old }
        ensures gives { LeadsKept W.opening pass.old tx.old pass.new tx.new
            (λ s now. AnswersClient (context_of W.opening self.now.handshake.now) (Means W.opening W.limits) settings s statement.now result.0 result.1 now) }
        ensures tx { IsOf W.opening tx.new pass.new }
        ensures session { pass.new.session ≡ pass.old.session }
    {
        if turns_on(settings, statement) {
            let (reply, then) = self.turned_on(pass, tx, settings);
            return (reply, then);
        }
        match statement {
            ClientStatement::Begin => {
                let begun = self.outcome_of(pass, tx, b"BEGIN");
                (begun, settings)
            }
            _ => {
                let (reply, then) = local_answer(
                    self.alloc,
                    self.engine.schema(),
                    self.handshake,
                    settings,
                    statement,
                );
                (reply, then)
            }
        }
    }

    /// What other words for a text give, under the names that it gives columns.
    fn run_said(
        &self,
        pass: &mut ShardPass<W, J>,
        tx: &mut Tx<W, J>,
        settings: Settings,
        said: &Said,
    ) -> ClientReply<'e>
        requires session { IsSome pass.old.session }
        requires tx { IsOf W.opening tx.old pass.old }
        ensures runs { (handshake : Handshake) → (outcome : Outcome) × (result ≡ named_outcome said.now.names outcome) × LeadsKept W.opening pass.old tx.old pass.new tx.new
            (λ s now. RunsText (context_of W.opening handshake) (Means W.opening W.limits) settings s said.now.text outcome now) }
        ensures tx { IsOf W.opening tx.new pass.new }
        ensures session { pass.new.session ≡ pass.old.session }
    {
        let outcome = self.run_text(pass, tx, settings, said.text.as_slice());
        named(self.alloc, outcome, said.names.as_slice())
    }

    /// What a text gives that isn't run and asks nothing of the server: what its other words do. If it has none, it is refused for why it wasn't run.
    fn answer_said(
        &self,
        pass: &mut ShardPass<W, J>,
        tx: &mut Tx<W, J>,
        settings: Settings,
        text: &[u8],
        why: Refusal,
    ) -> (ClientReply<'e>, Settings)
        requires session { IsSome pass.old.session }
        requires tx { IsOf W.opening tx.old pass.old }
        ensures gives { ((statement : ClientStatement) → Asks text.now statement → ⊥) → LeadsKept W.opening pass.old tx.old pass.new tx.new
            (λ s now. AnswersAsked (context_of W.opening self.now.handshake.now) (Means W.opening W.limits) settings s text.now (Outcome.Refused why) result.0 result.1 now) }
        ensures tx { IsOf W.opening tx.new pass.new }
        ensures session { pass.new.session ≡ pass.old.session }
    {
        match said_as(self.alloc, self.engine.schema(), text) {
            Ok(Some(said)) => {
                let outcome = self.run_said(pass, tx, settings, &said);
                drop(said);
                (outcome, settings)
            }
            Ok(None) => (refused(why), settings),
            Err(_) => (refused(Refusal::OutOfMemory), settings),
        }
    }

    /// What is given by what a text asks of the server, and what then holds for commands; if that is nothing, by other words for it, or it is refused
    /// for why it wasn't run.
    fn answer_read(
        &self,
        pass: &mut ShardPass<W, J>,
        tx: &mut Tx<W, J>,
        settings: Settings,
        text: &[u8],
        why: Refusal,
        asks: &Option<ClientStatement>,
    ) -> (ClientReply<'e>, Settings)
        requires session { IsSome pass.old.session }
        requires tx { IsOf W.opening tx.old pass.old }
        requires reading { IsReading text.now asks.now }
        ensures gives { LeadsKept W.opening pass.old tx.old pass.new tx.new
            (λ s now. AnswersAsked (context_of W.opening self.now.handshake.now) (Means W.opening W.limits) settings s text.now (Outcome.Refused why) result.0 result.1 now) }
        ensures tx { IsOf W.opening tx.new pass.new }
        ensures session { pass.new.session ≡ pass.old.session }
    {
        match asks {
            Some(statement) => { self.statement_outcome(pass, tx, settings, statement) }
            None => self.answer_said(pass, tx, settings, text, why),
        }
    }

    /// What a text gives that isn't run, and what then holds for commands: what it asks of the server, or its refusal.
    pub(crate) fn asked(
        &self,
        pass: &mut ShardPass<W, J>,
        tx: &mut Tx<W, J>,
        settings: Settings,
        text: &[u8],
        why: Refusal,
    ) -> (ClientReply<'e>, Settings)
        requires session { IsSome pass.old.session }
        requires tx { IsOf W.opening tx.old pass.old }
        ensures gives { LeadsKept W.opening pass.old tx.old pass.new tx.new
            (λ s now. AnswersAsked (context_of W.opening self.now.handshake.now) (Means W.opening W.limits) settings s text.now (Outcome.Refused why) result.0 result.1 now) }
        ensures tx { IsOf W.opening tx.new pass.new }
        ensures session { pass.new.session ≡ pass.old.session }
    {
        match read(self.alloc, text) {
            Ok(asks) => {
                let answered = self.answer_read(pass, tx, settings, text, why, &asks);
                drop(asks);
                answered
            }
            Err(_) => (refused(Refusal::OutOfMemory), settings),
        }
    }
}
