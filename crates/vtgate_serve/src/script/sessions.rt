//! The sessions of a script, and its lines.
ghost use Rattle.std.specs.Prelude.{◌≡◌, ◌⊎◌, ◌≤◌, ◌<◌, ℕ, true, List, [], length, filter, slice_index_or, IsSome, IfErr, OnOk};
ghost use Rattle.std.specs.List.{AllByRecursion};
ghost use Rattle.std.specs.Io.KnownBytes.{Appends};
ghost use mathlib.Core.List.{IsPrefix};
ghost use Rattle.vschema.specs.WellFormed.{is_vschema};
ghost use Rattle.journal.specs.Runs.{IsLegal, by_session};
ghost use Rattle.shard_run.specs.Openings.{IsOpening};
ghost use Rattle.shard_law.specs.Entries.{MayFollow, commit_of, most_limits};
ghost use Rattle.vtgate_lines.specs.Printed.{rows_text, refusal_text};
ghost use Rattle.vtgate_clients.specs.Pendings.{IsOf};
ghost use Rattle.shard_run.specs.opening.Empty.{sharded_keyspace};
ghost use Rattle.admin.specs.AdminAnswers.{keyspace_of};
ghost use Rattle.vtgate_clients.specs.setup.Statuses.{status_of};
ghost use Rattle.vtgate_serve.specs.script.Scripted.{HasPrinted, unknown_text};
ghost use Rattle.vtgate_serve.specs.script.inner.UnderWay.{KeptSession, HasSeenLess, IsShown, IsOutcomeShown, KnowsOwn, PrintsFrom, nothing_kept};

use admin::{Administrator, Answer, Engine, Open, Reply, Tx, administer};
use journal::{Naming, Opener};
use std::alloc::Global;
use std::marker::Model;
use std::sync::Wait;
use std::thread::Threads;
use vt_value::{Items, Refusal};
use vtgate_clients::setup::{FAILURE, RunFault};
use vtgate_clients::{DeviceFailed, ShardLaw, ShardPass, ShownRows, Sink, World};
use vtgate_lines::{Line, count_line, next_line, put_shown_rows, read_line, refusal_line};

// Writes rows, or that there is no memory for them.
fn write_rows<O: Sink>(alloc: Global, rows: ShownRows, output: &mut O) -> Result<(), DeviceFailed>
    ensures { OnOk result ((text : List ℕ) × Appends (O.taken output.old) (O.taken output.new) text
        × ((text ≡ rows_text rows) ⊎ (text ≡ refusal_text Refusal.OutOfMemory))) }
{
    let mut text = Vec::new(alloc);
    match put_shown_rows(alloc, &mut text, rows) {
        Ok(()) => output.write(&text),
        Err(_) => output.write(refusal_line(Refusal::OutOfMemory).as_slice()),
    }
}

fn write_answer<O: Sink>(alloc: Global, answer: Answer, output: &mut O) -> Result<(), DeviceFailed>
    ensures { OnOk result ((text : List ℕ) × Appends (O.taken output.old) (O.taken output.new) text × IsShown answer text) }
{
    match answer {
        Answer::Rows(selected) => write_rows(alloc, selected.rows, output),
        Answer::Count(count) => output.write(count_line(count).as_slice()),
    }
}

fn write_outcome<O: Sink>(
    alloc: Global,
    outcome: Result<Reply, Refusal>,
    output: &mut O,
) -> Result<(), DeviceFailed>
    ensures { OnOk result ((text : List ℕ) × Appends (O.taken output.old) (O.taken output.new) text × IsOutcomeShown outcome text) }
{
    match outcome {
        Ok(reply) => write_answer(alloc, reply.answer, output),
        Err(refusal) => output.write(refusal_line(refusal).as_slice()),
    }
}

/// What each line of a script is run with, beside the administrator and the sessions.
#[derive(Drop)]
pub struct ScriptContext<'c, W: World, J: Naming, R> {
    pub rt: &'c R,
    pub alloc: Global,
    pub engine: &'c Engine<W, J, Open>,
}

// Runs a statement of the pass's session after all that was seen, and writes what is printed for it.
fn run_after<W: World + Send + Sync, J: Naming + Send + Sync, R: Threads + Wait + Sync, O: Sink>(
    context: &ScriptContext<'_, W, J, R>,
    all: &mut ShardPass<W, J>,
    pass: &mut ShardPass<W, J>,
    tx: &mut Tx<W, J>,
    sql: &[u8],
    output: &mut O,
) -> Result<(), DeviceFailed>
    requires limits { W.limits ≡ most_limits }
    requires session { IsSome pass.old.session }
    requires trailing { IsPrefix pass.old.seen all.old.seen }
    requires tx { IsOf W.opening tx.old pass.old }
    ensures prints { OnOk result ((text : List ℕ) × Appends (O.taken output.old) (O.taken output.new) text
        × PrintsFrom W.opening all.old.seen (record { pass = pass.old; tx = tx.old }) sql.now text (record { pass = pass.new; tx = tx.new })) }
    ensures opens { IsOpening W.opening }
    ensures formed { is_vschema W.opening.schema ≡ true }
    ensures legal { IsLegal (MayFollow W.opening) all.old.seen }
    ensures tx { IsOf W.opening tx.new pass.new }
    ensures seen { all.new.seen ≡ pass.new.seen }
    ensures later { IsPrefix all.old.seen all.new.seen }
    ensures session { pass.new.session ≡ pass.old.session }
{
    let engine = context.engine;
    let _ = engine.schema();
    let _ = all.session();
    pass.meet(all);
    let outcome = engine.execute(context.rt, context.alloc, pass, tx, sql);
    all.meet(pass);
    write_outcome(context.alloc, outcome, output)
}

/// A session of a script: its name, its pass and its transaction.
#[derive(Drop)]
struct ScriptSession<W: World, J: Naming> {
    name: Items<u8>,
    pass: ShardPass<W, J>,
    tx: Tx<W, J>,
}

impl<W: World, J: Naming> Model for ScriptSession<W, J> {
    ghost use Rattle.std.specs.Coded.{codes};
    ghost use Rattle.shard_run.specs.contracts.Entry as entry;
    ghost use Rattle.vschema.specs.contracts.changes.Write as write;
    ghost use Rattle.vtgate_serve.specs.script.inner.UnderWay.{KeptSession};

    ghost Value = { KeptSession };

    ghost coded = { Prim.hlevel (codes, entry.the_row.coded, write.the_row.coded) };

    ghost view = { λ s. record { name = s.name; kept = record { pass = s.pass; tx = s.tx } } };
}

impl<W: World, J: Naming> ScriptSession<W, J> {
    ghost use Rattle.std.specs.Prelude.{◌≡◌, bytes_eq};
    ghost use mathlib.Core.List.{IsPrefix};
    ghost use Rattle.vtgate_serve.specs.script.inner.UnderWay.{KnowsOwn};

    fn is_named(&self, name: &[u8]) -> bool
        ensures { result ≡ bytes_eq self.now.name name.now }
    {
        self.name.as_slice() == name
    }

    // Its pass confirms that all lines have seen no commit of it that it hasn't seen.
    fn confirm(&mut self, all: &mut ShardPass<W, J>)
        requires trailing { IsPrefix self.old.kept.pass.seen all.old.seen }
        ensures same { self.new ≡ self.old }
        ensures all { all.new ≡ all.old }
        ensures own { KnowsOwn all.old.seen self.old }
    {
        self.pass.confirm(all);
    }
}

// Each session and the opener confirm that all lines have seen no commit that isn't of a session of the script, whose pass has seen it.
fn confirm_all<W: World, J: Naming>(
    opener: &mut Opener<ShardLaw<W>, J>,
    sessions: &mut Vec<ScriptSession<W, J>>,
    all: &mut ShardPass<W, J>,
)
    requires trailing { AllByRecursion (HasSeenLess W.opening all.old.seen) sessions.old.items }
    ensures opener { opener.new ≡ opener.old }
    ensures sessions { sessions.new.items ≡ sessions.old.items }
    ensures all { all.new ≡ all.old }
    ensures own { (k : ℕ) (d : KeptSession) → k < length sessions.old.items → KnowsOwn all.old.seen (slice_index_or sessions.old.items k d) }
    ensures unopened { (n : ℕ) → opener.old ≤ n → filter (by_session commit_of n) all.old.seen ≡ [] }
{
    for i in 0..sessions.len() {
        sessions[i].confirm(all);
    }
    opener.confirm(all);
}

/// The sessions of a script, in the order of their first lines, the opener of the next one, and a pass that has seen what all lines
/// have. Contracts see what is kept of what the script has come to.
#[derive(Drop)]
pub struct Sessions<W: World, J: Naming> {
    sessions: Vec<ScriptSession<W, J>>,
    opener: Opener<ShardLaw<W>, J>,
    all: ShardPass<W, J>,
}

impl<W: World, J: Naming> Model for Sessions<W, J> {
    ghost use Rattle.std.specs.Prelude.{◌≡◌, length};
    ghost use Rattle.std.specs.List.{AllByRecursion};
    ghost use Rattle.vschema.specs.contracts.changes.Write as write;
    ghost use Rattle.vtgate_serve.specs.script.inner.UnderWay.{KeptProgress, HasSeenLess, IsKnown};
    ghost use Rattle.std.specs.Coded.{codes};
    ghost use Rattle.shard_run.specs.contracts.Entry as entry;

    ghost Value = { KeptProgress };

    ghost coded = { Prim.hlevel (codes, entry.the_row.coded, write.the_row.coded) };

    ghost view = { λ s. record { sessions = s.sessions.items; seen = s.all.seen } };

    ghost invariant = { λ s. (s.opener ≡ length s.sessions.items) × AllByRecursion (HasSeenLess W.opening s.all.seen) s.sessions.items × IsKnown s.opener s.all.seen s.sessions.items };
}

impl<W: World + Send + Sync, J: Naming + Send + Sync> Sessions<W, J> {
    ghost use Rattle.std.specs.Prelude.{◌≡◌, ◌<◌, ◌++◌, ◌∷◌, ℕ, List, [], Some, None, IfOk, OnOk, length, position, slice_index_or, slice_set, bytes_eq};
    ghost use Rattle.std.specs.Io.KnownBytes.{Appends};
    ghost use Rattle.shard_law.specs.Entries.{most_limits};
    ghost use Rattle.journal.specs.Views.{new_pass};
    ghost use Rattle.journal.specs.Views.{PassView};
    ghost use Rattle.shard_run.specs.declared.Entry.{Entry};
    ghost use Rattle.admin.specs.declared.reply.AdminReply.{AdminReply};
    ghost use Rattle.shard_run.specs.opening.Empty.{sharded_keyspace};
    ghost use Rattle.admin.specs.AdminAnswers as told;
    ghost use Rattle.admin.specs.AdminAnswers.{keyspace_of};
    ghost use Rattle.admin.specs.Words.{reply_text};
    ghost use Rattle.vtgate_clients.specs.ShardCallsAlone.{NoCommits};
    ghost use Rattle.vtgate_serve.specs.script.Scripted.{ScriptProgress, Runs, PrintsLine};
    ghost use Rattle.vtgate_serve.specs.script.inner.UnderWay.{KeptState, KeptSession, IsProgressOf, PrintsHere, HasOpened, nothing_kept};

    /// No session yet.
    pub fn new(
        alloc: Global,
        opener: Opener<ShardLaw<W>, J>,
        pass: ShardPass<W, J>,
    ) -> Sessions<W, J>
        requires opener { opener ≡ 0 }
        requires pass { pass.seen ≡ [] }
        ensures { result ≡ nothing_kept }
    {
        Sessions {
            sessions: Vec::new(alloc),
            opener,
            all: pass,
        }
    }

    // The ordinal of the session of this name.
    fn ordinal_of(&self, name: &[u8]) -> Option<usize>
        ensures { result ≡ position (λ x. bytes_eq x.name name.now) self.now.sessions }
    {
        self.sessions
            .iter()
            .position(|session| session.is_named(name))
    }

    fn count(&self) -> usize
        ensures { result ≡ length self.now.sessions }
    {
        self.sessions.len()
    }

    // Opens a session of this name.
    fn open(&mut self, alloc: Global, name: &[u8]) -> Result<(), Refusal>
        ensures { OnOk result (self.new ≡ record self.old { sessions = self.old.sessions ++ record { name = name.now; kept = record { pass = new_pass self.old.seen (Some (length self.old.sessions)); tx = None } } ∷ [] }) }
    {
        let name = Items::from_slice(alloc, name)?;
        self.sessions.reserve(1)?;
        let pass = self.opener.open(&mut self.all)?;
        self.sessions.push_reserved(ScriptSession {
            name,
            pass,
            tx: Tx::new(),
        });
        Ok(())
    }

    // The ordinal of the session of this name, which is opened if there is none.
    fn ordinal_or_open(&mut self, alloc: Global, name: &[u8]) -> Result<usize, Refusal>
        ensures { IfOk result (λ ordinal. HasOpened self.old name.now ordinal self.new) }
    {
        if let Some(ordinal) = self.ordinal_of(name) {
            return Ok(ordinal);
        }
        let ordinal = self.count();
        self.open(alloc, name)?;
        Ok(ordinal)
    }

    // Runs a statement of the session at the ordinal.
    fn run_at<R: Threads + Wait + Sync, O: Sink>(
        &mut self,
        context: &ScriptContext<'_, W, J, R>,
        ordinal: usize,
        sql: &[u8],
        output: &mut O,
    ) -> Result<(), DeviceFailed>
        requires limits { W.limits ≡ most_limits }
        requires ordinal { ordinal < length self.old.sessions }
        ensures { OnOk result ((text : List ℕ) × (now : KeptState) × Appends (O.taken output.old) (O.taken output.new) text
            × ((d : KeptSession) → PrintsHere W.opening self.old.seen (slice_index_or self.old.sessions ordinal d).kept sql.now text now)
            × ((d : KeptSession) → self.new ≡ record { sessions = slice_set self.old.sessions ordinal (record { name = (slice_index_or self.old.sessions ordinal d).name; kept = now }); seen = now.pass.seen })) }
    {
        let session = &mut self.sessions[ordinal];
        let result = run_after(
            context,
            &mut self.all,
            &mut session.pass,
            &mut session.tx,
            sql,
            output,
        );
        confirm_all(&mut self.opener, &mut self.sessions, &mut self.all);
        result
    }

    // Runs a statement of the session of this name.
    fn run_statement<R: Threads + Wait + Sync, O: Sink>(
        &mut self,
        context: &ScriptContext<'_, W, J, R>,
        name: &[u8],
        sql: &[u8],
        output: &mut O,
    ) -> Result<(), RunFault>
        requires limits { W.limits ≡ most_limits }
        ensures runs { OnOk result ((text : List ℕ) × Appends (O.taken output.old) (O.taken output.new) text
            × ((p : ScriptProgress) → IsProgressOf W.opening self.old p → (q : ScriptProgress) × IsProgressOf W.opening self.new q × Runs W.opening p name.now sql.now text q)) }
        ensures fault { IfErr result (λ f. status_of f ≡ FAILURE) }
    {
        let Ok(ordinal) = self.ordinal_or_open(context.alloc, name) else {
            return Err(RunFault::OutOfMemory);
        };
        match self.run_at(context, ordinal, sql, output) {
            Ok(()) => Ok(()),
            Err(_) => Err(RunFault::Failed),
        }
    }

    // Does what the words of an admin line ask for, after all that was seen.
    fn run_admin<R: Wait, O: Sink>(
        &mut self,
        context: &ScriptContext<'_, W, J, R>,
        administrator: &mut Administrator<W, J>,
        words: &[u8],
        output: &mut O,
    ) -> Result<(), RunFault>
        requires limits { W.limits ≡ most_limits }
        requires home { keyspace_of administrator.old ≡ sharded_keyspace context.now.engine.now }
        ensures keyspace { keyspace_of administrator.new ≡ keyspace_of administrator.old }
        ensures told { OnOk result ((reply : AdminReply) × (p : PassView Entry) × (q : PassView Entry) × Appends (O.taken output.old) (O.taken output.new) (reply_text reply)
            × (p.seen ≡ self.old.seen) × NoCommits self.old.seen q.seen × (self.new ≡ record self.old { seen = q.seen })
            × told.IsAdminReply W.opening most_limits words.now p q reply administrator.old administrator.new) }
        ensures fault { IfErr result (λ f. status_of f ≡ FAILURE) }
    {
        let reply = administer(
            context.rt,
            context.alloc,
            context.engine,
            administrator,
            &mut self.all,
            words,
        );
        confirm_all(&mut self.opener, &mut self.sessions, &mut self.all);
        write_all(reply.line(), output)
    }

    // Runs a line.
    fn run_line<R: Threads + Wait + Sync, O: Sink>(
        &mut self,
        context: &ScriptContext<'_, W, J, R>,
        administrator: &mut Administrator<W, J>,
        line: &[u8],
        output: &mut O,
    ) -> Result<(), RunFault>
        requires limits { W.limits ≡ most_limits }
        requires home { keyspace_of administrator.old ≡ sharded_keyspace context.now.engine.now }
        ensures keyspace { keyspace_of administrator.new ≡ keyspace_of administrator.old }
        ensures gives { OnOk result ((text : List ℕ) × Appends (O.taken output.old) (O.taken output.new) text
            × ((p : ScriptProgress) → IsProgressOf W.opening self.old p → (q : ScriptProgress) × IsProgressOf W.opening self.new q × PrintsLine W.opening p administrator.old line.now text q administrator.new)) }
        ensures fault { IfErr result (λ f. status_of f ≡ FAILURE) }
    {
        match read_line(line) {
            Line::Statement(name, sql) => self.run_statement(context, name, sql, output),
            Line::Admin(words) => self.run_admin(context, administrator, words, output),
            Line::Unknown => write_all(b"unknown\n", output),
        }
    }
}

fn write_all<O: Sink>(text: &[u8], output: &mut O) -> Result<(), RunFault>
    ensures written { OnOk result (Appends (O.taken output.old) (O.taken output.new) text.now) }
    ensures fault { IfErr result (λ f. status_of f ≡ FAILURE) }
{
    match output.write(text) {
        Ok(()) => Ok(()),
        Err(_) => Err(RunFault::Failed),
    }
}

/// Runs the lines in order, and writes what is printed for each before the next is run. Refuses if the output fails, and if there is
/// no memory for a session.
pub fn run_lines<
    W: World + Send + Sync,
    J: Naming + Send + Sync,
    R: Threads + Wait + Sync,
    O: Sink,
>(
    context: &ScriptContext<'_, W, J, R>,
    administrator: &mut Administrator<W, J>,
    sessions: &mut Sessions<W, J>,
    lines: &[u8],
    output: &mut O,
) -> Result<(), RunFault>
    requires limits { W.limits ≡ most_limits }
    requires first { sessions.old ≡ nothing_kept }
    requires home { keyspace_of administrator.old ≡ sharded_keyspace context.now.engine.now }
    ensures given { OnOk result (HasPrinted W.opening administrator.old lines.now (O.taken output.old) (O.taken output.new)) }
    ensures fault { IfErr result (λ f. status_of f ≡ FAILURE) }
{
    let mut rest = lines;
    while let Some((line, more)) = next_line(rest) {
        sessions.run_line(context, administrator, line, output)?;
        rest = more;
    }
    Ok(())
}
