//! What acts are played on: an administrator and sessions over a router.
ghost use denote.Param.Send.{IsSend, IsSync};
ghost use Rattle.std.specs.Prelude.{◌≡◌};
ghost use Rattle.shard_run.specs.opening.Empty.{sharded_keyspace};
ghost use Rattle.admin.specs.AdminAnswers.{keyspace_of};

use crate::router::acts::{Act, ThirdStatement};
use crate::router::common::{ALL, EIGHT};
use crate::router::gate::{HoldsFirst, Signals, give, wait_for};
use crate::router::reopening::{Found, reopen, reopen_last};
use crate::router::session::Session;
use admin::{Administrator, Engine, ReshardFault, administer};
use journal::{Naming, Opener};
use shard_calls::{Shard, ShardLaw, ShardPass, World};
use std::alloc::Global;
use std::sync::Wait;
use std::thread;
use std::thread::{Threads, join};
use vt_value::Refusal;

/// How often a thread looks whether a statement waits.
const TURNS: u32 = 3_000_000;

/// For how many turns a statement has time to come to a lock.
const PAUSE: u32 = 10_000;

/// The administrator and the sessions.
#[derive(Drop)]
pub(crate) struct Stage<'e, W: World, J: Naming, R> {
    pub(crate) rt: &'e R,
    pub(crate) alloc: Global,
    pub(crate) engine: &'e Engine<W, J, HoldsFirst>,
    pub(crate) signals: &'e Signals,
    pub(crate) administrator: Administrator<W, J>,
    pub(crate) admin: ShardPass<W, J>,
    pub(crate) sessions: Vec<Session<'e, W, J, R>>,
    // the shards of the workflow whose controller stopped last
    pub(crate) last: Option<Found<W, J>>,
    ghost home: { keyspace_of administrator ≡ sharded_keyspace engine.now },
}

impl<'e, W: World + Send + Sync, J: Naming + Send + Sync, R: Threads + Wait + Sync> Stage<
    'e,
    W,
    J,
    R,
> {
    /// Another session.
    pub(crate) fn session(
        &mut self,
        opener: &mut Opener<ShardLaw<W>, J>,
    ) -> Result<Session<'e, W, J, R>, Refusal> {
        Ok(Session {
            rt: self.rt,
            alloc: self.alloc,
            engine: self.engine,
            pass: opener.open(&mut self.admin)?,
        })
    }

    /// The first session and the second come.
    pub(crate) fn open(&mut self, opener: &mut Opener<ShardLaw<W>, J>) -> Result<(), Refusal> {
        for _ in 0..2 {
            let session = self.session(opener)?;
            self.sessions.push(session)?;
        }
        Ok(())
    }

    // Whether an admin line is answered by this one.
    fn is_answered(&mut self, words: &[u8], reply: &[u8]) -> bool {
        let answer = administer(
            self.rt,
            self.alloc,
            self.engine,
            &mut self.administrator,
            &mut self.admin,
            words,
        );
        answer.line() == reply
    }

    // Whether a statement of the session of this number gives what it is to give.
    fn is_known_name(&mut self, number: usize, text: &[u8], wanted: Result<u64, Refusal>) -> bool {
        match self.sessions.as_mut_slice().get_mut(number) {
            Some(session) => session.tell(text) == wanted,
            None => false,
        }
    }

    // Whether a statement comes to wait in the buffer, in so many turns.
    fn waits(&self) -> bool {
        for _ in 0..TURNS {
            if self.engine.buffer().waiting(self.rt) > 0 {
                return true;
            }
            thread::yield_now();
        }
        false
    }

    // Gives or awaits a signal, and returns whether it came.
    fn is_signalled(&self, act: Act<'_>) -> bool {
        let signals = self.signals;
        match act {
            Act::Arm => give(&signals.armed),
            Act::ArmUntilSecond => {
                give(&signals.until_second);
                give(&signals.armed);
            }
            Act::Begin => give(&signals.begun),
            Act::LetGo => give(&signals.let_go),
            Act::Pause => {
                for _ in 0..PAUSE {
                    thread::yield_now();
                }
            }
            Act::Held => return wait_for(&signals.held),
            Act::Answered => return wait_for(&signals.answered),
            _ => return self.waits(),
        }
        true
    }

    // A controller without slots reopens the workflow whose controller stopped last, from its shards.
    fn reopens_last(&mut self) -> Result<(), ReshardFault> {
        reopen_last(
            self.rt,
            self.alloc,
            self.engine,
            &mut self.admin,
            &self.last,
        )
    }

    // Whether an act gives what it is to give.
    fn is_right(&mut self, act: Act<'_>) -> bool {
        match act {
            Act::Line(words, reply) => self.is_answered(words, reply),
            Act::One(text, wanted) => self.is_known_name(0, text, wanted),
            Act::Two(text, wanted) => self.is_known_name(1, text, wanted),
            Act::Reopen(wanted) => {
                let done = reopen(
                    self.rt,
                    self.alloc,
                    self.engine,
                    &mut self.administrator,
                    &mut self.admin,
                    &mut self.last,
                );
                done == wanted
            }
            Act::ReopenLast(wanted) => self.reopens_last() == wanted,
            _ => self.is_signalled(act),
        }
    }

    // The position of the first act that doesn't give what it is to give.
    fn play_part(&mut self, part: &[Act<'_>]) -> Option<usize> {
        for (place, act) in part.iter().enumerate() {
            if !self.is_right(*act) {
                return Some(place);
            }
        }
        None
    }

    /// The first act that doesn't give what it is to give: the number of its part, and its position there.
    pub(crate) fn play(&mut self, parts: &[&[Act<'_>]]) -> Option<(usize, usize)> {
        for (number, part) in parts.iter().enumerate() {
            if let Some(place) = self.play_part(part) {
                return Some((number, place));
            }
        }
        None
    }
}

// Holds a shard's lock until that is let go.
fn hold<W: World, J: Naming>(rt: &impl Wait, shard: &Shard<W, J>, signals: &Signals) {
    let _state = shard.lock(rt);
    signals.hold();
}

// The acts, and with them a thread that holds a shard's lock.
fn play_with_lock<W: World + Send + Sync, J: Naming + Send + Sync, R: Threads + Wait + Sync>(
    rt: &R,
    stage: &mut Stage<'_, W, J, R>,
    shard: &Shard<W, J>,
    signals: &Signals,
    parts: &[&[Act<'_>]],
) -> Option<(usize, usize)> {
    let (_, wrong) = join(
        rt,
        move || -> ()
            requires { IsSync R.row × IsSend W.row × IsSync W.row × IsSend J.row × IsSync J.row }
        { hold(rt, shard, signals) },
        move || -> Option<(usize, usize)>
            requires { IsSync R.row × IsSend W.row × IsSync W.row × IsSend J.row × IsSync J.row }
        { stage.play(parts) },
    );
    wrong
}

/// Plays the parts while the lock of the first shard is held.
pub(crate) fn play_locked<
    W: World + Send + Sync,
    J: Naming + Send + Sync,
    R: Threads + Wait + Sync,
>(stage: &mut Stage<'_, W, J, R>, parts: &[&[Act<'_>]]) -> Option<(usize, usize)> {
    let (rt, signals, engine) = (stage.rt, stage.signals, stage.engine);
    let Some(serving) = engine.partitions(0) else {
        return Some((0, 0));
    };
    let [low, ..] = serving.current().parts() else {
        return Some((0, 0));
    };
    play_with_lock(rt, stage, low.shard(), signals, parts)
}

/// What a session is answered that asks once it may begin.
pub(crate) fn ask<W: World + Send + Sync, J: Naming + Send + Sync, R: Threads + Wait + Sync>(
    mut session: Session<'_, W, J, R>,
    signals: &Signals,
    asked: ThirdStatement,
) -> Result<u64, Refusal> {
    let text = match asked {
        ThirdStatement::Nothing => return Ok(0),
        ThirdStatement::AllRows => ALL,
        ThirdStatement::Eight => EIGHT,
    };
    let _ = wait_for(&signals.begun);
    let told = session.tell(text);
    give(&signals.answered);
    told
}
