//! The administrator of a world, who splits shards and merges them back by admin lines.
ghost use Rattle.std.specs.Prelude.{◌≡◌};
ghost use Rattle.shard_run.specs.opening.Empty.{sharded_keyspace};
ghost use Rattle.admin.specs.AdminAnswers.{keyspace_of};

use crate::soak::lines::{Done, Next, TURNS, script};
use crate::soak::session::Client;
use crate::soak::watch::Watch;
use crate::soak_model::{SessionModel, SoakFault};
use admin::{AdminReply, Administrator, Engine, Open, administer};
use journal::{Naming, Opener};
use rand_core::utils::NextWord;
use rand_pcg::Pcg32;
use serving::Seated;
use shard_calls::{Shard, ShardLaw, ShardPass, World};
use std::alloc::Global;
use std::sync::{Arc, Wait};
use std::thread;
use std::time::{Clock, Duration};
use vt_value::Refusal;

/// The administrator of a router, what it has seen, and the shards that have ever served there. If it cuts over step by step, each of its
/// entries is counted.
#[derive(Drop)]
pub struct Controller<'e, W: World, J: Naming, R> {
    pub rt: &'e R,
    pub alloc: Global,
    pub engine: &'e Engine<W, J, Open>,
    pub watch: Watch<'e>,
    pub administrator: Administrator<W, J>,
    pub pass: ShardPass<W, J>,
    pub shards: Vec<Arc<Shard<W, J>, Global>>,
    pub choices: Pcg32,
    pub by_step: bool,
    pub turn: usize,
    pub done: Done,
    ghost known: { keyspace_of administrator ≡ sharded_keyspace engine.now },
}

impl<'e, W: World + Send + Sync, J: Naming + Send + Sync, R: Wait + Clock> Controller<'e, W, J, R> {
    /// A new session of the router, which has seen what the administrator has.
    pub fn client(
        &mut self,
        opener: &mut Opener<ShardLaw<W>, J>,
        book: SessionModel,
    ) -> Result<Client<W, J>, Refusal> {
        Ok(Client {
            pass: opener.open(&mut self.pass)?,
            book,
        })
    }

    fn has(&self, slot: usize) -> bool {
        for shard in self.shards.as_slice() {
            if shard.slot() == slot {
                return true;
            }
        }
        false
    }

    // Keeps the shards that serve now.
    fn keep_shards(&mut self) -> Result<(), Refusal> {
        let Some(serving) = self.engine.partitions(0) else {
            return Ok(());
        };
        for part in serving.current().parts() {
            if !self.has(part.slot()) {
                self.shards.push(Arc::try_clone(part.shard())?)?;
            }
        }
        Ok(())
    }

    /// All shards that have ever served have as many entries as the sessions and the administrator made. An entry can't be looked at, so it
    /// is their number that is compared, if all cutovers were step by step.
    pub fn check_entries(&mut self, made: u64) -> Result<(), SoakFault> {
        let mut there = 0u64;
        for shard in self.shards.as_slice() {
            there = there.wrapping_add(shard.lock(self.rt).look(&mut self.pass));
        }
        let made = made.wrapping_add(self.done.entries);
        if self.by_step && there != made {
            return Err(SoakFault::Numbers("entries there and made", there, made));
        }
        Ok(())
    }

    fn answer(&mut self, words: &str) -> AdminReply {
        administer(
            self.rt,
            self.alloc,
            self.engine,
            &mut self.administrator,
            &mut self.pass,
            words.as_bytes(),
        )
    }

    // Lets the sessions run for some milliseconds, now and then.
    fn pause(&mut self) {
        let word = self.choices.next_word();
        if word % 8 == 0 {
            thread::sleep(self.rt, Duration::from_millis(u64::from(word / 8 % 4)));
        }
    }

    // Says a line until it is done, or so often. Whether there are slots for it.
    fn say(&mut self, words: &'static str, most: u32) -> Result<bool, SoakFault> {
        for _ in 0..most {
            self.pause();
            let reply = self.answer(words);
            match self.done.note(words, &reply)? {
                Next::Again => {}
                Next::Over => break,
                Next::Full => return Ok(false),
            }
        }
        Ok(true)
    }

    // Says a line of a script: targets are brought forward by some steps, and the steps of a cutover are taken one by one, or all at once.
    fn play(&mut self, words: &'static str) -> Result<bool, SoakFault> {
        match words {
            "step" => {
                let most = self.choices.next_word() % 400;
                self.say("step", most)
            }
            "switch" if self.by_step => self.say("advance", u32::MAX),
            _ => self.say(words, 1),
        }
    }

    // Begins to put shards in the place of others, or back. Whether there were slots for it.
    fn create(&mut self) -> Result<bool, SoakFault> {
        let is_back = self.done.tally.cutovers % 2 == 1;
        if !is_back {
            self.turn = self.choices.next_word() as usize;
        }
        let [there, back] = TURNS[self.turn % TURNS.len()];
        self.say(if is_back { back } else { there }, 1)
    }

    // Puts shards in the place of others, or gives it up. Whether there were slots for it, and it isn't to stop, once there was a cutover.
    fn take_turn(&mut self) -> Result<bool, SoakFault> {
        if !self.create()? {
            return Ok(false);
        }
        let choice = self.choices.next_word();
        self.play_script(script(choice))?;
        self.keep_shards()?;
        let is_over = self.watch.is_stopped() || self.watch.is_past(self.rt);
        Ok(!is_over || self.done.tally.cutovers == 0)
    }

    // One turn at least, until no slots are left, or it is to stop.
    fn turns(&mut self) -> Result<(), SoakFault> {
        self.keep_shards()?;
        for _ in 0..u64::MAX {
            if !self.take_turn()? {
                break;
            }
        }
        Ok(())
    }

    fn play_script(&mut self, script: &[&'static str]) -> Result<(), SoakFault> {
        for words in script {
            self.play(words)?;
        }
        Ok(())
    }

    /// Splits shards and merges them back, and tells the sessions to stop at the end.
    pub fn run(&mut self) -> Result<(), SoakFault> {
        let ended = self.turns();
        if ended.is_err() {
            // No session waits for a cutover that nobody goes on with.
            let _ = self.answer("resume");
        }
        self.watch.stop();
        ended
    }
}
