//! Where conversations lie between two turns: a place for each descriptor, under a lock of its own.
ghost use Rattle.std.specs.Prelude.{◌≡◌, ◌≢◌, None, Some, IfSome};

use crate::turns::{Connected, Turned};
use std::alloc::{AllocError, Global};
use std::mem::replace;
use std::sync::atomic::{AtomicU64, Ordering};
use std::sync::{Mutex, MutexGuard, Wait};

/// For how many answers a worker doesn't stay with a client that said nothing while one did.
const SILENT_ANSWERS: u32 = 8;

/// What lies in the place of a socket: its conversation, unless it has none.
#[derive(Drop)]
pub struct Slot<C: Connected> {
    socket: u32,
    conversation: Option<C>,
    /// For how many answers a worker doesn't stay.
    unstayed: u32,
}

impl<C: Connected> Slot<C> {
    fn new(socket: u32) -> Slot<C>
        ensures socket { result.socket ≡ socket }
        ensures none { result.conversation ≡ None }
    {
        Slot {
            socket,
            conversation: None,
            unstayed: 0,
        }
    }

    /// Puts a conversation into its place, and returns what has none then: what lay here before, if anything did, since its socket is closed;
    /// or the conversation itself, if this is another socket's place.
    pub fn put(&mut self, conversation: C) -> Option<C>
        ensures put { C.socket conversation ≡ self.old.socket → (self.new.conversation ≡ Some conversation) × (result ≡ self.old.conversation) }
        ensures other { C.socket conversation ≢ self.old.socket → (self.new.conversation ≡ self.old.conversation) × (result ≡ Some conversation) }
        ensures socket { self.new.socket ≡ self.old.socket }
    {
        if conversation.socket() != self.socket {
            return Some(conversation);
        }
        self.unstayed = 0;
        replace(&mut self.conversation, Some(conversation))
    }

    /// Puts a conversation back after a turn. Nothing lay here meanwhile.
    fn put_back(&mut self, conversation: C, now: u64)
        ensures back { self.new.conversation ≡ Some conversation }
        ensures socket { self.new.socket ≡ self.old.socket }
    {
        if let Some(other) = replace(&mut self.conversation, Some(conversation)) {
            other.end(now);
        }
    }

    /// Takes a turn at the conversation that lies in the place of this socket, and puts it back; `None` if there is none.
    pub fn turn<F: Fn(C, u64) -> (C, Turned)>(
        &mut self,
        turn: &F,
        socket: u32,
        now: u64,
    ) -> Option<Turned>
        requires callable { F.IsAlwaysCallable turn.now }
        ensures socket { self.new.socket ≡ self.old.socket }
        ensures other { socket ≢ self.old.socket → (self.new.conversation ≡ self.old.conversation) × (result ≡ None) }
        ensures turned { IfSome result (λ turned. (before after : C) × (self.old.conversation ≡ Some before) × (self.new.conversation ≡ Some after) × F.post turn.now before now (after, turned)) }
    {
        if self.socket != socket {
            return None;
        }
        let Some(conversation) = self.conversation.take() else {
            return None;
        };
        let (after, turned) = turn(conversation, now);
        self.put_back(after, now);
        Some(turned)
    }

    /// Until when what lies here may stay as it is.
    pub fn until(&self) -> u64 {
        match &self.conversation {
            Some(conversation) => conversation.until(),
            None => 0,
        }
    }

    /// Takes the conversation out.
    pub fn take(&mut self) -> Option<C>
        ensures taken { result ≡ self.old.conversation }
        ensures none { self.new.conversation ≡ None }
        ensures socket { self.new.socket ≡ self.old.socket }
    {
        self.conversation.take()
    }

    /// Whether a worker may stay with the client after an answer.
    pub fn may_stay(&self) -> bool {
        self.unstayed == 0
    }

    /// Notes how a worker's turns ended, of which all but the first were taken since it stayed.
    pub fn note(&mut self, has_stayed: bool, turned: Turned)
        ensures { self.new.conversation ≡ self.old.conversation }
    {
        if has_stayed && matches!(turned, Turned::Waits(_)) {
            self.unstayed = SILENT_ANSWERS;
        } else if !has_stayed {
            self.unstayed = self.unstayed.saturating_sub(1);
        }
    }
}

/// The place of a socket.
#[derive(Drop)]
pub struct Place<C: Connected> {
    slot: Mutex<Slot<C>>,
    /// Until when its conversation may stay as it is; 0 if there is none.
    until: AtomicU64,
}

impl<C: Connected> Place<C> {
    fn new(socket: u32) -> Place<C> {
        Place {
            slot: Mutex::new(Slot::new(socket)),
            until: AtomicU64::new(0),
        }
    }

    /// Waits until nobody else has what lies here.
    pub fn lock<R: Wait>(&self, rt: &R) -> MutexGuard<'_, Slot<C>> {
        self.slot.lock(rt)
    }

    /// Says until when the conversation may stay as it is; 0 if there is none.
    pub fn set_until(&self, until: u64) {
        self.until.store(until, Ordering::SeqCst);
    }

    fn is_late(&self, now: u64) -> bool {
        let until = self.until.load(Ordering::SeqCst);
        until != 0 && until <= now
    }

    /// Takes a conversation out that has stayed as it is for too long, unless a worker has it.
    pub fn take_late(&self, now: u64) -> Option<C> {
        if !self.is_late(now) {
            return None;
        }
        let Some(mut slot) = self.slot.try_lock() else {
            return None;
        };
        if !self.is_late(now) {
            return None;
        }
        self.set_until(0);
        slot.take()
    }
}

/// A place for each descriptor below a bound.
#[derive(Drop)]
pub struct Places<C: Connected> {
    places: Vec<Place<C>>,
}

impl<C: Connected> Places<C> {
    /// So many empty places. Refuses only for want of memory.
    pub fn new(alloc: Global, count: u32) -> Result<Places<C>, AllocError>
    where
        C: Drop,
    {
        let mut places = Vec::with_capacity(alloc, count as usize)?;
        for socket in 0..count {
            places.push(Place::new(socket))?;
        }
        Ok(Places { places })
    }

    /// The place of a socket, if there is one.
    pub fn of(&self, socket: u32) -> Option<&Place<C>> {
        self.places.get(socket as usize)
    }

    /// All places.
    pub fn all(&self) -> &[Place<C>] {
        &self.places
    }
}
