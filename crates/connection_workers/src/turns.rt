//! What a worker takes turns at: conversations, and the set of their sockets.
ghost use Rattle.std.specs.Prelude.{◌≡◌, ℕ};

use readiness::{Readiness, Told, Wanted};
use std::sync::Wait;

/// What became of a turn.
#[derive(Clone, Copy, Debug, PartialEq, Eq)]
pub enum Turned {
    /// Nothing came from the client, or it didn't take all that it was sent: there is nothing to do until its socket is told to be ready.
    Waits(Wanted),
    /// What came is answered, and no more had come.
    Answered,
    /// What came isn't answered yet, or not all of it.
    HasMore,
    /// The conversation is over.
    Over,
}

/// A conversation with a client, which has a socket. Times are in milliseconds since its workers began.
pub trait Connected {
    /// The descriptor of its socket.
    ghost socket: { Self → ℕ };

    /// The descriptor of its socket. No other open socket has it.
    fn socket(&self) -> u32
        ensures { result ≡ socket self.now };

    /// Until when it may stay as it is.
    fn until(&self) -> u64;

    /// Ends it: it is over, it has stayed as it is for too long, or it has no place.
    fn end(self, now: u64);
}

/// A set of sockets that workers wait for. That a socket is told is a hint: it may be told early, or twice.
pub trait Sockets<R> {
    /// Adds a socket, which is told once; whether it could be added.
    fn add(&self, socket: u32, wanted: Wanted) -> bool;

    /// Has a socket told once more; whether it is in the set.
    fn arm(&self, socket: u32, wanted: Wanted) -> bool;

    /// Waits for one event, for at most so many milliseconds.
    fn wait(&self, rt: &R, milliseconds: i32) -> Told;

    /// Ends the wait of one thread, or else the next wait.
    fn wake(&self);
}

impl<R: Wait> Sockets<R> for Readiness {
    fn add(&self, socket: u32, wanted: Wanted) -> bool {
        Readiness::add(self, socket, wanted).is_ok()
    }

    fn arm(&self, socket: u32, wanted: Wanted) -> bool {
        Readiness::arm(self, socket, wanted).is_ok()
    }

    fn wait(&self, rt: &R, milliseconds: i32) -> Told {
        Readiness::wait(self, rt, milliseconds)
    }

    fn wake(&self) {
        Readiness::wake(self);
    }
}
