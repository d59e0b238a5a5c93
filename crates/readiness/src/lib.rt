//! Which sockets have something to read, or room to write: `epoll(7)`, shared by threads. A socket is told once for each arming, to one thread.
//!
//! No clause says what the system tells, or when. Who is told of a socket looks at it, and finds perhaps nothing.
#![tactic(auto)]

ghost use Rattle.std.specs.Prelude.{◌≡◌};
ghost use Rattle.readiness.specs.inner.Events.{wanted_events, told_by};

use libc::{EBADF, net as c};
use os::{EpollEvent, FromRawFd};
use std::io::{Error, Result};
use std::os::fd::{AsRawFd, OwnedFd, RawFd};
use std::sync::Wait;

/// What a socket is awaited for.
#[derive(Clone, Copy, Debug, PartialEq, Eq)]
pub enum Wanted {
    /// Bytes to read, or their end.
    Bytes,
    /// Room for bytes to write.
    Room,
    /// Its turn: it has room, so it is told at once, after those that were ready before.
    Turn,
}

/// What a thread is told.
#[derive(Clone, Copy, Debug, PartialEq, Eq)]
pub enum Told {
    /// Nothing came within the time limit.
    Nothing,
    /// Somebody called `wake`.
    Woken,
    /// This socket may be ready.
    Ready(u32),
}

/// The number under which a wake is told: no socket has it.
const WOKEN: u64 = u64::MAX;

/// A set of sockets. Any thread may add to it, and any number of threads may wait for it.
#[derive(Drop)]
pub struct Readiness {
    set: OwnedFd,
    waker: OwnedFd,
}

/// What the system is asked to tell of a socket.
fn events_of(wanted: Wanted) -> u32
    ensures { result ≡ wanted_events wanted }
{
    match wanted {
        Wanted::Bytes => c::EPOLLONESHOT | c::EPOLLRDHUP | c::EPOLLIN,
        Wanted::Room => c::EPOLLONESHOT | c::EPOLLRDHUP | c::EPOLLOUT,
        Wanted::Turn => c::EPOLLONESHOT | c::EPOLLRDHUP | c::EPOLLIN | c::EPOLLOUT,
    }
}

/// What an event with this number tells.
fn told_of(number: u64) -> Told
    ensures { result ≡ told_by number }
{
    if number == WOKEN {
        return Told::Woken;
    }
    match u32::try_from(number) {
        Ok(socket) => Told::Ready(socket),
        Err(_) => Told::Nothing,
    }
}

/// The descriptor that a call of the system has just made, or the call's error.
fn opened(descriptor: RawFd) -> Result<OwnedFd> {
    if descriptor < 0 {
        return Err(Error::from_raw_os_error(os::errno()));
    }
    Ok(unsafe { OwnedFd::from_raw_fd(descriptor) })
}

/// The error of a call of the system that has just failed.
fn check(status: i32) -> Result<()> {
    if status < 0 {
        Err(Error::from_raw_os_error(os::errno()))
    } else {
        Ok(())
    }
}

impl Readiness {
    /// An empty set. Refuses if the system gives no descriptor.
    pub fn new() -> Result<Readiness> {
        let set = opened(c::epoll_create1(c::EPOLL_CLOEXEC))?;
        let waker = opened(c::eventfd(0, c::EFD_CLOEXEC | c::EFD_NONBLOCK))?;
        check(os::epoll_ctl(
            set.as_raw_fd(),
            c::EPOLL_CTL_ADD,
            waker.as_raw_fd(),
            c::EPOLLIN | c::EPOLLET,
            WOKEN,
        ))?;
        Ok(Readiness { set, waker })
    }

    fn change(&self, operation: i32, socket: u32, wanted: Wanted) -> Result<()> {
        let Ok(descriptor) = i32::try_from(socket) else {
            return Err(Error::from_raw_os_error(EBADF));
        };
        check(os::epoll_ctl(
            self.set.as_raw_fd(),
            operation,
            descriptor,
            events_of(wanted),
            u64::from(socket),
        ))
    }

    /// Adds an open socket, armed. It leaves the set when it is closed.
    pub fn add(&self, socket: u32, wanted: Wanted) -> Result<()> {
        self.change(c::EPOLL_CTL_ADD, socket, wanted)
    }

    /// Has the socket told once more. What it is ready for already is told at once.
    pub fn arm(&self, socket: u32, wanted: Wanted) -> Result<()> {
        self.change(c::EPOLL_CTL_MOD, socket, wanted)
    }

    /// Waits for one event, for at most so many milliseconds, or without end if they are negative. A signal ends the wait too.
    pub fn wait<R: Wait>(&self, _rt: &R, milliseconds: i32) -> Told {
        let mut events = [EpollEvent { events: 0, data: 0 }];
        if os::epoll_wait(self.set.as_raw_fd(), &mut events, milliseconds) != 1 {
            return Told::Nothing;
        }
        told_of(events[0].data)
    }

    /// Ends the wait of one thread, or else the next wait. Several calls may end one wait alone.
    pub fn wake(&self) {
        let _ = libc::write(self.waker.as_raw_fd(), &1u64.to_ne_bytes());
    }
}
