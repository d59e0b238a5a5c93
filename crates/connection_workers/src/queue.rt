//! The queue, and what a thread knows of it.
ghost use Rattle.std.specs.Prelude.{◌≡◌, ◌<◌, true, IfSome, IfNone, IfOk, IfErr};
ghost use Rattle.crossbeam_queue.specs.Fifo.{Held};
ghost use Rattle.crossbeam_queue.specs.Passes.{view, IsPassOf, ruled_capacity};
ghost use Rattle.connection_workers.specs.Order.{first_view, with_one_more, new_view, with_joined, Puts, Takes, IsCompared, HeldThen};

use crossbeam_queue::protocol::{Join, Lesson, Outcome, Protocol, Split};
use crossbeam_queue::{Pass, RuledArrayQueue};
use std::alloc::{AllocError, Global};
use std::collections::LinkedList;
use std::sync::Wait;

/// A pass that was joined: its number, what it took, what it had seen taken, and what the one that joined it had. No value of it is made.
pub struct Joined<T> {
    pub number: u64,
    pub own: LinkedList<T>,
    pub taken: LinkedList<(u64, T)>,
    pub before: LinkedList<(u64, T)>,
}

/// What a pass knows. Whether it puts and may take, its number, and, if it puts, how many passes there are; what it has seen of what was
/// put and of what was taken, in the order of taking and with the number of the pass that took it; what it took itself, and which passes it
/// joined. No value of it is made.
pub struct QueueView<T> {
    pub puts: bool,
    pub takes: bool,
    pub number: u64,
    pub passes: u64,
    pub put: LinkedList<T>,
    pub taken: LinkedList<(u64, T)>,
    pub own: LinkedList<T>,
    pub joined: LinkedList<Joined<T>>,
}

pub struct Order;

impl<T> Protocol<T, QueueView<T>> for Order {
    ghost use Rattle.connection_workers.specs.Order.{InOrder, first_view};

    ghost holds = { InOrder };

    ghost first = { first_view };
}

struct Putting;

impl<T> Outcome<T, QueueView<T>> for Putting {
    ghost use Rattle.connection_workers.specs.Order.{Puts};

    ghost then = { Puts };
}

impl<T> Lesson<T, QueueView<T>> for Putting {
    ghost use Rattle.connection_workers.specs.Order.{HeldThen};

    ghost fact = { HeldThen };
}

struct Taking;

impl<T> Outcome<T, QueueView<T>> for Taking {
    ghost use Rattle.connection_workers.specs.Order.{Takes};

    ghost then = { Takes };
}

impl<T> Lesson<T, QueueView<T>> for Taking {
    ghost use Rattle.connection_workers.specs.Order.{HeldThen};

    ghost fact = { HeldThen };
}

/// A thread that only takes.
struct Taker;

impl<T> Split<QueueView<T>> for Taker {
    ghost use Rattle.connection_workers.specs.Order.{with_one_more, new_view};

    ghost left = { with_one_more };

    ghost right = { new_view };
}

/// A thread that has ended.
struct Ended;

impl<T> Join<QueueView<T>> for Ended {
    ghost use Rattle.connection_workers.specs.Order.{with_joined, no_queue_view};

    ghost both = { with_joined };

    ghost spent = { no_queue_view };
}

impl<T> Lesson<T, QueueView<T>> for Ended {
    ghost use Rattle.connection_workers.specs.Order.{IsCompared};

    ghost fact = { λ v items. IsCompared v };
}

/// A queue of connections.
pub type ConnectionQueue<T> = RuledArrayQueue<T, QueueView<T>, Order>;

/// What a thread knows of it. It has no bytes.
pub type Known<T> = Pass<T, QueueView<T>>;

// Promise: What is put into the queue of connections comes after what was put before, or is handed back if the queue is full; what is
// taken is, in the order of taking, a prefix of what was put, and no connection is taken twice; passes that ended are compared in one
// order
// With: new_taker, put, take, absorb
/// An empty queue, and the pass of the thread that puts. Refuses only for want of memory.
pub fn open<T: Drop>(
    alloc: Global,
    capacity: usize,
) -> Result<(ConnectionQueue<T>, Known<T>), AllocError>
    requires room { 0 < capacity }
    ensures capacity { IfOk result (λ r. ruled_capacity r.0 ≡ capacity) }
    ensures pass { IfOk result (λ r. IsPassOf r.0 r.1) }
    ensures none { IfOk result (λ r. view r.1 ≡ first_view) }
    ensures puts { IfOk result (λ r. (view r.1).puts ≡ true) }
{
    ConnectionQueue::<T>::ruled(alloc, capacity)
}

/// A pass for a thread that takes. It has seen what the other has, and has the next number.
pub fn new_taker<T>(queue: &ConnectionQueue<T>, pass: &mut Known<T>) -> Known<T>
    requires of { IsPassOf queue.now pass.old }
    requires puts { (view pass.old).puts ≡ true }
    ensures of { IsPassOf queue.now pass.new }
    ensures one_more { view pass.new ≡ with_one_more (view pass.old) }
    ensures new { IsPassOf queue.now result }
    ensures view { view result ≡ new_view (view pass.old) }
    ensures puts { (view pass.new).puts ≡ true }
    ensures takes { (view result).takes ≡ true }
{
    queue.another::<Taker>(pass)
}

/// Puts a connection after all that were put before. If the queue is full it hands the connection back.
pub fn put<T, R: Wait>(
    rt: &R,
    queue: &ConnectionQueue<T>,
    pass: &mut Known<T>,
    connection: T,
) -> Result<(), T>
    requires of { IsPassOf queue.now pass.old }
    requires puts { (view pass.old).puts ≡ true }
    ensures of { IsPassOf queue.now pass.new }
    ensures put { IfOk result (λ _. Puts (view pass.old) connection (view pass.new)) }
    ensures back { IfErr result (λ x. x ≡ connection) }
    // If it is handed back, nothing was put, and the queue was full.
    ensures same { IfErr result (λ x. view pass.new ≡ view pass.old) }
    ensures full { IfErr result (λ x. Held (ruled_capacity queue.now) (HeldThen (view pass.old))) }
    ensures puts { (view pass.new).puts ≡ true }
{
    queue.push_as::<Putting, R>(rt, pass, connection)
}

/// Takes the first connection of those that no one took yet. None if the queue is empty.
pub fn take<T, R: Wait>(rt: &R, queue: &ConnectionQueue<T>, pass: &mut Known<T>) -> Option<T>
    requires of { IsPassOf queue.now pass.old }
    requires takes { (view pass.old).takes ≡ true }
    ensures of { IsPassOf queue.now pass.new }
    ensures taken { IfSome result (λ x. Takes (view pass.old) x (view pass.new)) }
    // If there is none, nothing was taken, and the queue was empty.
    ensures same { IfNone result (view pass.new ≡ view pass.old) }
    ensures empty { IfNone result (Held 0 (HeldThen (view pass.old))) }
    ensures takes { (view pass.new).takes ≡ true }
{
    queue.pop_as::<Taking, R>(rt, pass)
}

/// Joins the pass of a thread that has ended into that of the one that puts, which then knows what either had seen taken.
pub fn absorb<T>(queue: &ConnectionQueue<T>, pass: &mut Known<T>, ended: Known<T>)
    requires of { IsPassOf queue.now pass.old }
    requires puts { (view pass.old).puts ≡ true }
    requires ended_of { IsPassOf queue.now ended }
    requires takes { (view ended).takes ≡ true }
    ensures of { IsPassOf queue.now pass.new }
    ensures joined { view pass.new ≡ with_joined (view pass.old) (view ended) }
    ensures compared { IsCompared (view pass.new) }
    ensures puts { (view pass.new).puts ≡ true }
{
    queue.absorb::<Ended>(pass, ended);
    queue.learn_as::<Ended>(pass);
}
