//! A queue that one pass puts into and two take from.
ghost use Rattle.std.specs.Prelude.{◌≡◌, true};
ghost use Rattle.crossbeam_queue.specs.Passes.{view, IsPassOf};

use connection_workers::{ConnectionQueue, Known, absorb, new_taker, open, put, take};
use std::alloc::Global;
use std::sync::Wait;
use vt_value::Refusal;

/// Whether two fit in, and a third is handed back.
fn fill<R: Wait>(rt: &R, queue: &ConnectionQueue<u8>, acceptor: &mut Known<u8>) -> bool
    requires of { IsPassOf queue.now acceptor.old }
    requires puts { (view acceptor.old).puts ≡ true }
    ensures of { IsPassOf queue.now acceptor.new }
    ensures puts { (view acceptor.new).puts ≡ true }
{
    let first = put(rt, queue, acceptor, 1);
    let second = put(rt, queue, acceptor, 2);
    let third = put(rt, queue, acceptor, 4);
    first.is_ok() && second.is_ok() && third == Err(4)
}

/// Whether each of two takes one in turn, and then there is none.
fn drain<R: Wait>(
    rt: &R,
    queue: &ConnectionQueue<u8>,
    first: &mut Known<u8>,
    second: &mut Known<u8>,
) -> bool
    requires first { IsPassOf queue.now first.old }
    requires first_takes { (view first.old).takes ≡ true }
    requires second { IsPassOf queue.now second.old }
    requires second_takes { (view second.old).takes ≡ true }
    ensures first { IsPassOf queue.now first.new }
    ensures first_takes { (view first.new).takes ≡ true }
    ensures second { IsPassOf queue.now second.new }
    ensures second_takes { (view second.new).takes ≡ true }
{
    let one = take(rt, queue, first);
    let two = take(rt, queue, second);
    let none = take(rt, queue, first);
    one == Some(1) && two == Some(2) && none == None
}

/// What one pass puts into a queue two others take out of it, each once.
pub(crate) fn each_is_taken_once<R: Wait>(rt: &R, alloc: Global) -> Result<bool, Refusal> {
    let (queue, mut acceptor) = open::<u8>(alloc, 2)?;
    let is_full = fill(rt, &queue, &mut acceptor);
    let mut first = new_taker(&queue, &mut acceptor);
    let mut second = new_taker(&queue, &mut acceptor);
    let is_empty = drain(rt, &queue, &mut first, &mut second);
    absorb(&queue, &mut acceptor, first);
    absorb(&queue, &mut acceptor, second);
    Ok(is_full && is_empty)
}
