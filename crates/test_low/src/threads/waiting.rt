//! Statements that wait at a buffer.
ghost use denote.Param.Send.{IsSync};

use buffer::Buffer;
use std::sync::Wait;
use std::sync::atomic::{AtomicU64, Ordering};
use std::thread;
use std::thread::Threads;

/// How often a scene looks whether all wait before it gives up.
const TURNS: u32 = 1_000_000;

/// How many may wait.
const SIZE: u64 = 3;

fn wait_at(rt: &impl Wait, buffer: &Buffer, passed: &AtomicU64) {
    if buffer.turn(rt).wait(rt).is_ok() {
        passed.fetch_add(1, Ordering::SeqCst);
    }
}

// Waits until as many statements wait as may.
fn wait_until_full(rt: &impl Wait, buffer: &Buffer) -> bool {
    for _ in 0..TURNS {
        if buffer.waiting(rt) == SIZE {
            return true;
        }
        thread::yield_now();
    }
    false
}

// Has as many threads wait as may, and releases them; whether one more was refused meanwhile, and all went on.
fn all_pass<R: Threads + Wait + Sync>(rt: &R, buffer: &Buffer) -> bool {
    let passed = AtomicU64::new(0);
    let count = &passed;
    let was_full = thread::scope(
        thread::scope_env(),
        rt,
        move |scope| -> bool
            requires { IsSync R.row }
        {
            for _ in 0..SIZE {
                let _ = scope.spawn(
                    move ||
                        requires { IsSync R.row }
                    { wait_at(rt, buffer, count) },
                );
            }
            let was_full = wait_until_full(rt, buffer) && buffer.turn(rt).wait(rt).is_err();
            buffer.release(rt);
            was_full
        },
    );
    was_full && passed.load(Ordering::SeqCst) == SIZE && buffer.waiting(rt) == 0
}

/// Each release lets all go on that wait, and then as many may wait again.
pub(crate) fn released_statements_may_wait_again<R: Threads + Wait + Sync>(rt: &R) -> bool {
    let buffer = Buffer::new(SIZE);
    all_pass(rt, &buffer) && all_pass(rt, &buffer) && buffer.releases(rt) == 2
}
