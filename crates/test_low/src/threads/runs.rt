//! Runs that several threads make.
ghost use Rattle.std.specs.Prelude.{◌≡◌, ◌+◌, IfOk, length};

use journal::*;
use std::alloc::Global;
use std::marker::Brand;
use std::sync::{Mutex, Wait};
use std::thread::{Threads, join};
use vt_value::Refusal;

/// A commit of a session on a slot.
#[derive(Drop)]
struct Commit {
    slot: usize,
    session: u64,
    number: u64,
}

/// The numbers of a session's commits rise.
struct Rising;

impl Law for Rising {
    ghost use Rattle.std.specs.Prelude.{Some};
    ghost use Rattle.journal.specs.Runs.{NumbersBelow};

    type Entry = Commit;

    ghost slot_of = { λ e. e.slot };

    ghost commit_of = { λ e. Some (e.session, e.number) };

    ghost may_follow = { λ run e. NumbersBelow (λ x. Some (x.session, x.number)) e.session e.number run };
}

// One look, and a commit under the session's next number.
fn append_next<J: Naming>(
    seat: &mut ShardSeat<Rising, J>,
    pass: &mut Pass<Rising, J>,
) -> Result<(), Refusal>
    ensures kept { IfOk result (λ _. length pass.new.looks ≡ length pass.old.looks + 1) }
{
    let Some(session) = pass.session() else {
        return Err(Refusal::NotSupported);
    };
    let count = seat.look(pass);
    if count >= 1 << 40 {
        return Err(Refusal::ShardFull);
    }
    let number = pass.next_statement()?;
    let entry = Commit {
        slot: seat.slot(),
        session,
        number,
    };
    seat.append(pass, &entry);
    Ok(())
}

// So many rounds over all seats.
fn work<J: Naming>(
    rt: &impl Wait,
    seats: &[Mutex<ShardSeat<Rising, J>>],
    mut pass: Pass<Rising, J>,
    rounds: u64,
) -> Result<Pass<Rising, J>, Refusal> {
    for _ in 0..rounds {
        for seat in seats {
            append_next(&mut *seat.lock(rt), &mut pass)?;
        }
    }
    Ok(pass)
}

type Worked<J> = Result<Pass<Rising, J>, Refusal>;

// Two passes, a thread each. The first has then seen what both have.
fn work_in_two<J: Naming + Send + Sync, R: Threads + Wait + Sync>(
    rt: &R,
    seats: &[Mutex<ShardSeat<Rising, J>>],
    one: Pass<Rising, J>,
    other: Pass<Rising, J>,
    rounds: u64,
) -> Worked<J> {
    let (one, other) = join(
        rt,
        move || work(rt, seats, one, rounds),
        move || work(rt, seats, other, rounds),
    );
    let mut one = one?;
    let mut other = other?;
    one.meet(&mut other);
    Ok(one)
}

type Passes<J> = (Pass<Rising, J>, Pass<Rising, J>);

// Works with four passes in four threads.
fn work_in_four<J: Naming + Send + Sync, R: Threads + Wait + Sync>(
    rt: &R,
    seats: &[Mutex<ShardSeat<Rising, J>>],
    left: Passes<J>,
    right: Passes<J>,
    rounds: u64,
) -> Worked<J> {
    let (one, two) = left;
    let (three, four) = right;
    let (left, right) = join(
        rt,
        move || work_in_two(rt, seats, one, two, rounds),
        move || work_in_two(rt, seats, three, four, rounds),
    );
    let mut left = left?;
    left.meet(&mut right?);
    Ok(left)
}

// The first four seats, each under a lock.
fn locked_four<J: Naming>(
    alloc: Global,
    mut seats: Vec<ShardSeat<Rising, J>>,
) -> Result<Vec<Mutex<ShardSeat<Rising, J>>>, Refusal> {
    seats.truncate(4);
    let mut locked = Vec::new(alloc);
    for seat in seats {
        locked.push(Mutex::new(seat))?;
    }
    Ok(locked)
}

// How many entries each slot has.
fn counted<J: Naming>(
    rt: &impl Wait,
    alloc: Global,
    seats: &[Mutex<ShardSeat<Rising, J>>],
    mut pass: Pass<Rising, J>,
) -> Result<Vec<u64>, Refusal> {
    let mut counts = Vec::new(alloc);
    for seat in seats {
        counts.push(seat.lock(rt).look(&mut pass))?;
    }
    Ok(counts)
}

fn open_two<J: Naming>(
    opener: &mut Opener<Rising, J>,
    first: &mut Pass<Rising, J>,
) -> Result<Passes<J>, Refusal> {
    let one = opener.open(first)?;
    Ok((one, opener.open(first)?))
}

// Four passes in four threads, each over all of the locked slots; the words' counts at the end.
fn count_locked<J: Naming + Send + Sync, R: Threads + Wait + Sync>(
    rt: &R,
    alloc: Global,
    locked: &[Mutex<ShardSeat<Rising, J>>],
    opener: &mut Opener<Rising, J>,
    first: &mut Pass<Rising, J>,
    rounds: u64,
) -> Result<Vec<u64>, Refusal> {
    let left = open_two(opener, first)?;
    let right = open_two(opener, first)?;
    let pass = work_in_four(rt, locked, left, right, rounds)?;
    counted(rt, alloc, locked, pass)
}

// Counts with four passes over four slots of a table that was just opened.
fn count_by_four<J: Naming + Send + Sync, R: Threads + Wait + Sync>(
    rt: &R,
    alloc: Global,
    opened: Opened<Rising>,
    rounds: u64,
) -> Result<Vec<u64>, Refusal>
    requires { opened ≡ J.table }
{
    let (seats, mut opener, mut first) = opened.named::<J>(alloc)?;
    let locked = locked_four(alloc, seats)?;
    count_locked(rt, alloc, &locked, &mut opener, &mut first, rounds)
}

/// Four passes in threads of their own append 25 entries each to four slots, and the words count them.
pub(crate) fn four_threads_append_to_one_run<R: Threads + Wait + Sync>(
    rt: &R,
    alloc: Global,
) -> Result<bool, Refusal> {
    let opened = Opened::<Rising>::new(alloc)?;
    let counts = count_by_four::<Brand, R>(rt, alloc, opened, 25)?;
    Ok(counts.as_slice() == [100, 100, 100, 100].as_slice())
}

fn session_of<J: Naming>(pass: &Pass<Rising, J>) -> u64 {
    pass.session().unwrap_or(99)
}

// The sessions of passes, of which one lends what it has seen to a pass that may only look.
fn tell_sessions<J: Naming>(
    answers: &mut Vec<u64>,
    first: &Pass<Rising, J>,
    one: &mut Pass<Rising, J>,
    two: &mut Pass<Rising, J>,
) -> Result<(), Refusal> {
    let worker = one.split()?;
    one.join(worker);
    let sessions = [session_of(first), session_of(one), session_of(two)];
    Ok(answers.extend_from_slice(&sessions)?)
}

// The numbers of their next statements.
fn tell_numbers<J: Naming>(
    answers: &mut Vec<u64>,
    one: &mut Pass<Rising, J>,
    two: &mut Pass<Rising, J>,
) -> Result<(), Refusal> {
    let numbers = [
        one.next_statement()?,
        one.next_statement()?,
        two.next_statement()?,
    ];
    Ok(answers.extend_from_slice(&numbers)?)
}

// The slots of two seats, and what they count once an entry came to each.
fn tell_counts<J: Naming>(
    answers: &mut Vec<u64>,
    seats: &mut [ShardSeat<Rising, J>],
    one: &mut Pass<Rising, J>,
    two: &mut Pass<Rising, J>,
) -> Result<(), Refusal> {
    for seat in seats.iter_mut().take(2) {
        append_next(seat, one)?;
        answers.push(seat.slot() as u64)?;
        answers.push(seat.look(two))?;
    }
    Ok(())
}

// What the calls of two sessions answer.
fn tell_both<J: Naming>(
    answers: &mut Vec<u64>,
    seats: &mut [ShardSeat<Rising, J>],
    first: &Pass<Rising, J>,
    one: &mut Pass<Rising, J>,
    two: &mut Pass<Rising, J>,
) -> Result<(), Refusal> {
    tell_sessions(answers, first, one, two)?;
    tell_numbers(answers, one, two)?;
    tell_counts(answers, seats, one, two)?;
    Ok(answers.push(one.next_statement()?)?)
}

// The numbers that the calls answer, in the order of the calls.
fn tell_all<J: Naming>(
    answers: &mut Vec<u64>,
    seats: &mut [ShardSeat<Rising, J>],
    opener: &mut Opener<Rising, J>,
    first: &mut Pass<Rising, J>,
) -> Result<(), Refusal> {
    let (mut one, mut two) = open_two(opener, first)?;
    let sizes = answers.extend_from_slice(&[seats.len() as u64, opener.next()]);
    let told = tell_both(answers, seats, first, &mut one, &mut two);
    one.meet(&mut two);
    first.meet(&mut two);
    sizes?;
    told
}

fn answers<J: Naming>(alloc: Global, opened: Opened<Rising>) -> Result<Vec<u64>, Refusal>
    requires { opened ≡ J.table }
{
    let (mut seats, mut opener, mut first) = opened.named::<J>(alloc)?;
    let mut answers = Vec::new(alloc);
    match tell_all(&mut answers, &mut seats, &mut opener, &mut first) {
        Ok(()) => Ok(answers),
        Err(refusal) => Err(refusal),
    }
}

/// Each call of a table answers.
pub(crate) fn calls_answer(alloc: Global) -> Result<bool, Refusal> {
    let opened = Opened::<Rising>::new(alloc)?;
    let answers = answers::<Brand>(alloc, opened)?;
    // seats; next session; sessions; statements; slot and count of two; the fifth statement
    let wanted = [64, 2, 99, 0, 1, 1, 2, 1, 0, 1, 1, 1, 5];
    Ok(answers.as_slice() == wanted.as_slice())
}
