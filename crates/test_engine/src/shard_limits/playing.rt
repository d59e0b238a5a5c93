//! The small shard of a new journal, and sessions of it, which act.
ghost use Rattle.std.specs.Prelude.{◌≡◌, [], IsSome};
ghost use Rattle.test_engine.specs.shard_limits.SmallWorld.{small_schema};
ghost use Rattle.test_engine.specs.shard_limits.inner.SmallWorld.{small_seat};

use crate::shard_limits::writing::{Small, first_seat, schema, state};
use journal::{Naming, Opened, Opener, ShardSeat};
use shard_calls::{Shard, ShardLaw, ShardPass};
use std::alloc::Global;
use std::marker::Brand;
use std::sync::Wait;
use vschema::VSchema;
use vt_value::Refusal;

/// What is done in turn.
#[derive(Clone, Copy)]
pub(crate) enum Turn {
    Writes,
    Transactions,
}

/// A session of the small shard.
#[derive(Drop)]
pub(crate) struct Session<'e, J: Naming, R> {
    pub(crate) rt: &'e R,
    pub(crate) alloc: Global,
    pub(crate) shard: &'e Shard<Small, J>,
    pub(crate) schema: &'e VSchema,
    pub(crate) pass: ShardPass<Small, J>,
    ghost here: { shard.now ≡ small_seat },
    ghost known: { schema.now ≡ small_schema },
    ghost numbered: { IsSome pass.session },
}

fn act<J: Naming, R: Wait>(
    rt: &R,
    alloc: Global,
    shard: &Shard<Small, J>,
    schema: &VSchema,
    opener: &mut Opener<ShardLaw<Small>, J>,
    first: &mut ShardPass<Small, J>,
    turn: Turn,
) -> Result<bool, Refusal>
    requires here { shard.now ≡ small_seat }
    requires schema { schema.now ≡ small_schema }
{
    let mut session = Session {
        rt,
        alloc,
        shard,
        schema,
        pass: opener.open(first)?,
    };
    let mut other = Session {
        rt,
        alloc,
        shard,
        schema,
        pass: opener.open(first)?,
    };
    match turn {
        Turn::Writes => session.writes(),
        Turn::Transactions => session.transactions(&mut other),
    }
}

fn act_by_schema<J: Naming, R: Wait>(
    rt: &R,
    alloc: Global,
    shard: &Shard<Small, J>,
    opener: &mut Opener<ShardLaw<Small>, J>,
    first: &mut ShardPass<Small, J>,
    turn: Turn,
) -> Result<bool, Refusal>
    requires here { shard.now ≡ small_seat }
{
    let schema = schema(alloc)?;
    act(rt, alloc, shard, &schema, opener, first, turn)
}

fn act_on<J: Naming, R: Wait>(
    rt: &R,
    alloc: Global,
    seat: ShardSeat<ShardLaw<Small>, J>,
    opener: &mut Opener<ShardLaw<Small>, J>,
    first: &mut ShardPass<Small, J>,
    turn: Turn,
) -> Result<bool, Refusal>
    requires { seat ≡ record { seen = []; slot = 0 } }
{
    let shard = Shard::new(state(alloc, seat)?);
    act_by_schema(rt, alloc, &shard, opener, first, turn)
}

fn act_in<J: Naming, R: Wait>(
    rt: &R,
    alloc: Global,
    opened: Opened<ShardLaw<Small>>,
    turn: Turn,
) -> Result<bool, Refusal>
    requires { opened ≡ J.table }
{
    let (seats, mut opener, mut first) = opened.named::<J>(alloc)?;
    act_on(rt, alloc, first_seat(seats), &mut opener, &mut first, turn)
}

/// Acts on the small shard of a new journal, and returns whether all went as it is to go.
pub(crate) fn play<R: Wait>(rt: &R, alloc: Global, turn: Turn) -> Result<bool, Refusal> {
    let opened = Opened::<ShardLaw<Small>>::new(alloc)?;
    act_in::<Brand, R>(rt, alloc, opened, turn)
}
