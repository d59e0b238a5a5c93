//! The VSchema and the ranges that a scene's router is opened over.
ghost use Rattle.std.specs.Prelude.{IsTrue, IfOk, IfSome};
ghost use Rattle.std.specs.List.{AllByRecursion};
ghost use Rattle.keyrange.specs.Names.{IsNamed};
ghost use Rattle.vschema.specs.WellFormed.{is_vschema};
ghost use Rattle.shard_run.specs.opening.Empty.{FitRanges};

use keyrange::KeyRange;
use shard_run::opening::ranges_fit;
use std::alloc::Global;
use vschema::VSchema;
use vt_value::Refusal;

/// The ranges of the two shards of the sharded keyspace.
pub(crate) fn halves() -> Option<[KeyRange; 2]>
    ensures { IfSome result (λ ranges. AllByRecursion IsNamed ranges) }
{
    let low = KeyRange::read("-80")?;
    let high = KeyRange::read("80-")?;
    Some([low, high])
}

/// The VSchema that a text declares, if its shards over the ranges hold each keyspace id once and fit into 64 slots.
pub(crate) fn read_schema(
    alloc: Global,
    text: &str,
    ranges: &[KeyRange],
) -> Result<VSchema, Refusal>
    requires { AllByRecursion IsNamed ranges.now }
    ensures formed { IfOk result (λ schema. IsTrue (is_vschema schema)) }
    ensures fit { IfOk result (λ schema. FitRanges schema ranges.now) }
{
    let Ok(schema) = VSchema::read(alloc, text) else {
        return Err(Refusal::SyntaxError);
    };
    if ranges_fit(alloc, &schema, ranges)? {
        Ok(schema)
    } else {
        Err(Refusal::SyntaxError)
    }
}
