//! The metrics, in the text format of Prometheus, version 0.0.4.
ghost use Rattle.std.specs.Prelude.{◌≡◌, ◌<◌, ◌++◌, flat_map, IfOk, OnOk};
ghost use Rattle.status_page.specs.Texts.{first_lines};
ghost use Rattle.status_page.specs.Shards.{all_shards_text};
ghost use Rattle.status_page.specs.Metrics.{connections_text, cutover_text, ended_line, endings_text, last_cutover_text, metrics_text, process_text, refusal_line, refusal_sample, refusals_text, state_flag, state_line, states_text, step_line, traffic_text, workflow_text};

use crate::families::Family;
use crate::histogram::{put_statements, put_times};
use crate::samples::{Measure, put_head, put_labelled, put_plain, put_shards};
use crate::texts::{put, put_number, put_seconds};
use status_figures::{
    ConnectionFigures, Counter, CutoverFigures, ENDINGS, Ending, Figures, ShardFigures, Totals,
    WorkflowFigures, WorkflowState,
};
use std::alloc::{AllocError, Global};

/// How many bytes there is room for at first: more than the metrics of some shards have.
const ROOM: usize = 1 << 15;

// Puts what the process is.
#[tactic(auto, unfolding(crate::specs::Metrics::process_text))]
fn put_process(out: &mut Vec<u8>, figures: &Figures<'_>) -> Result<(), AllocError>
    ensures ok { OnOk result (out.new.items ≡ out.old.items ++ process_text figures.now) }
{
    put_head(out, Family::Info)?;
    put_labelled(out, Family::Info, b"version", figures.version.as_bytes(), 1)?;
    put_plain(out, Family::Started, figures.started)?;
    put_plain(out, Family::Lost, figures.lost)
}

// Puts the connections that there are.
#[tactic(auto, unfolding(crate::specs::Metrics::connections_text))]
fn put_connections(out: &mut Vec<u8>, connections: &ConnectionFigures) -> Result<(), AllocError>
    ensures ok { OnOk result (out.new.items ≡ out.old.items ++ connections_text connections.now) }
{
    put_plain(out, Family::Live, connections.live)?;
    put_plain(out, Family::Queued, connections.queued)?;
    put_plain(out, Family::Workers, connections.workers)?;
    put_plain(out, Family::Waiting, connections.waiting)?;
    put_plain(out, Family::Buffer, connections.buffer)
}

// Puts how many connections have ended so.
#[tactic(auto, unfolding(crate::specs::Metrics::ended_line))]
fn put_ending(out: &mut Vec<u8>, totals: &Totals, ending: Ending) -> Result<(), AllocError>
    ensures ok { OnOk result (out.new.items ≡ out.old.items ++ ended_line totals.now ending) }
{
    let count = totals.of(Counter::Ended(ending));
    put_labelled(out, Family::Ended, b"end", ending.name().as_bytes(), count)
}

// Puts how many connections have ended in these ways.
fn put_ended(out: &mut Vec<u8>, totals: &Totals, endings: &[Ending]) -> Result<(), AllocError>
    ensures ok { OnOk result (out.new.items ≡ out.old.items ++ flat_map (ended_line totals.now) endings.now) }
{
    for ending in endings {
        put_ending(out, totals, *ending)?;
    }
    Ok(())
}

// Puts the connections that have begun, and those that have ended.
#[tactic(auto, unfolding(crate::specs::Metrics::endings_text))]
fn put_endings(out: &mut Vec<u8>, totals: &Totals) -> Result<(), AllocError>
    ensures ok { OnOk result (out.new.items ≡ out.old.items ++ endings_text totals.now) }
{
    put_plain(out, Family::Begun, totals.of(Counter::Begun))?;
    put_head(out, Family::Ended)?;
    put_ended(out, totals, &ENDINGS)
}

// Puts how often a refusal was sent.
#[tactic(auto, unfolding(crate::specs::Metrics::refusal_sample))]
fn put_refusal(out: &mut Vec<u8>, totals: &Totals, number: u8) -> Result<(), AllocError>
    ensures ok { OnOk result (out.new.items ≡ out.old.items ++ refusal_sample totals.now number) }
{
    put(out, Family::Refused.name().as_bytes())?;
    put(out, b"{number=\"F")?;
    put_number(out, u64::from(number))?;
    put(out, b"\"} ")?;
    put_number(out, totals.of(Counter::Refusal(number)))?;
    put(out, b"\n")
}

// Puts how often each refusal was sent.
fn put_refused(out: &mut Vec<u8>, totals: &Totals) -> Result<(), AllocError>
    ensures ok { OnOk result (out.new.items ≡ out.old.items ++ first_lines (refusal_line totals.now) 26) }
{
    for place in 0u8..26 {
        put_refusal(out, totals, place + 1)?;
    }
    Ok(())
}

// Puts the refusals that were sent.
#[tactic(auto, unfolding(crate::specs::Metrics::refusals_text))]
fn put_refusals(out: &mut Vec<u8>, totals: &Totals) -> Result<(), AllocError>
    ensures ok { OnOk result (out.new.items ≡ out.old.items ++ refusals_text totals.now) }
{
    put_head(out, Family::Refused)?;
    put_refused(out, totals)
}

// Puts what was counted of statements.
#[tactic(auto, unfolding(crate::specs::Metrics::traffic_text))]
fn put_traffic(out: &mut Vec<u8>, totals: &Totals) -> Result<(), AllocError>
    ensures ok { OnOk result (out.new.items ≡ out.old.items ++ traffic_text totals.now) }
{
    put_statements(out, totals)?;
    put_times(out, totals)?;
    put_refusals(out, totals)?;
    put_plain(out, Family::Rows, totals.of(Counter::Rows))?;
    put_plain(out, Family::Received, totals.of(Counter::Received))?;
    put_plain(out, Family::Sent, totals.of(Counter::Sent))
}

// Puts what shards hold, and what they may hold.
#[tactic(auto, unfolding(crate::specs::Shards::all_shards_text))]
fn put_all_shards(
    alloc: Global,
    out: &mut Vec<u8>,
    shards: &[ShardFigures<'_>],
) -> Result<(), AllocError>
    ensures ok { OnOk result (out.new.items ≡ out.old.items ++ all_shards_text shards.now) }
{
    put_shards(alloc, out, Measure::Rows, shards)?;
    put_shards(alloc, out, Measure::RowsLimit, shards)?;
    put_shards(alloc, out, Measure::Stored, shards)?;
    put_shards(alloc, out, Measure::StoredLimit, shards)
}

// 1 for the present state.
fn flag(state: WorkflowState, present: WorkflowState) -> u64
    ensures { result ≡ state_flag state present }
{
    match (state, present) {
        (WorkflowState::None, WorkflowState::None)
        | (WorkflowState::Following, WorkflowState::Following)
        | (WorkflowState::Switching, WorkflowState::Switching)
        | (WorkflowState::Switched, WorkflowState::Switched) => 1,
        _ => 0,
    }
}

// Puts the sample of a state.
#[tactic(auto, unfolding(crate::specs::Metrics::state_line))]
fn put_state(
    out: &mut Vec<u8>,
    name: &[u8],
    state: WorkflowState,
    present: WorkflowState,
) -> Result<(), AllocError>
    ensures ok { OnOk result (out.new.items ≡ out.old.items ++ state_line name.now state present) }
{
    put_labelled(out, Family::Workflow, b"state", name, flag(state, present))
}

// Puts which state is the present one.
#[tactic(auto, unfolding(crate::specs::Metrics::states_text))]
fn put_states(out: &mut Vec<u8>, present: WorkflowState) -> Result<(), AllocError>
    ensures ok { OnOk result (out.new.items ≡ out.old.items ++ states_text present) }
{
    put_head(out, Family::Workflow)?;
    put_state(out, b"none", WorkflowState::None, present)?;
    put_state(out, b"following", WorkflowState::Following, present)?;
    put_state(out, b"switching", WorkflowState::Switching, present)?;
    put_state(out, b"switched", WorkflowState::Switched, present)
}

// Puts a time of the last cutover.
#[tactic(auto, unfolding(crate::specs::Metrics::step_line))]
fn put_step(out: &mut Vec<u8>, step: &[u8], micros: u64) -> Result<(), AllocError>
    ensures ok { OnOk result (out.new.items ≡ out.old.items ++ step_line step.now micros) }
{
    put(out, Family::Cutover.name().as_bytes())?;
    put(out, b"{step=\"")?;
    put(out, step)?;
    put(out, b"\"} ")?;
    put_seconds(out, micros)?;
    put(out, b"\n")
}

// Puts the times of the last cutover.
#[tactic(auto, unfolding(crate::specs::Metrics::cutover_text))]
fn put_cutover(out: &mut Vec<u8>, times: &CutoverFigures) -> Result<(), AllocError>
    ensures ok { OnOk result (out.new.items ≡ out.old.items ++ cutover_text times.now) }
{
    put_head(out, Family::Cutover)?;
    put_step(out, b"froze", times.froze)?;
    put_step(out, b"retired", times.retired)?;
    put_step(out, b"published", times.published)?;
    put_step(out, b"released", times.released)?;
    put_plain(out, Family::Waited, times.waited)?;
    put_head(out, Family::Longest)?;
    put(out, Family::Longest.name().as_bytes())?;
    put(out, b" ")?;
    put_seconds(out, times.longest)?;
    put(out, b"\n")
}

// Puts the times of the last cutover, if they were seen.
fn put_last_cutover(out: &mut Vec<u8>, cutover: &Option<CutoverFigures>) -> Result<(), AllocError>
    ensures ok { OnOk result (out.new.items ≡ out.old.items ++ last_cutover_text cutover.now) }
{
    match cutover {
        Some(times) => put_cutover(out, times),
        None => Ok(()),
    }
}

// Puts how far the workflow is.
#[tactic(auto, unfolding(crate::specs::Metrics::workflow_text))]
fn put_workflow(out: &mut Vec<u8>, workflow: &WorkflowFigures) -> Result<(), AllocError>
    ensures ok { OnOk result (out.new.items ≡ out.old.items ++ workflow_text workflow.now) }
{
    put_states(out, workflow.state)?;
    put_plain(out, Family::CopySteps, workflow.copied)?;
    put_plain(out, Family::FollowSteps, workflow.followed)?;
    put_plain(out, Family::Copying, workflow.copying)?;
    put_plain(out, Family::Behind, workflow.behind)?;
    put_plain(out, Family::Cutovers, workflow.cutovers)?;
    put_last_cutover(out, &workflow.cutover)
}

// Promise: The metrics are exactly the figures, each under its name: every shard with its range, its slot, its mode, its rows, its entries and both
// limits; each counter with that counter's sum; and the workflow as it is
/// The metrics. Refuses for want of memory.
#[tactic(auto, unfolding(crate::specs::Metrics::metrics_text))]
pub fn metrics(alloc: Global, figures: &Figures<'_>) -> Result<Vec<u8>, AllocError>
    ensures text { IfOk result (λ text. text.items ≡ metrics_text figures.now) }
{
    let mut out = Vec::with_capacity(alloc, ROOM)?;
    put_process(&mut out, figures)?;
    put_connections(&mut out, &figures.connections)?;
    put_endings(&mut out, &figures.totals)?;
    put_traffic(&mut out, &figures.totals)?;
    put_workflow(&mut out, &figures.workflow)?;
    put_all_shards(alloc, &mut out, &figures.shards)?;
    Ok(out)
}
