//! The answer of a case.
use crate::cases::{
    aggregates, clients, handshakes, ids, lines, packets, pulled, ranges, results, schemas,
    statements, values,
};
use keyrange::one_range;
use mysql_packet::{bounded_rest, one_framing, read_back};
use resultset::SetEnd;
use sql_lexer::{longest, one_lexing};
use sql_parser::{one_tree, print_reads};
use std::alloc::Global;
use test_fields::{CaseAnswer, Unanswered};
use vschema::joins_lie_in_place;

/// Puts the answer of a case of this area.
pub fn answer(
    alloc: Global,
    area: &str,
    case: &str,
    told: &mut CaseAnswer,
) -> Result<(), Unanswered> {
    match area {
        "print" => statements::printed(alloc, case, told),
        "tokens" => statements::tokens(alloc, case, told),
        "keyword" => statements::keyword(case, told),
        "schema" => schemas::schema(alloc, case, told),
        "plan" => schemas::plan(alloc, case, told),
        "opening" => schemas::opening_slots(alloc, case, told),
        "asks" => clients::asked(alloc, case, told),
        "says" => clients::said_by(alloc, case, told),
        "like" => clients::likes(alloc, case, told),
        "tells" => clients::tells(alloc, case, told),
        "lines" => lines::split(alloc, case, told),
        "line" => lines::said(alloc, case, told),
        "rows" => lines::rows(alloc, case, told),
        "count" => lines::count(case, told),
        "error" => lines::error(case, told),
        "laws" => laws(told),
        _ => answer_values(alloc, area, case, told),
    }
}

// Puts the answer of a case of ranges, ids, values or operators.
fn answer_values(
    alloc: Global,
    area: &str,
    case: &str,
    told: &mut CaseAnswer,
) -> Result<(), Unanswered> {
    match area {
        "keyrange" => ranges::range_named(case, told),
        "covers" => ranges::covers(alloc, case, told),
        "contains" => ranges::contains(alloc, case, told),
        "ranges" => ranges::partition(alloc, case, told),
        "ksid" => ids::ksid(alloc, case, told),
        "key" => ids::key(alloc, case, told),
        "cost" => ids::cost(case, told),
        "compare" => values::comparisons(alloc, case, told),
        "copy" => values::copied(alloc, case, told),
        "refusal" => values::refusal(case, told),
        "aggregate" => aggregates::aggregated(alloc, case, told),
        "merge" => pulled::merged(alloc, case, told),
        "project" => pulled::projected(alloc, case, told),
        _ => answer_bytes(alloc, area, case, told),
    }
}

// Puts the answer of a case of packets, messages or results.
fn answer_bytes(
    alloc: Global,
    area: &str,
    case: &str,
    told: &mut CaseAnswer,
) -> Result<(), Unanswered> {
    match area {
        "payloads" => packets::payloads(alloc, case, told),
        "packets" => packets::framed(alloc, case, told),
        "command" => packets::command(alloc, case, told),
        "ok" => packets::ok(alloc, case, told),
        "eof" => packets::eof(alloc, case, told),
        "err" => packets::err(alloc, case, told),
        "lenenc" => packets::length_encoded(alloc, case, told),
        "string" => packets::length_encoded_string(alloc, case, told),
        "read_lenenc" => packets::read_number(alloc, case, told),
        "read_string" => packets::read_string(alloc, case, told),
        "native" => handshakes::native(alloc, case, told),
        "greeting" => handshakes::greeting(alloc, case, told),
        "switch" => handshakes::switch(alloc, case, told),
        "response" => handshakes::response(alloc, case, told),
        "result" => results::result_again(alloc, case, SetEnd::EofPackets, told),
        "result_to_ok" => results::result_again(alloc, case, SetEnd::OkPacket, told),
        _ => Err(Unanswered::BadLine),
    }
}

// The laws ask nothing of who cites them.
fn laws(told: &mut CaseAnswer) -> Result<(), Unanswered> {
    one_range();
    one_lexing();
    client_statements::tokens::one_lexing();
    longest();
    one_tree();
    print_reads();
    joins_lie_in_place();
    one_framing();
    bounded_rest();
    read_back();
    told.put("hold");
    Ok(())
}
