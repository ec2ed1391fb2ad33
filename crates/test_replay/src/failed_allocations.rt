//! Tests of the state after a call that is out of memory. `fail_allocations` in the crate's folder runs
//! each call with each of its allocations failing in turn.

mod analysis;
mod commands;
mod comments;
mod conversion;
mod copies;
mod outcome;
mod sources;
mod steps;
mod stores;
mod without_memory;

use crate::case_error::CaseError;
use crate::failed_allocations::outcome::Outcome;
use std::alloc::Global;

const NAMES: [&str; 13] = [
    "conversion",
    "set_another",
    "set_again",
    "parse",
    "parse_with_scopes",
    "analyze",
    "commands",
    "run_without_room",
    "copies",
    "filings",
    "steps_through_a_deep_tree",
    "steps_through_a_wide_tree",
    "calls_without_memory",
];

/// Makes each call once, and prints a line for each.
pub fn call_all<R: AllocGlobal + Print>(rt: &R) -> Result<(), CaseError> {
    for name in NAMES {
        call_one(rt, name)?;
    }
    Ok(())
}

/// Makes the call of this name. Prints whether the call returned or was out of memory, if the state after it
/// is right.
pub fn call_one<R: AllocGlobal + Print>(rt: &R, name: &str) -> Result<(), CaseError> {
    let outcome = outcome_of(rt.alloc(), name)?;
    println!(rt; "{name}: {}", outcome.as_str())?;
    Ok(())
}

fn outcome_of(alloc: Global, name: &str) -> Result<Outcome, CaseError> {
    match name {
        "conversion" => conversion::convert(alloc),
        "set_another" => stores::set_another(alloc),
        "set_again" => stores::set_again(alloc),
        "parse" => stores::parse(alloc),
        "parse_with_scopes" => stores::parse_with_scopes(alloc),
        "analyze" => analysis::analyze(alloc),
        "commands" => commands::run_all(alloc),
        "run_without_room" => commands::run_without_room(alloc),
        "copies" => copies::copy_all(alloc),
        "filings" => comments::file_all(alloc),
        "steps_through_a_deep_tree" => steps::through_a_deep_tree(alloc),
        "steps_through_a_wide_tree" => steps::through_a_wide_tree(alloc),
        "calls_without_memory" => without_memory::call_all(alloc),
        _ => Err(CaseError::Invalid("no call has this name")),
    }
}
