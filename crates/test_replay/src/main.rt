//! Runs test cases: calls of the library and of the program, each with the expected answer; and calls that
//! test the state after them, whether allocations fail or not.
//!
//!     test_replay               runs the test cases in all files `*.rows` of the current folder, and each call
//!     test_replay NAME          runs one test case, and prints its answer
//!     test_replay --call NAME   makes one call, and prints how it ended
//!
//! docs/ROWS.md describes the files. Status 0: all answers are as expected, and the state after the calls is
//! right. Status 1: an answer or a state is wrong. Status 2: a file or a test case can't be read. Status 3: an
//! allocation failed outside a call.
#![tactic(auto)]

mod answer;
mod calls;
mod case;
mod case_error;
mod failed_allocations;
mod files;
mod replay;

use crate::case_error::CaseError;
use crate::failed_allocations::{call_all, call_one};
use crate::files::case_files;
use crate::replay::{replay_all, replay_one};
use std::env;
use std::process::ExitCode;

fn main(rt: HostRuntime) -> ExitCode {
    match run(&rt) {
        Ok(true) => ExitCode::SUCCESS,
        Ok(false) => ExitCode::FAILURE,
        Err(error) => {
            if !matches!(error, CaseError::OutOfMemory) {
                let _ = eprintln!(rt; "test_replay: {error}");
            }
            ExitCode::from(error.status())
        }
    }
}

/// Runs the test cases and calls that the arguments select. Returns whether all answers are as expected.
fn run(rt: &HostRuntime) -> Result<bool, CaseError> {
    let mut names = env::args(rt)?.skip(1);
    match names.next() {
        None => run_all(rt),
        Some(word) if word.as_str() == "--call" => match names.next() {
            Some(name) => {
                call_one(rt, name.as_str())?;
                Ok(true)
            }
            None => Err(CaseError::Invalid("--call needs a name")),
        },
        Some(name) => {
            let files = case_files(rt)?;
            replay_one(rt, files.as_slice(), name.as_str())
        }
    }
}

fn run_all(rt: &HostRuntime) -> Result<bool, CaseError> {
    let files = case_files(rt)?;
    let is_well = replay_all(rt, files.as_slice())?;
    call_all(rt)?;
    Ok(is_well)
}
