//! Tests with hostile input: documents that are changed by a seed, and modules made in code that are
//! deeper, wider or longer than real ones.
//!
//!     test_hostile_input                      all tests
//!     test_hostile_input broken COUNT         COUNT changed documents
//!     test_hostile_input broken_estree COUNT  COUNT changed documents with the tree of a parser
//!     test_hostile_input NAME COUNT           one of nested, calls, operands, sum, types, braces, filings
//!     test_hostile_input NAME COUNT build     only builds the module
//!
//! Status 1 if a document has an unexpected outcome, or another outcome in the run over all documents, or
//! if a module can't be made.
#![tactic(auto)]

mod breaking;
mod broken;
mod comments;
mod form;
mod lines;
mod modules;
mod outcome;
mod summary;
mod trees;

use crate::broken::print_outcomes;
use crate::form::Form;
use crate::modules::{print_summary, source};
use anyhow::{Context, Result};
use std::env;
use std::fs::Files;

const CASES: [(&str, usize); 9] = [
    ("broken", 100_000),
    ("broken_estree", 100_000),
    ("nested", 2000),
    ("calls", 2000),
    ("operands", 2000),
    ("sum", 2000),
    ("types", 2000),
    ("filings", 1000),
    ("braces", 1_000_000),
];

fn main(rt: HostRuntime) -> Result<()> {
    let words: Vec<String> = env::args(&rt)?.skip(1).collect(rt.alloc())?;
    let Some(name) = words.get(0) else {
        for (name, count) in CASES {
            run(&rt, name, count)?;
        }
        return Ok(());
    };
    let count = words.get(1).context("how many?")?.parse::<usize>()?;
    if words.get(2).is_some() {
        drop(source(rt.alloc(), name.as_str(), count)?);
        return Ok(());
    }
    run(&rt, name.as_str(), count)
}

fn run<R: Files + AllocGlobal + Print>(rt: &R, name: &str, count: usize) -> Result<()> {
    match name {
        "broken" => print_outcomes(rt, Form::Module, name, count),
        "broken_estree" => print_outcomes(rt, Form::Estree, name, count),
        _ => print_summary(rt, name, count),
    }
}
