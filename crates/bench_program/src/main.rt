//! Measured by `bench/run`, besides the program `modinfo`. The file of each word has the words that
//! follow:
//!
//!     bench_program commands ..     runs of commands
//!     bench_program json ..         the reading of JSON alone
//!     bench_program positions ..    look-ups of positions in a text
//!     bench_program sources ..      a module made in code, and its analysis
//!     bench_program walk ..         a walk over a tree
//!     bench_program all             a few small cases of each; the input is a JSON text
#![tactic(auto)]

mod commands;
mod imports;
mod json;
mod positions;
mod sources;
mod walk;
mod words;

use anyhow::{Result, bail};
use std::env;
use std::io::Read;

const CASES: [&str; 9] = [
    "commands parse 3 1 4 5",
    "commands analyze 5 2 3 4",
    "json print",
    "positions find 15",
    "positions back 15",
    "sources info 10",
    "walk wide 10",
    "walk deep 10",
    "walk deep 10 count",
];

fn main(rt: HostRuntime) -> Result<()> {
    let alloc = rt.alloc();
    let arguments: Vec<String> = env::args(&rt)?.skip(1).collect(alloc)?;
    let words: Vec<&str> = arguments.iter().map(|word| word.as_str()).collect(alloc)?;
    let mut input = Vec::new(alloc);
    if let ["all" | "json" | "positions", ..] = words.as_slice() {
        rt.stdin().read_to_end(&mut input)?;
    }
    match words.as_slice() {
        ["all"] => print_cases(&rt, input.as_slice()),
        words => run(&rt, words, input.as_slice()),
    }
}

/// Runs each case, and prints the case before its output.
fn print_cases<R: AllocGlobal + Print>(rt: &R, input: &[u8]) -> Result<()> {
    for case in CASES {
        let words: Vec<&str> = case.split(' ').collect(rt.alloc())?;
        print!(rt; "{case}: ")?;
        run(rt, words.as_slice(), input)?;
    }
    Ok(())
}

fn run<R: AllocGlobal + Print>(rt: &R, words: &[&str], input: &[u8]) -> Result<()> {
    match words {
        ["commands", words @ ..] => commands::run(rt, words),
        ["json", words @ ..] => json::run(rt, words, input),
        ["positions", words @ ..] => positions::run(rt, words, input),
        ["sources", words @ ..] => sources::run(rt, words),
        ["walk", words @ ..] => walk::run(rt, words),
        _ => bail!("commands, json, positions, sources, walk or all?"),
    }
}
