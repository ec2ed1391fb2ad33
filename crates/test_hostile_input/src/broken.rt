//! Runs of the program on documents that are changed by a seed. Each has to print a result with status
//! 0, or only a fault with status 1. A run over all of them, one per line, has to have the same
//! outcomes.

use crate::breaking::broken_by;
use crate::form::Form;
use crate::lines::{Documents, printed};
use crate::outcome::{OUTCOMES, Outcome};
use anyhow::{Result, bail};
use std::alloc::Global;
use std::fs::{self, Files};

/// Prints the number of documents with each outcome, which is the same for each run. The file of the form
/// has the documents to change, one per line. A changed document without an expected outcome is reported
/// by its seed.
pub fn print_outcomes<R: Files + AllocGlobal + Print>(
    rt: &R,
    form: Form,
    test: &str,
    count: usize,
) -> Result<()> {
    let text = fs::read_to_string(rt, form.file())?;
    let whole: Vec<&str> = text.lines().collect(rt.alloc())?;
    let counts = compared(rt.alloc(), form, whole.as_slice(), count as u64)?;
    for (name, times) in OUTCOMES.iter().zip(counts.iter()) {
        println!(rt; "{test} {count}: {times} x {name}")?;
    }
    println!(rt; "{test} {count}: in one run, one a line, the same")?;
    Ok(())
}

/// The number of documents with each outcome, if one run over all of them has the same outcomes.
fn compared(
    alloc: Global,
    form: Form,
    whole: &[&str],
    count: u64,
) -> Result<[u64; OUTCOMES.len()]> {
    let mut counts = [0u64; OUTCOMES.len()];
    let mut lines = Vec::new(alloc);
    for seed in 0..count {
        let document = broken_by(alloc, seed, whole)?;
        let Some(outcome) = Outcome::of(alloc, form, document.as_slice())? else {
            bail!("the document of seed {seed} is answered by no named fault");
        };
        if let Some(times) = counts.get_mut(outcome.at()) {
            *times = times.saturating_add(1);
        }
        if !document.contains(&b'\n') {
            outcome.push_line(&mut lines)?;
        }
    }
    if printed(alloc, form, Documents::new(alloc, whole, count)) != Some(lines) {
        bail!("in one run a document is answered otherwise");
    }
    Ok(counts)
}
