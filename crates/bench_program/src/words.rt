//! The words of the command line.

use anyhow::{Context, Result};

/// Returns the number at index `at`.
pub fn number(words: &[&str], at: usize) -> Result<usize> {
    Ok(words.get(at).context("how many?")?.parse::<usize>()?)
}
