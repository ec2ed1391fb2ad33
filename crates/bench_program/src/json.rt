//! Reads one JSON value and drops it, to measure the reader of JSON alone.
//!
//!     bench_program json          reads the value
//!     bench_program json print    reads and prints the value

use anyhow::Result;
use serde_json::Value;

pub fn run<R: AllocGlobal + Print>(rt: &R, words: &[&str], input: &[u8]) -> Result<()> {
    let value = Value::from_slice(rt.alloc(), input)?;
    if !words.is_empty() {
        println!(rt; "{value}")?;
    }
    Ok(())
}
