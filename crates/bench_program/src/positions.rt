//! Looks up positions in the text of the input. Each mode does the work of the modes above it too.
//!
//!     bench_program positions read COUNT          reads the text
//!     bench_program positions new COUNT           makes a `SourceTextInfo`
//!     bench_program positions boundaries COUNT    finds COUNT boundaries of the text
//!     bench_program positions find COUNT          converts the boundaries into positions
//!     bench_program positions back COUNT          converts the positions into boundaries again

ghost use Rattle.std.specs.Str.{IsCharBoundary};

use crate::words::number;
use anyhow::{Context, Result};
use deno_graph_source::text::{Position, SourceTextInfo};
use std::rc::RcStr;
use std::str;

/// The bytes from one look-up to the next: a prime, so that the look-ups are spread over the text.
const STEP: usize = 7919;

pub fn run<R: AllocGlobal + Print>(rt: &R, words: &[&str], input: &[u8]) -> Result<()> {
    let alloc = rt.alloc();
    let mode = words
        .first()
        .context("read, new, boundaries, find or back?")?;
    let count = number(words, 1)?;
    let text = RcStr::from_str(alloc, str::from_utf8(input)?)?;
    let sum = match *mode {
        "read" => text.as_str().len(),
        "new" => SourceTextInfo::new(alloc, text)?.text().len(),
        "boundaries" => boundaries(&SourceTextInfo::new(alloc, text)?, count),
        "find" => found(&SourceTextInfo::new(alloc, text)?, count),
        _ => found_again(&SourceTextInfo::new(alloc, text)?, count),
    };
    println!(rt; "{sum}")?;
    Ok(())
}

/// Returns the sum of `count` boundaries.
fn boundaries(info: &SourceTextInfo, count: usize) -> usize {
    let mut sum = 0_usize;
    for i in 0..count {
        sum = sum.wrapping_add(boundary(info, i));
    }
    sum
}

/// Returns the sum of the lines and characters of `count` boundaries.
fn found(info: &SourceTextInfo, count: usize) -> usize {
    let mut sum = 0_usize;
    for i in 0..count {
        let position = Position::from_source_pos(boundary(info, i), info);
        sum = sum
            .wrapping_add(position.line)
            .wrapping_add(position.character);
    }
    sum
}

/// Returns the sum of `count` boundaries, each converted from its position.
fn found_again(info: &SourceTextInfo, count: usize) -> usize {
    let mut sum = 0_usize;
    for i in 0..count {
        let position = Position::from_source_pos(boundary(info, i), info);
        sum = sum.wrapping_add(position.as_source_pos(info).unwrap_or(0));
    }
    sum
}

/// Returns the boundary of look-up number `i`.
fn boundary(info: &SourceTextInfo, i: usize) -> usize
    ensures { IsCharBoundary info.now result }
{
    let text = info.text();
    text.floor_char_boundary(i.wrapping_mul(STEP) % text.len().saturating_add(1))
}
