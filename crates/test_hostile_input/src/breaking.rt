//! Random changes of documents.

use rand_core::Rng;
use rand_pcg::Pcg32;
use std::alloc::{AllocError, Global};

/// Bytes of JSON, and some that JSON doesn't have.
const BYTES: &[u8] = b"\"\\[]{},:-+.0123456789eEntf \n\0\x7f\x80\xc3\xe2\xf0\xff";

/// Numbers at the limits of what is read, and texts that are no numbers.
const NUMBERS: [&str; 12] = [
    "0",
    "-0",
    "-1",
    "65535",
    "65536",
    "18446744073709551614",
    "18446744073709551615",
    "18446744073709551616",
    "1.5",
    "1e2",
    "1e999",
    "null",
];

const DEEPEST: usize = 140;

/// One of the documents, changed by a seed.
pub fn broken_by(alloc: Global, seed: u64, documents: &[&str]) -> Result<Vec<u8>, AllocError> {
    broken(alloc, &mut Pcg32::new(seed, 0), documents)
}

/// One of the documents, changed at one to three places.
fn broken(alloc: Global, generator: &mut Pcg32, documents: &[&str]) -> Result<Vec<u8>, AllocError> {
    let at = below(generator, documents.len());
    let document = documents.get(at).copied().unwrap_or("");
    let mut bytes = Vec::from_slice(alloc, document.as_bytes())?;
    for _ in 0..=below(generator, 3) {
        bytes = changed(alloc, generator, bytes.as_slice())?;
    }
    Ok(bytes)
}

/// The bytes with one change: another byte, a part removed or repeated, another number, another word,
/// or deeper nesting.
fn changed(alloc: Global, generator: &mut Pcg32, bytes: &[u8]) -> Result<Vec<u8>, AllocError> {
    let kind = below(generator, 8);
    let start = below(generator, bytes.len());
    let end = start.saturating_add(below(generator, 40));
    match kind {
        0 => {
            let byte = BYTES
                .get(below(generator, BYTES.len()))
                .copied()
                .unwrap_or(0);
            spliced(alloc, bytes, start, start.saturating_add(1), &[byte])
        }
        1 => spliced(alloc, bytes, start, end, &[]),
        2 => spliced(
            alloc,
            bytes,
            start,
            start,
            bytes.get(start..end).unwrap_or(&[]),
        ),
        3 | 4 => renumbered(alloc, generator, bytes, start),
        5 | 6 => reworded(alloc, generator, bytes),
        _ => nested(alloc, generator, bytes, start),
    }
}

/// Replaces the first number at or after `from`.
fn renumbered(
    alloc: Global,
    generator: &mut Pcg32,
    bytes: &[u8],
    from: usize,
) -> Result<Vec<u8>, AllocError> {
    let Some(before) = bytes
        .iter()
        .skip(from)
        .position(|byte| byte.is_ascii_digit())
    else {
        return Vec::from_slice(alloc, bytes);
    };
    let start = from.saturating_add(before);
    let digits = bytes
        .iter()
        .skip(start)
        .take_while(|byte| byte.is_ascii_digit())
        .count();
    let end = start.saturating_add(digits);
    match NUMBERS.get(below(generator, 24)) {
        Some(number) => spliced(alloc, bytes, start, end, number.as_bytes()),
        None => {
            let number = format!(in alloc; "{}", below(generator, 30))?;
            spliced(alloc, bytes, start, end, number.as_bytes())
        }
    }
}

/// Replaces a part between quotes by another such part.
fn reworded(alloc: Global, generator: &mut Pcg32, bytes: &[u8]) -> Result<Vec<u8>, AllocError> {
    let mut quotes = Vec::new(alloc);
    for (at, byte) in bytes.iter().enumerate() {
        if *byte == b'"' {
            quotes.push(at)?;
        }
    }
    let (start, end) = between(generator, quotes.as_slice());
    let (from, to) = between(generator, quotes.as_slice());
    spliced(alloc, bytes, start, end, bytes.get(from..to).unwrap_or(&[]))
}

/// The offsets of a quote with an even number and of the next quote.
fn between(generator: &mut Pcg32, quotes: &[usize]) -> (usize, usize) {
    let at = below(generator, quotes.len()) & !1;
    let start = quotes.get(at).copied().unwrap_or(0);
    let end = quotes.get(at.saturating_add(1)).copied().unwrap_or(start);
    (start, end)
}

/// Brackets that open before `at` and close after.
fn nested(
    alloc: Global,
    generator: &mut Pcg32,
    bytes: &[u8],
    at: usize,
) -> Result<Vec<u8>, AllocError> {
    let depth = below(generator, DEEPEST);
    let opened = spliced(alloc, bytes, at, at, "[".repeat(alloc, depth)?.as_bytes())?;
    let close = at.saturating_add(depth).saturating_add(1);
    spliced(
        alloc,
        opened.as_slice(),
        close,
        close,
        "]".repeat(alloc, depth)?.as_bytes(),
    )
}

/// The bytes with those from `start` to `end` replaced by `with`.
fn spliced(
    alloc: Global,
    bytes: &[u8],
    start: usize,
    end: usize,
    with: &[u8],
) -> Result<Vec<u8>, AllocError> {
    let mut spliced = Vec::new(alloc);
    spliced.extend_from_slice(bytes.get(..start).unwrap_or(bytes))?;
    spliced.extend_from_slice(with)?;
    spliced.extend_from_slice(bytes.get(end..).unwrap_or(&[]))?;
    Ok(spliced)
}

/// A number below `bound`, 0 if there is none.
fn below(generator: &mut Pcg32, bound: usize) -> usize {
    let drawn = generator.next_u32() as usize;
    if bound == 0 { 0 } else { drawn % bound }
}
