//! What is expected where a text isn't JSON (RFC 8259).

ghost use Rattle.std.specs.Prelude.{ℕ, IfOk, IfSome, IsTrue, List, codes, take};
ghost use Rattle.modinfo_document.specs.ExpectedJson.{Continues, IsExpected, IsJson};

use deno_graph_json::{Tape, TapeError};
use json::Scratch;
use std::alloc::{AllocError, Global};

const TEXT: &str = "one JSON value, at most 127 deep";

const END: &str =
    "the end of the document, after its one JSON value; with --lines each line is a document";

const NUMBER: &str =
    "a JSON number, without a leading zero, with digits around a point, below 1.8e308";

const WORD: &str = "`true`, `false`, `null`, or a string in double quotes";

const NO_MARK: &str = "one JSON value, without a byte order mark before it";

const NAME: &str = "a name in double quotes";

/// What is expected in place of the token that starts at `start`, in bytes, in a text that isn't JSON. The
/// only error is a failed allocation.
pub fn expected_json(alloc: Global, text: &str, start: usize) -> Result<&'static str, AllocError>
    ensures { IfOk result (λ words. IsExpected (take start text.now) words.now) }
{
    let Some(front) = text.get(..start) else {
        return Ok(TEXT);
    };
    let Some(byte) = text.as_bytes().get(start) else {
        return Ok(TEXT);
    };
    if is_json(alloc, front)? {
        return Ok(END);
    }
    match words_for_value(*byte) {
        Some(value) => value_or_name(alloc, front, value),
        None => Ok(TEXT),
    }
}

/// Returns what is expected in place of a token that starts with this byte, where a value may be. `None` for
/// other bytes, such as a quote.
fn words_for_value(byte: u8) -> Option<&'static str>
    ensures { (front : List ℕ) → Continues front (codes "null")
        → IfSome result (λ words. IsExpected front words.now) }
{
    match byte {
        b'-' | b'0'..=b'9' => Some(NUMBER),
        b'a'..=b'z' | b'A'..=b'Z' | b'_' | b'\'' => Some(WORD),
        0xef => Some(NO_MARK),
        b'{' | b'}' | b'[' | b']' | b',' | b':' => Some(TEXT),
        _ => None,
    }
}

/// Returns what is expected after the beginning `front` of a text: `value` if a value may follow, a name if
/// a name may, else one JSON value.
fn value_or_name(
    alloc: Global,
    front: &str,
    value: &'static str,
) -> Result<&'static str, AllocError>
    ensures { (Continues front.now (codes "null") → IsExpected front.now value.now)
        → IfOk result (λ words. IsExpected front.now words.now) }
{
    if is_before(alloc, front, "null")? {
        Ok(value)
    } else if is_before(alloc, front, "\"\":null")? {
        Ok(NAME)
    } else {
        Ok(TEXT)
    }
}

/// Returns whether a text is JSON. The only error is a failed allocation.
fn is_json(alloc: Global, text: &str) -> Result<bool, AllocError>
    ensures { IfOk result (λ is. IsTrue is → IsJson text.now) }
{
    let mut scratch = Scratch::new(alloc);
    match Tape::read(alloc, text, &mut scratch) {
        Ok(_) => Ok(true),
        Err(TapeError::Json { .. }) => Ok(false),
        Err(TapeError::OutOfMemory) => Err(AllocError),
    }
}

/// Returns whether the beginning of a text, with `next` and the brackets that are still missing after it, is
/// JSON. The only error is a failed allocation.
fn is_before(alloc: Global, front: &str, next: &str) -> Result<bool, AllocError>
    ensures { IfOk result (λ is. IsTrue is → Continues front.now next.now) }
{
    let mut text = String::from_str(alloc, front)?;
    text.push_str(next)?;
    text.push_str(missing_brackets(alloc, front)?.as_str())?;
    is_json(alloc, text.as_str())
}

/// The state of reading a text.
#[derive(Clone, Copy)]
enum InText {
    /// In a string.
    String,
    /// In a string, after a backslash.
    Escape,
    /// Anywhere else.
    Outside,
}

/// The brackets that close all that is open at the end of a beginning of JSON.
fn missing_brackets(alloc: Global, front: &str) -> Result<String, AllocError> {
    let mut open = Vec::new(alloc);
    let mut state = InText::Outside;
    for byte in front.as_bytes() {
        state = match (state, *byte) {
            (InText::Outside, b'"') => InText::String,
            (InText::Outside, bracket) => {
                note_bracket(&mut open, bracket)?;
                InText::Outside
            }
            (InText::String, b'"') => InText::Outside,
            (InText::String, b'\\') => InText::Escape,
            (InText::String | InText::Escape, _) => InText::String,
        };
    }
    let mut missing = String::new(alloc);
    for bracket in open.as_slice().iter().rev() {
        missing.push(*bracket)?;
    }
    Ok(missing)
}

/// Keeps the bracket that closes an opened one, and drops it where it is closed.
fn note_bracket(open: &mut Vec<char>, byte: u8) -> Result<(), AllocError> {
    match byte {
        b'{' => Ok(open.push('}')?),
        b'[' => Ok(open.push(']')?),
        b'}' | b']' => {
            open.pop();
            Ok(())
        }
        _ => Ok(()),
    }
}
