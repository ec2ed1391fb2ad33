//! Answers as lines of a test case.

use crate::case_error::CaseError;
use serde_json::{Value, json};
use std::alloc::{AllocError, Global};
use std::ops::Range;

/// Appends a line for each line of `text`, starting with `word`. If `text` lacks its last line feed,
/// appends a line `unended`.
pub fn push_lines(answer: &mut String, word: &str, text: &str) -> Result<(), AllocError> {
    for line in text.lines() {
        push_line(answer, word, line)?;
    }
    if !text.is_empty() && !text.ends_with('\n') {
        push_line(answer, "unended", word)?;
    }
    Ok(())
}

/// Appends a line of a word and the rest.
pub fn push_line(answer: &mut String, word: &str, rest: &str) -> Result<(), AllocError> {
    answer.push_str(word)?;
    answer.push(' ')?;
    answer.push_str(rest)?;
    answer.push('\n')
}

/// The answer with this text.
pub fn named(alloc: Global, name: &str) -> Result<String, CaseError> {
    let mut answer = String::new(alloc);
    push_line(&mut answer, "answer", name)?;
    Ok(answer)
}

/// The answer with this value, as compact JSON.
pub fn valued(alloc: Global, value: &Value) -> Result<String, CaseError> {
    named(alloc, value.to_string(alloc)?.as_str())
}

/// A range as JSON: its start and its end.
pub fn range_value(alloc: Global, range: &Range<usize>) -> Result<Value, AllocError> {
    let (start, end) = (range.start, range.end);
    json!(in alloc; [start, end])
}
