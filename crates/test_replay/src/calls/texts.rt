//! Calls on positions, ranges and strings.

use crate::answer::{named, valued};
use crate::case_error::CaseError;
use deno_graph_json::Tape;
use deno_graph_source::text::{JsString, Position, PositionRange, SourceRange, SourceTextInfo};
use json::Scratch;
use modinfo::document::read_string;
use serde_json::{Value, json};
use std::alloc::Global;
use std::rc::RcStr;

/// A string from a text or an array of UTF-16 code units, and its lossy text.
pub fn js_string(alloc: Global, text: &str) -> Result<String, CaseError> {
    let mut scratch = Scratch::new(alloc);
    let tape = Tape::read(alloc, text, &mut scratch)?;
    let string: JsString = read_string(alloc, tape.root())?;
    let text = match string.as_str() {
        Some(text) => Value::String(String::from_str(alloc, text)?),
        None => Value::Null,
    };
    let empty = string.is_empty();
    let lossy = string.to_str_lossy();
    valued(
        alloc,
        &json!(in alloc; { "empty": empty, "lossy": lossy, "text": text })?,
    )
}

/// Makes a call on positions of a text.
pub fn of_positions(
    alloc: Global,
    name: &str,
    words: &[&str],
    value: &Value,
) -> Result<String, CaseError> {
    let Some(text) = value.as_str() else {
        return Err(CaseError::Invalid("its input is no text"));
    };
    let info = SourceTextInfo::new(alloc, RcStr::from_str(alloc, text)?)?;
    let numbers = numbers_of(alloc, words)?;
    of_numbers(alloc, name, &info, numbers.as_slice())
}

fn of_numbers(
    alloc: Global,
    name: &str,
    info: &SourceTextInfo,
    numbers: &[usize],
) -> Result<String, CaseError> {
    match numbers {
        [pos] => of_offset(alloc, name, info, *pos),
        [first, second] => of_two(alloc, name, info, *first, *second),
        [line, character, end_line, end_character] => {
            let start = position(*line, *character);
            let end = position(*end_line, *end_character);
            of_position_range(alloc, name, info, PositionRange { start, end })
        }
        _ => Err(CaseError::Invalid("its call isn't known")),
    }
}

fn numbers_of(alloc: Global, words: &[&str]) -> Result<Vec<usize>, CaseError> {
    let mut numbers = Vec::with_capacity(alloc, words.len())?;
    for word in words {
        match word.parse::<usize>() {
            Ok(number) => numbers.push(number)?,
            Err(_) => return Err(CaseError::Invalid("a word of its call is no number")),
        }
    }
    Ok(numbers)
}

fn position(line: usize, character: usize) -> Position {
    Position { line, character }
}

fn of_offset(
    alloc: Global,
    name: &str,
    info: &SourceTextInfo,
    pos: usize,
) -> Result<String, CaseError> {
    if name != "from_source_pos" {
        return Err(CaseError::Invalid("its call isn't known"));
    }
    if !info.text().is_char_boundary(pos) {
        return Err(CaseError::Invalid("its position is no boundary"));
    }
    let Position { line, character } = Position::from_source_pos(pos, info);
    named(alloc, format!(in alloc; "[{line},{character}]")?.as_str())
}

fn of_two(
    alloc: Global,
    name: &str,
    info: &SourceTextInfo,
    first: usize,
    second: usize,
) -> Result<String, CaseError> {
    let range = SourceRange {
        start: first,
        end: second,
    };
    match name {
        "as_source_pos" => match position(first, second).as_source_pos(info) {
            Some(pos) => named(alloc, format!(in alloc; "{pos}")?.as_str()),
            None => named(alloc, "null"),
        },
        "range_text" => match info.range_text(&range) {
            Some(text) => valued(alloc, &Value::String(String::from_str(alloc, text)?)),
            None => named(alloc, "null"),
        },
        "from_source_range" => from_source_range(alloc, info, range),
        _ => Err(CaseError::Invalid("its call isn't known")),
    }
}

fn from_source_range(
    alloc: Global,
    info: &SourceTextInfo,
    range: SourceRange,
) -> Result<String, CaseError> {
    let text = info.text();
    if !text.is_char_boundary(range.start) || !text.is_char_boundary(range.end) {
        return Err(CaseError::Invalid("its range has an end that is no boundary"));
    }
    let PositionRange { start, end } = PositionRange::from_source_range(range, info);
    let (start_line, start_character) = (start.line, start.character);
    let (end_line, end_character) = (end.line, end.character);
    let answer = format!(in alloc;
        "[[{start_line},{start_character}],[{end_line},{end_character}]]"
    )?;
    named(alloc, answer.as_str())
}

fn of_position_range(
    alloc: Global,
    name: &str,
    info: &SourceTextInfo,
    range: PositionRange,
) -> Result<String, CaseError> {
    if name != "as_source_range" {
        return Err(CaseError::Invalid("its call isn't known"));
    }
    match range.as_source_range(info) {
        Some(SourceRange { start, end }) => {
            named(alloc, format!(in alloc; "[{start},{end}]")?.as_str())
        }
        None => named(alloc, "null"),
    }
}
