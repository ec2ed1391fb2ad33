//! Runs of the program.

use crate::answer::{push_line, push_lines};
use crate::calls::{of_json, text_of};
use crate::case_error::CaseError;
use std::alloc::{AllocError, Global};

/// More bytes than any test case writes, so that no writer allocates during a run.
const ROOM: usize = 65536;

/// The status and the outputs of a run of the program.
#[derive(PartialEq, Eq, Drop)]
struct Run {
    status: u8,
    output: Vec<u8>,
    errors: Vec<u8>,
}

impl Run {
    fn of(alloc: Global, words: &[&str], input: &[u8]) -> Result<Run, CaseError> {
        let mut output = Vec::with_capacity(alloc, ROOM)?;
        let mut errors = Vec::with_capacity(alloc, ROOM)?;
        let mut left = input;
        let status = modinfo::serve(alloc, words, &mut left, &mut output, &mut errors);
        let run = Run {
            status,
            output,
            errors,
        };
        if run.is_out_of_memory() {
            return Err(CaseError::OutOfMemory);
        }
        Ok(run)
    }

    /// Returns whether an allocation failed, for the document or for one of its lines.
    fn is_out_of_memory(&self) -> bool {
        let output = self.output.as_slice();
        output.is_empty() && self.errors.as_slice() == b"modinfo: OutOfMemory\n".as_slice()
            || output.ends_with(b"{\"fault\":\"OutOfMemory\"}\n")
    }

    /// The line for the same document in a run with `--lines`.
    fn line(&self, alloc: Global, word: &str) -> Result<String, CaseError> {
        let output = text_of(self.output.as_slice())?.trim_end();
        if word == "check" {
            return Ok(String::from_str(alloc, output)?);
        }
        if self.status == 0 {
            return Ok(format!(in alloc; "{{\"answer\":{output}}}")?);
        }
        Ok(format!(in alloc; "{{\"fault\":\"{}\"}}", self.fault()?)?)
    }

    /// The name of the fault on the error output.
    fn fault(&self) -> Result<&str, CaseError> {
        let errors = text_of(self.errors.as_slice())?.trim_end();
        Ok(errors.strip_prefix("modinfo: ").unwrap_or(errors))
    }

    fn answer(&self, alloc: Global) -> Result<String, CaseError> {
        let mut answer = String::new(alloc);
        push_line(
            &mut answer,
            "status",
            format!(in alloc; "{}", self.status)?.as_str(),
        )?;
        push_lines(&mut answer, "output", text_of(self.output.as_slice())?)?;
        push_lines(&mut answer, "errors", text_of(self.errors.as_slice())?)?;
        Ok(answer)
    }
}

/// Runs the program. Runs a single document as a line too, and for `analyze` makes all other calls for
/// the same answer. Appends the other answers if they differ.
pub fn serve(alloc: Global, words: &[&str], input: &[u8]) -> Result<String, CaseError> {
    let run = Run::of(alloc, words, input)?;
    answer_with_others(alloc, words, input, &run)
}

/// Runs the program, and `check` with the same words. Appends the report, and the status of `check` if it is another.
pub fn both(alloc: Global, words: &[&str], input: &[u8]) -> Result<String, CaseError> {
    let run = Run::of(alloc, words, input)?;
    let mut answer = answer_with_others(alloc, words, input, &run)?;
    let mut check_words = Vec::new(alloc);
    check_words.push("check")?;
    check_words.extend_from_slice(words)?;
    let check = Run::of(alloc, check_words.as_slice(), input)?;
    push_lines(&mut answer, "report", text_of(check.output.as_slice())?)?;
    if check.status != run.status {
        push_lines(
            &mut answer,
            "status",
            format!(in alloc; "{}", check.status)?.as_str(),
        )?;
    }
    Ok(answer)
}

fn answer_with_others(
    alloc: Global,
    words: &[&str],
    input: &[u8],
    run: &Run,
) -> Result<String, CaseError> {
    let mut answer = run.answer(alloc)?;
    if let [word] = words {
        push_others(alloc, &mut answer, word, input, run)?;
    }
    Ok(answer)
}

fn push_others(
    alloc: Global,
    answer: &mut String,
    word: &str,
    input: &[u8],
    run: &Run,
) -> Result<(), CaseError> {
    if run.status < 2 && !input.is_empty() {
        push_other_lines(alloc, answer, word, input, run)?;
    }
    if run.status < 2 && word != "check" && !word.starts_with("--") {
        push_other_report(alloc, answer, word, input, run)?;
    }
    if run.status == 0 && word == "analyze" {
        push_other_ways(alloc, answer, input)?;
    }
    Ok(())
}

/// Appends the answer of the other calls if it isn't what the run printed.
fn push_other_ways(alloc: Global, answer: &mut String, input: &[u8]) -> Result<(), CaseError> {
    let ways = of_json(alloc, "every_way", &[], input)?;
    if found(ways.as_str(), "answer ") != found(answer.as_str(), "output ") {
        answer.push_str(ways.as_str())?;
    }
    Ok(())
}

/// Appends the output of a run over two lines, both with this document, if it isn't the line of this run
/// twice. Replaces line feeds, which are white space in JSON, by spaces.
fn push_other_lines(
    alloc: Global,
    answer: &mut String,
    word: &str,
    document: &[u8],
    single: &Run,
) -> Result<(), CaseError> {
    let lines = two_lines(alloc, document)?;
    let run = Run::of(alloc, &[word, "--lines"], lines.as_slice())?;
    push_unless_twice(alloc, answer, word, &run, single)
}

fn two_lines(alloc: Global, document: &[u8]) -> Result<Vec<u8>, AllocError> {
    let mut lines = Vec::new(alloc);
    for _ in 0..2 {
        push_as_line(&mut lines, document)?;
    }
    Ok(lines)
}

fn push_as_line(lines: &mut Vec<u8>, document: &[u8]) -> Result<(), AllocError> {
    for byte in document {
        lines.push(if *byte == b'\n' { b' ' } else { *byte })?;
    }
    Ok(lines.push(b'\n')?)
}

fn push_unless_twice(
    alloc: Global,
    answer: &mut String,
    word: &str,
    run: &Run,
    single: &Run,
) -> Result<(), CaseError> {
    let line = single.line(alloc, word)?;
    let expected = format!(in alloc; "{line}\n{line}\n")?;
    let status = if word == "check" { single.status } else { 0 };
    let is_same = run.status == status && run.output.as_slice() == expected.as_bytes();
    if !is_same || !run.errors.is_empty() {
        push_lines(answer, "lines", text_of(run.output.as_slice())?)?;
    }
    Ok(())
}

/// Appends the report on the document if its fault isn't that of this run.
fn push_other_report(
    alloc: Global,
    answer: &mut String,
    word: &str,
    document: &[u8],
    single: &Run,
) -> Result<(), CaseError> {
    let expected = beginning_of_report(alloc, single)?;
    let run = Run::of(alloc, &["check", word], document)?;
    if run.status != single.status || !run.output.as_slice().starts_with(expected.as_bytes()) {
        push_lines(answer, "check", text_of(run.output.as_slice())?)?;
    }
    Ok(())
}

fn beginning_of_report(alloc: Global, single: &Run) -> Result<String, CaseError> {
    if single.status == 0 {
        return Ok(String::from_str(alloc, "{\"valid\":true")?);
    }
    Ok(format!(in alloc; "{{\"fault\":\"{}\",", single.fault()?)?)
}

/// The rest of the last line after a word.
fn found<'a>(answer: &'a str, word: &str) -> Option<&'a str> {
    answer.lines().last()?.strip_prefix(word)
}

/// Runs the program on each proper beginning of the input. Returns the answer of the first run, or the
/// first answer that differs.
pub fn beginnings(alloc: Global, words: &[&str], input: &[u8]) -> Result<String, CaseError> {
    let first = Run::of(alloc, words, &[])?;
    let other = other_beginning(alloc, words, input, &first)?;
    other.as_ref().unwrap_or(&first).answer(alloc)
}

fn other_beginning(
    alloc: Global,
    words: &[&str],
    input: &[u8],
    first: &Run,
) -> Result<Option<Run>, CaseError> {
    for end in 0..input.len() {
        let run = Run::of(alloc, words, &input[..end])?;
        if run != *first {
            return Ok(Some(run));
        }
    }
    Ok(None)
}
