//! Outcomes of runs of the program.

use crate::form::Form;
use std::alloc::{AllocError, Global};

/// The expected outcomes of a run: a result, or a fault of this name.
pub const OUTCOMES: [&str; 11] = [
    "a result",
    "Input",
    "Json",
    "Tree",
    "Specifier",
    "RangeReversed",
    "RangeOutside",
    "RangeOffBoundary",
    "CommentText",
    "CommentsOverlap",
    "Shape",
];

/// The output of a run on one document, and its outcome.
#[derive(Drop)]
pub struct Outcome {
    at: usize,
    output: Vec<u8>,
}

impl Outcome {
    /// The outcome of the analysis of a document. None if it is unexpected, or if the report on the
    /// document has another.
    pub fn of(alloc: Global, form: Form, document: &[u8]) -> Result<Option<Outcome>, AllocError> {
        let mut output = Vec::new(alloc);
        let mut errors = Vec::new(alloc);
        let mut left = document;
        let status = modinfo::serve(alloc, form.analyze(), &mut left, &mut output, &mut errors);
        let is_result = status == 0 && errors.is_empty() && is_line(output.as_slice());
        let is_fault = status == 1 && output.is_empty();
        for (at, name) in OUTCOMES.iter().enumerate() {
            let line = format!(in alloc; "modinfo: {name}\n")?;
            if at == 0 && is_result || is_fault && errors.as_slice() == line.as_bytes() {
                let is_reported = reports(alloc, form, document, at, name)?;
                return Ok(is_reported.then_some(Outcome { at, output }));
            }
        }
        Ok(None)
    }

    /// The index of the outcome.
    pub fn at(&self) -> usize {
        self.at
    }

    /// Appends the line for the document of a run with `--lines`.
    pub fn push_line(&self, lines: &mut Vec<u8>) -> Result<(), AllocError> {
        if self.at == 0 {
            lines.extend_from_slice(b"{\"answer\":")?;
            lines.extend_from_slice(self.output.as_slice().trim_ascii_end())?;
        } else {
            lines.extend_from_slice(b"{\"fault\":\"")?;
            lines.extend_from_slice(OUTCOMES.get(self.at).copied().unwrap_or("").as_bytes())?;
            lines.push(b'"')?;
        }
        lines.extend_from_slice(b"}\n")
    }
}

/// Returns whether the report on a document has the outcome with this index and name.
fn reports(
    alloc: Global,
    form: Form,
    document: &[u8],
    at: usize,
    name: &str,
) -> Result<bool, AllocError> {
    let mut output = Vec::new(alloc);
    let mut errors = Vec::new(alloc);
    let mut left = document;
    let status = modinfo::serve(alloc, form.check(), &mut left, &mut output, &mut errors);
    let expected = if at == 0 {
        String::from_str(alloc, "{\"valid\":true")?
    } else {
        format!(in alloc; "{{\"fault\":\"{name}\",")?
    };
    let is_status = status == if at == 0 { 0 } else { 1 };
    Ok(is_status && errors.is_empty() && output.as_slice().starts_with(expected.as_bytes()))
}

/// Returns whether the output is one line with an object.
fn is_line(output: &[u8]) -> bool {
    output.starts_with(b"{") && output.ends_with(b"}\n")
}
