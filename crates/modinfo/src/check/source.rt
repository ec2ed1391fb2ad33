//! Checking documents of `analyze --source`.

ghost use Rattle.std.specs.Prelude.{◌≡◌, ◌≢◌, ◌++◌, ℕ, List, codes, IfOk, IsSomeAnd, MatchOption};
ghost use Rattle.std.specs.Rc.{rc_str_bytes};
ghost use Rattle.std.specs.String.{string_bytes};
ghost use Rattle.deno_graph_base.specs.Position.{HasPosition};
ghost use Rattle.deno_graph_json.specs.Data.{data_of};
ghost use Rattle.modinfo_document.specs.Report.{HasNoWarnings, IsNamed};
ghost use Rattle.modinfo.specs.Check.{HasParsedText, HasSourcePlace, IsExpectedBy, IsSourceFaultReport};
ghost use Rattle.modinfo.specs.Check.{IsTextFaultReport, OfReport, ReportsOnText};
ghost use Rattle.modinfo.specs.Fault.{name_of_fault};
ghost use Rattle.modinfo.specs.Source.{IsSourceDocument};

use crate::fault::Fault;
use crate::source::{SourceText, read_source_text};
use deno_graph_json::{Element, ReadError, Tape, TapeError};
use deno_graph_source::text::{Position, SourceTextInfo};
use deno_graph_source::tree::ParseDiagnostic;
use json::Scratch;
use modinfo_document::DocumentError;
use modinfo_document::report::{
    FaultReport, Report, TextPlace, Warnings, json_report_at, specifier_report, tree_report,
};
use modinfo_source::{DEFECT, TextError};
use std::alloc::{AllocError, Global};
use std::rc::RcStr;

/// Checks a text as a document of `analyze --source`. Returns `Valid` if the parser reads the source
/// text, else `Invalid` with the first fault. The only error is a failed allocation.
pub fn check_source(alloc: Global, text: &str) -> Result<Report, AllocError>
    ensures report { IfOk result (OfReport (IsSourceDocument text.now) (IsSourceFaultReport text.now)) }
    ensures warnings { IfOk result HasNoWarnings }
{
    let mut scratch = Scratch::new(alloc);
    match Tape::read(alloc, text, &mut scratch) {
        Ok(tape) => check_value(alloc, tape.root()),
        Err(TapeError::Json { offset }) => Ok(Report::Invalid(json_report_at(
            alloc, text, offset,
        )?)),
        Err(TapeError::OutOfMemory) => Err(AllocError),
    }
}

/// Checks the JSON of a document.
fn check_value(alloc: Global, value: Element<'_>) -> Result<Report, AllocError>
    ensures report { IfOk result
        (OfReport (HasParsedText (data_of value.entry)) (IsTextFaultReport (data_of value.entry))) }
    ensures warnings { IfOk result HasNoWarnings }
{
    match read_source_text(alloc, value) {
        Ok(text) => check_text(alloc, text),
        Err(ReadError::Mismatch(mismatch)) => {
            Ok(Report::Invalid(tree_report(alloc, &mismatch)?))
        }
        Err(ReadError::OutOfMemory) => Err(AllocError),
    }
}

/// Checks the specifier of a source text, and then the text. The only error is a failed allocation.
pub fn check_text(alloc: Global, text: SourceText) -> Result<Report, AllocError>
    ensures report { IfOk result (ReportsOnText text) }
    ensures warnings { IfOk result HasNoWarnings }
{
    let specifier = match text.url(alloc) {
        Ok(specifier) => specifier,
        Err(DocumentError::OutOfMemory) => return Err(AllocError),
        Err(_) => return Ok(Report::Invalid(specifier_report(alloc)?)),
    };
    let source = RcStr::from_str(alloc, text.source.as_str())?;
    match text.into_source(alloc, specifier) {
        Ok(_) => Ok(Report::Valid(Warnings::new(alloc))),
        Err(TextError::Syntax(diagnostic)) => {
            Ok(Report::Invalid(syntax_report(alloc, source, &diagnostic)?))
        }
        Err(TextError::Defect(position)) => {
            Ok(Report::Invalid(defect_report(alloc, source, position)?))
        }
        Err(TextError::OutOfMemory) => Err(AllocError),
    }
}

/// Returns the report on a syntax error: what the message of the parser expects, its position, and the offset
/// of that position in the source text. The only error is a failed allocation.
fn syntax_report(
    alloc: Global,
    source: RcStr,
    diagnostic: &ParseDiagnostic,
) -> Result<FaultReport, AllocError>
    requires { HasPosition (rc_str_bytes source) diagnostic.now.position }
    ensures name { IfOk result (IsNamed (name_of_fault Fault.Syntax)) }
    ensures place { IfOk result (HasSourcePlace (rc_str_bytes source)) }
    ensures position { IfOk result (λ report. IsSomeAnd report.at
        (λ at. at.position ≡ diagnostic.now.position)) }
    ensures expected { IfOk result (λ report.
        IsExpectedBy diagnostic.now.message (string_bytes report.expected)) }
{
    let expected = expected_by(alloc, diagnostic.message.as_str())?;
    source_report(alloc, source, &Fault::Syntax, diagnostic.position, expected)
}

/// Returns the report on a tree that isn't that of the text: the position where that was found, and its offset
/// in the source text. The only error is a failed allocation.
fn defect_report(
    alloc: Global,
    source: RcStr,
    position: Position,
) -> Result<FaultReport, AllocError>
    requires { HasPosition (rc_str_bytes source) position }
    ensures name { IfOk result (IsNamed (name_of_fault Fault.Defect)) }
    ensures place { IfOk result (HasSourcePlace (rc_str_bytes source)) }
    ensures position { IfOk result (λ report. IsSomeAnd report.at (λ at. at.position ≡ position)) }
{
    let expected = expected_by(alloc, DEFECT)?;
    source_report(alloc, source, &Fault::Defect, position, expected)
}

/// Returns the report on a fault at a position of a source text, with the offset of that position in the text.
/// The only error is a failed allocation.
fn source_report(
    alloc: Global,
    source: RcStr,
    fault: &Fault,
    position: Position,
    expected: String,
) -> Result<FaultReport, AllocError>
    requires { HasPosition (rc_str_bytes source) position }
    ensures name { IfOk result (IsNamed (name_of_fault fault.now)) }
    ensures place { IfOk result (HasSourcePlace (rc_str_bytes source)) }
    ensures position { IfOk result (λ report. IsSomeAnd report.at (λ at. at.position ≡ position)) }
    ensures expected { IfOk result (λ report. string_bytes report.expected ≡ string_bytes expected) }
{
    let fault = String::from_str(alloc, fault.name())?;
    let pointer = String::from_str(alloc, "/source")?;
    let mut report = FaultReport::of_value(fault, pointer, expected);
    let text = SourceTextInfo::new(alloc, source)?;
    report.at = position
        .as_source_pos(&text)
        .map(|offset| TextPlace { position, offset });
    Ok(report)
}

/// Returns what is expected, as a noun phrase, by a message of the parser: what follows `expected ` in the
/// message, else valid syntax, with the message. The only error is a failed allocation.
fn expected_by(alloc: Global, message: &str) -> Result<String, AllocError>
    ensures { IfOk result (λ expected. IsExpectedBy message.now (string_bytes expected)) }
{
    match after_expected(message) {
        Some(expected) => String::from_str(alloc, expected),
        None => {
            let mut expected = String::from_str(alloc, "valid syntax: ")?;
            expected.push_str(message)?;
            Ok(expected)
        }
    }
}

/// Returns what follows `expected ` in a message. `None` where the message doesn't begin with that.
fn after_expected(message: &str) -> Option<&str>
    ensures { MatchOption result
        ((expected : List ℕ) → message.now ≢ codes "expected " ++ expected)
        (λ expected. message.now ≡ codes "expected " ++ expected.now) }
{
    message.strip_prefix("expected ")
}
