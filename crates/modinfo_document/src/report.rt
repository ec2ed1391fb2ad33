//! Reports on documents: the fault of a document, and where it is. docs/FORMATS.md describes them.

ghost use Rattle.std.specs.Prelude.{◌≡◌, ◌↔◌, ◌==◌, IfOk, IsTrue, None, OnOk, Some, codes, option_map};
ghost use Rattle.std.specs.String.{string_bytes};
ghost use Rattle.json.specs.Json.{string};
ghost use Rattle.json.specs.Tree.{json_tokens};
ghost use Rattle.deno_graph_json.specs.Object.{unless};
ghost use Rattle.deno_graph_json.specs.Text.{text_in, with_tokens};
ghost use Rattle.modinfo_document.specs.Report.{LetsPass, Reports};
ghost use Rattle.modinfo_document.specs.ReportText.{json_of_count, json_of_fault, json_of_offsets};
ghost use Rattle.modinfo_document.specs.ReportText.{json_of_place, json_of_valid, json_of_warning};
ghost use Rattle.modinfo_document.specs.ReportText.{json_of_warnings, report_text};
ghost use Rattle.modinfo_document.specs.internal.ReportText.{member_tokens};

mod comment;
mod expected_json;
mod place;
mod pointer;
mod source;
mod spelling;
mod syntax;
mod text_place;
mod token;
mod tree;
mod warning;
mod warnings;

use crate::report::pointer::pointer_of;
use deno_graph_json::{Mismatch, Writer, into_text, new_writer};
use deno_graph_source::text::SourceRange;
pub(crate) use source::source_report;
pub use source::source_report_without_pointers;
use std::alloc::{AllocError, Global};
pub use syntax::json_report_at;
pub use text_place::TextPlace;
pub use tree::{specifier_report, tree_report};
pub use warning::{ValueWarning, Warning, WarningKind, Warnings};
pub(crate) use warnings::find_warnings;

/// The fault of a document.
#[derive(Debug, PartialEq, Eq, Drop)]
pub struct FaultReport {
    /// The name of the fault, as the program prints it.
    pub fault: String,
    /// The JSON Pointer of the faulty value. `None` for `Json` and `Input`, and for a fault of the source that
    /// a parser's tree has.
    pub pointer: Option<String>,
    /// The JSON Pointer of the other value, if two values don't go together.
    pub other: Option<String>,
    /// The faulty range, or the range of the faulty node or comment: two offsets in bytes.
    pub range: Option<SourceRange>,
    /// For `Json` and `Input`: the place of the first byte that isn't JSON or UTF-8. For `Syntax`: the place in
    /// the source text.
    pub at: Option<TextPlace>,
    /// What is expected in place of the value or the byte, in words.
    pub expected: String,
}

impl FaultReport {
    /// The report on the value to which this JSON Pointer leads.
    pub fn of_value(fault: String, pointer: String, expected: String) -> FaultReport
        ensures fault { result.fault ≡ fault }
        ensures pointer { result.pointer ≡ Some pointer }
        ensures other { result.other ≡ None }
        ensures range { result.range ≡ None }
        ensures at { result.at ≡ None }
        ensures expected { result.expected ≡ expected }
    {
        FaultReport {
            fault,
            pointer: Some(pointer),
            other: None,
            range: None,
            at: None,
            expected,
        }
    }

    /// The report on a value that isn't what is expected there. The only error is a failed allocation.
    pub fn of_mismatch(
        alloc: Global,
        fault: String,
        mismatch: &Mismatch,
    ) -> Result<FaultReport, AllocError>
        ensures fault { IfOk result (λ report. report.fault ≡ fault) }
        ensures mismatch { IfOk result (Reports mismatch.now) }
    {
        let pointer = pointer_of(alloc, &mismatch.path)?;
        let expected = mismatch.expected.to_words(alloc)?;
        Ok(FaultReport::of_value(fault, pointer, expected))
    }

    /// The report on a text with an invalid byte at this place.
    pub fn of_text(fault: String, at: TextPlace, expected: String) -> FaultReport
        ensures fault { result.fault ≡ fault }
        ensures pointer { result.pointer ≡ None }
        ensures other { result.other ≡ None }
        ensures range { result.range ≡ None }
        ensures at { result.at ≡ Some at }
        ensures expected { result.expected ≡ expected }
    {
        FaultReport {
            fault,
            pointer: None,
            other: None,
            range: None,
            at: Some(at),
            expected,
        }
    }
}

/// The result of a check.
#[derive(Debug, PartialEq, Eq, Drop)]
pub enum Report {
    /// The document is valid.
    Valid(Warnings),
    /// The document has a fault.
    Invalid(FaultReport),
}

impl Report {
    /// Returns whether the check passed: the document is valid and, if the check is strict, has no warnings.
    pub fn passes(&self, is_strict: bool) -> bool
        ensures { IsTrue result ↔ LetsPass is_strict self.now }
    {
        match self {
            Report::Valid(warnings) => !is_strict || warnings.is_empty(),
            Report::Invalid(_) => false,
        }
    }

    /// The report as one line of JSON, without a line feed. The only error is a failed allocation.
    pub fn to_line(&self, alloc: Global) -> Result<String, AllocError>
        ensures { IfOk result (λ line. string_bytes line ≡ report_text self.now) }
    {
        let mut line = new_writer(alloc)?;
        match self {
            Report::Valid(warnings) => write_valid(&mut line, warnings)?,
            Report::Invalid(fault) => write_fault(&mut line, fault)?,
        }
        Ok(into_text(line))
    }
}

fn write_fault(line: &mut Writer, report: &FaultReport) -> Result<(), AllocError>
    ensures { OnOk result
        (text_in line.new ≡ with_tokens (json_tokens (json_of_fault report.now)) (text_in line.old)) }
{
    line.begin_object()?;
    write_member(line, "fault", report.fault.as_str())?;
    write_pointer(line, "pointer", &report.pointer)?;
    write_pointer(line, "other", &report.other)?;
    write_range(line, report.range)?;
    write_text_place(line, report.at)?;
    write_member(line, "expected", report.expected.as_str())?;
    line.end_object()
}

fn write_pointer(line: &mut Writer, name: &str, pointer: &Option<String>) -> Result<(), AllocError>
    ensures { OnOk result (text_in line.new ≡ with_tokens (member_tokens name.now
        (option_map (λ pointer. string (string_bytes pointer)) pointer.now)) (text_in line.old)) }
{
    match pointer {
        Some(pointer) => write_member(line, name, pointer.as_str()),
        None => Ok(()),
    }
}

fn write_range(line: &mut Writer, range: Option<SourceRange>) -> Result<(), AllocError>
    ensures { OnOk result (text_in line.new ≡ with_tokens
        (member_tokens (codes "range") (option_map json_of_offsets range)) (text_in line.old)) }
{
    let Some(range) = range else {
        return Ok(());
    };
    line.key("range")?;
    line.begin_array()?;
    line.u64(range.start as u64)?;
    line.u64(range.end as u64)?;
    line.end_array()
}

fn write_text_place(line: &mut Writer, at: Option<TextPlace>) -> Result<(), AllocError>
    ensures { OnOk result (text_in line.new ≡ with_tokens
        (member_tokens (codes "at") (option_map json_of_place at)) (text_in line.old)) }
{
    let Some(at) = at else {
        return Ok(());
    };
    line.key("at")?;
    write_place(line, at)
}

fn write_place(line: &mut Writer, at: TextPlace) -> Result<(), AllocError>
    ensures { OnOk result
        (text_in line.new ≡ with_tokens (json_tokens (json_of_place at)) (text_in line.old)) }
{
    line.begin_object()?;
    write_count(line, "line", at.position.line)?;
    write_count(line, "column", at.position.character)?;
    write_count(line, "offset", at.offset)?;
    line.end_object()
}

fn write_valid(line: &mut Writer, warnings: &Warnings) -> Result<(), AllocError>
    ensures { OnOk result
        (text_in line.new ≡ with_tokens (json_tokens (json_of_valid warnings.now)) (text_in line.old)) }
{
    line.begin_object()?;
    line.key("valid")?;
    line.boolean(true)?;
    if !warnings.kept.is_empty() {
        line.key("warnings")?;
        write_kept(line, warnings.kept.as_slice())?;
    }
    if warnings.more != 0 {
        write_count(line, "more", warnings.more)?;
    }
    line.end_object()
}

fn write_kept(line: &mut Writer, kept: &[Warning]) -> Result<(), AllocError>
    ensures { OnOk result
        (text_in line.new ≡ with_tokens (json_tokens (json_of_warnings kept.now)) (text_in line.old)) }
{
    line.begin_array()?;
    for warning in kept {
        write_warning(line, warning)?;
    }
    line.end_array()
}

fn write_warning(line: &mut Writer, warning: &Warning) -> Result<(), AllocError>
    ensures { OnOk result
        (text_in line.new ≡ with_tokens (json_tokens (json_of_warning warning.now)) (text_in line.old)) }
{
    line.begin_object()?;
    write_member(line, "pointer", warning.pointer.as_str())?;
    write_member(line, "says", warning.kind.words())?;
    line.end_object()
}

fn write_count(line: &mut Writer, name: &str, count: usize) -> Result<(), AllocError>
    ensures { OnOk result (text_in line.new ≡ with_tokens
        (member_tokens name.now (Some (json_of_count count))) (text_in line.old)) }
{
    line.key(name)?;
    line.u64(count as u64)
}

fn write_member(line: &mut Writer, name: &str, text: &str) -> Result<(), AllocError>
    ensures { OnOk result (text_in line.new ≡ with_tokens
        (member_tokens name.now (Some (string text.now))) (text_in line.old)) }
{
    line.key(name)?;
    line.string(text)
}
