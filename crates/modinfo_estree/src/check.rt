//! Checking documents with the tree of a parser.

ghost use Rattle.std.specs.Prelude.{◌≡◌, ℕ, IfOk, List, None, Ok, Some};
ghost use Rattle.serde_json.specs.Read.{read as read_text};
ghost use Rattle.deno_graph_json.specs.Data.{tape_data};
ghost use Rattle.url.specs.Parts.{Parts};
ghost use Rattle.url.specs.Parser.{parse_url};
ghost use Rattle.modinfo_document.specs.Document.{IsDocumentIn};
ghost use Rattle.modinfo_document.specs.Check.{IsReportIn, points_nowhere};
ghost use Rattle.modinfo_document.specs.Report.{HasNoWarnings};
ghost use Rattle.modinfo_estree.specs.Document.{reads_estree};

use crate::document::read_estree;
use deno_graph_json::{ReadError, Tape, TapeError};
use json::Scratch;
use modinfo_document::report::{
    Report, Warnings, json_report_at, source_report_without_pointers, specifier_report, tree_report,
};
use modinfo_document::{Document, DocumentError, fault_place};
use std::alloc::{AllocError, Global};

/// Checks a text as a document with the tree of a parser. Returns `Valid`, without warnings, if its source
/// can be analyzed, else `Invalid` with the first fault. The only error is a failed allocation.
pub fn check_estree(alloc: Global, text: &str) -> Result<Report, AllocError>
    ensures report { IfOk result (IsReportIn reads_estree points_nowhere text.now) }
    ensures warnings { IfOk result HasNoWarnings }
{
    let mut scratch = Scratch::new(alloc);
    match Tape::read(alloc, text, &mut scratch) {
        Ok(tape) => check_tape(alloc, &tape),
        Err(TapeError::Json { offset }) => Ok(Report::Invalid(json_report_at(
            alloc, text, offset,
        )?)),
        Err(TapeError::OutOfMemory) => Err(AllocError),
    }
}

/// Checks the JSON of a document.
fn check_tape(alloc: Global, tape: &Tape<'_>) -> Result<Report, AllocError>
    ensures report { (text : List ℕ) → read_text text ≡ Some (tape_data tape.now)
        → IfOk result (IsReportIn reads_estree points_nowhere text) }
    ensures warnings { IfOk result HasNoWarnings }
{
    match read_estree(alloc, tape.root()) {
        Ok(document) => check_parts(alloc, &document),
        Err(ReadError::Mismatch(mismatch)) => {
            Ok(Report::Invalid(tree_report(alloc, &mismatch)?))
        }
        Err(ReadError::OutOfMemory) => Err(AllocError),
    }
}

/// Checks the specifier of a document, and then the source.
fn check_parts(alloc: Global, document: &Document) -> Result<Report, AllocError>
    ensures report { (text : List ℕ) → IsDocumentIn reads_estree text document.now
        → IfOk result (IsReportIn reads_estree points_nowhere text) }
    ensures warnings { IfOk result HasNoWarnings }
{
    match document.url(alloc) {
        Ok(_) => check_source(alloc, document),
        Err(DocumentError::Specifier) => Ok(Report::Invalid(specifier_report(alloc)?)),
        Err(DocumentError::OutOfMemory) => Err(AllocError),
        Err(DocumentError::Json { .. } | DocumentError::Tree(_) | DocumentError::Source(_)) => {
            unreachable!()
        }
    }
}

/// Checks the tree and the comments of a document against the source text.
fn check_source(alloc: Global, document: &Document) -> Result<Report, AllocError>
    ensures report { (text : List ℕ) → IsDocumentIn reads_estree text document.now
        → (url : Parts) → parse_url None document.now.specifier ≡ Ok url
        → IfOk result (IsReportIn reads_estree points_nowhere text) }
    ensures warnings { IfOk result HasNoWarnings }
{
    match fault_place(alloc, document)? {
        Some(found) => Ok(Report::Invalid(source_report_without_pointers(
            alloc, document, &found,
        )?)),
        None => Ok(Report::Valid(Warnings::new(alloc))),
    }
}
