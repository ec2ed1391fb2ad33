//! Checking module documents.

ghost use Rattle.std.specs.Prelude.{◌≡◌, ℕ, IfOk, IfSome, IsNone, IsSomeAnd, List, None, Ok, Some};
ghost use Rattle.std.specs.Rc.{rc_str_bytes};
ghost use Rattle.serde_json.specs.Read.{read as read_text};
ghost use Rattle.deno_graph_json.specs.Data.{data_of, tape_data};
ghost use Rattle.url.specs.Parts.{Parts};
ghost use Rattle.url.specs.Parser.{parse_url};
ghost use Rattle.deno_graph_source.specs.Source.{HasFault, IsValid};
ghost use Rattle.modinfo_document.specs.Document.{Has, reads_document};
ghost use Rattle.modinfo_document.specs.Check.{IsFaultOf, IsModuleReport, ReportsIn};
ghost use Rattle.modinfo_document.specs.Spelling.{WarnsOfLiterals};

use crate::report::{
    Report, find_warnings, json_report_at, source_report, specifier_report, tree_report,
};
use crate::{Document, DocumentError, read_document};
use deno_graph_json::{Element, ReadError, Tape, TapeError};
use deno_graph_source::tree::{SourceFaultPlace, source_fault_place};
use json::Scratch;
use std::alloc::{AllocError, Global};

/// Checks a text as a module document. Returns `Valid` if its source can be analyzed, else `Invalid`
/// with the first fault. The only error is a failed allocation.
pub fn check_document(alloc: Global, text: &str) -> Result<Report, AllocError>
    ensures verdict { IfOk result (ReportsIn reads_document text.now) }
    ensures report { IfOk result (IsModuleReport text.now) }
    ensures warnings { IfOk result (WarnsOfLiterals text.now) }
{
    let mut scratch = Scratch::new(alloc);
    match Tape::read(alloc, text, &mut scratch) {
        Ok(tape) => check_tape(alloc, &tape),
        Err(TapeError::Json { offset }) => Ok(Report::Invalid(json_report_at(
            alloc, text, offset,
        )?)),
        Err(TapeError::OutOfMemory) => Err(AllocError),
    }
}

/// Checks the JSON of a document.
fn check_tape(alloc: Global, tape: &Tape<'_>) -> Result<Report, AllocError>
    ensures report { (text : List ℕ) → read_text text ≡ Some (tape_data tape.now)
        → IfOk result (IsModuleReport text) }
    ensures warnings { (text : List ℕ) → read_text text ≡ Some (tape_data tape.now)
        → IfOk result (WarnsOfLiterals text) }
{
    match read_document(alloc, tape.root()) {
        Ok(document) => check_parts(alloc, tape.root(), &document),
        Err(ReadError::Mismatch(mismatch)) => {
            Ok(Report::Invalid(tree_report(alloc, &mismatch)?))
        }
        Err(ReadError::OutOfMemory) => Err(AllocError),
    }
}

/// Checks the specifier of the document at `root`, and then the source.
fn check_parts(alloc: Global, root: Element<'_>, document: &Document) -> Result<Report, AllocError>
    ensures report { (text : List ℕ) → read_text text ≡ Some (data_of root.entry)
        → IsSomeAnd (reads_document (data_of root.entry)) (λ contents. Has contents document.now)
        → IfOk result (IsModuleReport text) }
    ensures warnings { (text : List ℕ) → read_text text ≡ Some (data_of root.entry)
        → IsSomeAnd (reads_document (data_of root.entry)) (λ contents. Has contents document.now)
        → IfOk result (WarnsOfLiterals text) }
{
    match document.url(alloc) {
        Ok(_) => check_source(alloc, root, document),
        Err(DocumentError::Specifier) => Ok(Report::Invalid(specifier_report(alloc)?)),
        Err(DocumentError::OutOfMemory) => Err(AllocError),
        Err(DocumentError::Json { .. } | DocumentError::Tree(_) | DocumentError::Source(_)) => {
            unreachable!()
        }
    }
}

/// Checks the tree and the comments of the document at `root` against the source text.
fn check_source(alloc: Global, root: Element<'_>, document: &Document) -> Result<Report, AllocError>
    ensures report { (text : List ℕ) → read_text text ≡ Some (data_of root.entry)
        → IsSomeAnd (reads_document (data_of root.entry)) (λ contents. Has contents document.now)
        → (url : Parts) → parse_url None document.now.specifier ≡ Ok url
        → IfOk result (IsModuleReport text) }
    ensures warnings { (text : List ℕ) → read_text text ≡ Some (data_of root.entry)
        → IsSomeAnd (reads_document (data_of root.entry)) (λ contents. Has contents document.now)
        → IfOk result (WarnsOfLiterals text) }
{
    match fault_place(alloc, document)? {
        Some(found) => Ok(Report::Invalid(source_report(alloc, root, document, &found)?)),
        None => Ok(Report::Valid(find_warnings(alloc, root, document)?)),
    }
}

/// The first fault of the source, if it has one. The only error is a failed allocation.
pub fn fault_place(
    alloc: Global,
    document: &Document,
) -> Result<Option<SourceFaultPlace>, AllocError>
    ensures valid { IfOk result (λ found. IsNone found
        → IsValid (rc_str_bytes document.now.source) document.now.program document.now.comments) }
    ensures fault { IfOk result (λ found. IfSome found (λ found.
        HasFault (rc_str_bytes document.now.source) document.now.program document.now.comments found.fault)) }
    ensures place { IfOk result (λ found. IfSome found (IsFaultOf document.now)) }
{
    let text = document.source.as_str();
    source_fault_place(alloc, text, &document.program, &document.comments)
}
