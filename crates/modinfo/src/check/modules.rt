//! Checking documents of `reach`.

ghost use Rattle.std.specs.Prelude.{IfOk};
ghost use Rattle.serde_json.specs.Data.{Data};
ghost use Rattle.deno_graph_base.specs.TextMap.{entries_of};
ghost use Rattle.deno_graph_json.specs.Data.{data_of};
ghost use Rattle.modinfo.specs.Check.{AsksSome, OfReport, ReportsOnQuestion, ReportsQuestion};
ghost use Rattle.modinfo.specs.Check.{WarnsOfModules, WarnsOfQuestion, WarnsOfRoot};
ghost use Rattle.modinfo.specs.Reach.{IsQuestionFault};
ghost use Rattle.modinfo.specs.internal.Reach.{IsErrorIn, IsFloatRead};

use crate::reach::{Question, QuestionError, read_question};
use deno_graph_json::{Element, ReadError, Tape, TapeError};
use deno_graph_source::values::TextMap;
use json::Scratch;
use modinfo_document::report::{
    FaultReport, Report, Warning, WarningKind, Warnings, json_report_at,
};
use std::alloc::{AllocError, Global};

/// Checks a text as a document of `reach`: a root, and the information on modules. Warns of a root that is
/// no key. The only error is a failed allocation.
pub fn check_modules(alloc: Global, text: &str) -> Result<Report, AllocError>
    ensures report { IfOk result (ReportsOnQuestion text.now) }
    ensures warnings { IfOk result (WarnsOfQuestion text.now) }
{
    let mut scratch = Scratch::new(alloc);
    match Tape::read(alloc, text, &mut scratch) {
        Ok(tape) => report_question(alloc, tape.root()),
        Err(TapeError::Json { offset }) => Ok(Report::Invalid(json_report_at(
            alloc, text, offset,
        )?)),
        Err(TapeError::OutOfMemory) => Err(AllocError),
    }
}

/// Checks the JSON of a document of `reach`.
fn report_question(alloc: Global, value: Element<'_>) -> Result<Report, AllocError>
    ensures report { IfOk result (OfReport (AsksSome (data_of value.entry)) (ReportsQuestion (data_of value.entry))) }
    ensures warnings { IfOk result (WarnsOfModules (data_of value.entry)) }
{
    match read_question(alloc, value) {
        Ok(question) => Ok(Report::Valid(root_warnings(alloc, question)?)),
        Err(error) => Ok(Report::Invalid(fault_report(alloc, &error)?)),
    }
}

/// The warnings about a document: one about a root that is no key. The only error is a failed allocation.
fn root_warnings(alloc: Global, question: Question) -> Result<Warnings, AllocError>
    ensures { IfOk result (WarnsOfRoot (entries_of question.infos) question.root) }
{
    let Question { infos, root } = question;
    let modules = TextMap::from_map(infos);
    if modules.get(root.as_str()).is_some() {
        return Ok(Warnings::new(alloc));
    }
    let pointer = String::from_str(alloc, "/root")?;
    Warnings::of_one(
        alloc,
        Warning {
            pointer,
            kind: WarningKind::UnknownRoot,
        },
    )
}

/// The report on a document with this error. The only error is a failed allocation.
fn fault_report(alloc: Global, error: &QuestionError) -> Result<FaultReport, AllocError>
    ensures { (value : Data) → IsErrorIn (IsQuestionFault value) value error.now
        → IsFloatRead value error.now → IfOk result (ReportsQuestion value) }
{
    match &error.error {
        ReadError::Mismatch(mismatch) => {
            let name = String::from_str(alloc, error.fault.name())?;
            FaultReport::of_mismatch(alloc, name, mismatch)
        }
        ReadError::OutOfMemory => Err(AllocError),
    }
}
