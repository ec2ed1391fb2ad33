//! Checking documents of `convert`.

ghost use Rattle.std.specs.Prelude.{IfOk};
ghost use Rattle.deno_graph_json.specs.Data.{data_of};
ghost use Rattle.modinfo_document.specs.Report.{HasNoWarnings};
ghost use Rattle.modinfo.specs.Check.{ReportsOnStored};
ghost use Rattle.modinfo.specs.internal.Check.{ReportsOnValue};

use crate::check::conversion::{float_report, report_columns};
use deno_graph_json::{Element, ReadError, Tape, TapeError, find_float};
use json::Scratch;
use modinfo_document::report::{Report, json_report_at};
use std::alloc::{AllocError, Global};

/// Checks a text as a document of `convert`: the stored information of one module. The only error is a
/// failed allocation.
pub fn check_stored(alloc: Global, text: &str) -> Result<Report, AllocError>
    ensures report { IfOk result (ReportsOnStored text.now) }
    ensures warnings { IfOk result HasNoWarnings }
{
    let mut scratch = Scratch::new(alloc);
    match Tape::read(alloc, text, &mut scratch) {
        Ok(tape) => report_stored(alloc, tape.root()),
        Err(TapeError::Json { offset }) => Ok(Report::Invalid(json_report_at(
            alloc, text, offset,
        )?)),
        Err(TapeError::OutOfMemory) => Err(AllocError),
    }
}

/// Checks the JSON of stored information.
fn report_stored(alloc: Global, value: Element<'_>) -> Result<Report, AllocError>
    ensures report { IfOk result (ReportsOnValue (data_of value.entry)) }
    ensures warnings { IfOk result HasNoWarnings }
{
    match find_float(alloc, value) {
        Ok(()) => report_columns(alloc, value),
        Err(ReadError::Mismatch(mismatch)) => Ok(Report::Invalid(float_report(alloc, &mismatch)?)),
        Err(ReadError::OutOfMemory) => Err(AllocError),
    }
}
