//! Reports on texts that aren't JSON.

ghost use Rattle.std.specs.Prelude.{IfOk, codes};
ghost use Rattle.modinfo_document.specs.ExpectedJson.{HasJsonPlace};
ghost use Rattle.modinfo_document.specs.Report.{IsNamed};

use crate::DocumentError;
use crate::report::FaultReport;
use crate::report::expected_json::expected_json;
use crate::report::text_place::TextPlace;
use crate::report::token::invalid_byte;
use std::alloc::{AllocError, Global};

/// The report on a text that isn't JSON, whose invalid token starts at `start`, in bytes. The only
/// error is a failed allocation.
pub fn json_report_at(alloc: Global, text: &str, start: usize) -> Result<FaultReport, AllocError>
    ensures name { IfOk result (IsNamed (codes "Json")) }
    ensures place { IfOk result (HasJsonPlace text.now) }
{
    let start = start.min(text.len());
    let offset = invalid_byte(text, start);
    let fault = String::from_str(alloc, DocumentError::Json { offset }.name())?;
    let expected = String::from_str(alloc, expected_json(alloc, text, start)?)?;
    Ok(FaultReport::of_text(fault, TextPlace::new(text, offset), expected))
}
