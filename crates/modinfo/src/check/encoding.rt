//! Reports on bytes that aren't UTF-8.

ghost use Rattle.std.specs.Prelude.{IfOk};
ghost use Rattle.std.specs.Str.{IsValidUpTo};
ghost use Rattle.modinfo.specs.Check.{OfReport, ReportsEncoding};

use crate::fault::Fault;
use modinfo_document::report::{FaultReport, Report, TextPlace};
use simdutf8::basic;
use std::alloc::{AllocError, Global};

/// The report on bytes of which only the first `valid` are UTF-8. The only error is a failed
/// allocation.
pub fn report_invalid_utf8(alloc: Global, bytes: &[u8], valid: usize) -> Result<Report, AllocError>
    ensures { IsValidUpTo bytes.now valid → IfOk result (OfReport ⊥ (ReportsEncoding bytes.now)) }
{
    let before = bytes.get(..valid).unwrap_or(&[]);
    let text = basic::from_utf8(before).unwrap_or("");
    let at = TextPlace::new(text, text.len());
    let fault = String::from_str(alloc, Fault::Input.name())?;
    let expected = String::from_str(alloc, "UTF-8")?;
    Ok(Report::Invalid(FaultReport::of_text(fault, at, expected)))
}
