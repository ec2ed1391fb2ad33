//! Reports on JSON that isn't a module document, and on a specifier that isn't a URL.

ghost use Rattle.std.specs.Prelude.{IfOk, codes};
ghost use Rattle.modinfo_document.specs.Place.{specifier_path};
ghost use Rattle.modinfo_document.specs.Report.{HasPath, IsNamed, Reports};

use crate::DocumentError;
use crate::report::FaultReport;
use deno_graph_json::{Mismatch, ReferenceToken, push_token};
use std::alloc::{AllocError, Global};

/// The report on JSON that isn't a document. The only error is a failed allocation.
pub fn tree_report(alloc: Global, mismatch: &Mismatch) -> Result<FaultReport, AllocError>
    ensures name { IfOk result (IsNamed (codes "Tree")) }
    ensures mismatch { IfOk result (Reports mismatch.now) }
{
    let fault = String::from_str(alloc, "Tree")?;
    FaultReport::of_mismatch(alloc, fault, mismatch)
}

/// The report on a specifier that isn't a URL. The only error is a failed allocation.
pub fn specifier_report(alloc: Global) -> Result<FaultReport, AllocError>
    ensures name { IfOk result (IsNamed (codes "Specifier")) }
    ensures path { IfOk result (HasPath specifier_path) }
{
    let fault = String::from_str(alloc, DocumentError::Specifier.name())?;
    let expected = String::from_str(alloc, "an absolute URL")?;
    let mut pointer = String::new(alloc);
    push_token(&mut pointer, ReferenceToken::Name("specifier"))?;
    Ok(FaultReport::of_value(fault, pointer, expected))
}
