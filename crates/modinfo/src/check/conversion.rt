//! Reports on stored information that can't be converted.

ghost use Rattle.std.specs.Prelude.{◌≡◌, ◌↔◌, ◌-◌, IfOk, IfSome, IsSome, IsSomeAnd, IsTrue, Some, codes};
ghost use Rattle.std.specs.Prelude.{false, option_map};
ghost use Rattle.std.specs.String.{string_bytes};
ghost use Rattle.serde_json.specs.Data.{Items};
ghost use Rattle.serde_json.specs.Events.{items_len};
ghost use Rattle.serde_json.specs.Find.{get_item};
ghost use Rattle.serde_json.specs.Written.{has_float};
ghost use Rattle.deno_graph_json.specs.Data.{data_of, elements_data};
ghost use Rattle.deno_graph_info.specs.Conversion.{AnyOverflows, DependencyOverflows, Overflows, dependencies_in};
ghost use Rattle.modinfo_document.specs.Pointer.{pointer_text};
ghost use Rattle.modinfo_document.specs.Report.{HasNoWarnings, IsNamed, Reports};
ghost use Rattle.modinfo.specs.Check.{PointsToColumn, array_in, column_path};
ghost use Rattle.modinfo.specs.internal.Check.{ReportsOnValue};

use deno_graph_info::analysis::{ConvertFault, laws};
use deno_graph_info::conversion::change_of;
use deno_graph_json::{Element, Elements, Expected, Mismatch, ReferenceToken, push_token};
use modinfo_document::report::{FaultReport, Report, Warnings};
use std::alloc::{AllocError, Global};

/// The report on the first float. The only error is a failed allocation.
pub fn float_report(alloc: Global, mismatch: &Mismatch) -> Result<FaultReport, AllocError>
    ensures name { IfOk result (IsNamed (codes "Float")) }
    ensures mismatch { IfOk result (Reports mismatch.now) }
{
    let name = String::from_str(alloc, ConvertFault::Float.name())?;
    FaultReport::of_mismatch(alloc, name, mismatch)
}

/// Checks the columns of stored information without a float. The only error is a failed allocation.
pub fn report_columns(alloc: Global, value: Element<'_>) -> Result<Report, AllocError>
    ensures report { has_float (data_of value.entry) ≡ false
        → IfOk result (ReportsOnValue (data_of value.entry)) }
    ensures warnings { IfOk result HasNoWarnings }
{
    laws::conversion_has_one_outcome();
    match column_report(alloc, value)? {
        Some(report) => Ok(Report::Invalid(report)),
        None => Ok(Report::Valid(Warnings::new(alloc))),
    }
}

/// The report on the first dependency whose types would end after the largest column, if there is one.
fn column_report(alloc: Global, value: Element<'_>) -> Result<Option<FaultReport>, AllocError>
    ensures fault { IfOk result (λ report. IsSome report ↔ Overflows (data_of value.entry)) }
    ensures name { IfOk result (λ report. IfSome report (IsNamed (codes "ColumnOverflow"))) }
    ensures column { IfOk result (λ report. IfSome report (λ found.
        IsSomeAnd (dependencies_in (data_of value.entry)) (λ items. PointsToColumn items found))) }
{
    match array_at(value, "dependencies") {
        Some(dependencies) => first_overflow(alloc, dependencies),
        None => Ok(None),
    }
}

/// The report on the first of these dependencies whose types would end after the largest column, if there
/// is one.
fn first_overflow(
    alloc: Global,
    dependencies: Elements<'_>,
) -> Result<Option<FaultReport>, AllocError>
    ensures fault { IfOk result (λ report. IsSome report ↔ AnyOverflows (elements_data dependencies.entry)) }
    ensures name { IfOk result (λ report. IfSome report (IsNamed (codes "ColumnOverflow"))) }
    ensures column { IfOk result (λ report.
        IfSome report (PointsToColumn (elements_data dependencies.entry))) }
{
    let mut number = 0usize;
    for dependency in dependencies {
        if overflows(alloc, dependency)? {
            return Ok(Some(overflow_report(alloc, dependency, number)?));
        }
        number += 1;
    }
    Ok(None)
}

/// Returns whether the types that the comments of a dependency name would end after the largest column.
fn overflows(alloc: Global, dependency: Element<'_>) -> Result<bool, AllocError>
    ensures { IfOk result
        (λ overflows. IsTrue overflows ↔ DependencyOverflows (data_of dependency.entry)) }
{
    match change_of(alloc, dependency) {
        Ok(_change) => Ok(false),
        Err(ConvertFault::ColumnOverflow) => Ok(true),
        Err(ConvertFault::OutOfMemory) => Err(AllocError),
        Err(ConvertFault::Float) => unreachable!(),
    }
}

/// The report on the dependency with this index. Its pointer leads to the column at which the last
/// comment of the dependency starts.
fn overflow_report(
    alloc: Global,
    dependency: Element<'_>,
    number: usize,
) -> Result<FaultReport, AllocError>
    ensures name { IfOk result (IsNamed (codes "ColumnOverflow")) }
    ensures column { (dependencies : Items) → get_item number dependencies ≡ Some (data_of dependency.entry)
        → DependencyOverflows (data_of dependency.entry) → IfOk result (PointsToColumn dependencies) }
{
    let name = String::from_str(alloc, ConvertFault::ColumnOverflow.name())?;
    let pointer = column_pointer(alloc, number, last_comment(dependency))?;
    let expected = Expected::Column.to_words(alloc)?;
    Ok(FaultReport::of_value(name, pointer, expected))
}

/// Returns the JSON Pointer of the column at which a comment of a dependency begins, by the indices of both.
fn column_pointer(alloc: Global, number: usize, comment: usize) -> Result<String, AllocError>
    ensures { IfOk result (λ pointer. string_bytes pointer ≡ pointer_text (column_path number comment)) }
{
    let mut pointer = String::new(alloc);
    push_token(&mut pointer, ReferenceToken::Name("dependencies"))?;
    push_token(&mut pointer, ReferenceToken::Index(number))?;
    push_token(&mut pointer, ReferenceToken::Name("leadingComments"))?;
    push_token(&mut pointer, ReferenceToken::Index(comment))?;
    push_token(&mut pointer, ReferenceToken::Name("range"))?;
    push_token(&mut pointer, ReferenceToken::Index(0))?;
    push_token(&mut pointer, ReferenceToken::Index(1))?;
    Ok(pointer)
}

/// Returns the index of the last leading comment of a dependency, 0 if there is none.
fn last_comment(dependency: Element<'_>) -> usize
    ensures { (comments : Items)
        → array_in (codes "leadingComments") (data_of dependency.entry) ≡ Some comments
        → result ≡ items_len comments - 1 }
{
    match array_at(dependency, "leadingComments") {
        Some(comments) => comments.len().saturating_sub(1),
        None => 0,
    }
}

/// The elements of the member of this name, an array.
fn array_at<'a>(value: Element<'a>, name: &str) -> Option<Elements<'a>>
    ensures { option_map elements_data result ≡ array_in name.now (data_of value.entry) }
{
    value.members()?.get(name)?.elements()
}
