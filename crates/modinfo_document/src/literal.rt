//! Reading ranges, strings and string literals.

ghost use Rattle.serde_json.specs.Data.{array};
ghost use Rattle.deno_graph_json.specs.Data.{data_of, elements_data};
ghost use Rattle.deno_graph_json.specs.Read.Result.{IsReadResult};
ghost use Rattle.modinfo_document.specs.Literal.{reads_literal, reads_source_range, reads_string, reads_unit};
ghost use Rattle.modinfo_document.specs.Literal.{reads_units};

use crate::document::Document;
use deno_graph_json::read::read_items;
use deno_graph_json::{Element, Elements, Expected, FromJson, ObjectReader, ReadError, View};
use deno_graph_source::text::{JsString, SourceRange};
use deno_graph_source::tree::StrLit;
use deno_graph_source::values::Items;
use std::alloc::Global;

/// Reads a range, `[START,END]`: two offsets, in bytes.
impl FromJson<Document> for SourceRange {
    ghost reads = { reads_source_range };

    fn from_json(alloc: Global, value: Element<'_>) -> Result<SourceRange, ReadError> {
        match value.as_pair() {
            Some((start, end)) => Ok(SourceRange {
                start: start as usize,
                end: end as usize,
            }),
            None => Err(ReadError::expected(alloc, Expected::Offsets)),
        }
    }
}

/// Reads a string literal, `{"value":STRING,"range":[START,END]}`.
impl FromJson<Document> for StrLit {
    ghost reads = { reads_literal };

    #[tactic(auto, using(deno_graph_json::proofs::Reading::reading), unfolding(crate::specs::Literal::reads_literal))]
    fn from_json(alloc: Global, value: Element<'_>) -> Result<StrLit, ReadError> {
        let object = ObjectReader::<Document>::new(alloc, value)?;
        let mut found = [None; 2];
        object.find(&["range", "value"], &mut found);
        let range = object.read_found("range", found[0])?;
        let value = object.read_found("value", found[1])?;
        Ok(StrLit { value, range })
    }
}

/// Reads a JavaScript string: a string, or an array of UTF-16 code units.
impl FromJson<Document> for JsString {
    ghost reads = { reads_string };

    fn from_json(alloc: Global, value: Element<'_>) -> Result<JsString, ReadError> {
        read_string(alloc, value)
    }
}

/// Reads a JavaScript string: a string, or an array of UTF-16 code units.
#[tactic(auto, unfolding(crate::specs::Literal::reads_string))]
pub fn read_string(alloc: Global, value: Element<'_>) -> Result<JsString, ReadError>
    ensures { IsReadResult (data_of value.entry) (reads_string (data_of value.entry)) result }
{
    match value.view() {
        View::String(text) => Ok(JsString::from_str(alloc, text)?),
        View::Array(values) => read_units(alloc, values),
        _ => Err(ReadError::expected(alloc, Expected::JsString)),
    }
}

/// Reads UTF-16 code units.
#[tactic(auto, using(deno_graph_json::proofs::Reading::reading), unfolding(crate::specs::Literal::reads_units))]
fn read_units(alloc: Global, values: Elements<'_>) -> Result<JsString, ReadError>
    ensures { IsReadResult (array (elements_data values.entry))
        (reads_units (elements_data values.entry)) result }
{
    let units: Items<u16> = read_items(alloc, values)?;
    Ok(JsString::from_units(alloc, units.as_slice())?)
}

/// Reads a UTF-16 code unit.
impl FromJson<Document> for u16 {
    ghost reads = { reads_unit };

    #[tactic(auto, unfolding(crate::specs::Literal::reads_unit, deno_graph_json::specs::Read::Partial::as_usize))]
    fn from_json(alloc: Global, value: Element<'_>) -> Result<u16, ReadError> {
        match value.view() {
            View::Whole(unit) if unit < 65536 => Ok(unit as u16),
            _ => Err(ReadError::expected(alloc, Expected::Unit)),
        }
    }
}
