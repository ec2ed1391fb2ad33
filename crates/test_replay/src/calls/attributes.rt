//! Calls on import attributes.

use crate::answer::{named, valued};
use crate::case_error::CaseError;
use deno_graph_analysis::dep::{
    parse_dynamic_import_attributes, parse_import_attributes,
    parse_import_attributes_from_object_lit,
};
use deno_graph_info::analysis::{ImportAttribute, ImportAttributes};
use deno_graph_source::tree::{Arg, Callee, Kind, Node, ParsedSource};
use deno_graph_source::values::TextMap;
use serde_json::{Map, Value, json};
use std::alloc::{AllocError, Global};

/// The result of `parse_dynamic_import_attributes` for the first node of the body, a call.
pub fn of_call(alloc: Global, source: &ParsedSource) -> Result<String, CaseError> {
    let Some(call) = source.program().body.first() else {
        return Err(CaseError::Invalid("its document has no node"));
    };
    let found = parse_dynamic_import_attributes(alloc, second_argument(call))?;
    answer(alloc, &found)
}

/// The results of `parse_import_attributes` for the first node of the body, an object, and without a
/// node.
pub fn of_declaration(alloc: Global, source: &ParsedSource) -> Result<String, CaseError> {
    let found = parse_import_attributes(alloc, source.program().body.first())?;
    answer(alloc, &found)
}

/// The result of `parse_import_attributes_from_object_lit` for the first node of the body, an object.
pub fn of_object(alloc: Global, source: &ParsedSource) -> Result<String, CaseError> {
    let found = attributes_of_object(alloc, source)?;
    answer(alloc, &found)
}

/// The result of `has_asset` for the attributes in the first node of the body, an object of an import
/// type.
pub fn has_asset(alloc: Global, source: &ParsedSource) -> Result<String, CaseError> {
    let found = attributes_of_object(alloc, source)?;
    named(alloc, if found.has_asset() { "true" } else { "false" })
}

fn attributes_of_object(
    alloc: Global,
    source: &ParsedSource,
) -> Result<ImportAttributes, CaseError> {
    let Some(object) = source.program().body.first() else {
        return Err(CaseError::Invalid("its document has no node"));
    };
    Ok(parse_import_attributes_from_object_lit(alloc, object)?)
}

/// The second argument of a call, and the node of that argument.
fn second_argument(call: &Node) -> Option<(&Arg, &Node)> {
    let Kind::Call { callee, args } = &call.kind else {
        return None;
    };
    let at = match callee {
        Callee::Expr => 2,
        _ => 1,
    };
    args.get(1).zip(call.children.get(at))
}

/// The JSON of attributes, `"none"` if there are none.
fn answer(alloc: Global, found: &ImportAttributes) -> Result<String, CaseError> {
    match found {
        ImportAttributes::None => named(alloc, "\"none\""),
        ImportAttributes::Unknown => named(alloc, "\"unknown\""),
        ImportAttributes::Known(entries) => {
            let known = Value::Object(known(alloc, entries)?);
            valued(alloc, &json!(in alloc; { "known": known })?)
        }
    }
}

fn known(
    alloc: Global,
    entries: &TextMap<ImportAttribute>,
) -> Result<Map<String, Value>, AllocError> {
    let mut map = Map::new(alloc);
    for (key, value) in entries.iter() {
        let value = match value {
            ImportAttribute::Known(text) => Value::String(String::from_str(alloc, text.as_str())?),
            ImportAttribute::Unknown => Value::Null,
        };
        drop(map.insert(String::from_str(alloc, key)?, value)?);
    }
    Ok(map)
}
