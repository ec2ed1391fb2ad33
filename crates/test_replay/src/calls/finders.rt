//! Calls of the finders of pragmas.

use crate::answer::{named, range_value, valued};
use crate::case_error::CaseError;
use deno_graph_info::analysis::{
    Match, find_deno_types, find_jsx_import_source, find_jsx_import_source_types,
    find_path_reference, find_resolution_mode, find_source_mapping_url, find_ts_self_types,
    find_ts_types, find_types_reference, is_comment_triple_slash_reference,
};
use serde_json::{Value, json};
use std::alloc::Global;

/// The result of the finder of this name for a text.
pub fn find(alloc: Global, name: &str, value: &Value) -> Result<String, CaseError> {
    let Some(text) = value.as_str() else {
        return Err(CaseError::Invalid("its input is no text"));
    };
    match name {
        "is_comment_triple_slash_reference" => {
            named(
                alloc,
                if is_comment_triple_slash_reference(text) {
                    "true"
                } else {
                    "false"
                },
            )
        }
        "find_deno_types" => match find_deno_types(text) {
            None => named(alloc, "null"),
            Some(found) => {
                let range = range_value(alloc, &found.range)?;
                let (quoteless, text) = (found.is_quoteless, found.text);
                valued(
                    alloc,
                    &json!(in alloc; { "quoteless": quoteless, "range": range, "text": text })?,
                )
            }
        },
        "find_path_reference" => matched(alloc, find_path_reference(text)),
        "find_types_reference" => matched(alloc, find_types_reference(text)),
        "find_resolution_mode" => matched(alloc, find_resolution_mode(text)),
        "find_jsx_import_source" => matched(alloc, find_jsx_import_source(text)),
        "find_jsx_import_source_types" => matched(alloc, find_jsx_import_source_types(text)),
        "find_source_mapping_url" => matched(alloc, find_source_mapping_url(text)),
        "find_ts_self_types" => matched(alloc, find_ts_self_types(text)),
        "find_ts_types" => matched(alloc, find_ts_types(text)),
        _ => Err(CaseError::Invalid("it calls nothing that is known")),
    }
}

fn matched(alloc: Global, found: Option<Match<'_>>) -> Result<String, CaseError> {
    match found {
        None => named(alloc, "null"),
        Some(found) => {
            let range = range_value(alloc, &found.range())?;
            let text = found.as_str();
            valued(alloc, &json!(in alloc; { "range": range, "text": text })?)
        }
    }
}
