//! The calls of test cases.

pub mod arguments;
pub mod attributes;
pub mod comments;
pub mod finders;
pub mod infos;
pub mod jsdoc;
pub mod modules;
pub mod parts;
pub mod serve;
pub mod specifiers;
pub mod texts;

use crate::case_error::CaseError;
use deno_graph_source::tree::ParsedSource;
use modinfo::parse_document;
use serde_json::Value;
use std::alloc::Global;

/// Makes the call of these words on this input. Returns the lines of the answer.
pub fn answer_of(alloc: Global, words: &[&str], input: &[u8]) -> Result<String, CaseError> {
    let Some((name, words)) = words.split_first() else {
        return Err(CaseError::Invalid("it calls nothing"));
    };
    match *name {
        "serve" => serve::serve(alloc, words, input),
        "both" => serve::both(alloc, words, input),
        "beginnings" => serve::beginnings(alloc, words, input),
        "from_specifier" => specifiers::from_specifier(alloc, text_of(input)?),
        name => of_json(alloc, name, words, input),
    }
}

/// Makes a call on an input of JSON.
pub fn of_json(
    alloc: Global,
    name: &str,
    words: &[&str],
    input: &[u8],
) -> Result<String, CaseError> {
    let text = text_of(input)?;
    match name {
        "js_string" => texts::js_string(alloc, text),
        "source_fault" => modules::fault(alloc, text),
        "source_fault_place" => modules::fault_place(alloc, text),
        name => of_value(alloc, name, words, text),
    }
}

/// The text of the input.
pub fn text_of(input: &[u8]) -> Result<&str, CaseError> {
    std::str::from_utf8(input).map_err(|_| CaseError::Invalid("its input is no UTF-8"))
}

/// Makes a call on a JSON value.
fn of_value(alloc: Global, name: &str, words: &[&str], text: &str) -> Result<String, CaseError> {
    let value = Value::from_str(alloc, text)?;
    of_parsed(alloc, name, words, text, &value)
}

/// Makes a call on a JSON value that was read from this text.
fn of_parsed(
    alloc: Global,
    name: &str,
    words: &[&str],
    text: &str,
    value: &Value,
) -> Result<String, CaseError> {
    match name {
        "parse_jsdoc_import_decl" | "parse_jsdoc_dynamic_import" | "scan" => {
            jsdoc::of_text(alloc, name, value)
        }
        "from_value" => infos::read(alloc, value),
        "module_graph_1_to_2" => infos::converted(alloc, value),
        "reach" => infos::reached(alloc, words, value),
        name if name.starts_with("find_") || name.starts_with("is_comment_") => {
            finders::find(alloc, name, value)
        }
        "from_source_pos"
        | "as_source_pos"
        | "from_source_range"
        | "as_source_range"
        | "range_text" => { texts::of_positions(alloc, name, words, value) }
        name => of_document(alloc, name, text),
    }
}

/// Makes a call on the source of a module document.
fn of_document(alloc: Global, name: &str, text: &str) -> Result<String, CaseError> {
    let source = parse_document(alloc, text)?.into_source(alloc)?;
    of_source(alloc, name, &source)
}

/// Makes a call on a source.
fn of_source(alloc: Global, name: &str, source: &ParsedSource) -> Result<String, CaseError> {
    match name {
        "argument_of" => arguments::argument(alloc, source),
        "parse_dynamic_import_attributes" => attributes::of_call(alloc, source),
        "parse_import_attributes" => attributes::of_declaration(alloc, source),
        "parse_import_attributes_from_object_lit" => attributes::of_object(alloc, source),
        "has_asset" => attributes::has_asset(alloc, source),
        "comments" => comments::filed(alloc, source),
        "jsdoc_imports" => parts::imports(alloc, source),
        "analyze_ts_or_deno_types" => parts::types(alloc, source),
        "media_type" => modules::media_type(alloc, source),
        "every_way" => modules::every_way(alloc, source),
        _ => Err(CaseError::Invalid("it calls nothing that is known")),
    }
}
