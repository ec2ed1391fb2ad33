//! Calls on JSDoc imports.

use crate::answer::{named, range_value, valued};
use crate::case_error::CaseError;
use deno_graph_analysis::jsdoc::{
    JsDocImport, NoParse, parse_jsdoc_dynamic_import, parse_jsdoc_import_decl, scan,
};
use deno_graph_info::analysis::TypeScriptTypesResolutionMode;
use serde_json::{Value, json};
use std::alloc::{AllocError, Global};

/// The result of a parser, or of the scan, for a text.
pub fn of_text(alloc: Global, name: &str, value: &Value) -> Result<String, CaseError> {
    let Some(text) = value.as_str() else {
        return Err(CaseError::Invalid("its input is no text"));
    };
    match name {
        "parse_jsdoc_import_decl" => parsed(alloc, parse_jsdoc_import_decl(text)),
        "parse_jsdoc_dynamic_import" => parsed(alloc, parse_jsdoc_dynamic_import(text)),
        _ => scanned(alloc, text),
    }
}

fn parsed(
    alloc: Global,
    found: Result<(&str, JsDocImport<'_>), NoParse>,
) -> Result<String, CaseError> {
    match found {
        Err(NoParse) => named(alloc, "NoParse"),
        Ok((rest, import)) => {
            let mode = mode_value(alloc, &import)?;
            let range = range_value(alloc, &import.specifier_range)?;
            let specifier = import.specifier;
            valued(
                alloc,
                &json!(in alloc; { "mode": mode, "range": range, "rest": rest, "specifier": specifier })?,
            )
        }
    }
}

fn scanned(alloc: Global, text: &str) -> Result<String, CaseError> {
    let found = scan(alloc, text)?;
    let mut imports = Vec::new(alloc);
    for import in found.imports.iter() {
        imports.push(import_value(alloc, import)?)?;
    }
    let (decl_starts, dynamic_starts) = (found.decl_starts, found.dynamic_starts);
    let imports = Value::Array(imports);
    valued(
        alloc,
        &json!(in alloc; { "declStarts": decl_starts, "dynamicStarts": dynamic_starts, "imports": imports })?,
    )
}

fn import_value(alloc: Global, import: &JsDocImport<'_>) -> Result<Value, AllocError> {
    let mode = mode_value(alloc, import)?;
    let range = range_value(alloc, &import.specifier_range)?;
    let specifier = import.specifier;
    json!(in alloc; { "mode": mode, "range": range, "specifier": specifier })
}

fn mode_value(alloc: Global, import: &JsDocImport<'_>) -> Result<Value, AllocError> {
    match import.resolution_mode {
        None => Ok(Value::Null),
        Some(TypeScriptTypesResolutionMode::Import) => json!(in alloc; "import"),
        Some(TypeScriptTypesResolutionMode::Require) => json!(in alloc; "require"),
    }
}
