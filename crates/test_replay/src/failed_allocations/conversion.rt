//! `module_graph_1_to_2`.

use crate::case_error::CaseError;
use crate::failed_allocations::outcome::Outcome;
use deno_graph_info::analysis::{ConvertFault, module_graph_1_to_2};
use serde_json::Value;
use std::alloc::Global;

const STORED: &str =
    r#"{"dependencies":[{"leadingComments":[{"range":[[0,0],[0,25]],"text":" @deno-types=\"./a.d.ts\""}],"specifier":"./a.js"},{"leadingComments":[],"specifier":"./b.js"},{"leadingComments":[{"range":[[2,4],[2,25]],"text":" @deno-types=./c.d.ts"}],"specifier":"./c.js"}]}"#;

const CONVERTED: &str =
    r#"{"dependencies":[{"specifier":"./a.js","typesSpecifier":{"range":[[0,15],[0,25]],"text":"./a.d.ts"}},{"specifier":"./b.js"},{"specifier":"./c.js","typesSpecifier":{"range":[[2,18],[2,28]],"text":"./c.d.ts"}}]}"#;

/// A failed conversion leaves the value unchanged.
pub fn convert(alloc: Global) -> Result<Outcome, CaseError> {
    let stored = Value::from_str(alloc, STORED)?;
    let converted = Value::from_str(alloc, CONVERTED)?;
    let mut value = stored.clone()?;
    convert_copy(alloc, &mut value, &stored, &converted)
}

fn convert_copy(
    alloc: Global,
    value: &mut Value,
    stored: &Value,
    converted: &Value,
) -> Result<Outcome, CaseError> {
    match module_graph_1_to_2(alloc, value) {
        Ok(()) => Outcome::Returned.provided(*value == *converted, "the value isn't converted"),
        Err(ConvertFault::OutOfMemory) => {
            Outcome::OutOfMemory.provided(
                *value == *stored,
                "a failed conversion changed the value",
            )
        }
        Err(_) => Err(CaseError::Unexpected("the value isn't read")),
    }
}
