//! Calls on arguments.

use crate::answer::valued;
use crate::case_error::CaseError;
use deno_graph_analysis::dep::{DynamicArgument, DynamicTemplatePart, argument_of};
use deno_graph_source::tree::ParsedSource;
use serde_json::{Value, json};
use std::alloc::{AllocError, Global};

/// The result of `argument_of` for the first node of the body.
pub fn argument(alloc: Global, source: &ParsedSource) -> Result<String, CaseError> {
    match first_argument(alloc, source)? {
        Some(argument) => valued(alloc, &argument_value(alloc, &argument)?),
        None => Err(CaseError::Invalid("its document has no node")),
    }
}

fn first_argument(
    alloc: Global,
    source: &ParsedSource,
) -> Result<Option<DynamicArgument<'_>>, AllocError> {
    match source.program().body.first() {
        Some(node) => Ok(Some(argument_of(alloc, node)?)),
        None => Ok(None),
    }
}

/// The JSON of an argument, null for an expression.
fn argument_value(alloc: Global, argument: &DynamicArgument<'_>) -> Result<Value, AllocError> {
    match argument {
        DynamicArgument::String(text) => Ok(Value::String(String::from_str(alloc, text)?)),
        DynamicArgument::Template(parts) => template_value(alloc, parts.as_slice()),
        DynamicArgument::Expr => Ok(Value::Null),
    }
}

fn template_value(alloc: Global, parts: &[DynamicTemplatePart<'_>]) -> Result<Value, AllocError> {
    let mut values = Vec::with_capacity(alloc, parts.len())?;
    for part in parts {
        values.push(part_value(alloc, part)?)?;
    }
    Ok(Value::Array(values))
}

fn part_value(alloc: Global, part: &DynamicTemplatePart<'_>) -> Result<Value, AllocError> {
    match part {
        DynamicTemplatePart::String(text) => {
            json!(in alloc; { "type": "string", "value": *text })
        }
        DynamicTemplatePart::Expr => json!(in alloc; { "type": "expr" }),
    }
}
