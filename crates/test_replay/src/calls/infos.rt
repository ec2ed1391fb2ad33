//! Calls on the information on modules.

use crate::answer::{named, valued};
use crate::case_error::CaseError;
use deno_graph_info::analysis::{
    ConvertFault, InfoFault, ModuleInfo, converted_text, module_graph_1_to_2,
};
use deno_graph_info::reach::reach;
use deno_graph_json::Tape;
use serde_json::{Map, Value};
use std::alloc::{AllocError, Global};
use std::collections::BTreeMap;

// What is called in a function of its own leaves its contract there: no caller's proof needs it.

pub fn from_value(alloc: Global, value: &Value) -> Result<ModuleInfo, InfoFault> {
    ModuleInfo::from_value(alloc, value)
}

pub fn to_value(alloc: Global, info: &ModuleInfo) -> Result<Value, AllocError> {
    info.to_value(alloc)
}

fn convert(alloc: Global, value: &mut Value) -> Result<(), ConvertFault> {
    module_graph_1_to_2(alloc, value)
}

fn convert_to_text(alloc: Global, value: &Value) -> Result<String, ConvertFault> {
    let tape = Tape::from_value(alloc, value)?;
    converted_text(alloc, tape.root())
}

/// The JSON of the result of `from_value`.
pub fn read(alloc: Global, value: &Value) -> Result<String, CaseError> {
    match from_value(alloc, value) {
        Ok(info) => written(alloc, &info),
        Err(InfoFault::OutOfMemory) => Err(CaseError::OutOfMemory),
        Err(fault) => named(alloc, format!(in alloc; "{fault}")?.as_str()),
    }
}

fn written(alloc: Global, info: &ModuleInfo) -> Result<String, CaseError> {
    valued(alloc, &to_value(alloc, info)?)
}

/// The result of `module_graph_1_to_2`. Checks that the value is unchanged after an error, and that
/// `converted_text` has the same result.
pub fn converted(alloc: Global, value: &Value) -> Result<String, CaseError> {
    let text = match convert_to_text(alloc, value) {
        Ok(text) => Some(text),
        Err(ConvertFault::OutOfMemory) => return Err(CaseError::OutOfMemory),
        Err(_) => None,
    };
    let mut again = value.clone()?;
    converted_in_place(alloc, value, &mut again, text)
}

fn converted_in_place(
    alloc: Global,
    value: &Value,
    again: &mut Value,
    text: Option<String>,
) -> Result<String, CaseError> {
    match convert(alloc, again) {
        Ok(()) => match text {
            Some(text) if text == again.to_string(alloc)? => valued(alloc, again),
            _ => named(alloc, "another as text"),
        },
        Err(_) if *again != *value => named(alloc, "refused, and changed"),
        Err(ConvertFault::OutOfMemory) => Err(CaseError::OutOfMemory),
        Err(_) if text.is_some() => named(alloc, "refused, but not as text"),
        Err(fault) => named(alloc, format!(in alloc; "{fault}")?.as_str()),
    }
}

/// The result of `reach` for a root, over an object of keys and information.
pub fn reached(alloc: Global, words: &[&str], value: &Value) -> Result<String, CaseError> {
    let ([root], Some(members)) = (words, value.as_object()) else {
        return Err(CaseError::Invalid("it names no root or has no object"));
    };
    let modules = modules_of(alloc, members)?;
    let keys = reach_from(alloc, &modules, root)?;
    valued(alloc, &array_of(alloc, keys)?)
}

fn modules_of(
    alloc: Global,
    members: &Map<String, Value>,
) -> Result<BTreeMap<String, ModuleInfo>, CaseError> {
    let mut modules = BTreeMap::new(alloc);
    for (key, info) in members.iter() {
        let key = key.clone()?;
        drop(modules.insert(key, from_value(alloc, info)?)?);
    }
    Ok(modules)
}

fn reach_from(
    alloc: Global,
    modules: &BTreeMap<String, ModuleInfo>,
    root: &str,
) -> Result<Vec<String>, AllocError> {
    reach(alloc, modules, root)
}

fn array_of(alloc: Global, keys: Vec<String>) -> Result<Value, AllocError> {
    let mut array = Vec::with_capacity(alloc, keys.len())?;
    for key in keys {
        array.push(Value::String(key))?;
    }
    Ok(Value::Array(array))
}
