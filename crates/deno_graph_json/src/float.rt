//! Search for floats in JSON values: numbers that aren't held as whole numbers.

ghost use Rattle.std.specs.Prelude.{◌≡◌, IfErr};
ghost use Rattle.serde_json.specs.Data.{array, object};
ghost use Rattle.serde_json.specs.View.{view, items_view, members_view};
ghost use Rattle.serde_json.specs.Written as Written;
ghost use Rattle.deno_graph_json.specs.Data.{data_of, elements_data, members_data};
ghost use Rattle.deno_graph_json.specs.Read.Error.{Expects};
ghost use Rattle.deno_graph_json.specs.Read.Result.{IsReadResult};
ghost use Rattle.deno_graph_json.specs.Read.Partial.{unless_float};
ghost use Rattle.deno_graph_json.specs.declared.expected.Expected.TheVariants.{Integer};

use crate::error::ReadError;
use crate::expected::Expected;
use crate::flat::{Element, Elements, Members, View};
use serde_json::{Map, Value};
use std::alloc::Global;

/// Returns whether a number that isn't held as a whole number is anywhere in the value.
#[cycle(float)]
pub fn has_float(value: &Value) -> bool
    ensures { result ≡ Written.has_float (view value.now) }
{
    match value {
        Value::Number(number) => number.is_f64(),
        Value::Array(items) => items_have_float(items),
        Value::Object(members) => members_have_float(members),
        _ => false,
    }
}

#[cycle(float)]
fn items_have_float(items: &Vec<Value>) -> bool
    ensures { result ≡ Written.items_have_float (items_view items.now.items) }
{
    for item in items {
        if has_float(item) {
            return true;
        }
    }
    false
}

#[cycle(float)]
fn members_have_float(members: &Map<String, Value>) -> bool
    ensures { result ≡ Written.members_have_float (members_view members.now.entries) }
{
    for (_, value) in members.iter() {
        if has_float(value) {
            return true;
        }
    }
    false
}

/// Returns `Mismatch` with the path to a float, if there is one, and `OutOfMemory` if an allocation fails. What
/// is expected there is always `Integer`.
/// Allocates only where the text has a float.
pub fn find_float(alloc: Global, value: Element<'_>) -> Result<(), ReadError>
    ensures read { IsReadResult (data_of value.entry) (unless_float (Written.has_float (data_of value.entry))) result }
    ensures expected { IfErr result (Expects Integer) }
{
    if value.has_float_node() {
        find_float_in(alloc, value)
    } else {
        Ok(())
    }
}

#[cycle(find_float)]
fn find_float_in(alloc: Global, value: Element<'_>) -> Result<(), ReadError>
    ensures read { IsReadResult (data_of value.entry) (unless_float (Written.has_float (data_of value.entry))) result }
    ensures expected { IfErr result (Expects Integer) }
{
    match value.view() {
        View::Float(_) => Err(ReadError::expected(alloc, Expected::Integer)),
        View::Array(items) => find_float_in_items(alloc, items),
        View::Object(members) => find_float_in_members(alloc, members),
        _ => Ok(()),
    }
}

#[cycle(find_float)]
fn find_float_in_items(alloc: Global, items: Elements<'_>) -> Result<(), ReadError>
    ensures read { IsReadResult (array (elements_data items.entry))
        (unless_float (Written.items_have_float (elements_data items.entry))) result }
    ensures expected { IfErr result (Expects Integer) }
{
    let mut number = 0usize;
    for item in items {
        if let Err(error) = find_float_in(alloc, item) {
            return Err(error.in_item(number));
        }
        number += 1;
    }
    Ok(())
}

#[cycle(find_float)]
fn find_float_in_members(alloc: Global, members: Members<'_>) -> Result<(), ReadError>
    ensures read { IsReadResult (object (members_data members.entry))
        (unless_float (Written.members_have_float (members_data members.entry))) result }
    ensures expected { IfErr result (Expects Integer) }
{
    let found = members.sorted(alloc)?;
    for (name, value) in &found {
        if let Err(error) = find_float_in(alloc, *value) {
            return Err(error.in_member(alloc, name));
        }
    }
    Ok(())
}
