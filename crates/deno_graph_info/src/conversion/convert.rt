ghost use Rattle.std.specs.Prelude.{◌≡◌, codes, false, option_map, OnOk, OnErr, IfOk, IfErr, IsSome};
ghost use Rattle.std.specs.String.{string_bytes};
ghost use Rattle.serde_json.specs.Find.{get};
ghost use Rattle.serde_json.specs.View.{view, items_view};
ghost use Rattle.serde_json.specs.Written as Written;
ghost use Rattle.deno_graph_info.specs.Conversion.{AnyOverflows, AreConverted, DependencyOverflows, IsConverted, IsConvertedDependency, IsConvertFault, dependencies_in, with_types, with_value_at, without_value_at};
ghost use Rattle.deno_graph_info.specs.internal.ConvertFault.{IsColumnFault};

use crate::analysis::SpecifierWithRange;
use crate::conversion::change::{Change, change_of};
use crate::conversion::fault::ConvertFault;
use deno_graph_json::{Tape, has_float, to_value};
use serde_json::{Value, put};
use std::alloc::{AllocError, Global};

/// Converts the JSON of a module's information from version 1 to version 2. In version 1, a
/// dependency has the comments before it. In version 2, it has the types that `@deno-types` in the
/// last of these comments names.
///
/// From each dependency in the array `dependencies`, removes the member `leadingComments` if it is an
/// array of readable comments. If the last of them names types, writes these to `typesSpecifier`. A
/// readable comment has a string `text` and a `range` of positions. All other members stay.
///
/// Returns `Float` if a number that isn't held as a whole number is anywhere in the value,
/// `ColumnOverflow` if types would end beyond the largest column, and `OutOfMemory` if an allocation
/// fails. On an error the value is unchanged.
pub fn module_graph_1_to_2(alloc: Global, value: &mut Value) -> Result<(), ConvertFault>
    ensures no_float { OnOk result (Written.has_float (view value.old) ≡ false) }
    ensures ok { OnOk result (IsConverted (view value.old) (view value.new)) }
    ensures err { IfErr result (IsConvertFault (view value.old)) }
    ensures unchanged { OnErr result (value.new ≡ value.old) }
{
    if has_float(value) {
        return Err(ConvertFault::Float);
    }
    let Some(dependencies) = dependencies_of(value) else {
        return Ok(());
    };
    let converted = convert_all(alloc, dependencies)?;
    let key = String::from_str(alloc, "dependencies")?;
    replace_member(value, key, Value::Array(converted));
    Ok(())
}

/// Returns the array `dependencies` of an object.
#[tactic(auto, using(crate::proofs::NamedMembers::dependencies_named))]
fn dependencies_of(value: &Value) -> Option<&Vec<Value>>
    ensures { option_map (λ found. items_view found.now.items) result
        ≡ dependencies_in (view value.now) }
{
    value.get("dependencies")?.as_array()
}

/// Converts each dependency.
fn convert_all(alloc: Global, dependencies: &Vec<Value>) -> Result<Vec<Value>, ConvertFault>
    ensures ok { IfOk result
        (λ new. AreConverted (items_view dependencies.now.items) (items_view new.items)) }
    ensures err { IfErr result (IsColumnFault (AnyOverflows (items_view dependencies.now.items))) }
{
    let mut converted = Vec::with_capacity(alloc, dependencies.len())?;
    for dependency in dependencies {
        converted.push(convert_dependency(alloc, dependency)?)?;
    }
    Ok(converted)
}

/// Converts a dependency.
fn convert_dependency(alloc: Global, dependency: &Value) -> Result<Value, ConvertFault>
    ensures ok { IfOk result
        (λ converted. IsConvertedDependency (view dependency.now) (view converted)) }
    ensures err { IfErr result (IsColumnFault (DependencyOverflows (view dependency.now))) }
{
    let tape = Tape::from_value(alloc, dependency)?;
    let change = change_of(alloc, tape.root())?;
    let mut converted = dependency.clone()?;
    if let Change::Comments(types) = change {
        put_types(alloc, &mut converted, types)?;
        remove_member(&mut converted, "leadingComments");
    }
    Ok(converted)
}

/// Adds the types, if there are any, to a dependency.
fn put_types(
    alloc: Global,
    dependency: &mut Value,
    types: Option<SpecifierWithRange>,
) -> Result<(), AllocError>
    ensures { OnOk result (view dependency.new ≡ with_types types (view dependency.old)) }
{
    match types {
        Some(types) => {
            let json = to_value(alloc, &types)?;
            put_member(alloc, dependency, "typesSpecifier", json)
        }
        None => Ok(()),
    }
}

/// Puts a member into an object. Leaves any other value unchanged.
fn put_member(alloc: Global, value: &mut Value, key: &str, member: Value) -> Result<(), AllocError>
    ensures { OnOk result (view value.new ≡ with_value_at key.now (view member) (view value.old)) }
{
    match value.as_object_mut() {
        Some(members) => put(members, alloc, key, member),
        None => Ok(()),
    }
}

/// Replaces a member of an object. Allocates nothing.
fn replace_member(value: &mut Value, key: String, member: Value)
    requires { IsSome (get (string_bytes key) (view value.old)) }
    ensures { view value.new
        ≡ with_value_at (string_bytes key) (view member) (view value.old) }
{
    if let Some(members) = value.as_object_mut() {
        // The key is present, so that this allocates nothing and can't fail.
        drop(members.insert(key, member));
    }
}

/// Removes a member of an object. Leaves any other value unchanged.
fn remove_member(value: &mut Value, key: &str)
    ensures { view value.new ≡ without_value_at key.now (view value.old) }
{
    if let Some(members) = value.as_object_mut() {
        drop(members.remove(key));
    }
}
