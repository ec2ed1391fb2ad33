//! Writing converted dependencies as text.

ghost use Rattle.std.specs.Prelude.{codes, IfErr, OnOk};
ghost use Rattle.serde_json.specs.Data.{Data, Items, array, object, put};
ghost use Rattle.serde_json.specs.Written.{has_float, items_have_float, members_have_float};
ghost use Rattle.deno_graph_json.specs.Data.{data_of, elements_data, members_data};
ghost use Rattle.deno_graph_json.specs.Text.{text_in};
ghost use Rattle.deno_graph_info.specs.Conversion.{AnyOverflows, AreConverted, DependencyOverflows, IsConvertedDependency, with_types, without, without_value_at};
ghost use Rattle.deno_graph_info.specs.Json.SpecifierWithRange.{json_of_specifier};
ghost use Rattle.deno_graph_info.specs.internal.ConvertFault.{IsTextFault};
ghost use Rattle.deno_graph_info.specs.internal.Written.{IsWritten};

use crate::analysis::SpecifierWithRange;
use crate::conversion::change::{Change, change_of};
use crate::conversion::fault::ConvertFault;
use crate::conversion::names::Names;
use crate::conversion::ordered::in_order;
use crate::conversion::write::{write_chosen, write_value};
use deno_graph_json::{Element, Elements, Members, Writer, append};
use std::alloc::Global;

/// The members except the comments.
const KEPT: Names<'static> = Names {
    above: None,
    below: None,
    except: Some("leadingComments"),
};

/// The members before the types, except the comments.
const BEFORE_TYPES: Names<'static> = Names {
    above: None,
    below: Some("typesSpecifier"),
    except: Some("leadingComments"),
};

/// The members after the types, except the comments.
const AFTER_TYPES: Names<'static> = Names {
    above: Some("typesSpecifier"),
    below: None,
    except: Some("leadingComments"),
};

/// Appends the array of the converted dependencies. Returns `ColumnOverflow` if types would end beyond
/// the largest column, `Float` if a dependency has a float, and `OutOfMemory` if an allocation fails.
pub fn write_dependencies(
    alloc: Global,
    dependencies: Elements<'_>,
    out: &mut Writer,
) -> Result<(), ConvertFault>
    ensures ok { OnOk result ((new : Items) × AreConverted (elements_data dependencies.entry) new
        × IsWritten (array new) (text_in out.old) (text_in out.new)) }
    ensures err { IfErr result (IsTextFault (AnyOverflows (elements_data dependencies.entry))
        (items_have_float (elements_data dependencies.entry))) }
{
    out.begin_array()?;
    for dependency in dependencies {
        write_dependency(alloc, dependency, out)?;
    }
    Ok(out.end_array()?)
}

/// Appends a converted dependency.
fn write_dependency(
    alloc: Global,
    dependency: Element<'_>,
    out: &mut Writer,
) -> Result<(), ConvertFault>
    ensures ok { OnOk result ((after : Data) × IsConvertedDependency (data_of dependency.entry) after
        × IsWritten after (text_in out.old) (text_in out.new)) }
    ensures err { IfErr result (IsTextFault (DependencyOverflows (data_of dependency.entry))
        (has_float (data_of dependency.entry))) }
{
    match change_of(alloc, dependency)? {
        Change::Nothing => write_value(alloc, dependency, out),
        Change::Comments(types) => write_replaced(alloc, dependency, types, out),
    }
}

/// Appends a dependency with the types, if there are any, and without its comments.
fn write_replaced(
    alloc: Global,
    dependency: Element<'_>,
    types: Option<SpecifierWithRange>,
    out: &mut Writer,
) -> Result<(), ConvertFault>
    ensures ok { OnOk result (IsWritten
        (without_value_at (codes "leadingComments") (with_types types (data_of dependency.entry)))
        (text_in out.old) (text_in out.new)) }
    ensures err { IfErr result (IsTextFault ⊥ (has_float (data_of dependency.entry))) }
{
    let Some(members) = dependency.members() else {
        return write_value(alloc, dependency, out);
    };
    match types {
        Some(types) => write_typed(alloc, members, &types, out),
        None => write_untyped(alloc, members, out),
    }
}

/// Appends an object with these members, with the types, and without the comments.
fn write_typed(
    alloc: Global,
    members: Members<'_>,
    types: &SpecifierWithRange,
    out: &mut Writer,
) -> Result<(), ConvertFault>
    ensures ok { OnOk result (IsWritten (object (without (codes "leadingComments")
        (put (codes "typesSpecifier") (json_of_specifier types.now) (members_data members.entry))))
        (text_in out.old) (text_in out.new)) }
    ensures err { IfErr result (IsTextFault ⊥ (members_have_float (members_data members.entry))) }
{
    let ordered = in_order(alloc, members)?;
    out.begin_object()?;
    write_chosen(alloc, &ordered, BEFORE_TYPES, out)?;
    out.key("typesSpecifier")?;
    append(alloc, out, types)?;
    write_chosen(alloc, &ordered, AFTER_TYPES, out)?;
    Ok(out.end_object()?)
}

/// Appends an object with these members, without the comments.
fn write_untyped(alloc: Global, members: Members<'_>, out: &mut Writer) -> Result<(), ConvertFault>
    ensures ok { OnOk result
        (IsWritten (object (without (codes "leadingComments") (members_data members.entry)))
        (text_in out.old) (text_in out.new)) }
    ensures err { IfErr result (IsTextFault ⊥ (members_have_float (members_data members.entry))) }
{
    let ordered = in_order(alloc, members)?;
    out.begin_object()?;
    write_chosen(alloc, &ordered, KEPT, out)?;
    Ok(out.end_object()?)
}
