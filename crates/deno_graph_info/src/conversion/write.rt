//! Writing the values of a flat list as compact text, with the keys of each object ascending.

ghost use Rattle.std.specs.Prelude.{◌≡◌, IfErr, OnOk};
ghost use Rattle.serde_json.specs.Data as Data;
ghost use Rattle.serde_json.specs.Data.{array, negative, object, unsigned};
ghost use Rattle.serde_json.specs.Written.{has_float, items_have_float, members_have_float};
ghost use Rattle.deno_graph_json.specs.Data.{data_of, elements_data, members_data, named_data};
ghost use Rattle.deno_graph_json.specs.Text.{text_in};
ghost use Rattle.deno_graph_json.specs.View.{members_of};
ghost use Rattle.deno_graph_info.specs.internal.Chosen.{chosen, test_of};
ghost use Rattle.deno_graph_info.specs.internal.ConvertFault.{IsTextFault};
ghost use Rattle.deno_graph_info.specs.internal.Ordered.{listed, ordered_data};
ghost use Rattle.deno_graph_info.specs.internal.Written.{AreWritten, IsWritten};

use crate::conversion::fault::ConvertFault;
use crate::conversion::names::Names;
use crate::conversion::ordered::{OrderedMembers, in_order};
use deno_graph_base::values::TextMap;
use deno_graph_json::{Element, Elements, Members, View, Writer};
use std::alloc::{AllocError, Global};

/// All members.
const ALL: Names<'static> = Names {
    above: None,
    below: None,
    except: None,
};

/// Appends a value. Returns `Float` if the value has a float, and `OutOfMemory` if an allocation fails.
#[cycle(write)]
pub fn write_value(alloc: Global, value: Element<'_>, out: &mut Writer) -> Result<(), ConvertFault>
    ensures ok { OnOk result (IsWritten (data_of value.entry) (text_in out.old) (text_in out.new)) }
    ensures err { IfErr result (IsTextFault ⊥ (has_float (data_of value.entry))) }
{
    match value.view() {
        View::Null => Ok(out.null()?),
        View::Bool(value) => Ok(out.boolean(value)?),
        View::Whole(number) => Ok(write_whole(number, out)?),
        View::Negative(number) => Ok(write_negative(number, out)?),
        View::Float(_) => Err(ConvertFault::Float),
        View::String(text) => Ok(out.string(text)?),
        View::Array(items) => write_items(alloc, items, out),
        View::Object(members) => write_object(alloc, members, out),
    }
}

fn write_whole(number: u64, out: &mut Writer) -> Result<(), AllocError>
    ensures { OnOk result
        (IsWritten (Data.number (unsigned number)) (text_in out.old) (text_in out.new)) }
{
    out.u64(number)
}

fn write_negative(number: i64, out: &mut Writer) -> Result<(), AllocError>
    ensures { OnOk result
        (IsWritten (Data.number (negative number)) (text_in out.old) (text_in out.new)) }
{
    out.i64(number)
}

#[cycle(write)]
fn write_items(alloc: Global, items: Elements<'_>, out: &mut Writer) -> Result<(), ConvertFault>
    ensures ok { OnOk result
        (IsWritten (array (elements_data items.entry)) (text_in out.old) (text_in out.new)) }
    ensures err { IfErr result (IsTextFault ⊥ (items_have_float (elements_data items.entry))) }
{
    out.begin_array()?;
    for item in items {
        write_value(alloc, item, out)?;
    }
    Ok(out.end_array()?)
}

#[cycle(write)]
fn write_object(alloc: Global, members: Members<'_>, out: &mut Writer) -> Result<(), ConvertFault>
    ensures ok { OnOk result
        (IsWritten (object (members_data members.entry)) (text_in out.old) (text_in out.new)) }
    ensures err { IfErr result (IsTextFault ⊥ (members_have_float (members_data members.entry))) }
{
    let ordered = in_order(alloc, members)?;
    out.begin_object()?;
    write_chosen(alloc, &ordered, ALL, out)?;
    Ok(out.end_object()?)
}

/// Appends the members that are chosen, without the braces of the object. Returns `Float` if one of them
/// has a float, and `OutOfMemory` if an allocation fails.
#[cycle(write)]
pub fn write_chosen(
    alloc: Global,
    members: &OrderedMembers<'_>,
    names: Names<'_>,
    out: &mut Writer,
) -> Result<(), ConvertFault>
    ensures ok { OnOk result
        (AreWritten (chosen (test_of names.entry) (ordered_data members.now)) (text_in out.old) (text_in out.new)) }
    ensures err { IfErr result (IsTextFault ⊥ (members_have_float (ordered_data members.now))) }
{
    match members {
        OrderedMembers::Listed(members) => write_listed(alloc, *members, names, out),
        OrderedMembers::Sorted(members) => write_sorted(alloc, members, names, out),
    }
}

/// Like `write_chosen`, in the order of the text.
#[cycle(write)]
fn write_listed(
    alloc: Global,
    members: Members<'_>,
    names: Names<'_>,
    out: &mut Writer,
) -> Result<(), ConvertFault>
    ensures ok { OnOk result
        (AreWritten (chosen (test_of names.entry) (listed (members_of members.entry))) (text_in out.old) (text_in out.new)) }
    ensures err { IfErr result (IsTextFault ⊥ (members_have_float (listed (members_of members.entry)))) }
{
    for (name, value) in members {
        if names.has(name) {
            out.key(name)?;
            write_value(alloc, value, out)?;
        }
    }
    Ok(())
}

/// Like `write_chosen`, for members that were sorted.
#[cycle(write)]
fn write_sorted(
    alloc: Global,
    members: &TextMap<Element<'_>>,
    names: Names<'_>,
    out: &mut Writer,
) -> Result<(), ConvertFault>
    ensures ok { OnOk result
        (AreWritten (chosen (test_of names.entry) (named_data members.now)) (text_in out.old) (text_in out.new)) }
    ensures err { IfErr result (IsTextFault ⊥ (members_have_float (named_data members.now))) }
{
    for (name, value) in members {
        if names.has(name) {
            out.key(name)?;
            write_value(alloc, *value, out)?;
        }
    }
    Ok(())
}
