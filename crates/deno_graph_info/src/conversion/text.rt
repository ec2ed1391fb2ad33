//! The conversion from a flat list to text, without a tree of values.

ghost use Rattle.std.specs.Prelude.{◌≡◌, ◌≢◌, ◌||◌, [], codes, false, IfOk, IfErr, OnOk, option_map};
ghost use Rattle.std.specs.String.{string_bytes};
ghost use Rattle.json.specs.Lex.{tokens};
ghost use Rattle.json.specs.Print.{print};
ghost use Rattle.serde_json.specs.Data.{Data, Items, array, object, put};
ghost use Rattle.serde_json.specs.Find.{as_array};
ghost use Rattle.serde_json.specs.Written.{compact_text, has_float, items_have_float, members_have_float, IsInOrder};
ghost use Rattle.deno_graph_json.specs.Data.{data_of, elements_data, members_data};
ghost use Rattle.deno_graph_json.specs.Read.Partial.{member_at};
ghost use Rattle.deno_graph_json.specs.Text.{text_in};
ghost use Rattle.deno_graph_info.specs.Conversion.{AnyOverflows, AreConverted, IsConverted, IsConvertFault, Overflows};
ghost use Rattle.deno_graph_info.specs.internal.ConvertFault.{IsTextFault};
ghost use Rattle.deno_graph_info.specs.internal.Written.{IsWritten};

use crate::conversion::dependency::write_dependencies;
use crate::conversion::fault::ConvertFault;
use crate::conversion::names::Names;
use crate::conversion::ordered::in_order;
use crate::conversion::write::{write_chosen, write_value};
use deno_graph_json::{Element, Elements, Members, ReadError, Writer, find_float, new_writer};
use std::alloc::Global;

/// The members before the dependencies.
const BEFORE_DEPENDENCIES: Names<'static> = Names {
    above: None,
    below: Some("dependencies"),
    except: None,
};

/// The members after the dependencies.
const AFTER_DEPENDENCIES: Names<'static> = Names {
    above: Some("dependencies"),
    below: None,
    except: None,
};

/// Like `module_graph_1_to_2`, but returns the converted JSON as compact text, with the keys of each
/// object ascending. Makes no tree of values.
pub fn converted_text(alloc: Global, value: Element<'_>) -> Result<String, ConvertFault>
    ensures no_float { OnOk result (has_float (data_of value.entry) ≡ false) }
    ensures ok { IfOk result (λ text. (after : Data) × IsConverted (data_of value.entry) after
        × IsInOrder (string_bytes text) after × (string_bytes text ≡ compact_text after)) }
    ensures compact { IfOk result (λ text. string_bytes text ≡ print (tokens (string_bytes text))) }
    ensures err { IfErr result
        (λ fault. fault ≢ ConvertFault.OutOfMemory → IsConvertFault (data_of value.entry) fault) }
{
    match find_float(alloc, value) {
        Ok(()) => write_text(alloc, value),
        Err(ReadError::Mismatch(_)) => Err(ConvertFault::Float),
        Err(ReadError::OutOfMemory) => Err(ConvertFault::OutOfMemory),
    }
}

/// Returns the text of a converted value. Returns `Float` if the value has a float.
fn write_text(alloc: Global, value: Element<'_>) -> Result<String, ConvertFault>
    ensures ok { IfOk result (λ text. (after : Data) × IsConverted (data_of value.entry) after
        × IsInOrder (string_bytes text) after × (string_bytes text ≡ compact_text after)) }
    ensures compact { IfOk result (λ text. string_bytes text ≡ print (tokens (string_bytes text))) }
    ensures err { IfErr result
        (IsTextFault (Overflows (data_of value.entry)) (has_float (data_of value.entry))) }
{
    let mut out = new_writer(alloc)?;
    write_converted(alloc, value, &mut out)?;
    Ok(finished(out))
}

/// Returns the text that was written to an empty buffer. Allocates nothing.
fn finished(out: Writer) -> String
    requires { out.before ≡ [] }
    ensures text { string_bytes result ≡ print out.tokens }
    ensures tokens { tokens (string_bytes result) ≡ out.tokens }
{
    unsafe { String::from_utf8_unchecked(out.into_inner()) }
}

/// Appends a converted value. Returns `Float` if the value has a float.
fn write_converted(alloc: Global, value: Element<'_>, out: &mut Writer) -> Result<(), ConvertFault>
    ensures ok { OnOk result ((after : Data) × IsConverted (data_of value.entry) after
        × IsWritten after (text_in out.old) (text_in out.new)) }
    ensures err { IfErr result
        (IsTextFault (Overflows (data_of value.entry)) (has_float (data_of value.entry))) }
{
    let Some(members) = value.members() else {
        return write_value(alloc, value, out);
    };
    match array_at(members, "dependencies") {
        Some(dependencies) => write_members(alloc, members, dependencies, out),
        None => write_value(alloc, value, out),
    }
}

/// Returns the elements of the last member with this name, if the member is an array.
#[tactic(auto, unfolding(deno_graph_json::specs::Read::Partial::member_at))]
fn array_at<'a>(members: Members<'a>, name: &str) -> Option<Elements<'a>>
    ensures { option_map elements_data result ≡ member_at as_array name.now (members_data members.entry) }
{
    members.get(name)?.elements()
}

/// Appends an object with these members, in which the dependencies are converted.
fn write_members(
    alloc: Global,
    members: Members<'_>,
    dependencies: Elements<'_>,
    out: &mut Writer,
) -> Result<(), ConvertFault>
    ensures ok { OnOk result ((new : Items) × AreConverted (elements_data dependencies.entry) new
        × IsWritten (object (put (codes "dependencies") (array new) (members_data members.entry)))
        (text_in out.old) (text_in out.new)) }
    ensures err { IfErr result (IsTextFault (AnyOverflows (elements_data dependencies.entry))
        (items_have_float (elements_data dependencies.entry)
        || members_have_float (members_data members.entry))) }
{
    let ordered = in_order(alloc, members)?;
    out.begin_object()?;
    write_chosen(alloc, &ordered, BEFORE_DEPENDENCIES, out)?;
    out.key("dependencies")?;
    write_dependencies(alloc, dependencies, out)?;
    write_chosen(alloc, &ordered, AFTER_DEPENDENCIES, out)?;
    Ok(out.end_object()?)
}
