//! Required members, and values that are read with a context.

ghost use Rattle.std.specs.Prelude.{◌≡◌, Option, Some};
ghost use Rattle.serde_json.specs.Data.{Data, array};
ghost use Rattle.serde_json.specs.Find.{get_member};
ghost use Rattle.deno_graph_json.specs.Data.{data_of, elements_data};
ghost use Rattle.deno_graph_json.specs.ObjectReader.{readable, value_of};
ghost use Rattle.deno_graph_json.specs.Read.Partial.{member_at, reads_array, reads_items};
ghost use Rattle.deno_graph_json.specs.Read.Result.{IsReadResult, IsReadResultSeen};

use crate::source::NodeMembers;
use deno_graph_json::read::read_array;
use deno_graph_json::{Element, Elements, Expected, ReadError};
use deno_graph_source::values::Items;
use std::alloc::Global;

/// A type that is read from JSON with a `Context`, the facts that are known about the text of the document.
pub trait ReadWith<Context> {
    ghost use Rattle.std.specs.Prelude.{Option};
    ghost use Rattle.serde_json.specs.Data.{Data};

    /// The value that is read from JSON data, or `None` if the data can't be read.
    ghost reads: { Context → Data → Option Self };

    /// Reads the value.
    fn read_with(alloc: Global, context: &Context, value: Element<'_>) -> Result<Self, ReadError>
        ensures { IsReadResult (data_of value.entry) (reads context.now (data_of value.entry)) result };
}

impl<Context, T: ReadWith<Context> + Drop> ReadWith<Context> for Items<T> {
    ghost reads = { λ context. reads_array (T.reads context) };

    #[tactic(auto, using(deno_graph_json::proofs::Reading::reading), unfolding(deno_graph_json::specs::Read::Partial::reads_array))]
    fn read_with(
        alloc: Global,
        context: &Context,
        value: Element<'_>,
    ) -> Result<Items<T>, ReadError> {
        let values = read_array(alloc, value)?;
        read_each(alloc, context, values)
    }
}

/// Reads each item of an array.
fn read_each<Context, T: ReadWith<Context> + Drop>(
    alloc: Global,
    context: &Context,
    values: Elements<'_>,
) -> Result<Items<T>, ReadError>
    ensures { IsReadResult (array (elements_data values.entry))
        (reads_items (T.reads context.now) (elements_data values.entry)) result }
{
    let mut items = Items::with_capacity(alloc, values.len())?;
    for value in values {
        let number = items.len();
        match T::read_with(alloc, context, value) {
            Ok(item) => items.push(item)?,
            Err(error) => return Err(error.in_item(number)),
        }
    }
    Ok(items)
}

/// Reads a required member.
#[tactic(auto, using(deno_graph_json::proofs::Reading::reading), unfolding(deno_graph_json::specs::Read::Partial::member_at))]
pub fn read_at<Context, T: ReadWith<Context>>(
    alloc: Global,
    context: &Context,
    members: &NodeMembers<'_>,
    name: &'static str,
) -> Result<T, ReadError>
    ensures { IsReadResult (value_of members.now)
        (member_at (T.reads context.now) name.now (readable members.now)) result }
{
    let value = required(alloc, members, name)?;
    in_member(alloc, members, name, T::read_with(alloc, context, value))
}

/// Finds the value of a required member. Allocates nothing.
pub fn required<'v>(
    alloc: Global,
    members: &NodeMembers<'v>,
    name: &'static str,
) -> Result<Element<'v>, ReadError>
    ensures { IsReadResultSeen data_of (value_of members.now)
        (get_member name.now (readable members.now)) result }
{
    match members.get(name) {
        Some(value) => Ok(value),
        None => Err(ReadError::expected(alloc, Expected::Member(name))),
    }
}

/// Adds the name of a member to the path of an error. A value that was read stays as it is.
pub fn in_member<T>(
    alloc: Global,
    members: &NodeMembers<'_>,
    name: &str,
    read: Result<T, ReadError>,
) -> Result<T, ReadError>
    ensures { (value : Data) (reads : Data → Option T)
        → get_member name.now (readable members.now) ≡ Some value → IsReadResult value (reads value) read
        → IsReadResult (value_of members.now) (member_at reads name.now (readable members.now)) result }
{
    match read {
        Ok(found) => Ok(found),
        Err(error) => Err(error.in_member(alloc, name)),
    }
}
