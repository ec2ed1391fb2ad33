//! Reading values from JSON.

ghost use Rattle.std.specs.Prelude.{◌≡◌, IfOk, Some};
ghost use Rattle.serde_json.specs.Data.{Data, array, object};
ghost use Rattle.serde_json.specs.Find.{at, get, as_bool, as_str, as_array, as_object};
ghost use Rattle.deno_graph_json.specs.Data.{data_of, elements_data, members_data};
ghost use Rattle.deno_graph_json.specs.Read.Result.{IsReadResult, IsReadResultSeen};
ghost use Rattle.deno_graph_json.specs.Read.Partial.{as_usize, reads_optional, reads_array, reads_items, reads_map, reads_members, reads_pair, pair_in};

use crate::error::ReadError;
use crate::expected::{Expected, Pair};
use crate::flat::{Element, Elements, Members, View};
use deno_graph_base::values::{Items, Text, TextMap};
use std::alloc::Global;

/// A type that can be read from JSON, as a part of the JSON of a `Whole`.
///
/// `Whole` is a type of the crate that implements the trait. So a crate can implement the trait for
/// types of other crates.
pub trait FromJson<Whole> {
    ghost use Rattle.std.specs.Prelude.{Option};
    ghost use Rattle.serde_json.specs.Data.{Data};

    /// The value that is read from JSON data, or `None` if the data can't be read.
    ghost reads: { Data → Option Self };

    /// Reads the value. Returns `Mismatch` with the path to a part of `value` that isn't as expected,
    /// or `OutOfMemory` if an allocation fails.
    fn from_json(alloc: Global, value: Element<'_>) -> Result<Self, ReadError>
        ensures { IsReadResult (data_of value.entry) (reads (data_of value.entry)) result };
}

impl<Whole> FromJson<Whole> for bool {
    ghost reads = { as_bool };

    fn from_json(alloc: Global, value: Element<'_>) -> Result<bool, ReadError> {
        match value.view() {
            View::Bool(flag) => Ok(flag),
            _ => Err(ReadError::expected(alloc, Expected::Bool)),
        }
    }
}

impl<Whole> FromJson<Whole> for usize {
    ghost reads = { as_usize };

    #[tactic(auto, unfolding(crate::specs::Read::Partial::as_usize))]
    fn from_json(alloc: Global, value: Element<'_>) -> Result<usize, ReadError> {
        match value.view() {
            View::Whole(number) => Ok(number as usize),
            _ => Err(ReadError::expected(alloc, Expected::Whole)),
        }
    }
}

impl<Whole> FromJson<Whole> for Text {
    ghost reads = { as_str };

    fn from_json(alloc: Global, value: Element<'_>) -> Result<Text, ReadError> {
        let text = read_str(alloc, value)?;
        Ok(Text::from_str(alloc, text)?)
    }
}

impl<Whole, T: FromJson<Whole>> FromJson<Whole> for Option<T> {
    ghost reads = { reads_optional T.reads };

    #[tactic(auto, unfolding(crate::specs::Read::Partial::reads_optional))]
    fn from_json(alloc: Global, value: Element<'_>) -> Result<Option<T>, ReadError> {
        match value.view() {
            View::Null => Ok(None),
            _ => {
                let item = T::from_json(alloc, value)?;
                Ok(Some(item))
            }
        }
    }
}

impl<Whole, T: FromJson<Whole> + Drop> FromJson<Whole> for Items<T> {
    ghost reads = { reads_array T.reads };

    #[tactic(auto, using(crate::proofs::Reading::reading), unfolding(crate::specs::Read::Partial::reads_array))]
    fn from_json(alloc: Global, value: Element<'_>) -> Result<Items<T>, ReadError> {
        let values = read_array(alloc, value)?;
        read_items(alloc, values)
    }
}

impl<Whole, T: FromJson<Whole> + Drop> FromJson<Whole> for TextMap<T> {
    ghost reads = { reads_map T.reads };

    #[tactic(auto, using(crate::proofs::Reading::reading), unfolding(crate::specs::Read::Partial::reads_map))]
    fn from_json(alloc: Global, value: Element<'_>) -> Result<TextMap<T>, ReadError> {
        let members = read_object(alloc, value)?;
        read_map(alloc, members)
    }
}

/// Reads each item of an array.
pub fn read_items<Whole, T: FromJson<Whole> + Drop>(
    alloc: Global,
    values: Elements<'_>,
) -> Result<Items<T>, ReadError>
    ensures { IsReadResult (array (elements_data values.entry))
        (reads_items T.reads (elements_data values.entry)) result }
{
    let mut items = Items::with_capacity(alloc, values.len())?;
    for value in values {
        let number = items.len();
        let item = read_item(alloc, number, value)?;
        items.push(item)?;
    }
    Ok(items)
}

/// Reads each member of an object.
fn read_map<Whole, T: FromJson<Whole> + Drop>(
    alloc: Global,
    members: Members<'_>,
) -> Result<TextMap<T>, ReadError>
    ensures { IsReadResult (object (members_data members.entry))
        (reads_members T.reads (members_data members.entry)) result }
{
    let found = members.sorted(alloc)?;
    let mut map = TextMap::new(alloc);
    for (name, value) in &found {
        let item = read_member(alloc, name, *value)?;
        drop(map.insert(Text::from_str(alloc, name)?, item)?);
    }
    Ok(map)
}

/// Reads the item of an array that has this index, counted from zero.
fn read_item<Whole, T: FromJson<Whole>>(
    alloc: Global,
    number: usize,
    value: Element<'_>,
) -> Result<T, ReadError>
    ensures { (array : Data) → at number array ≡ Some (data_of value.entry)
        → IsReadResult array (T.reads (data_of value.entry)) result }
{
    match T::from_json(alloc, value) {
        Ok(item) => Ok(item),
        Err(error) => Err(error.in_item(number)),
    }
}

/// Reads the member of an object that has this name.
pub(crate) fn read_member<Whole, T: FromJson<Whole>>(
    alloc: Global,
    name: &str,
    value: Element<'_>,
) -> Result<T, ReadError>
    ensures { (object : Data) → get name.now object ≡ Some (data_of value.entry)
        → IsReadResult object (T.reads (data_of value.entry)) result }
{
    match T::from_json(alloc, value) {
        Ok(item) => Ok(item),
        Err(error) => Err(error.in_member(alloc, name)),
    }
}

/// Returns the text of a string. Allocates nothing.
pub fn read_str<'a>(alloc: Global, value: Element<'a>) -> Result<&'a str, ReadError>
    ensures { IsReadResultSeen (λ s. s.now) (data_of value.entry) (as_str (data_of value.entry)) result }
{
    match value.view() {
        View::String(text) => Ok(text),
        _ => Err(ReadError::expected(alloc, Expected::String)),
    }
}

/// Returns the elements of an array. Allocates nothing.
pub fn read_array<'a>(alloc: Global, value: Element<'a>) -> Result<Elements<'a>, ReadError>
    ensures { IsReadResultSeen elements_data (data_of value.entry) (as_array (data_of value.entry)) result }
{
    match value.view() {
        View::Array(values) => Ok(values),
        _ => Err(ReadError::expected(alloc, Expected::Array)),
    }
}

/// Returns the members of an object. Allocates nothing.
pub fn read_object<'a>(alloc: Global, value: Element<'a>) -> Result<Members<'a>, ReadError>
    ensures { IsReadResultSeen members_data (data_of value.entry) (as_object (data_of value.entry)) result }
{
    match value.view() {
        View::Object(members) => Ok(members),
        _ => Err(ReadError::expected(alloc, Expected::Object)),
    }
}

/// Returns the items of an array of two. `items` is what they are, for the error. Allocates
/// nothing.
fn read_two<'a>(
    alloc: Global,
    value: Element<'a>,
    items: Pair,
) -> Result<(Element<'a>, Element<'a>), ReadError>
    ensures pair { IsReadResultSeen (λ two. (data_of two.0, data_of two.1)) (data_of value.entry)
        (pair_in (data_of value.entry)) result }
    ensures first { IfOk result (λ two. at 0 (data_of value.entry) ≡ Some (data_of two.0)) }
    ensures second { IfOk result (λ two. at 1 (data_of value.entry) ≡ Some (data_of two.1)) }
{
    let View::Array(mut values) = value.view() else {
        return Err(ReadError::expected(alloc, Expected::Pair(items)));
    };
    let first = values.next();
    let second = values.next();
    match (first, second, values.next()) {
        (Some(first), Some(second), None) => Ok((first, second)),
        _ => Err(ReadError::expected(alloc, Expected::Pair(items))),
    }
}

/// Reads both items of an array of two. `items` is what they are, for the error.
#[tactic(auto, using(crate::proofs::Reading::reading), unfolding(crate::specs::Read::Partial::reads_pair))]
pub fn read_pair<Whole, T: FromJson<Whole> + Drop>(
    alloc: Global,
    value: Element<'_>,
    items: Pair,
) -> Result<(T, T), ReadError>
    ensures { IsReadResult (data_of value.entry) (reads_pair T.reads (data_of value.entry)) result }
{
    let (first, second) = read_two(alloc, value, items)?;
    let first = read_item(alloc, 0, first)?;
    let second = read_item(alloc, 1, second)?;
    Ok((first, second))
}
