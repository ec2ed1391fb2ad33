ghost use Rattle.std.specs.Prelude.{◌≡◌, ◌++◌, IfOk, OnOk, map, string_bytes};
ghost use Rattle.deno_graph_json.specs.Read.Expected.{words};
ghost use Rattle.deno_graph_json.specs.Read.Names.{after_commas, name_words, words_of_list};

use crate::names::NameList;
use std::alloc::{AllocError, Global};

/// What is expected of a value.
#[derive(Clone, Copy, Debug, PartialEq, Eq)]
pub enum Expected {
    /// `true` or `false`.
    Bool,
    /// A whole number from 0 to 2^64 - 1.
    Whole,
    /// A number without a point and an exponent.
    Integer,
    /// A unit of UTF-16: a whole number below 65536.
    Unit,
    String,
    Array,
    Object,
    /// An object with a member that has this name.
    Member(&'static str),
    /// A string with a name of this list.
    NameIn(NameList),
    /// An array of two.
    Pair(Pair),
    /// An array of two offsets, which are whole numbers from 0 to 2^64 - 1.
    Offsets,
    /// The value of an import attribute: a string or null.
    Attribute,
    /// Import attributes: `none`, `unknown` or an object with one member.
    Attributes,
    /// An argument of a call: a string, an array or null.
    Argument,
    /// A JavaScript string: a string or an array.
    JsString,
    /// The key of a property: `other`, or an object with either `str` or `ident`.
    Key,
    /// The value of a string literal, in place of another JavaScript string.
    SpelledValue,
    /// A column of stored information after which other columns fit, in place of a larger one.
    Column,
}

/// What the two items of an array are.
#[derive(Clone, Copy, Debug, PartialEq, Eq)]
pub enum Pair {
    /// A line and a character.
    Position,
    /// Two positions.
    PositionRange,
}

impl Expected {
    /// Returns what is expected, in words. The only error is that an allocation fails.
    pub fn to_words(self, alloc: Global) -> Result<String, AllocError>
        ensures { IfOk result (λ text. string_bytes text ≡ words self) }
    {
        let text = match self {
            Expected::Bool => "true or false",
            Expected::Whole => "a whole number from 0 to 18446744073709551615",
            Expected::Integer => "a whole number, written without a point or an exponent",
            Expected::Unit => "a whole number below 65536",
            Expected::String => "a string",
            Expected::Array => "an array",
            Expected::Object => "an object",
            Expected::Member(name) => return format!(in alloc; "a member `{name}`"),
            Expected::NameIn(list) => return list.to_words(alloc),
            Expected::Pair(Pair::Position) => "two whole numbers, [line,character]",
            Expected::Pair(Pair::PositionRange) => "two positions, [start,end]",
            Expected::Offsets => "two whole numbers, [start,end]",
            Expected::Attribute => "a string or null",
            Expected::Attributes => "none, unknown, or an object with the one member known",
            Expected::Argument => "a string, an array of parts or null",
            Expected::JsString => "a string or an array of units of UTF-16",
            Expected::Key => "\"other\", or an object with either `str` or `ident`",
            Expected::SpelledValue => "the value that the source spells at the literal's range",
            Expected::Column => "a column from which the types end below 2^64",
        };
        String::from_str(alloc, text)
    }
}

impl NameList {
    /// Returns the list in words. The only error is that an allocation fails.
    fn to_words(self, alloc: Global) -> Result<String, AllocError>
        ensures { IfOk result (λ text. string_bytes text ≡ words_of_list self) }
    {
        match self {
            NameList::StaticKinds => String::from_str(alloc, "the kind of a static dependency"),
            NameList::DynamicKinds => String::from_str(alloc, "the kind of a dynamic dependency"),
            NameList::ResolutionModes => String::from_str(alloc, "import or require"),
            NameList::ReferenceTypes => String::from_str(alloc, "path or types"),
            NameList::PartTypes => String::from_str(alloc, "string or expr"),
            NameList::DependencyTypes => String::from_str(alloc, "static or dynamic"),
            _ => names_in_words(alloc, self.names()),
        }
    }
}

/// Returns `one of` and the names, with commas between them.
fn names_in_words(alloc: Global, names: &[&str]) -> Result<String, AllocError>
    ensures { IfOk result (λ text. string_bytes text ≡ name_words (map (λ name. name.now) names.now)) }
{
    let mut text = String::from_str(alloc, "one of ")?;
    if let Some((first, others)) = names.split_first() {
        text.push_str(first)?;
        push_after_commas(&mut text, others)?;
    }
    Ok(text)
}

/// Appends each name after a comma.
fn push_after_commas(text: &mut String, names: &[&str]) -> Result<(), AllocError>
    ensures { OnOk result
        (string_bytes text.new ≡ string_bytes text.old ++ after_commas (map (λ name. name.now) names.now)) }
{
    match names.split_first() {
        None => Ok(()),
        Some((first, others)) => {
            text.push_str(", ")?;
            text.push_str(first)?;
            push_after_commas(text, others)
        }
    }
}
