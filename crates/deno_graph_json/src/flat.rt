//! A JSON text as a flat list of nodes: the items of an array and the members of an object come right
//! after its node.
//!
//! Accepts the texts that `serde_json` accepts. Copies only strings with escapes, into the scratch.
//! Each node takes 24 bytes.

ghost use Rattle.std.specs.Prelude.{◌≡◌, ◌<◌, ◌^◌, map};
ghost use Rattle.deno_graph_json.specs.Flat.{plain};
ghost use Rattle.deno_graph_json.specs.Value.{AreOfValue, AreOfItems, AreOfMembers, item_count, items_in};

mod digits;
mod error;
mod find;
mod from_value;
mod parse;
mod sorted;
mod split;
mod view;

use crate::flat::split::split_value;
pub use error::TapeError;
use json::Scratch;
use std::alloc::Global;
pub use view::View;

/// One node of a tape.
#[derive(Clone, Copy)]
pub enum FlatNode<'a> {
    Null,
    Bool(bool),
    /// A whole number from 0 to 2^64 - 1, written without a sign, a point and an exponent.
    Whole(u64),
    /// A whole number from -2^63 to -1, written without a point and an exponent.
    Negative(i64),
    /// Any other number: the nearest float.
    Float(f64),
    String(&'a str),
    /// The name of a member. The nodes of its value follow.
    Key(&'a str),
    /// An array: the number of its elements, and the number of nodes that they take after this node.
    Array { elements: usize, nodes: usize },
    /// An object, and the number of nodes that its members take after this node.
    Object { nodes: usize },
}

/// The nodes of a JSON text. Strings are borrowed from the text, strings with escapes from the
/// scratch.
#[derive(Drop)]
pub struct Tape<'a> {
    nodes: Vec<FlatNode<'a>>,
    ghost of_value: { AreOfValue (map plain nodes.items) },
}

impl<'a> Tape<'a> {
    ghost use Rattle.std.specs.Prelude.{ℕ, IfOk, Err, None, Some};
    ghost use Rattle.deno_graph_json.specs.Flat.{IsUnreadable};
    ghost use Rattle.deno_graph_json.specs.Data.{data_of, tape_data};
    ghost use Rattle.deno_graph_json.specs.View.{tape_value, value_of, IsValueOf};
    ghost use Rattle.deno_graph_json.specs.declared.flat.error.TapeError.TheVariants.{Json};
    ghost use Rattle.serde_json.specs.Read.{read as read_text};

    /// Reads a text to its end. Returns `Json` if the text isn't one JSON value, nests deeper than
    /// 127 or has a number too large for a float, and `OutOfMemory` if an allocation fails.
    pub fn read(
        alloc: Global,
        text: &'a str,
        scratch: &'a mut Scratch,
    ) -> Result<Tape<'a>, TapeError>
        ensures value { IfOk result (λ tape. IsValueOf text.now (tape_value tape)) }
        ensures unreadable { (offset : ℕ) → result ≡ Err (Json offset) → IsUnreadable text.now }
        ensures json { IfOk result (λ tape. read_text text.now ≡ Some (tape_data tape)) }
        ensures no_json { (offset : ℕ) → result ≡ Err (Json offset) → read_text text.now ≡ None }
    {
        let nodes = parse::read(alloc, text, scratch)?;
        Ok(Tape { nodes })
    }

    /// Returns the value of the whole text.
    pub fn root(&self) -> Element<'_>
        ensures value { value_of result ≡ tape_value self.now }
        ensures json { data_of result ≡ tape_data self.now }
    {
        Element {
            nodes: self.nodes.as_slice(),
        }
    }
}

/// A value in a tape.
#[derive(Clone, Copy)]
pub struct Element<'a> {
    /// The node of the value, and the nodes of its items or members.
    nodes: &'a [FlatNode<'a>],
    ghost of_value: { AreOfValue (map plain nodes.now) },
}

impl<'a> Element<'a> {
    ghost use Rattle.std.specs.Prelude.{is_some, option_and_then, option_map, false};
    ghost use Rattle.deno_graph_json.specs.Data.{data_of, elements_data, members_data};
    ghost use Rattle.deno_graph_json.specs.Read.Partial.{as_usize, reads_pair};
    ghost use Rattle.serde_json.specs.Find.{as_array, as_null, as_number, as_object, as_str, as_u64};
    ghost use Rattle.serde_json.specs.Written.{has_float};

    /// Returns false only if no number in the value is a float. Members that others of their name follow
    /// count too.
    pub(crate) fn has_float_node(self) -> bool
        ensures { result ≡ false → has_float (data_of self.entry) ≡ false }
    {
        for node in self.nodes {
            if let FlatNode::Float(_) = node {
                return true;
            }
        }
        false
    }

    /// Returns whether the value is null.
    pub fn is_null(self) -> bool
        ensures { result ≡ is_some (as_null (data_of self.entry)) }
    {
        matches!(self.view(), View::Null)
    }

    /// Returns the number if it is whole, without a sign, a point and an exponent, at most 2^64 - 1.
    pub fn as_u64(self) -> Option<u64>
        ensures { result ≡ option_and_then as_u64 (as_number (data_of self.entry)) }
    {
        match self.view() {
            View::Whole(number) => Some(number),
            _ => None,
        }
    }

    /// Returns the two numbers of an array of exactly two whole numbers.
    pub fn as_pair(self) -> Option<(u64, u64)>
        ensures { result ≡ reads_pair as_usize (data_of self.entry) }
    {
        match self.elements()?.nodes {
            [FlatNode::Whole(first), FlatNode::Whole(second)] => Some((*first, *second)),
            _ => None,
        }
    }

    /// Returns the text if the value is a string.
    #[inline(always)]
    pub fn as_str(self) -> Option<&'a str>
        ensures { option_map (λ text. text.now) result ≡ as_str (data_of self.entry) }
    {
        match self.view() {
            View::String(text) => Some(text),
            _ => None,
        }
    }

    /// Returns the elements if the value is an array.
    #[inline(always)]
    pub fn elements(self) -> Option<Elements<'a>>
        ensures json { option_map elements_data result ≡ as_array (data_of self.entry) }
    {
        match self.view() {
            View::Array(elements) => Some(elements),
            _ => None,
        }
    }

    /// Returns the members if the value is an object.
    #[inline(always)]
    pub fn members(self) -> Option<Members<'a>>
        ensures json { option_map members_data result ≡ as_object (data_of self.entry) }
    {
        match self.view() {
            View::Object(members) => Some(members),
            _ => None,
        }
    }
}

/// An iterator over the elements of an array, or over those that are left.
#[derive(Drop)]
pub struct Elements<'a> {
    /// The nodes of the elements.
    nodes: &'a [FlatNode<'a>],
    /// Number of the elements.
    count: usize,
    ghost of_items: { AreOfItems (map plain nodes.now) },
    ghost is_counted: { count ≡ item_count (items_in (map plain nodes.now)) },
    ghost count_fits: { count < 2 ^ 64 },
}

impl<'a> Elements<'a> {
    ghost use Rattle.std.specs.Prelude.{option_map};
    ghost use Rattle.deno_graph_json.specs.Data.{data_of, elements_data};
    ghost use Rattle.serde_json.specs.Events.{items_len};
    ghost use Rattle.serde_json.specs.Find.{get_item};

    /// Returns the number of elements that are left.
    pub fn len(&self) -> usize
        ensures { result ≡ items_len (elements_data self.now) }
    {
        self.count
    }

    /// Returns the element with this index among the elements that are left, counted from zero. Takes
    /// time for each element before it.
    pub fn get(self, number: usize) -> Option<Element<'a>>
        ensures json { option_map data_of result ≡ get_item number (elements_data self.entry) }
    {
        let mut left = number;
        for element in self {
            if left == 0 {
                return Some(element);
            }
            left -= 1;
        }
        None
    }
}

impl<'a> Iterator for Elements<'a> {
    ghost use Rattle.std.specs.Iterator.{at_most};
    ghost use Rattle.deno_graph_json.specs.View.{count_of, items_left, items_with};

    type Item = Element<'a>;

    ghost next_gives = { λ old found new. items_left old ≡ items_with found (items_left new) };

    ghost remaining = { λ elements. at_most (count_of elements) };

    fn next(&mut self) -> Option<Element<'a>> {
        let (element, nodes) = split_value(self.nodes)?;
        let count = self.count - 1;
        *self = Elements { nodes, count };
        Some(element)
    }
}

/// An iterator over the names and values of an object's members, or of those that are left, in the order
/// of the text. A copy starts where the original is.
#[derive(Clone, Copy)]
pub struct Members<'a> {
    /// The nodes of the members.
    nodes: &'a [FlatNode<'a>],
    ghost of_members: { AreOfMembers (map plain nodes.now) },
}

impl<'a> Members<'a> {
    ghost use Rattle.std.specs.Prelude.{option_map};
    ghost use Rattle.deno_graph_json.specs.Data.{data_of, members_data};
    ghost use Rattle.serde_json.specs.Find.{get_member};

    /// Returns the value of the last member with this name. Compares the name of each member.
    #[inline(always)]
    pub fn get(self, name: &str) -> Option<Element<'a>>
        ensures json { option_map data_of result ≡ get_member name.now (members_data self.entry) }
    {
        let mut found = None;
        for (key, value) in self {
            if key == name {
                found = Some(value);
            }
        }
        found
    }
}

impl<'a> Iterator for Members<'a> {
    ghost use Rattle.std.specs.Iterator.{at_most};
    ghost use Rattle.deno_graph_json.specs.View.{left_of, members_of, members_with};

    type Item = (&'a str, Element<'a>);

    ghost next_gives = { λ old found new. members_of old ≡ members_with found (members_of new) };

    ghost remaining = { λ members. at_most (left_of members) };

    #[inline(always)]
    fn next(&mut self) -> Option<(&'a str, Element<'a>)> {
        let (key, nodes) = self.nodes.split_first()?;
        let FlatNode::Key(name) = key else {
            return None;
        };
        let (value, nodes) = split_value(nodes)?;
        *self = Members { nodes };
        Some((*name, value))
    }
}
