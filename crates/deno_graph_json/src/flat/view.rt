ghost use Rattle.std.specs.Prelude.{◌≡◌};
ghost use Rattle.deno_graph_json.specs.Data.{data_of, view_data};
ghost use Rattle.deno_graph_json.specs.View.{value_of, view_value};

use crate::flat::{Element, Elements, FlatNode, Members};

/// What a JSON value is, one level deep.
#[derive(Drop)]
pub enum View<'a> {
    Null,
    Bool(bool),
    /// A whole number from 0 to 2^64 - 1, written without a sign, a point and an exponent.
    Whole(u64),
    /// A whole number from -2^63 to -1, written without a point and an exponent.
    Negative(i64),
    /// Any other number: the nearest float.
    Float(f64),
    String(&'a str),
    Array(Elements<'a>),
    Object(Members<'a>),
}

impl<'a> Element<'a> {
    /// Returns what the value is.
    #[inline(always)]
    pub fn view(self) -> View<'a>
        ensures value { value_of self.entry ≡ view_value result }
        ensures json { data_of self.entry ≡ view_data result }
    {
        let Some((node, nodes)) = self.nodes.split_first() else {
            return View::Null;
        };
        match *node {
            FlatNode::Null | FlatNode::Key(_) => View::Null,
            FlatNode::Bool(value) => View::Bool(value),
            FlatNode::Whole(number) => View::Whole(number),
            FlatNode::Negative(number) => View::Negative(number),
            FlatNode::Float(number) => View::Float(number),
            FlatNode::String(text) => View::String(text),
            FlatNode::Array { elements, .. } => View::Array(Elements {
                nodes,
                count: elements,
            }),
            FlatNode::Object { .. } => View::Object(Members { nodes }),
        }
    }
}
