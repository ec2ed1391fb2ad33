ghost use Rattle.std.specs.Prelude.{◌≡◌, ◌++◌, map, IfOk, OnOk, Some};
ghost use Rattle.serde_json.specs.View.{items_view, members_view, number_view, view};
ghost use Rattle.deno_graph_json.specs.Data.{tape_data};
ghost use Rattle.deno_graph_json.specs.Flat.{plain, number};
ghost use Rattle.deno_graph_json.specs.internal.Nodes.{ArePushed, AreItemsPushed, AreMembersPushed};

use crate::flat::{FlatNode, Tape};
use serde_json::{Map, Number, Value};
use std::alloc::{AllocError, Global};

impl<'a> Tape<'a> {
    /// Makes the flat list of a value. Strings are borrowed from the value. The only error is that an
    /// allocation fails.
    pub fn from_value(alloc: Global, value: &'a Value) -> Result<Tape<'a>, AllocError>
        ensures { IfOk result (λ tape. tape_data tape ≡ view value.now) }
    {
        let mut nodes = Vec::new(alloc);
        push_value(&mut nodes, value)?;
        Ok(Tape { nodes })
    }
}

/// Appends the nodes of a value.
#[cycle(push)]
fn push_value<'a>(nodes: &mut Vec<FlatNode<'a>>, value: &'a Value) -> Result<(), AllocError>
    ensures { OnOk result (ArePushed (view value.now) nodes.old.items nodes.new.items) }
{
    match value {
        Value::Null => Ok(nodes.push(FlatNode::Null)?),
        Value::Bool(value) => Ok(nodes.push(FlatNode::Bool(*value))?),
        Value::Number(number) => Ok(nodes.push(node_of(number))?),
        Value::String(text) => Ok(nodes.push(FlatNode::String(text.as_str()))?),
        Value::Array(items) => push_items(nodes, items),
        Value::Object(members) => push_members(nodes, members),
    }
}

/// Returns the node of a number.
fn node_of<'a>(value: &Number) -> FlatNode<'a>
    ensures { plain result ≡ number (number_view value.now) }
{
    if let Some(whole) = value.as_u64() {
        return FlatNode::Whole(whole);
    }
    match value.as_i64() {
        Some(negative) => FlatNode::Negative(negative),
        None => FlatNode::Float(value.as_f64().unwrap_or(0.0)),
    }
}

/// Appends the nodes of an array.
#[cycle(push)]
fn push_items<'a>(nodes: &mut Vec<FlatNode<'a>>, items: &'a Vec<Value>) -> Result<(), AllocError>
    ensures { OnOk result (AreItemsPushed (items_view items.now.items) nodes.old.items nodes.new.items) }
{
    let at = nodes.len();
    nodes.push(FlatNode::Array {
        elements: 0,
        nodes: 0,
    })?;
    for item in items {
        push_value(nodes, item)?;
    }
    let inside = nodes.len() - at - 1;
    nodes[at] = FlatNode::Array {
        elements: items.len(),
        nodes: inside,
    };
    Ok(())
}

/// Appends the nodes of an object.
#[cycle(push)]
fn push_members<'a>(
    nodes: &mut Vec<FlatNode<'a>>,
    members: &'a Map<String, Value>,
) -> Result<(), AllocError>
    ensures { OnOk result (AreMembersPushed (members_view members.now.entries)
        nodes.old.items nodes.new.items) }
{
    let at = nodes.len();
    nodes.push(FlatNode::Object { nodes: 0 })?;
    for (name, value) in members.iter() {
        nodes.push(FlatNode::Key(name.as_str()))?;
        push_value(nodes, value)?;
    }
    let inside = nodes.len() - at - 1;
    nodes[at] = FlatNode::Object { nodes: inside };
    Ok(())
}
