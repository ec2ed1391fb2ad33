//! The nodes below a node.
#![tactic(auto, unfolding(deno_graph_source::specs::Node::range_of))]

ghost use Rattle.std.specs.Prelude.{◌≡◌, [], ◌∷◌, ◌++◌, IfOk, OnOk, filter, map, option_copied, slice_get};
ghost use Rattle.modinfo_estree.specs.Child.{has_group, in_extent, lacks_group, node_of, sorted_children};
ghost use Rattle.modinfo_estree.specs.Child.{around as around_node, extent_in, nodes_in};

use crate::role::{Group, Role};
use deno_graph_source::text::SourceRange;
use deno_graph_source::tree::{Kind, Node};
use deno_graph_source::values::Items;
use std::alloc::{AllocError, Global};

/// A node below another one.
#[derive(Drop)]
pub struct Child {
    pub role: Role,
    /// Whether the node is a `SpreadElement`.
    pub is_spread: bool,
    pub node: Node,
}

/// Puts children into the order of their starts. Children that start at the same byte keep their order.
pub fn sort_by_start(children: &mut Vec<Child>) -> Result<(), AllocError>
    ensures { OnOk result (children.new.items ≡ sorted_children children.old.items) }
{
    children.sort_by_key(|child| child.node.range.start)
}

/// Splits children into those in a group, and the others.
pub fn split(
    alloc: Global,
    children: Vec<Child>,
    group: Group,
) -> Result<(Vec<Child>, Vec<Child>), AllocError>
    ensures inside { IfOk result (λ parts. parts.0.items ≡ filter (has_group group) children.items) }
    ensures others { IfOk result (λ parts. parts.1.items ≡ filter (lacks_group group) children.items) }
{
    let mut inside = Vec::new(alloc);
    let mut others = Vec::new(alloc);
    for child in children {
        if child.role.is_in(group) {
            inside.push(child)?;
        } else {
            others.push(child)?;
        }
    }
    Ok((inside, others))
}

/// Appends the nodes of children.
pub fn push_nodes(children: Vec<Child>, nodes: &mut Items<Node>) -> Result<(), AllocError>
    ensures { OnOk result (nodes.new ≡ nodes.old ++ map node_of children.items) }
{
    for child in children {
        nodes.push(child.node)?;
    }
    Ok(())
}

/// Returns the nodes of children.
pub fn nodes_of(alloc: Global, children: Vec<Child>) -> Result<Items<Node>, AllocError>
    ensures { IfOk result (λ nodes. nodes ≡ map node_of children.items) }
{
    let mut nodes = Items::new(alloc);
    push_nodes(children, &mut nodes)?;
    Ok(nodes)
}

/// Returns the nodes of operands and of properties' keys and values, each with the parentheses around
/// it. `range` is that of the node above, which begins at its left operand and ends with its right one
/// or its value, or with the parentheses around these.
pub fn nodes_in_parentheses(
    alloc: Global,
    range: SourceRange,
    children: Vec<Child>,
) -> Result<Items<Node>, AllocError>
    ensures { IfOk result (λ nodes. nodes ≡ map (in_extent range) children.items) }
{
    let mut nodes = Items::new(alloc);
    for child in children {
        let extent = extent_in(range, &child);
        push_around(alloc, extent, child.node, &mut nodes)?;
    }
    Ok(nodes)
}

/// Appends a node, inside of an `Other` of the range `extent` if that isn't the range of the node.
pub fn push_around(
    alloc: Global,
    extent: SourceRange,
    node: Node,
    nodes: &mut Items<Node>,
) -> Result<(), AllocError>
    ensures { OnOk result (nodes.new ≡ nodes.old ++ around_node extent node ∷ []) }
{
    nodes.push(around(alloc, extent, node)?)
}

/// Returns the range of a child with the parentheses around it, in the range of the node above.
fn extent_in(range: SourceRange, child: &Child) -> SourceRange
    ensures { result ≡ extent_in range child.now }
{
    let own = child.node.range;
    match child.role {
        Role::Left => SourceRange::new(range.start, own.end),
        Role::Right | Role::Value => SourceRange::new(own.start, range.end),
        _ => own,
    }
}

/// Returns a node, inside of an `Other` of the range `extent` if that isn't the range of the node: then
/// the node is in parentheses.
#[tactic(auto, unfolding(crate::specs::Child::around, deno_graph_source::specs::Node::range_of))]
pub fn around(alloc: Global, extent: SourceRange, node: Node) -> Result<Node, AllocError>
    ensures { IfOk result (λ outer. outer ≡ around_node extent node) }
{
    if extent == node.range {
        return Ok(node);
    }
    Ok(Node {
        range: extent,
        kind: Kind::Other,
        children: Items::from_item(alloc, node)?,
    })
}

/// Returns the node of the first child in a group.
pub fn first_in(children: &[Child], group: Group) -> Option<&Node>
    ensures { option_copied result ≡ slice_get (nodes_in group children.now) 0 }
{
    for child in children {
        if child.role.is_in(group) {
            return Some(&child.node);
        }
    }
    None
}
