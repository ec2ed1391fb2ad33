//! The tree of a text, from its flat list of nodes.

mod kinds;
mod literals;
mod templates;

ghost use Rattle.std.specs.Prelude.{◌≡◌, ◌++◌, All, IfOk, List, OnOk, map, ℕ};
ghost use Rattle.std.specs.List.{flat_map};
ghost use Rattle.deno_graph_source.specs.Node.{nodes_in};
ghost use Rattle.modinfo_imports.specs.Nodes.{part_claim};
ghost use Rattle.modinfo_pieces.specs.declared.piece.Piece.{Piece};
ghost use Rattle.modinfo_source.specs.Spelled.{KindIsSpelled, NodeIsSpelled};
ghost use Rattle.modinfo_source.specs.internal.Parts.{PartIsCooked};
ghost use Rattle.modinfo_source.specs.internal.OpenNodes.{AreSpelled, nodes_of_open};

use crate::tree::kinds::kind_of;
use crate::tree::literals::cooked_part;
use crate::tree::templates::{Part, template_kind};
use deno_graph_base::text::SourceRange;
use deno_graph_base::values::Items;
use deno_graph_source::tree::{Arg, Kind, Node};
use modinfo_lexer::syntax_error::ReadError;
use modinfo_parser::shape::{FlatNode, Shape};
use std::alloc::Global;

/// A node whose parent isn't known yet.
#[derive(Drop)]
struct OpenNode {
    /// Index in the flat list.
    index: usize,
    is_spread: bool,
    node: Node,
}

/// The nodes and the parts of templates whose parents aren't known yet, in the order of the text.
#[derive(Drop)]
struct OpenNodes {
    nodes: Vec<OpenNode>,
    parts: Vec<Part>,
    /// The number of the parts of templates so far.
    count: usize,
}

/// Returns the parts of templates in a flat list.
pub(crate) fn parts_in(alloc: Global, flat: &[FlatNode]) -> Result<Vec<SourceRange>, ReadError> {
    let mut parts = Vec::new(alloc);
    for node in flat {
        if node.shape == Shape::Quasi {
            parts.push(node.range)?;
        }
    }
    Ok(parts)
}

/// Returns the nodes of a flat list that are inside no other, with those inside them as children. The list
/// has these parts of templates. Takes the list, whose memory is free before the nodes are put together.
pub(crate) fn body_of(
    alloc: Global,
    text: &str,
    flat: Vec<FlatNode>,
    all_parts: &[SourceRange],
) -> Result<Items<Node>, ReadError>
    ensures { IfOk result (λ body. All (NodeIsSpelled text.now (map (part_claim text.now) all_parts.now))
        (flat_map nodes_in body)) }
{
    let mut open = OpenNodes {
        nodes: Vec::new(alloc),
        parts: Vec::new(alloc),
        count: 0,
    };
    for (index, node) in flat.into_iter().enumerate() {
        open.add(alloc, text, all_parts, index, node)?;
    }
    let OpenNodes { nodes, .. } = open;
    let body = children_of(alloc, nodes)?;
    Ok(body)
}

/// Returns the nodes themselves.
fn children_of(alloc: Global, opened: Vec<OpenNode>) -> Result<Items<Node>, ReadError>
    ensures { IfOk result (λ nodes. nodes ≡ nodes_of_open opened.items) }
{
    let mut nodes = Items::with_capacity(alloc, opened.len())?;
    for node in opened {
        nodes.push(node.node)?;
    }
    Ok(nodes)
}

impl OpenNodes {
    /// Adds the node at an index of the flat list.
    fn add(
        &mut self,
        alloc: Global,
        text: &str,
        all_parts: &[SourceRange],
        index: usize,
        flat: FlatNode,
    ) -> Result<(), ReadError>
        requires { AreSpelled text.now (map (part_claim text.now) all_parts.now) self.old }
        ensures { OnOk result (AreSpelled text.now (map (part_claim text.now) all_parts.now) self.new) }
    {
        if flat.shape == Shape::Quasi {
            let part = part_at(alloc, text, all_parts, self.count, index)?;
            self.count = self.count.saturating_add(1);
            return Ok(self.parts.push(part)?);
        }
        let inside = take_nodes(alloc, &mut self.nodes, flat.first)?;
        let parts = take_parts(alloc, &mut self.parts, flat.first)?;
        let is_spread = flat.shape == Shape::Spread;
        let node = node_of(alloc, text, all_parts, flat, inside, parts)?;
        Ok(
            self.nodes.push(OpenNode {
                index,
                is_spread,
                node,
            })?,
        )
    }
}

/// Returns the part of a template with this number, which is at an index of the flat list.
fn part_at(
    alloc: Global,
    text: &str,
    all_parts: &[SourceRange],
    number: usize,
    index: usize,
) -> Result<Part, ReadError>
    ensures { IfOk result (PartIsCooked text.now (map (part_claim text.now) all_parts.now)) }
{
    match all_parts.get(number) {
        Some(range) => Ok(Part {
            index,
            range: *range,
            value: cooked_part(alloc, text, *range)?,
        }),
        None => Ok(Part {
            index,
            range: SourceRange::new(0, 0),
            value: None,
        }),
    }
}

/// Takes the nodes from an index of the flat list on, in order.
fn take_nodes(
    alloc: Global,
    nodes: &mut Vec<OpenNode>,
    first: usize,
) -> Result<Vec<OpenNode>, ReadError>
    ensures { IfOk result (λ taken. nodes.new.items ++ taken.items ≡ nodes.old.items) }
{
    let mut taken = Vec::new(alloc);
    for _turn in 0..nodes.len() {
        if !nodes.last().is_some_and(|node| node.index >= first) {
            break;
        }
        match nodes.pop() {
            Some(node) => taken.push(node)?,
            None => break,
        }
    }
    taken.reverse();
    Ok(taken)
}

/// Takes the parts of templates from an index of the flat list on, in order.
fn take_parts(alloc: Global, parts: &mut Vec<Part>, first: usize) -> Result<Vec<Part>, ReadError>
    ensures { IfOk result (λ taken. parts.new.items ++ taken.items ≡ parts.old.items) }
{
    let mut taken = Vec::new(alloc);
    for _turn in 0..parts.len() {
        if !parts.last().is_some_and(|part| part.index >= first) {
            break;
        }
        match parts.pop() {
            Some(part) => taken.push(part)?,
            None => break,
        }
    }
    taken.reverse();
    Ok(taken)
}

/// Returns the node with these nodes and parts of a template inside it.
fn node_of(
    alloc: Global,
    text: &str,
    all_parts: &[SourceRange],
    flat: FlatNode,
    inside: Vec<OpenNode>,
    parts: Vec<Part>,
) -> Result<Node, ReadError>
    requires nodes { All (NodeIsSpelled text.now (map (part_claim text.now) all_parts.now)) (flat_map
        nodes_in (nodes_of_open inside.items)) }
    requires parts { All (PartIsCooked text.now (map (part_claim text.now) all_parts.now)) parts.items }
    ensures { IfOk result (λ node. All (NodeIsSpelled text.now (map (part_claim text.now) all_parts.now))
        (nodes_in node)) }
{
    let args = arguments_of(alloc, flat.shape, &inside)?;
    let children = children_of(alloc, inside)?;
    let kind = kind_inside(
        alloc,
        text,
        all_parts,
        flat,
        args,
        children.as_slice(),
        parts,
    )?;
    Ok(node_with(flat.range, kind, children))
}

/// Returns the kind of a node with these children and parts of a template inside it.
fn kind_inside(
    alloc: Global,
    text: &str,
    all_parts: &[SourceRange],
    flat: FlatNode,
    args: Items<Arg>,
    children: &[Node],
    parts: Vec<Part>,
) -> Result<Kind, ReadError>
    requires { All (PartIsCooked text.now (map (part_claim text.now) all_parts.now)) parts.items }
    ensures { IfOk result (KindIsSpelled text.now (map (part_claim text.now) all_parts.now) flat.range
        children.now) }
{
    if flat.shape == Shape::Template {
        template_kind(alloc, text, all_parts, flat.range, children, parts)
    } else {
        kind_of(alloc, text, flat, args, children.len())
    }
}

/// Returns the node with this range, kind and children.
fn node_with(range: SourceRange, kind: Kind, children: Items<Node>) -> Node
    ensures { (text : List ℕ) (pieces : List Piece) → KindIsSpelled text pieces range children kind
        → All (NodeIsSpelled text pieces) (flat_map nodes_in children)
        → All (NodeIsSpelled text pieces) (nodes_in result) }
{
    Node::with_children(range, kind, children)
}

/// Returns the arguments of a call, by the nodes inside the call.
fn arguments_of(alloc: Global, shape: Shape, inside: &[OpenNode]) -> Result<Items<Arg>, ReadError> {
    let mut args = Items::with_capacity(alloc, shape.args().min(inside.len()))?;
    for node in inside.iter().skip(shape.callee_count()).take(shape.args()) {
        args.push(Arg {
            spread: node.is_spread,
            range: node.node.range,
        })?;
    }
    Ok(args)
}
