//! The attributes of an import type.

ghost use Rattle.std.specs.Prelude.{◌≡◌, IfOk};
ghost use Rattle.deno_graph_source.specs.Node.{children_of};
ghost use Rattle.modinfo_estree.specs.Kind as spec;

use deno_graph_source::tree::{Kind, Node, PropKey};
use deno_graph_source::values::Items;
use std::alloc::{AllocError, Global};

/// Returns the attributes among the options of an import type: the value of the first property `with`, if
/// it is an object literal.
#[tactic(auto, unfolding(deno_graph_source::specs::Node::children_of))]
pub fn clause_of(alloc: Global, options: Items<Node>) -> Result<Items<Node>, AllocError>
    ensures { IfOk result (λ clause. clause ≡ spec.clause_of options) }
{
    match options.into_vec().into_iter().next() {
        Some(options) => last_object(alloc, first_with(alloc, below(options))),
        None => Ok(Items::new(alloc)),
    }
}

/// Returns the nodes below the first property `with`, none if there is no such property.
#[tactic(auto, unfolding(deno_graph_source::specs::Node::kind_of, deno_graph_source::specs::Node::children_of))]
fn first_with(alloc: Global, properties: Items<Node>) -> Items<Node>
    ensures { spec.last_object result ≡ spec.clause_among properties }
{
    for property in properties.into_vec() {
        if is_with_key(&property.kind) {
            return below(property);
        }
    }
    Items::new(alloc)
}

/// Returns the nodes below a node.
#[tactic(auto, unfolding(deno_graph_source::specs::Node::children_of))]
fn below(node: Node) -> Items<Node>
    ensures { result ≡ children_of node }
{
    node.children
}

/// Returns the last of some nodes, if it is an object literal.
fn last_object(alloc: Global, nodes: Items<Node>) -> Result<Items<Node>, AllocError>
    ensures { IfOk result (λ last. last ≡ spec.last_object nodes) }
{
    match nodes.into_vec().pop() {
        Some(node) => if_object(alloc, node),
        None => Ok(Items::new(alloc)),
    }
}

/// Returns a node, if it is an object literal.
#[tactic(auto, unfolding(deno_graph_source::specs::Node::kind_of))]
fn if_object(alloc: Global, node: Node) -> Result<Items<Node>, AllocError>
    ensures { IfOk result (λ object. object ≡ spec.if_object node) }
{
    if node.kind.is_object() {
        Items::from_item(alloc, node)
    } else {
        Ok(Items::new(alloc))
    }
}

/// Returns whether a property has the key `with`, or `assert` as it was once.
fn is_with_key(kind: &Kind) -> bool
    ensures { result ≡ spec.is_with_key kind.now }
{
    match kind {
        Kind::KeyValue(PropKey::Ident(name)) => is_with(name.as_str()),
        Kind::KeyValue(PropKey::Str(text)) => match text.as_str() {
            Some(text) => is_with(text),
            None => false,
        },
        _ => false,
    }
}

/// Returns whether a name is `with` or `assert`.
fn is_with(name: &str) -> bool
    ensures { result ≡ spec.is_with name.now }
{
    name == "with" || name == "assert"
}
