//! Properties of objects, and methods.

ghost use Rattle.std.specs.Prelude.{◌≡◌, IfOk, map};
ghost use Rattle.deno_graph_json.specs.ObjectReader.{readable};
ghost use Rattle.modinfo_estree.specs.Child.{node_of};
ghost use Rattle.modinfo_estree.specs.Kind as spec;
ghost use Rattle.modinfo_estree.specs.Parts.{parts_of};

use crate::child::{Child, nodes_in_parentheses, nodes_of, split};
use crate::member::{is_true, text_at};
use crate::reading::Reading;
use crate::role::Group;
use deno_graph_source::tree::{Kind, Node, PropKey};
use deno_graph_source::values::TryClone;
use std::alloc::{AllocError, Global};

impl<'a, 't, 'v> Reading<'a, 't, 'v> {
    /// Reads a property, an `Other` if it is no `key: value`.
    #[tactic(auto, unfolding(crate::specs::Kind::property))]
    pub fn property(&self, children: Vec<Child>) -> Result<Node, AllocError>
        ensures { IfOk result (λ node. node ≡ spec.property (parts_of self.now) children.items) }
    {
        if self.is_key_value() {
            self.key_value(children)
        } else {
            self.whole(Kind::Other, children)
        }
    }

    /// Returns whether a property is `key: value`, no method, accessor or shorthand.
    fn is_key_value(&self) -> bool
        ensures { result ≡ spec.is_key_value (readable self.now.members) }
    {
        let is_init = match text_at(&self.members, "kind") {
            Some(kind) => kind == "init",
            None => true,
        };
        is_init && !is_true(&self.members, "method") && !is_true(&self.members, "shorthand")
    }

    /// Reads a `key: value`.
    #[tactic(auto, unfolding(crate::specs::Kind::key_value))]
    pub fn key_value(&self, children: Vec<Child>) -> Result<Node, AllocError>
        ensures { IfOk result (λ node. node ≡ spec.key_value (parts_of self.now) children.items) }
    {
        let (parts, _) = split(self.alloc, children, Group::Property)?;
        let key = self.key_of(&parts)?;
        let nodes = nodes_in_parentheses(self.alloc, self.range, parts)?;
        Ok(self.node(Kind::KeyValue(key), nodes))
    }

    /// Returns the key of a property with this key and value.
    #[tactic(auto, unfolding(deno_graph_source::specs::Node::kind_of))]
    fn key_of(&self, parts: &[Child]) -> Result<PropKey, AllocError>
        ensures { IfOk result (λ key. key ≡ spec.key_of (readable self.now.members) (map node_of parts.now)) }
    {
        if is_true(&self.members, "computed") {
            return Ok(PropKey::Other);
        }
        match parts.first() {
            Some(key) => key_of_kind(self.alloc, &key.node.kind),
            None => Ok(PropKey::Other),
        }
    }

    /// Reads a method of Babel: a function, and outside of it its decorators and its computed key, as
    /// ESTree has them.
    #[tactic(auto, unfolding(crate::specs::Kind::method))]
    pub fn method(&self, children: Vec<Child>) -> Result<Node, AllocError>
        ensures { IfOk result (λ node. node ≡ spec.method (parts_of self.now) children.items) }
    {
        let group = if is_true(&self.members, "computed") {
            Group::DecoratorsAndKey
        } else {
            Group::Decorators
        };
        let (outside, inside) = split(self.alloc, children, group)?;
        let mut nodes = nodes_of(self.alloc, outside)?;
        nodes.push(self.whole(Kind::Function, inside)?)?;
        Ok(self.node(Kind::Other, nodes))
    }
}

/// Returns the key that a node is.
fn key_of_kind(alloc: Global, kind: &Kind) -> Result<PropKey, AllocError>
    ensures { IfOk result (λ key. key ≡ spec.key_of_kind kind.now) }
{
    Ok(match kind {
        Kind::Str(text) => PropKey::Str(text.try_clone(alloc)?),
        Kind::Ident(name) => PropKey::Ident(name.try_clone(alloc)?),
        _ => PropKey::Other,
    })
}
