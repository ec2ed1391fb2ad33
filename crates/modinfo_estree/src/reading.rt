//! A node that is being read, and nodes that need nothing else.

ghost use Rattle.std.specs.Prelude.{◌≡◌, IfOk, map};
ghost use Rattle.modinfo_estree.specs.Child.{node_of};
ghost use Rattle.modinfo_estree.specs.Kind.{made};

use crate::child::{Child, nodes_of};
use crate::role::Role;
use crate::source::{NodeMembers, Source};
use deno_graph_source::text::SourceRange;
use deno_graph_source::tree::{Kind, Node};
use deno_graph_source::values::Items;
use std::alloc::{AllocError, Global};

/// A node that is being read: its role, its members and its range. The nodes below it are read already.
#[derive(Drop)]
pub struct Reading<'a, 't, 'v> {
    pub alloc: Global,
    pub source: &'a Source<'t>,
    pub role: Role,
    pub members: NodeMembers<'v>,
    pub range: SourceRange,
}

impl<'a, 't, 'v> Reading<'a, 't, 'v> {
    /// Returns the node of this kind with these nodes below it.
    pub fn node(&self, kind: Kind, children: Items<Node>) -> Node
        ensures { result ≡ made kind self.now.range children }
    {
        Node {
            range: self.range,
            kind,
            children,
        }
    }

    /// Returns the node of this kind with all nodes below it.
    pub fn whole(&self, kind: Kind, children: Vec<Child>) -> Result<Node, AllocError>
        ensures { IfOk result (λ node. node ≡ made kind self.now.range (map node_of children.items)) }
    {
        Ok(self.node(kind, nodes_of(self.alloc, children)?))
    }
}
