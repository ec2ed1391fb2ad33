//! TypeScript's type `import("..")`.

ghost use Rattle.std.specs.Prelude.{◌≡◌, ◌++◌, IfOk, length, nat_lt};
ghost use Rattle.deno_graph_json.specs.Data.{data_of};
ghost use Rattle.deno_graph_json.specs.ObjectReader.{readable, value_of};
ghost use Rattle.deno_graph_json.specs.Read.Result.{IsReadResult};
ghost use Rattle.modinfo_estree.specs.Child.{nodes_in, nodes_outside};
ghost use Rattle.modinfo_estree.specs.Kind as spec;
ghost use Rattle.modinfo_estree.specs.Parts.{parts_of};
ghost use Rattle.modinfo_estree.specs.Source.{source_of};

use crate::child::{Child, nodes_of, push_nodes, split};
use crate::clause::clause_of;
use crate::member::is_present;
use crate::reading::Reading;
use crate::required::{ReadWith, in_member, read_at, required};
use crate::role::Group;
use crate::source::NodeMembers;
use deno_graph_json::{Element, ReadError};
use deno_graph_source::tree::{Kind, Node, StrLit};
use deno_graph_source::values::Items;
use std::alloc::{AllocError, Global};

impl<'a, 't, 'v> Reading<'a, 't, 'v> {
    /// Reads an import type.
    #[tactic(auto, using(deno_graph_json::proofs::Reading::reading), unfolding(crate::specs::Kind::reads_import_type))]
    pub fn import_type(&self, children: Vec<Child>) -> Result<Node, ReadError>
        ensures { IsReadResult (value_of self.now.members)
            (spec.reads_import_type (parts_of self.now) children.items) result }
    {
        let arg = self.import_type_literal()?;
        let (has_with, nodes) = import_type_nodes(self.alloc, children)?;
        Ok(self.node(Kind::ImportType { arg, has_with }, nodes))
    }

    /// Reads the literal of an import type: `source`, or `argument` in older trees, a literal or a node
    /// with a `literal`.
    #[tactic(auto, using(deno_graph_json::proofs::Reading::reading), unfolding(crate::specs::Kind::reads_argument, deno_graph_json::specs::Read::Partial::member_at))]
    fn import_type_literal(&self) -> Result<StrLit, ReadError>
        ensures { IsReadResult (value_of self.now.members)
            (spec.reads_argument (source_of self.now.source.now).counted (readable self.now.members))
            result }
    {
        if is_present(&self.members, "source") {
            return read_at(self.alloc, &self.source.offsets, &self.members, "source");
        }
        let argument = required(self.alloc, &self.members, "argument")?;
        let read = self.literal_in(argument);
        in_member(self.alloc, &self.members, "argument", read)
    }

    /// Reads the literal in a node with a `literal`, or the node as a literal.
    #[tactic(auto, using(deno_graph_json::proofs::Reading::reading), unfolding(crate::specs::Kind::reads_literal_in, deno_graph_json::specs::Read::Partial::member_at))]
    fn literal_in(&self, argument: Element<'_>) -> Result<StrLit, ReadError>
        ensures { IsReadResult (data_of argument.entry)
            (spec.reads_literal_in (source_of self.now.source.now).counted (data_of argument.entry))
            result }
    {
        let members = NodeMembers::new(self.alloc, argument)?;
        match members.get("literal") {
            Some(_) => read_at(self.alloc, &self.source.offsets, &members, "literal"),
            None => ReadWith::read_with(self.alloc, &self.source.offsets, argument),
        }
    }
}

/// Returns whether an import type has attributes, and its nodes: the attributes, then all nodes but the
/// options.
fn import_type_nodes(alloc: Global, children: Vec<Child>) -> Result<(bool, Items<Node>), AllocError>
    ensures has_with { IfOk result (λ parts. parts.0
        ≡ nat_lt 0 (length (spec.clause_of (nodes_in Group.Options children.items)))) }
    ensures nodes { IfOk result (λ parts. parts.1 ≡ spec.clause_of (nodes_in Group.Options children.items)
        ++ nodes_outside Group.Options children.items) }
{
    let (options, others) = split(alloc, children, Group::Options)?;
    let mut nodes = clause_of(alloc, nodes_of(alloc, options)?)?;
    let has_with = !nodes.is_empty();
    push_nodes(others, &mut nodes)?;
    Ok((has_with, nodes))
}
