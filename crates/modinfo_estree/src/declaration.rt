//! Imports, exports and modules.

ghost use Rattle.std.specs.Prelude.{◌≡◌, IfOk, map};
ghost use Rattle.deno_graph_json.specs.Data.{data_of};
ghost use Rattle.deno_graph_json.specs.ObjectReader.{readable, value_of};
ghost use Rattle.deno_graph_json.specs.Read.Result.{IsReadResult};
ghost use Rattle.deno_graph_source.specs.Node.{kind_of, range_of};
ghost use Rattle.modinfo_estree.specs.Child.{node_of, nodes_in};
ghost use Rattle.modinfo_estree.specs.Kind as spec;
ghost use Rattle.modinfo_estree.specs.Parts.{parts_of};
ghost use Rattle.modinfo_estree.specs.Source.{source_of};

use crate::child::{Child, first_in, nodes_of, split};
use crate::member::{has_items, has_text, has_type, is_present};
use crate::phase::read_phase;
use crate::reading::Reading;
use crate::required::{in_member, read_at};
use crate::role::Group;
use crate::source::NodeMembers;
use deno_graph_json::{Element, ReadError};
use deno_graph_source::tree::{Kind, Node, StrLit};
use deno_graph_source::values::{Items, TryClone};
use std::alloc::{AllocError, Global};

/// The type of `import name = ..`.
const IMPORT_EQUALS: &str = "TSImportEqualsDeclaration";

/// The type of `require("..")` in such an import.
const EXTERNAL_MODULE: &str = "TSExternalModuleReference";

impl<'a, 't, 'v> Reading<'a, 't, 'v> {
    /// Reads an import declaration.
    #[tactic(auto, using(deno_graph_json::proofs::Reading::reading), unfolding(crate::specs::Kind::reads_import))]
    pub fn import(&self, children: Vec<Child>) -> Result<Node, ReadError>
        ensures { IsReadResult (value_of self.now.members)
            (spec.reads_import (parts_of self.now) children.items) result }
    {
        let src: StrLit = read_at(self.alloc, &self.source.offsets, &self.members, "source")?;
        let phase = read_phase(&self.members)?;
        let (attributes, _) = split(self.alloc, children, Group::Attributes)?;
        let has_with = self.has_clause(&src, &attributes);
        let children = self.clause(has_with, attributes)?;
        let kind = Kind::ImportDecl {
            type_only: has_text(&self.members, "importKind", "type"),
            phase,
            src,
            has_specifiers: has_items(&self.members, "specifiers"),
            has_with,
        };
        Ok(self.node(kind, children))
    }

    /// Reads an export from a module. `export *` and `export { .. }` give the same information.
    #[tactic(auto, using(deno_graph_json::proofs::Reading::reading), unfolding(crate::specs::Kind::reads_export_from))]
    pub fn export_from(&self, children: Vec<Child>) -> Result<Node, ReadError>
        ensures { IsReadResult (value_of self.now.members)
            (spec.reads_export_from (parts_of self.now) children.items) result }
    {
        let src: StrLit = read_at(self.alloc, &self.source.offsets, &self.members, "source")?;
        let (attributes, _) = split(self.alloc, children, Group::Attributes)?;
        let has_with = self.has_clause(&src, &attributes);
        let children = self.clause(has_with, attributes)?;
        let kind = Kind::NamedExport {
            type_only: has_text(&self.members, "exportKind", "type"),
            src: Some(src),
            has_with,
        };
        Ok(self.node(kind, children))
    }

    /// Reads an export: from a module, of an `import name = ..`, or of a declaration or names of this
    /// module.
    #[tactic(auto, using(deno_graph_json::proofs::Reading::reading), unfolding(crate::specs::Kind::reads_named_export, deno_graph_json::specs::Read::Partial::member_at))]
    pub fn named_export(&self, children: Vec<Child>) -> Result<Node, ReadError>
        ensures { IsReadResult (value_of self.now.members)
            (spec.reads_named_export (parts_of self.now) children.items) result }
    {
        if is_present(&self.members, "source") {
            return self.export_from(children);
        }
        match self.members.get("declaration") {
            Some(declaration) if has_type(&self.members, "declaration", IMPORT_EQUALS) => {
                let read = self.exported(declaration, children);
                in_member(self.alloc, &self.members, "declaration", read)
            }
            _ => Ok(self.export(children)?),
        }
    }

    /// Reads an export of an `import name = ..` from the value of the declaration.
    #[tactic(auto, using(deno_graph_json::proofs::Reading::reading))]
    fn exported(&self, declaration: Element<'_>, children: Vec<Child>) -> Result<Node, ReadError>
        ensures { IsReadResult (data_of declaration.entry)
            (spec.reads_exported (parts_of self.now) children.items (data_of declaration.entry)) result }
    {
        let declared = NodeMembers::new(self.alloc, declaration)?;
        self.import_equals(true, &declared, children)
    }

    /// Reads `import name = require("..")` from the members of the declaration, an `Other` if it names no
    /// module.
    #[tactic(auto, using(deno_graph_json::proofs::Reading::reading), unfolding(crate::specs::Kind::reads_import_equals, deno_graph_json::specs::Read::Partial::member_at))]
    pub fn import_equals(
        &self,
        is_export: bool,
        declared: &NodeMembers<'_>,
        children: Vec<Child>,
    ) -> Result<Node, ReadError>
        ensures { IsReadResult (value_of declared.now)
            (spec.reads_import_equals (parts_of self.now) children.items is_export (readable declared.now))
            result }
    {
        match declared.get("moduleReference") {
            Some(reference) if has_type(declared, "moduleReference", EXTERNAL_MODULE) => {
                match self.external_in(reference) {
                    Ok(external) => {
                        let type_only = has_text(declared, "importKind", "type");
                        Ok(self.external_import(type_only, is_export, external))
                    }
                    Err(error) => Err(error.in_member(self.alloc, "moduleReference")),
                }
            }
            _ => Ok(self.whole(Kind::Other, children)?),
        }
    }

    /// Reads the module that an `import name = require("..")` names.
    #[tactic(auto, using(deno_graph_json::proofs::Reading::reading))]
    fn external_in(&self, reference: Element<'_>) -> Result<StrLit, ReadError>
        ensures { IsReadResult (data_of reference.entry)
            (spec.external_in (source_of self.now.source.now) (data_of reference.entry)) result }
    {
        let reference = NodeMembers::new(self.alloc, reference)?;
        read_at(self.alloc, &self.source.offsets, &reference, "expression")
    }

    /// Returns the node of an `import name = require("..")`.
    fn external_import(&self, type_only: bool, is_export: bool, external: StrLit) -> Node
        ensures { result ≡ spec.external_import self.now.range type_only is_export external }
    {
        let kind = Kind::ImportEquals {
            type_only,
            is_export,
            external: Some(external),
        };
        self.node(kind, Items::new(self.alloc))
    }

    /// Returns whether a declaration has a `with` clause: it has attributes; or a token follows its source
    /// that isn't `;`, since a clause without attributes is in no tree.
    fn has_clause(&self, src: &StrLit, attributes: &[Child]) -> bool
        ensures { result ≡ spec.has_clause (parts_of self.now) (map node_of attributes.now) src.now }
    {
        if !attributes.is_empty() {
            return true;
        }
        let next = self.source.tokens.start(src.range.end);
        next < self.range.end && self.source.text.as_bytes().get(next) != Some(&b';')
    }

    /// Returns the `with` clause, if there is one, with the range of its declaration.
    fn clause(&self, has_with: bool, attributes: Vec<Child>) -> Result<Items<Node>, AllocError>
        ensures { IfOk result (λ clause. clause ≡ spec.clause self.now.range (map node_of attributes.items)
            has_with) }
    {
        if !has_with {
            return Ok(Items::new(self.alloc));
        }
        let attributes = nodes_of(self.alloc, attributes)?;
        Items::from_item(self.alloc, self.node(Kind::Object, attributes))
    }

    /// Reads a module whose name is a string. A namespace is an `Other`.
    #[tactic(auto, unfolding(crate::specs::Kind::module_of))]
    pub fn module(&self, children: Vec<Child>) -> Result<Node, AllocError>
        ensures { IfOk result (λ node. node ≡ spec.module_of (parts_of self.now) children.items) }
    {
        let kind = match first_literal(self.alloc, &children)? {
            Some(name) => Kind::ModuleDecl { name: Some(name) },
            None => Kind::Other,
        };
        self.whole(kind, children)
    }
}

/// Returns the name of a module, if it is a string.
fn first_literal(alloc: Global, children: &[Child]) -> Result<Option<StrLit>, AllocError>
    ensures { IfOk result (λ literal. literal ≡ spec.first_literal (nodes_in Group.Id children.now)) }
{
    match first_in(children, Group::Id) {
        Some(node) => literal_of(alloc, node),
        None => Ok(None),
    }
}

/// Returns the string literal that a node is.
#[tactic(auto, unfolding(deno_graph_source::specs::Node::kind_of, deno_graph_source::specs::Node::range_of))]
fn literal_of(alloc: Global, node: &Node) -> Result<Option<StrLit>, AllocError>
    ensures { IfOk result (λ literal. literal ≡ spec.literal_of_kind (range_of node.now) (kind_of node.now)) }
{
    match &node.kind {
        Kind::Str(value) => Ok(Some(StrLit {
            value: value.try_clone(alloc)?,
            range: node.range,
        })),
        _ => Ok(None),
    }
}
