//! Nodes by their types.

ghost use Rattle.std.specs.Prelude.{◌≡◌, IfOk};
ghost use Rattle.deno_graph_json.specs.ObjectReader.{readable, value_of};
ghost use Rattle.deno_graph_json.specs.Read.Result.{IsReadResult};
ghost use Rattle.modinfo_estree.specs.Kind as spec;
ghost use Rattle.modinfo_estree.specs.Parts.{parts_of};

use crate::child::Child;
use crate::member::{has_name, has_text, is_true};
use crate::reading::Reading;
use deno_graph_json::ReadError;
use deno_graph_source::tree::{Kind, Node};
use std::alloc::AllocError;

impl<'a, 't, 'v> Reading<'a, 't, 'v> {
    /// Reads the node of a type.
    #[tactic(auto, unfolding(crate::specs::Kind::reads_type, modinfo_document::specs::Named::named))]
    pub fn node_of_type(&self, name: &str, children: Vec<Child>) -> Result<Node, ReadError>
        ensures { IsReadResult (value_of self.now.members)
            (spec.reads_type (parts_of self.now) children.items name.now) result }
    {
        match name {
            "ImportDeclaration" => self.import(children),
            "ExportAllDeclaration" => self.export_from(children),
            "ExportNamedDeclaration" => self.named_export(children),
            "TSImportEqualsDeclaration" => {
                self.import_equals(is_true(&self.members, "isExport"), &self.members, children)
            }
            "ImportExpression" => self.import_call(children),
            "Literal" | "StringLiteral" => self.literal(children),
            "TSImportType" => self.import_type(children),
            _ => Ok(self.other_type(name, children)?),
        }
    }

    /// Reads the node of a type whose nodes lack nothing.
    #[tactic(auto, unfolding(crate::specs::Kind::total_type, modinfo_document::specs::Named::named))]
    fn other_type(&self, name: &str, children: Vec<Child>) -> Result<Node, AllocError>
        ensures { IfOk result (λ node. node
            ≡ spec.total_type (parts_of self.now) children.items name.now) }
    {
        match name {
            "ExportDefaultDeclaration" => self.export(children),
            "TSModuleDeclaration" => self.module(children),
            "CallExpression" => self.call(children),
            "TemplateLiteral" => self.template(children),
            "BinaryExpression" => self.binary(children),
            "Identifier" => self.identifier(children),
            "ObjectExpression" => self.object(children),
            "Property" | "ObjectProperty" => self.property(children),
            "ImportAttribute" => self.key_value(children),
            "ObjectMethod" | "ClassMethod" | "ClassPrivateMethod" => self.method(children),
            _ => self.whole(self.kind_of_type(name), children),
        }
    }

    /// Returns the kind of a node of a type that has all nodes below it.
    #[tactic(auto, unfolding(crate::specs::Kind::kind_of_type, modinfo_document::specs::Named::named))]
    fn kind_of_type(&self, name: &str) -> Kind
        ensures { result ≡ spec.kind_of_type (readable self.now.members) name.now }
    {
        match name {
            "AwaitExpression" => Kind::Await,
            "ForOfStatement" if is_true(&self.members, "await") => Kind::Await,
            "VariableDeclaration" if has_text(&self.members, "kind", "await using") => Kind::Await,
            "MetaProperty" if self.is_import_meta() => Kind::ImportMeta,
            "FunctionDeclaration" | "FunctionExpression" | "ArrowFunctionExpression" =>
                Kind::Function,
            _ => Kind::Other,
        }
    }

    /// Returns whether a meta property is `import.meta`.
    fn is_import_meta(&self) -> bool
        ensures { result ≡ spec.is_import_meta (readable self.now.members) }
    {
        has_name(&self.members, "meta", "import") && has_name(&self.members, "property", "meta")
    }
}
