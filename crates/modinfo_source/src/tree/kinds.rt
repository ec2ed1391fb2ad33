//! The kinds of nodes, by their shapes.

ghost use Rattle.std.specs.Prelude.{◌≡◌, IfOk, List};
ghost use Rattle.deno_graph_source.specs.declared.tree.node.Node.{Node};
ghost use Rattle.modinfo_pieces.specs.declared.piece.Piece.{Piece};
ghost use Rattle.modinfo_source.specs.Spelled.{KeyIsSpelled, KindIsSpelled, LiteralIsSpelled};

use crate::tree::literals::{literal_at, name_at, spelled_value};
use deno_graph_base::text::SourceRange;
use deno_graph_base::values::Items;
use deno_graph_source::tree::{Arg, BinaryOp, Kind, PropKey, StrLit};
use modinfo_lexer::syntax_error::ReadError;
use modinfo_parser::shape::{FlatNode, KeyShape, Shape};
use std::alloc::Global;

/// Returns the kind of a node, but of a template. `count` is the number of its children.
pub(crate) fn kind_of(
    alloc: Global,
    text: &str,
    flat: FlatNode,
    args: Items<Arg>,
    count: usize,
) -> Result<Kind, ReadError>
    ensures { (pieces : List Piece) (children : List Node)
        → IfOk result (KindIsSpelled text.now pieces flat.range children) }
{
    match flat.shape {
        Shape::ExportOther => Ok(Kind::ExportOther),
        Shape::Call { callee, .. } => Ok(Kind::Call { callee, args }),
        Shape::Str => Ok(Kind::Str(spelled_value(alloc, text, flat.range)?)),
        Shape::Sum if count == 2 => Ok(Kind::Binary(BinaryOp::Add)),
        Shape::Ident => Ok(Kind::Ident(name_at(alloc, text, flat.range)?)),
        Shape::Object => Ok(Kind::Object),
        Shape::KeyValue(key) if count > 0 => {
            Ok(Kind::KeyValue(key_of(alloc, text, flat.range, key)?))
        }
        Shape::Await => Ok(Kind::Await),
        Shape::ImportMeta => Ok(Kind::ImportMeta),
        Shape::ImportEquals { .. } | Shape::ImportType { .. } | Shape::ModuleDecl { .. } => {
            typed_kind(alloc, text, flat.range, flat.shape)
        }
        _ => module_kind(alloc, text, flat.range, flat.shape),
    }
}

/// Returns the kind of an import or an export declaration, or `Other`.
fn module_kind(
    alloc: Global,
    text: &str,
    range: SourceRange,
    shape: Shape,
) -> Result<Kind, ReadError>
    ensures { (pieces : List Piece) (children : List Node)
        → IfOk result (KindIsSpelled text.now pieces range children) }
{
    match shape {
        Shape::ImportDecl {
            type_only,
            phase,
            src,
            has_specifiers,
            has_with,
        } => Ok(Kind::ImportDecl {
            type_only,
            phase,
            src: literal_at(alloc, text, src)?,
            has_specifiers,
            has_with,
        }),
        Shape::NamedExport {
            type_only,
            src,
            has_with,
        } => Ok(Kind::NamedExport {
            type_only,
            src: some_literal(alloc, text, src)?,
            has_with,
        }),
        Shape::ExportAll {
            type_only,
            src,
            has_with,
        } => Ok(Kind::ExportAll {
            type_only,
            src: literal_at(alloc, text, src)?,
            has_with,
        }),
        _ => Ok(Kind::Other),
    }
}

/// Returns the kind of a node that TypeScript alone has, or `Other`.
fn typed_kind(
    alloc: Global,
    text: &str,
    range: SourceRange,
    shape: Shape,
) -> Result<Kind, ReadError>
    ensures { (pieces : List Piece) (children : List Node)
        → IfOk result (KindIsSpelled text.now pieces range children) }
{
    match shape {
        Shape::ImportEquals {
            type_only,
            is_export,
            external,
        } => Ok(Kind::ImportEquals {
            type_only,
            is_export,
            external: some_literal(alloc, text, external)?,
        }),
        Shape::ImportType { arg, has_with } => Ok(Kind::ImportType {
            arg: literal_at(alloc, text, arg)?,
            has_with,
        }),
        Shape::ModuleDecl { name } => Ok(Kind::ModuleDecl {
            name: Some(literal_at(alloc, text, name)?),
        }),
        _ => Ok(Kind::Other),
    }
}

/// Returns the string literal at a range, if there is one.
fn some_literal(
    alloc: Global,
    text: &str,
    range: Option<SourceRange>,
) -> Result<Option<StrLit>, ReadError>
    ensures { IfOk result (LiteralIsSpelled text.now) }
{
    match range {
        Some(range) => Ok(Some(literal_at(alloc, text, range)?)),
        None => Ok(None),
    }
}

/// Returns the key of a property at a range. A string is a key only at the start of the property.
fn key_of(
    alloc: Global,
    text: &str,
    property: SourceRange,
    key: KeyShape,
) -> Result<PropKey, ReadError>
    ensures { IfOk result (KeyIsSpelled text.now property) }
{
    match key {
        KeyShape::Str(range) if range.start == property.start => {
            Ok(PropKey::Str(spelled_value(alloc, text, range)?))
        }
        KeyShape::Ident(range) => Ok(PropKey::Ident(name_at(alloc, text, range)?)),
        _ => Ok(PropKey::Other),
    }
}
