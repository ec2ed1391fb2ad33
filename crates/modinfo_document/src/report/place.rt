//! The places of the faults of a source: ranges, and JSON Pointers into a module document.

ghost use Rattle.std.specs.Prelude.{◌≡◌, ◌++◌, IfOk, IsSomeAnd, OnOk, Some, List, codes, option_copied};
ghost use Rattle.std.specs.String.{string_bytes};
ghost use Rattle.deno_graph_json.specs.Data.{data_of};
ghost use Rattle.deno_graph_json.specs.Pointer.{index, name, part_text};
ghost use Rattle.deno_graph_json.specs.declared.error.Step.{Step};
ghost use Rattle.deno_graph_source.specs.FaultPlace.{comment_at};
ghost use Rattle.deno_graph_source.specs.Node.{kind_of};
ghost use Rattle.deno_graph_source.specs.NodePath.{node_at, node_below};
ghost use Rattle.modinfo_document.specs.Kind.{literal_member};
ghost use Rattle.modinfo_document.specs.Place.{node_path, part_path, part_range};
ghost use Rattle.modinfo_document.specs.Place.{program_path, range_at, range_in};
ghost use Rattle.modinfo_document.specs.Pointer.{pointer_text};

use crate::document::Document;
use deno_graph_json::{ReferenceToken, push_token};
use deno_graph_source::text::SourceRange;
use deno_graph_source::tree::{
    CommentPlace, CommentSide, Comments, DependencyComment, FaultPlace, Kind, Node, NodePart,
    Program,
};
use std::alloc::{AllocError, Global};

/// The range at a place of a document: of the program, of a part of a node, or of a comment. Of two
/// comments, the second's. `None` if the document has no such place.
pub fn place_range(document: &Document, place: &FaultPlace) -> Option<SourceRange>
    ensures { result ≡ range_at document.now.program document.now.comments place.now }
{
    match place {
        FaultPlace::Program => Some(document.program.range),
        FaultPlace::Node { path, part } => {
            part_range(find_node(&document.program, path.as_slice())?, *part)
        }
        FaultPlace::Comment(place) | FaultPlace::Comments(_, place) => {
            Some(filed_comment(&document.comments, *place)?.range)
        }
    }
}

/// Finds the node to which a path leads.
pub fn find_node<'a>(program: &'a Program, path: &[usize]) -> Option<&'a Node>
    ensures { option_copied result ≡ node_at program.now.body path.now }
{
    let (first, rest) = path.split_first()?;
    node_below(program.body.get(*first)?, rest)
}

/// Finds the node to which a path of children leads from a node.
#[tactic(auto, unfolding(deno_graph_source::specs::Node::children_of))]
fn node_below<'a>(node: &'a Node, path: &[usize]) -> Option<&'a Node>
    ensures { option_copied result ≡ node_below (Some node.now) path.now }
{
    match path.split_first() {
        None => Some(node),
        Some((first, rest)) => node_below(node.children.get(*first)?, rest),
    }
}

/// The range of a part of a node.
#[tactic(auto, unfolding(deno_graph_source::specs::Node::range_of, deno_graph_source::specs::Node::kind_of))]
fn part_range(node: &Node, part: NodePart) -> Option<SourceRange>
    ensures { result ≡ part_range node.now part }
{
    match part {
        NodePart::Range | NodePart::Children(_) => Some(node.range),
        NodePart::Literal => Some(node.kind.literal()?.range),
        NodePart::Argument(number) => Some(node.kind.args().get(number)?.range),
    }
}

/// Finds the comment that is filed at a place.
fn filed_comment<'a>(comments: &'a Comments, place: CommentPlace) -> Option<&'a DependencyComment>
    ensures { option_copied result ≡ comment_at comments.now place }
{
    let filed = match place.side {
        CommentSide::Leading => comments.get_leading(place.position),
        CommentSide::Trailing => comments.get_trailing(place.position),
    };
    filed?.get(place.number)
}

/// The JSON Pointer of the program's range. The only error is a failed allocation.
pub fn program_pointer(alloc: Global) -> Result<String, AllocError>
    ensures { IfOk result (λ pointer. string_bytes pointer ≡ pointer_text (range_in program_path)) }
{
    let mut pointer = String::new(alloc);
    push_token(&mut pointer, ReferenceToken::Name("program"))?;
    push_token(&mut pointer, ReferenceToken::Name("range"))?;
    Ok(pointer)
}

/// The JSON Pointer of a part of the node at a path. The only error is a failed allocation.
#[tactic(auto, unfolding(deno_graph_source::specs::Node::kind_of))]
pub fn part_pointer(
    alloc: Global,
    path: &[usize],
    node: &Node,
    part: NodePart,
) -> Result<String, AllocError>
    ensures { IfOk result (λ pointer. string_bytes pointer
        ≡ pointer_text (part_path (kind_of node.now) part (node_path path.now))) }
{
    let mut pointer = node_pointer(alloc, path)?;
    push_part(&mut pointer, &node.kind, part)?;
    Ok(pointer)
}

/// The JSON Pointer of the node at a path; for the empty path, of the program. The only error is a failed
/// allocation.
pub fn node_pointer(alloc: Global, path: &[usize]) -> Result<String, AllocError>
    ensures { IfOk result (λ pointer. string_bytes pointer ≡ pointer_text (node_path path.now)) }
{
    let mut pointer = String::new(alloc);
    push_token(&mut pointer, ReferenceToken::Name("program"))?;
    let Some((first, rest)) = path.split_first() else {
        return Ok(pointer);
    };
    push_item(&mut pointer, "body", *first)?;
    for number in rest {
        push_item(&mut pointer, "children", *number)?;
    }
    Ok(pointer)
}

/// Appends the path to a part from the node with this kind.
fn push_part(pointer: &mut String, kind: &Kind, part: NodePart) -> Result<(), AllocError>
    ensures { (path : List Step) → string_bytes pointer.old ≡ pointer_text path
        → OnOk result (string_bytes pointer.new ≡ pointer_text (part_path kind.now part path)) }
{
    match part {
        NodePart::Range => push_token(pointer, ReferenceToken::Name("range")),
        NodePart::Literal => {
            push_token(pointer, ReferenceToken::Name(literal_member(kind)))?;
            push_token(pointer, ReferenceToken::Name("range"))
        }
        NodePart::Argument(number) => {
            push_item(pointer, "args", number)?;
            push_token(pointer, ReferenceToken::Name("range"))
        }
        NodePart::Children(_) => Ok(()),
    }
}

/// Appends the steps to the element with this index in a member that is an array.
fn push_item(pointer: &mut String, array: &str, number: usize) -> Result<(), AllocError>
    ensures { OnOk result (string_bytes pointer.new
        ≡ string_bytes pointer.old ++ part_text (name array.now) ++ part_text (index number)) }
{
    push_token(pointer, ReferenceToken::Name(array))?;
    push_token(pointer, ReferenceToken::Index(number))
}

/// The name of the member with the string literal, for the kinds that may have one.
pub fn literal_member(kind: &Kind) -> &'static str
    ensures { result.now ≡ literal_member kind.now }
{
    match kind {
        Kind::ImportDecl { .. } | Kind::NamedExport { .. } | Kind::ExportAll { .. } => "src",
        Kind::ImportEquals { .. } => "external",
        Kind::ImportType { .. } => "arg",
        Kind::ModuleDecl { .. } => "name",
        _ => "",
    }
}
