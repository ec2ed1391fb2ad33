//! Warnings about string literals that the source doesn't spell.

ghost use Rattle.std.specs.Prelude.{◌≡◌, ◌↔◌, IfOk, IsTrue, OnOk};
ghost use Rattle.std.specs.Rc.{rc_str_bytes};
ghost use Rattle.std.specs.String.{string_bytes};
ghost use Rattle.deno_graph_source.specs.Node.{kind_of};
ghost use Rattle.modinfo_document.specs.NodeKinds.{kinds_in};
ghost use Rattle.modinfo_document.specs.Pointer.{pointer_text};
ghost use Rattle.modinfo_document.specs.Spelling.{IsSpelledAt, is_code, kinds_of_code, literal_path};
ghost use Rattle.modinfo_document.specs.internal.Warned.{AddsAbout, WarnsOfKind};

use crate::document::Document;
use crate::report::place::{literal_member, node_pointer};
use crate::report::warning::{Warning, WarningKind, Warnings};
use deno_graph_json::{ReferenceToken, push_token};
use deno_graph_source::tree::{MediaType, Node, StrLit};
use modinfo_literals::spells;
use std::alloc::{AllocError, Global};

/// Adds a warning about each string literal of a document of code whose value isn't what the source spells
/// at the literal's range. The only error is a failed allocation.
pub fn warn_of_literals(
    alloc: Global,
    document: &Document,
    warnings: &mut Warnings,
) -> Result<(), AllocError>
    ensures { OnOk result (AddsAbout (rc_str_bytes document.now.source) (kinds_of_code document.now)
        warnings.old warnings.new) }
{
    if !is_code(document.media_type) {
        return Ok(());
    }
    let source = document.source.as_str();
    let mut path = Vec::new(alloc);
    for (number, node) in document.program.body.as_slice().iter().enumerate() {
        path.push(number)?;
        warn_below(alloc, source, node, &mut path, warnings)?;
        path.pop();
    }
    Ok(())
}

/// Returns whether sources of a media type have string literals.
fn is_code(media_type: MediaType) -> bool
    ensures { result ≡ is_code media_type }
{
    !matches!(media_type, MediaType::Json | MediaType::Other)
}

/// Like `warn_of_literals`, for the node at a path and all nodes below it.
fn warn_below(
    alloc: Global,
    source: &str,
    node: &Node,
    path: &mut Vec<usize>,
    warnings: &mut Warnings,
) -> Result<(), AllocError>
    ensures path { OnOk result (path.new.items ≡ path.old.items) }
    ensures adds { OnOk result
        (AddsAbout source.now (kinds_in node.now path.old.items) warnings.old warnings.new) }
{
    warn_of_node(alloc, source, node, path.as_slice(), warnings)?;
    for (number, child) in node.children.as_slice().iter().enumerate() {
        path.push(number)?;
        warn_below(alloc, source, child, path, warnings)?;
        path.pop();
    }
    Ok(())
}

/// Like `warn_of_literals`, for the node at a path alone.
#[tactic(auto, unfolding(deno_graph_source::specs::Node::kind_of))]
fn warn_of_node(
    alloc: Global,
    source: &str,
    node: &Node,
    path: &[usize],
    warnings: &mut Warnings,
) -> Result<(), AllocError>
    ensures { OnOk result
        (WarnsOfKind source.now path.now (kind_of node.now) warnings.old warnings.new) }
{
    let Some(literal) = node.kind.literal() else {
        return Ok(());
    };
    if is_spelled(alloc, source, literal)? {
        return Ok(());
    }
    let pointer = literal_pointer(alloc, node, path)?;
    warnings.push(Warning {
        pointer,
        kind: WarningKind::UnspelledLiteral,
    })
}

/// The JSON Pointer of the string literal of the node at a path. The only error is a failed allocation.
#[tactic(auto, unfolding(deno_graph_source::specs::Node::kind_of))]
fn literal_pointer(alloc: Global, node: &Node, path: &[usize]) -> Result<String, AllocError>
    ensures { IfOk result
        (λ pointer. string_bytes pointer ≡ pointer_text (literal_path (kind_of node.now) path.now)) }
{
    let mut pointer = node_pointer(alloc, path)?;
    push_token(
        &mut pointer,
        ReferenceToken::Name(literal_member(&node.kind)),
    )?;
    Ok(pointer)
}

/// Returns whether the source spells the value of a literal at the literal's range. The only error is a
/// failed allocation.
fn is_spelled(alloc: Global, source: &str, literal: &StrLit) -> Result<bool, AllocError>
    ensures { IfOk result (λ is. IsTrue is ↔ IsSpelledAt source.now literal.now) }
{
    let range = literal.range;
    let is_inside = range.start <= range.end
        && source.is_char_boundary(range.start)
        && source.is_char_boundary(range.end);
    if is_inside {
        spells(alloc, &source[range.start..range.end], &literal.value)
    } else {
        Ok(false)
    }
}
