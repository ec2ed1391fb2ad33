//! What a tree says of the attributes of a declaration.
#![tactic(auto, unfolding(deno_graph_source::specs::Node::kind_of, deno_graph_source::specs::Node::range_of, deno_graph_source::specs::Node::children_of))]

ghost use Rattle.std.specs.Prelude.{◌≡◌, ◌++◌, ◌&&◌, OnOk, not};
ghost use Rattle.std.specs.List.{flat_map, list_all};
ghost use Rattle.deno_graph_source.specs.Node.{children_of, kind_of, range_of};
ghost use Rattle.modinfo_imports.specs.Attributes.{
  attribute_marks,
  entries_of,
  hidden_claim,
  is_clause,
  is_declaration,
  is_entry,
  is_string,
  key_claim,
  key_claims,
  value_start,
};
ghost use Rattle.modinfo_imports.specs.Keywords.{has_escape};
ghost use Rattle.modinfo_imports.specs.Spans.{bytes_at};
ghost use Rattle.modinfo_pieces.specs.Comments.{has_bytes};

use crate::claims::{Form, Mark};
use crate::keyword::has_escape;
use crate::spans::{bytes_at, no_piece, word_claim};
use deno_graph_base::text::SourceRange;
use deno_graph_source::tree::{Kind, Node, PropKey};
use modinfo_pieces::bytes::has_bytes;
use modinfo_pieces::piece::Piece;
use std::alloc::AllocError;

/// Returns no piece of a text, if a node is a declaration that has more below it than a clause of attributes.
pub fn hidden_claim(node: &Node) -> Option<Piece>
    ensures { result ≡ hidden_claim (range_of node.now).start (kind_of node.now) (children_of node.now) }
{
    if is_declaration(&node.kind) && !is_clause(node.children.as_slice()) {
        Some(no_piece(node.range.start))
    } else {
        None
    }
}

/// Returns whether a rule reads a node of this kind by itself, not by the nodes below.
fn is_declaration(kind: &Kind) -> bool
    ensures { result ≡ is_declaration kind.now }
{
    match kind {
        Kind::ImportDecl { .. }
        | Kind::NamedExport { .. }
        | Kind::ExportAll { .. }
        | Kind::ImportEquals { .. } => true,
        _ => false,
    }
}

/// Returns whether nodes are a clause of attributes, or none.
fn is_clause(nodes: &[Node]) -> bool
    ensures { result ≡ is_clause nodes.now }
{
    match nodes {
        [] => true,
        [clause] => clause.kind.is_object() && are_entries(clause.children.as_slice()),
        _ => false,
    }
}

/// Returns whether each node is a key and a string.
fn are_entries(nodes: &[Node]) -> bool
    ensures { result ≡ list_all (λ entry. is_entry (kind_of entry) (children_of entry)) nodes.now }
{
    nodes.iter().all(is_entry)
}

/// Returns whether a node is a key and a string.
fn is_entry(node: &Node) -> bool
    ensures { result ≡ is_entry (kind_of node.now) (children_of node.now) }
{
    match (&node.kind, node.children.as_slice()) {
        (Kind::KeyValue(PropKey::Other), _) => false,
        (Kind::KeyValue(_), [value]) => is_string(value),
        _ => false,
    }
}

/// Returns whether a node is a string, without nodes below.
fn is_string(node: &Node) -> bool
    ensures { result ≡ is_string (kind_of node.now) (children_of node.now) }
{
    match (&node.kind, node.children.as_slice()) {
        (Kind::Str(_), []) => true,
        _ => false,
    }
}

/// Returns the attributes of a node that is a declaration, none of another.
pub fn entries_of(node: &Node) -> &[Node]
    ensures { result.now ≡ entries_of (kind_of node.now) (children_of node.now) }
{
    match node.children.as_slice() {
        [clause, ..] if is_declaration(&node.kind) && node.kind.has_with() => {
            clause.children.as_slice()
        }
        _ => &[],
    }
}

/// Adds the pieces that the keys of attributes are.
pub fn claim_keys(text: &[u8], entries: &[Node], claims: &mut Vec<Piece>) -> Result<(), AllocError>
    ensures { OnOk result (claims.new.items
        ≡ claims.old.items ++ flat_map (key_claims text.now) entries.now) }
{
    for entry in entries {
        claim_key(text, entry, claims)?;
    }
    Ok(())
}

/// Adds the piece that the key of an attribute is, if that is no string.
fn claim_key(text: &[u8], entry: &Node, claims: &mut Vec<Piece>) -> Result<(), AllocError>
    ensures { OnOk result (claims.new.items ≡ claims.old.items ++ key_claims text.now entry.now) }
{
    let at = entry.range.start;
    let value = value_start(entry.children.as_slice());
    match &entry.kind {
        Kind::KeyValue(PropKey::Ident(name)) => {
            let name = name.as_str().as_bytes();
            if is_escaped(text, at, value, name) {
                Ok(())
            } else {
                Ok(claims.push(word_claim(text, at, name))?)
            }
        }
        _ => Ok(()),
    }
}

/// Returns whether a key at an offset is spelled with escapes, before its value.
fn is_escaped(text: &[u8], at: usize, value: usize, name: &[u8]) -> bool
    ensures { result ≡ (has_escape (bytes_at text.now (record { start = at; end = value }))
        && not (has_bytes text.now at name.now)) }
{
    let key = bytes_at(
        text,
        SourceRange {
            start: at,
            end: value,
        },
    );
    has_escape(key) && !has_bytes(text, at, name)
}

/// Returns where the value of an attribute begins.
fn value_start(values: &[Node]) -> usize
    ensures { result ≡ value_start values.now }
{
    match values {
        [value, ..] => value.range.start,
        [] => 0,
    }
}

/// Adds the marks of attributes, which are those of the specifier at an offset.
pub fn mark_attributes(
    specifier: usize,
    entries: &[Node],
    marks: &mut Vec<Mark>,
) -> Result<(), AllocError>
    ensures { OnOk result (marks.new.items
        ≡ marks.old.items ++ flat_map (attribute_marks specifier) entries.now) }
{
    for entry in entries {
        mark_attribute(specifier, entry, marks)?;
    }
    Ok(())
}

/// Adds the marks of the key and the value of an attribute, which is that of the specifier at an offset.
fn mark_attribute(specifier: usize, entry: &Node, marks: &mut Vec<Mark>) -> Result<(), AllocError>
    ensures { OnOk result (marks.new.items ≡ marks.old.items ++ attribute_marks specifier entry.now) }
{
    let value = value_start(entry.children.as_slice());
    let form = Form::Attribute { specifier, value };
    marks.push(Mark {
        start: entry.range.start,
        form,
    })?;
    marks.push(Mark { start: value, form })?;
    Ok(())
}
