//! The kinds of templates.

ghost use Rattle.std.specs.Prelude.{◌≡◌, All, IfOk, IfSome, IsTrue, List, map, slice_index, ℕ};
ghost use Rattle.deno_graph_source.specs.Node.{range_of};
ghost use Rattle.modinfo_imports.specs.Nodes.{part_claim};
ghost use Rattle.modinfo_pieces.specs.declared.piece.Piece.{Piece};
ghost use Rattle.modinfo_source.specs.Spelled.{
  AreParts,
  CookEach,
  FollowByTurns,
  IsAfterChild,
  IsBeforeChild,
  IsFirstPart,
  IsLastPart,
  KindIsSpelled,
};
ghost use Rattle.modinfo_source.specs.internal.Parts.{PartIsCooked, part_ranges};

use deno_graph_base::text::{JsString, SourceRange};
use deno_graph_base::values::Items;
use deno_graph_source::tree::{Kind, Node};
use modinfo_lexer::syntax_error::ReadError;
use std::alloc::Global;

/// A part of a template, between its substitutions.
#[derive(Drop)]
pub(crate) struct Part {
    /// Index in the flat list.
    pub(crate) index: usize,
    pub(crate) range: SourceRange,
    /// The value, `None` if an escape in the part isn't one.
    pub(crate) value: Option<JsString>,
}

impl Part {
    /// Returns the value.
    fn into_value(self) -> Option<JsString>
        ensures { result ≡ self.value }
    {
        self.value
    }
}

/// Returns the kind of a template at a range: `Template` if each part has a value, and if the text has the
/// marks of a template around the parts and the children; or else `Other`.
pub(crate) fn template_kind(
    alloc: Global,
    text: &str,
    all_parts: &[SourceRange],
    range: SourceRange,
    children: &[Node],
    parts: Vec<Part>,
) -> Result<Kind, ReadError>
    requires { All (PartIsCooked text.now (map (part_claim text.now) all_parts.now)) parts.items }
    ensures { IfOk result (KindIsSpelled text.now (map (part_claim text.now) all_parts.now) range
        children.now) }
{
    let are_parts = are_parts(text, range, children, &parts);
    match values_of(alloc, parts)? {
        Some(values) if are_parts => Ok(Kind::Template(values)),
        _ => Ok(Kind::Other),
    }
}

/// Returns the values of all parts, `None` if one has none.
fn values_of(alloc: Global, parts: Vec<Part>) -> Result<Option<Items<JsString>>, ReadError>
    ensures { (text : List ℕ) (pieces : List Piece) → All (PartIsCooked text pieces) parts.items
        → IfOk result (λ found. IfSome found (CookEach text pieces (part_ranges parts.items))) }
{
    let mut values = Items::with_capacity(alloc, parts.len())?;
    for part in parts {
        match part.into_value() {
            Some(value) => values.push(value)?,
            None => return Ok(None),
        }
    }
    Ok(Some(values))
}

/// Returns whether parts are all parts of a template at a range.
fn are_parts(text: &str, range: SourceRange, children: &[Node], parts: &[Part]) -> bool
    ensures { IsTrue result
        → AreParts text.now range (map range_of children.now) (part_ranges parts.now) }
{
    match parts.split_first() {
        Some((first, rest)) => {
            is_first_part(text, range.start, first.range)
                && follow_by_turns(text, first.range, rest, children, range.end)
        }
        None => false,
    }
}

/// Returns whether children and parts follow a part by turns, up to the end of a template.
#[tactic(auto, unfolding(deno_graph_source::specs::Node::range_of))]
fn follow_by_turns(
    text: &str,
    first: SourceRange,
    parts: &[Part],
    children: &[Node],
    to: usize,
) -> bool
    ensures { IsTrue result
        → FollowByTurns text.now first (part_ranges parts.now) (map range_of children.now) to }
{
    let mut part = first;
    let (mut left_parts, mut left_children) = (parts, children);
    'parts: while let Some((next, rest)) = left_parts.split_first() {
        let Some((child, others)) = left_children.split_first() else {
            return false;
        };
        if !is_before_child(text, part, child.range)
            || !is_after_child(text, child.range, next.range)
        {
            return false;
        }
        part = next.range;
        left_parts = rest;
        left_children = others;
    }
    left_children.is_empty() && is_last_part(text, part, to)
}

/// Returns whether a part starts after the backquote at the start of its template.
fn is_first_part(text: &str, from: usize, part: SourceRange) -> bool
    ensures { IsTrue result → IsFirstPart text.now from part }
{
    from < part.start && from + 1 == part.start && is_byte_at(text, from, b'`')
}

/// Returns whether `${` follows a part, and then a child.
fn is_before_child(text: &str, part: SourceRange, child: SourceRange) -> bool
    ensures { IsTrue result → IsBeforeChild text.now part child }
{
    part.start <= part.end
        && part.end < child.start
        && part.end + 1 < child.start
        && is_byte_at(text, part.end, b'$')
        && is_byte_at(text, part.end + 1, b'{')
}

/// Returns whether a `}` that is after a child is right before a part.
fn is_after_child(text: &str, child: SourceRange, part: SourceRange) -> bool
    ensures { IsTrue result → IsAfterChild text.now child part }
{
    child.start <= child.end && child.end < part.start && is_byte_at(text, part.start - 1, b'}')
}

/// Returns whether the backquote at the end of a template follows a part.
fn is_last_part(text: &str, part: SourceRange, to: usize) -> bool
    ensures { IsTrue result → IsLastPart text.now part to }
{
    part.start <= part.end
        && part.end < to
        && part.end + 1 == to
        && is_byte_at(text, part.end, b'`')
}

/// Returns whether a text has a byte at an offset.
fn is_byte_at(text: &str, at: usize, byte: u8) -> bool
    ensures { IsTrue result → slice_index text.now at ≡ byte }
{
    match text.as_bytes().get(at) {
        Some(found) => *found == byte,
        None => false,
    }
}
