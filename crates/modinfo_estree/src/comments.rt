//! Filing the comments of a text, by the tokens around them.

ghost use Rattle.std.specs.Prelude.{◌≡◌, ◌-◌, ◌&&◌, true, false, drop, length, nat_eq, take};
ghost use Rattle.std.specs.Prelude.{IfOk, OnOk, MatchOption, MatchResult};
ghost use Rattle.std.specs.List.{ends_with, starts_with};
ghost use Rattle.std.specs.Str.{chars};
ghost use Rattle.deno_graph_base.specs.SourceRange.{slice_of};
ghost use Rattle.modinfo_document.specs.Comments.{AreThoseOf};
ghost use Rattle.modinfo_estree.specs.Comments.{after_space, comment_at_range};
ghost use Rattle.modinfo_estree.specs.Comments.{comment_with, ends_line, has_close};
ghost use Rattle.modinfo_estree.specs.Comments.{is_before_semicolon, is_operator_token, is_semicolon, is_trailed, is_whole_line};
ghost use Rattle.modinfo_estree.specs.Comments.{place_of, sides_of, trails, trails_token};
ghost use Rattle.modinfo_estree.specs.CommentError.{IsBlockError, IsBlockOf, IsCommentAt, IsCommentError};
ghost use Rattle.modinfo_estree.specs.CommentError.{IsCommentOf, IsErrorOf};
ghost use Rattle.modinfo_estree.specs.Range.{is_text_range, rest_range};
ghost use Rattle.modinfo_estree.specs.internal.Comments.{IsFiled};

use crate::comment_error::CommentError;
use crate::last_token::{is_closing, is_name};
use crate::marks::{has_line_break, is_line_break, is_space};
use crate::slice::slice_at;
use crate::tokens::Tokens;
use crate::value_ends::ValueEnds;
use deno_graph_base::text::SourceRange;
use deno_graph_base::values::Text;
use deno_graph_source::tree::{CommentKind, CommentSide, Comments, DependencyComment};
use modinfo_pieces::trails::{is_operator, last_byte};
use std::alloc::{AllocError, Global};

/// Files the comments at some ranges of a text, in the order of the ranges. For a range that the text doesn't
/// have, or where it has no comment, files an empty comment, so that a check of the source reports the range.
/// `is_empty` says that the text has no token. Fails only if an allocation fails.
pub fn file_comments(
    alloc: Global,
    text: &str,
    tokens: &Tokens,
    ends: &ValueEnds,
    ranges: &[SourceRange],
    is_empty: bool,
) -> Result<Comments, AllocError>
    ensures { IfOk result
        (λ comments. AreThoseOf (sides_of text.now tokens.now ends.now is_empty ranges.now) comments) }
{
    let mut comments = Comments::new(alloc);
    for range in ranges {
        let comment = comment_at_range(alloc, text, *range)?;
        let place = place_of(text, tokens, ends, is_empty, &comment);
        file(&mut comments, place, comment)?;
    }
    Ok(comments)
}

/// Where a comment is filed.
#[derive(Clone, Copy)]
struct Place {
    side: CommentSide,
    /// The offset in bytes.
    position: usize,
}

/// Files a comment at a place.
fn file(comments: &mut Comments, place: Place, comment: DependencyComment) -> Result<(), AllocError>
    ensures { OnOk result (IsFiled place comment comments.old comments.new) }
{
    match place.side {
        CommentSide::Leading => comments.add_leading(place.position, comment),
        CommentSide::Trailing => comments.add_trailing(place.position, comment),
    }
}

/// Returns the place of a comment.
#[tactic(auto, unfolding(crate::specs::Comments::place_of))]
fn place_of(
    text: &str,
    tokens: &Tokens,
    ends: &ValueEnds,
    is_empty: bool,
    comment: &DependencyComment,
) -> Place
    ensures { result ≡ place_of text.now tokens.now ends.now is_empty comment.now }
{
    let next = tokens.start(comment.range.end);
    if next == text.len() {
        if is_empty {
            return Place {
                side: CommentSide::Leading,
                position: 0,
            };
        }
        return Place {
            side: CommentSide::Trailing,
            position: next,
        };
    }
    if trails(text, tokens, ends, comment) {
        return Place {
            side: CommentSide::Trailing,
            position: tokens.end(comment.range.start),
        };
    }
    Place {
        side: CommentSide::Leading,
        position: next,
    }
}

/// Returns whether a comment trails the token before it.
#[tactic(auto, unfolding(crate::specs::Comments::trails))]
fn trails(text: &str, tokens: &Tokens, ends: &ValueEnds, comment: &DependencyComment) -> bool
    ensures { result ≡ trails text.now tokens.now ends.now comment.now }
{
    let last = tokens.end(comment.range.start);
    last > 0
        && tokens.is_on_line(comment.range.start)
        && trails_token(text, tokens, ends, last, comment)
}

/// Returns whether a comment on the line of the token that ends at `last` trails this token.
fn trails_token(
    text: &str,
    tokens: &Tokens,
    ends: &ValueEnds,
    last: usize,
    comment: &DependencyComment,
) -> bool
    ensures { result ≡ trails_token text.now tokens.now.is_gap ends.now last comment.now }
{
    let front = front(text, last);
    let is_value_end = ends.contains(last);
    match comment.kind {
        CommentKind::Line => {
            modinfo_pieces::trails::trails(
                true,
                is_operator_token(front, is_value_end),
                false,
                false,
            )
        }
        CommentKind::Block => modinfo_pieces::trails::trails(
            false,
            false,
            is_trailed(tokens, front, is_value_end),
            is_before_semicolon(text, comment.range.end),
        ),
    }
}

/// Returns whether the last token of a text is a binary operator. `is_value_end` says that a value ends there
/// that could be one.
fn is_operator_token(front: &[u8], is_value_end: bool) -> bool
    ensures { result ≡ is_operator_token front.now is_value_end }
{
    !is_value_end && is_operator(front)
}

/// Returns whether block comments on the line of the last token of a text trail it, whatever follows.
/// `is_value_end` says that a value ends there that could be an operator.
fn is_trailed(tokens: &Tokens, front: &[u8], is_value_end: bool) -> bool
    ensures { result ≡ is_trailed tokens.now.is_gap front.now is_value_end }
{
    let last = last_byte(front);
    is_value_end && last != b'>' || is_closing(last) || is_name(tokens, front)
}

/// Returns the bytes of a text up to an offset.
fn front(text: &str, end: usize) -> &[u8]
    ensures { result.now ≡ take end text.now }
{
    let bytes = text.as_bytes();
    &bytes[..end.min(bytes.len())]
}

/// Returns whether a `;` follows white space from an offset of a text on.
#[tactic(auto, unfolding(crate::specs::Comments::is_before_semicolon))]
fn is_before_semicolon(text: &str, at: usize) -> bool
    ensures { result ≡ is_before_semicolon text.now at }
{
    match slice_at(text, SourceRange::new(at, text.len())) {
        Some(rest) => begins_with_semicolon(rest),
        None => false,
    }
}

/// Returns whether a text begins with `;` after white space.
fn begins_with_semicolon(text: &str) -> bool
    ensures { result ≡ is_semicolon (after_space (chars text.now)) }
{
    for c in text.chars() {
        if !is_space(c) {
            return c == ';';
        }
    }
    false
}

/// Returns the comment that is filed for a range: the comment of the text at the range, or an empty comment
/// that the text doesn't have there.
#[tactic(auto, unfolding(crate::specs::Comments::comment_at_range, crate::specs::Comments::comment_of))]
fn comment_at_range(
    alloc: Global,
    text: &str,
    range: SourceRange,
) -> Result<DependencyComment, AllocError>
    ensures { IfOk result (λ comment. comment ≡ comment_at_range text.now range) }
{
    match read_comment(alloc, text, range) {
        Ok(comment) => Ok(comment),
        Err(CommentError::Range | CommentError::Start) => {
            comment_with(alloc, CommentKind::Line, range, "")
        }
        Err(CommentError::LineEnd | CommentError::BlockEnd) => {
            comment_with(alloc, CommentKind::Block, range, "")
        }
        Err(CommentError::OutOfMemory) => Err(AllocError),
    }
}

/// Reads the comment of a text at a range. Returns `Range`, `Start`, `LineEnd` or `BlockEnd` if the range isn't
/// the range of a whole comment, and `OutOfMemory` if an allocation fails.
#[tactic(auto, unfolding(crate::specs::Comments::comment_at_range))]
fn read_comment(
    alloc: Global,
    text: &str,
    range: SourceRange,
) -> Result<DependencyComment, CommentError>
    ensures { MatchResult result (IsCommentAt text.now range) (IsCommentError text.now range) }
{
    match slice_at(text, range) {
        Some(bytes) => read_bytes(alloc, text, range, bytes),
        None => Err(CommentError::Range),
    }
}

/// Like `read_comment`, by the bytes at the range.
#[tactic(auto, unfolding(crate::specs::Comments::comment_of))]
fn read_bytes(
    alloc: Global,
    text: &str,
    range: SourceRange,
    bytes: &str,
) -> Result<DependencyComment, CommentError>
    requires { bytes.now ≡ slice_of text.now range }
    ensures { MatchResult result (IsCommentOf text.now range bytes.now)
        (IsErrorOf text.now range bytes.now) }
{
    match after(bytes, "//") {
        Some(rest) if is_whole_line(text, range, bytes) => {
            Ok(comment_with(alloc, CommentKind::Line, range, rest)?)
        }
        Some(_) => Err(CommentError::LineEnd),
        None => match after(bytes, "/*") {
            Some(rest) => read_block(alloc, range, rest),
            None => Err(CommentError::Start),
        },
    }
}

/// Returns whether the range of a line comment with these bytes is as far as the end of the line.
fn is_whole_line(text: &str, range: SourceRange, bytes: &str) -> bool
    requires { bytes.now ≡ slice_of text.now range }
    ensures { result ≡ is_whole_line text.now range }
{
    !has_line_break(bytes) && is_before_line_break(text, range.end)
}

/// Returns whether a line terminator, or the end of the text, is at an offset.
fn is_before_line_break(text: &str, at: usize) -> bool
    ensures { result ≡ (is_text_range text.now (rest_range text.now at)
        && ends_line (chars (slice_of text.now (rest_range text.now at)))) }
{
    match slice_at(text, SourceRange::new(at, text.len())) {
        Some(rest) => ends_line(rest),
        None => false,
    }
}

/// Returns whether a text is empty or begins with a line terminator.
fn ends_line(text: &str) -> bool
    ensures { result ≡ ends_line (chars text.now) }
{
    match text.chars().next() {
        Some(c) => is_line_break(c),
        None => true,
    }
}

/// Makes a comment.
fn comment_with(
    alloc: Global,
    kind: CommentKind,
    range: SourceRange,
    inside: &str,
) -> Result<DependencyComment, AllocError>
    ensures { IfOk result (λ comment. comment ≡ comment_with kind range inside.now) }
{
    let text = Text::from_str(alloc, inside)?;
    Ok(DependencyComment { kind, range, text })
}

/// Reads a block comment by what follows its `/*`. Returns `BlockEnd` if no `*/` follows, or more follows the
/// first `*/`.
fn read_block(
    alloc: Global,
    range: SourceRange,
    rest: &str,
) -> Result<DependencyComment, CommentError>
    ensures { MatchResult result (IsBlockOf range rest.now) (IsBlockError rest.now) }
{
    match before(rest, "*/") {
        Some(inside) if !has_close(inside) => {
            Ok(comment_with(alloc, CommentKind::Block, range, inside)?)
        }
        _ => Err(CommentError::BlockEnd),
    }
}

/// Returns whether a `*/` occurs in a text.
fn has_close(text: &str) -> bool
    ensures { result ≡ has_close text.now }
{
    text.contains("*/")
}

/// Returns what follows `start` at the start of a text, or `None` if the text doesn't start so.
fn after<'a>(text: &'a str, start: &str) -> Option<&'a str>
    ensures { MatchOption result (starts_with nat_eq text.now start.now ≡ false)
        (λ rest. (starts_with nat_eq text.now start.now ≡ true)
        × (rest.now ≡ drop (length start.now) text.now)) }
{
    text.strip_prefix(start)
}

/// Returns what precedes `end` at the end of a text, or `None` if the text doesn't end so.
fn before<'a>(text: &'a str, end: &str) -> Option<&'a str>
    ensures { MatchOption result (ends_with nat_eq text.now end.now ≡ false)
        (λ front. (ends_with nat_eq text.now end.now ≡ true)
        × (front.now ≡ take (length text.now - length end.now) text.now)) }
{
    text.strip_suffix(end)
}
