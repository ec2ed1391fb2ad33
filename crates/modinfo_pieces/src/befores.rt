//! What a piece is for what follows.

ghost use Rattle.std.specs.Prelude.{◌≡◌, ◌==◌, ◌<◌, ◌≤◌, if◌then◌else◌, length, slice_range};
ghost use Rattle.modinfo_pieces.specs.Befores.{
  before_after_bang,
  before_after_dot,
  before_after_gap,
  before_after_greater,
  before_after_minus,
  before_after_parenthesis,
  before_after_plus,
  before_after_punctuation,
  before_after_slash,
};
ghost use Rattle.modinfo_pieces.specs.Openings.{begins_tag};
ghost use Rattle.modinfo_pieces.specs.Places.{before_after, line_end_after};
ghost use Rattle.modinfo_pieces.specs.declared.place.Before.TheVariants.{Free, TagOpen, Value};

use crate::bytes::byte_at;
use crate::openings::begins_tag;
use crate::piece::{Piece, PieceKind};
use crate::place::{Before, Context, Opening};
use crate::scan::spaces::has_line_end;
use crate::word_classes::class_after;

/// Returns what a piece is for what follows.
#[inline(always)]
pub fn before_after(text: &[u8], piece: Piece, context: Context) -> Before
    ensures { piece.start < piece.end → piece.end ≤ length text.now
        → result ≡ before_after text.now piece piece.kind context }
{
    match piece.kind {
        PieceKind::Space
        | PieceKind::LineComment
        | PieceKind::BlockComment
        | PieceKind::HtmlComment => before_after_gap(context.before),
        PieceKind::Hashbang => Before::Free,
        PieceKind::Word => class_after(context.before, bytes_of(text, piece)),
        PieceKind::Template => before_after_template(byte_at(text, piece.end.saturating_sub(1))),
        PieceKind::Punctuation => before_after_punctuation(byte_at(text, piece.start), context),
        PieceKind::String
        | PieceKind::RegularExpression
        | PieceKind::JsxText
        | PieceKind::JsxString => Before::Value,
    }
}

/// Returns the bytes of a piece.
#[inline(always)]
pub fn bytes_of(text: &[u8], piece: Piece) -> &[u8]
    ensures { piece.start < piece.end → piece.end ≤ length text.now
        → result.now ≡ slice_range text.now piece.start piece.end }
{
    if piece.start < piece.end && piece.end <= text.len() {
        &text[piece.start..piece.end]
    } else {
        &[]
    }
}

/// Returns what a part of a template is for what follows, by its last byte.
fn before_after_template(last: u8) -> Before
    ensures { result ≡ (if last == 123 then Free else Value) }
{
    if last == b'{' {
        Before::Free
    } else {
        Before::Value
    }
}

/// Returns what is before white space or a comment for what follows.
#[inline(always)]
pub fn before_after_gap(before: Before) -> Before
    ensures { result ≡ before_after_gap before }
{
    match before {
        Before::Plus | Before::Minus => Before::Free,
        _ => before,
    }
}

/// Returns what a byte of punctuation is for what follows.
#[inline(always)]
#[tactic(auto, unfolding(crate::specs::Befores::before_after_punctuation))]
fn before_after_punctuation(byte: u8, context: Context) -> Before
    ensures { result ≡ before_after_punctuation byte context }
{
    match byte {
        b'+' => before_after_plus(context.before, context.is_after_line_end),
        b'-' => before_after_minus(context.before, context.is_after_line_end),
        b'!' => before_after_bang(context.before, context.is_after_line_end),
        b'.' => before_after_dot(context.before),
        b')' => before_after_parenthesis(context.inside),
        b']' => Before::Value,
        b'=' => Before::Equal,
        b'<' => before_after_less(context),
        b'>' => before_after_greater(context.inside),
        b'/' => before_after_slash(context.inside),
        _ => Before::Free,
    }
}

/// Returns what a `+` is for what follows.
#[inline(always)]
pub fn before_after_plus(before: Before, is_after_line_end: bool) -> Before
    ensures { result ≡ before_after_plus before is_after_line_end }
{
    match before {
        Before::Plus => Before::Value,
        Before::Value if !is_after_line_end => Before::Plus,
        _ => Before::Free,
    }
}

/// Returns what a `-` is for what follows.
#[inline(always)]
pub fn before_after_minus(before: Before, is_after_line_end: bool) -> Before
    ensures { result ≡ before_after_minus before is_after_line_end }
{
    match before {
        Before::Minus => Before::Value,
        Before::Value if !is_after_line_end => Before::Minus,
        _ => Before::Free,
    }
}

/// Returns what a `!` is for what follows.
#[inline(always)]
pub fn before_after_bang(before: Before, is_after_line_end: bool) -> Before
    ensures { result ≡ before_after_bang before is_after_line_end }
{
    match before {
        Before::Value if !is_after_line_end => Before::Value,
        _ => Before::Free,
    }
}

/// Returns what a `.` is for what follows.
#[inline(always)]
pub fn before_after_dot(before: Before) -> Before
    ensures { result ≡ before_after_dot before }
{
    match before {
        Before::Dot => Before::DotDot,
        Before::DotDot => Before::Free,
        _ => Before::Dot,
    }
}

/// Returns what a `)` is for what follows.
#[inline(always)]
pub fn before_after_parenthesis(inside: Opening) -> Before
    ensures { result ≡ before_after_parenthesis inside }
{
    match inside {
        Opening::HeadParenthesis => Before::Free,
        _ => Before::Value,
    }
}

fn before_after_less(context: Context) -> Before
    ensures { result ≡ (if begins_tag context.inside context.before context.chosen then TagOpen else Free) }
{
    if begins_tag(context.inside, context.before, context.chosen) {
        Before::TagOpen
    } else {
        Before::Free
    }
}

fn before_after_greater(inside: Opening) -> Before
    ensures { result ≡ before_after_greater inside }
{
    match inside {
        Opening::Tag | Opening::ClosingTag => Before::Value,
        _ => Before::Free,
    }
}

fn before_after_slash(inside: Opening) -> Before
    ensures { result ≡ before_after_slash inside }
{
    match inside {
        Opening::Tag => Before::TagSlash,
        _ => Before::Free,
    }
}

/// Returns whether a line has ended since the last token, after a piece.
#[inline(always)]
pub fn line_end_after(text: &[u8], piece: Piece, is_after_line_end: bool) -> bool
    ensures { piece.start < piece.end → piece.end ≤ length text.now
        → result ≡ line_end_after text.now piece piece.kind is_after_line_end }
{
    match piece.kind {
        PieceKind::Space | PieceKind::BlockComment => {
            is_after_line_end || has_line_end(text, piece.start, piece.end)
        }
        PieceKind::LineComment | PieceKind::HtmlComment => is_after_line_end,
        _ => false,
    }
}
