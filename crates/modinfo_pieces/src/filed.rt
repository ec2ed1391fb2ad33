//! Where a comment is filed, by the tokens around it.

ghost use Rattle.std.specs.Prelude.{◌≡◌, drop, slice_range, take};
ghost use Rattle.modinfo_pieces.specs.Filed.{
  at_end,
  digits_start,
  ends_number,
  filed_before,
  is_closing,
  is_digit,
  is_in_tag,
  is_name,
  is_name_or_dot,
  is_operator_token,
  is_semicolon,
  is_trailed,
  is_value,
  trails_token,
  waiting_of,
};

use crate::bytes::byte_at;
use crate::classes::is_word_byte;
use crate::piece::{Piece, PieceKind};
use crate::place::{Before, Context, Opening};
use crate::trails::{is_keyword, is_operator, trails};

/// A comment of a text, and where it is filed.
#[derive(Clone, Copy, Debug, PartialEq, Eq)]
pub struct FiledComment {
    pub comment: Piece,
    /// Whether the comment trails the token before it; otherwise it leads the token after it.
    pub trails: bool,
    /// The end of the token that the comment trails, or the start of the token that it leads, in bytes.
    pub position: usize,
}

/// A comment before the token after it is known.
#[derive(Clone, Copy)]
pub struct Waiting {
    pub comment: Piece,
    /// The end of the token before the comment, if the comment trails this token.
    pub trailed_end: Option<usize>,
    /// Whether a token is before the comment.
    pub is_after_token: bool,
}

/// Returns what a comment goes with, by the token before it.
pub fn waiting_of(
    text: &[u8],
    context: Context,
    token: Option<Piece>,
    comment: Piece,
    is_before_semicolon: bool,
) -> Waiting
    ensures { result ≡ waiting_of text.now context token comment is_before_semicolon }
{
    match token {
        Some(token) => Waiting {
            comment,
            trailed_end: if trails_token(text, context, token, comment.kind, is_before_semicolon) {
                Some(token.end)
            } else {
                None
            },
            is_after_token: true,
        },
        None => Waiting {
            comment,
            trailed_end: None,
            is_after_token: false,
        },
    }
}

/// Returns where a comment is filed, by the token after it.
pub fn filed_before(text: &[u8], token: Option<Piece>, waiting: Waiting) -> FiledComment
    ensures { result ≡ filed_before text.now token waiting }
{
    match token {
        Some(token) => FiledComment {
            comment: waiting.comment,
            trails: waiting.trailed_end.is_some(),
            position: waiting.trailed_end.unwrap_or(token.start),
        },
        None => at_end(text, waiting),
    }
}

/// Returns where a comment without a token after it is filed.
fn at_end(text: &[u8], waiting: Waiting) -> FiledComment
    ensures { result ≡ at_end text.now waiting }
{
    FiledComment {
        comment: waiting.comment,
        trails: waiting.is_after_token,
        position: if waiting.is_after_token {
            text.len()
        } else {
            0
        },
    }
}

/// Returns whether a comment trails the token before it. `context` is what is known where the comment begins.
fn trails_token(
    text: &[u8],
    context: Context,
    token: Piece,
    kind: PieceKind,
    is_before_semicolon: bool,
) -> bool
    ensures { result ≡ trails_token text.now context token kind is_before_semicolon }
{
    if context.is_after_line_end {
        return false;
    }
    match kind {
        PieceKind::LineComment => {
            let is_operator = is_operator_token(text, token, context.before);
            trails(true, is_operator, false, false)
        }
        _ => {
            let is_trailed = is_trailed(text, token, context.inside);
            trails(false, false, is_trailed, is_before_semicolon)
        }
    }
}

/// Returns whether a token is a binary operator, or its last byte.
fn is_operator_token(text: &[u8], token: Piece, before: Before) -> bool
    ensures { result ≡ is_operator_token text.now token token.kind before }
{
    match token.kind {
        PieceKind::Punctuation => {
            is_operator(front(text, token.end))
                && !(is_value(before) && byte_at(text, token.start) == b'>')
        }
        _ => false,
    }
}

/// Returns the bytes of a text up to an offset.
fn front(text: &[u8], end: usize) -> &[u8]
    ensures { result.now ≡ take end text.now }
{
    &text[..end.min(text.len())]
}

/// Returns the bytes of a text from an offset on.
fn rest(text: &[u8], start: usize) -> &[u8]
    ensures { result.now ≡ drop start text.now }
{
    &text[start.min(text.len())..]
}

/// Returns the bytes of a text between two offsets.
fn bytes_between(text: &[u8], start: usize, end: usize) -> &[u8]
    ensures { result.now ≡ slice_range text.now start end }
{
    front(rest(text, start), end.saturating_sub(start))
}

/// Returns whether a token is the end of an expression.
fn is_value(before: Before) -> bool
    ensures { result ≡ is_value before }
{
    matches!(before, Before::Value)
}

/// Returns whether block comments trail a token, whatever follows them.
fn is_trailed(text: &[u8], token: Piece, inside: Opening) -> bool
    ensures { result ≡ is_trailed text.now token token.kind inside }
{
    match token.kind {
        PieceKind::Word => is_name(text, token, inside),
        PieceKind::Punctuation => {
            let byte = byte_at(text, token.start);
            is_closing(byte) || byte == b'.' && ends_number(text, token.start)
        }
        PieceKind::Template => byte_at(text, token.end.saturating_sub(1)) == b'{',
        PieceKind::String
        | PieceKind::JsxString
        | PieceKind::JsxText
        | PieceKind::RegularExpression => true,
        _ => false,
    }
}

/// Returns whether the dot at an offset is the last byte of a number.
fn ends_number(text: &[u8], dot: usize) -> bool
    ensures { result ≡ ends_number text.now dot }
{
    let start = digits_start(text, dot);
    start < dot
        && byte_at(text, start) != b'_'
        && !(start > 0 && is_name_or_dot(byte_at(text, start.saturating_sub(1))))
}

/// Returns where the digits before an offset begin.
#[tactic(auto, unfolding(crate::specs::Filed::digits_start))]
fn digits_start(text: &[u8], from: usize) -> usize
    ensures { result ≡ digits_start text.now from }
{
    let mut at = from;
    'digits: while at > 0 {
        if !is_digit(byte_at(text, at - 1)) {
            break;
        }
        at -= 1;
    }
    at
}

/// Returns whether a byte is a decimal digit or `_`.
fn is_digit(byte: u8) -> bool
    ensures { result ≡ is_digit byte }
{
    matches!(byte, b'0'..=b'9' | b'_')
}

/// Returns whether a byte is one of a name, or a dot.
fn is_name_or_dot(byte: u8) -> bool
    ensures { result ≡ is_name_or_dot byte }
{
    is_word_byte(byte) || byte == b'.' || byte >= 128
}

/// Returns whether a byte is `{`, `}` or `;`.
fn is_closing(byte: u8) -> bool
    ensures { result ≡ is_closing byte }
{
    matches!(byte, b'{' | b'}' | b';')
}

/// Returns whether a word is no keyword.
fn is_name(text: &[u8], word: Piece, inside: Opening) -> bool
    ensures { result ≡ is_name text.now word inside }
{
    is_in_tag(inside)
        || byte_at(text, word.start.saturating_sub(1)) == b'#'
        || !is_keyword(bytes_between(text, word.start, word.end))
}

/// Returns whether words are names in this opening.
fn is_in_tag(inside: Opening) -> bool
    ensures { result ≡ is_in_tag inside }
{
    matches!(inside, Opening::Tag | Opening::ClosingTag)
}

/// Returns whether a piece is a `;`.
#[inline(always)]
pub fn is_semicolon(text: &[u8], piece: Piece) -> bool
    ensures { result ≡ is_semicolon text.now piece piece.kind }
{
    match piece.kind {
        PieceKind::Punctuation => byte_at(text, piece.start) == b';',
        _ => false,
    }
}
