//! Which kind of piece begins at an offset.

ghost use Rattle.std.specs.Prelude.{◌≡◌};
ghost use Rattle.modinfo_pieces.specs.Kinds.{
  begins_hashbang,
  begins_html_comment,
  begins_regular_expression,
  is_operator,
  kind_at,
  kind_in_code,
  kind_in_element,
  kind_of_closing_brace,
  kind_of_punctuation,
  kind_of_quote,
  kind_of_slash,
};

use crate::bytes::{byte_at, has_bytes};
use crate::choice::ChoiceKind;
use crate::classes::is_word_byte;
use crate::piece::PieceKind;
use crate::place::{Before, Context, Opening};
use crate::scan::spaces::space_size;

/// Returns the kind of the piece that begins at an offset.
#[inline(always)]
#[tactic(auto, unfolding(crate::specs::Kinds::kind_at))]
pub fn kind_at(text: &[u8], at: usize, context: Context) -> PieceKind
    ensures { result ≡ kind_at text.now at context }
{
    match context.inside {
        Opening::Element => kind_in_element(byte_at(text, at)),
        _ => kind_in_code(text, at, context),
    }
}

/// Returns the kind of the piece that begins between the tags of a JSX element.
fn kind_in_element(byte: u8) -> PieceKind
    ensures { result ≡ kind_in_element byte }
{
    match byte {
        b'{' | b'<' => PieceKind::Punctuation,
        _ => PieceKind::JsxText,
    }
}

/// Returns the kind of the piece that begins outside of a JSX element's text.
#[inline(always)]
#[tactic(auto, unfolding(crate::specs::Kinds::kind_in_code))]
fn kind_in_code(text: &[u8], at: usize, context: Context) -> PieceKind
    ensures { result ≡ kind_in_code text.now at context }
{
    let byte = byte_at(text, at);
    if is_word_byte(byte) || byte == b'\\' {
        PieceKind::Word
    } else if space_size(text, at) != 0 {
        PieceKind::Space
    } else if byte >= 128 {
        PieceKind::Word
    } else {
        kind_of_punctuation(text, at, context)
    }
}

/// Returns the kind of the piece that begins with a byte of punctuation, a quote or a backtick.
#[inline(always)]
#[tactic(auto, unfolding(crate::specs::Kinds::kind_of_punctuation))]
fn kind_of_punctuation(text: &[u8], at: usize, context: Context) -> PieceKind
    ensures { result ≡ kind_of_punctuation text.now at context }
{
    match byte_at(text, at) {
        b'/' => kind_of_slash(byte_at(text, at.saturating_add(1)), context),
        b'"' | b'\'' => kind_of_quote(context),
        b'`' => PieceKind::Template,
        b'}' => kind_of_closing_brace(context.inside),
        _ if begins_html_comment(text, at, context) => PieceKind::HtmlComment,
        _ if begins_hashbang(text, at) => PieceKind::Hashbang,
        _ => PieceKind::Punctuation,
    }
}

/// Returns the kind of the piece that begins with a slash before a byte.
fn kind_of_slash(second: u8, context: Context) -> PieceKind
    ensures { result ≡ kind_of_slash second context }
{
    match second {
        b'/' => PieceKind::LineComment,
        b'*' => PieceKind::BlockComment,
        _ if begins_regular_expression(context) => PieceKind::RegularExpression,
        _ => PieceKind::Punctuation,
    }
}

/// Returns whether a slash begins a regular expression.
fn begins_regular_expression(context: Context) -> bool
    ensures { result
        ≡ begins_regular_expression context.chosen context.is_after_line_end context.before }
{
    match context.chosen {
        Some(ChoiceKind::RegularExpression) => context.is_after_line_end
            || is_operator(context.before),
        _ => false,
    }
}

/// Returns whether an expression may begin after a token on the same line.
fn is_operator(before: Before) -> bool
    ensures { result ≡ is_operator before }
{
    matches!(
        before,
        Before::Free | Before::Equal | Before::Plus | Before::Minus
    )
}

/// Returns the kind of the piece that begins with a quote.
fn kind_of_quote(context: Context) -> PieceKind
    ensures { result ≡ kind_of_quote context.inside context.before }
{
    match (context.inside, context.before) {
        (Opening::Tag, Before::Equal) => PieceKind::JsxString,
        _ => PieceKind::String,
    }
}

/// Returns the kind of the piece that begins with `}`.
fn kind_of_closing_brace(inside: Opening) -> PieceKind
    ensures { result ≡ kind_of_closing_brace inside }
{
    match inside {
        Opening::Substitution => PieceKind::Template,
        _ => PieceKind::Punctuation,
    }
}

/// Returns whether `<!--` or `-->` begins a comment at an offset.
#[inline(always)]
#[tactic(auto, unfolding(crate::specs::Kinds::begins_html_comment))]
fn begins_html_comment(text: &[u8], at: usize, context: Context) -> bool
    ensures { result ≡ begins_html_comment text.now at context.chosen context.is_after_line_end }
{
    match context.chosen {
        Some(ChoiceKind::HtmlComment) => has_bytes(text, at, b"<!--")
            || context.is_after_line_end && has_bytes(text, at, b"-->"),
        _ => false,
    }
}

/// Returns whether `#!` is at an offset, at the text's start.
#[inline(always)]
#[tactic(auto, unfolding(crate::specs::Kinds::begins_hashbang))]
fn begins_hashbang(text: &[u8], at: usize) -> bool
    ensures { result ≡ begins_hashbang text.now at }
{
    at < 4 && has_bytes(text, at, b"#!") && (at == 0 || at == 3 && space_size(text, 0) == 3)
}
