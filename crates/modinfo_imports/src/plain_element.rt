//! Plain pieces in the text of a JSX element.

ghost use Rattle.std.specs.Prelude.{
  ◌≡◌,
  IfOk,
  IfSome,
  IsTrue,
  List,
  MatchOption,
  ℕ,
  slice_index,
  true,
};
ghost use Rattle.modinfo_imports.specs.declared.duty.Duty.{Duty};
ghost use Rattle.modinfo_imports.specs.internal.Plains.{IsByteAt, IsPlainTurnIn};
ghost use Rattle.modinfo_pieces.specs.Kinds.{kind_in_element};
ghost use Rattle.modinfo_pieces.specs.Openings.{is_element};
ghost use Rattle.modinfo_pieces.specs.declared.piece.PieceKind.TheVariants.{JsxText};
ghost use Rattle.modinfo_pieces.specs.declared.place.Opening.{Opening};

use crate::duty::Parentheses;
use crate::plain::{Asked, Plain};
use crate::plain_piece::{after_token, next_in_code};
use modinfo_pieces::piece::PieceKind;
use modinfo_pieces::place::{Before, Opening, Openings};
use modinfo_pieces::scan::jsx::jsx_text_end;
use std::alloc::AllocError;

/// Returns the place after the plain piece at a place, if there is one.
#[inline(always)]
pub fn next_plain(
    text: &[u8],
    plain: Plain,
    around: &mut Openings,
    parentheses: &mut Parentheses,
) -> Result<Option<Plain>, AllocError>
    ensures { IfOk result (λ next.
        MatchOption next ((around.new ≡ around.old) × (parentheses.new ≡ parentheses.old)) (λ next.
        IsPlainTurnIn plain.in_element text.now plain next around.old around.new parentheses.old
        parentheses.new)) }
{
    if plain.in_element {
        let next = next_in_element(text, plain, around)?;
        return Ok(next);
    }
    next_in_code(text, plain, around, parentheses)
}

/// Returns the place after the plain piece at a place in an element's text, if there is one.
#[inline(always)]
fn next_in_element(
    text: &[u8],
    plain: Plain,
    around: &mut Openings,
) -> Result<Option<Plain>, AllocError>
    ensures { (parentheses : List Duty) → IfOk result (λ next.
        MatchOption next (around.new ≡ around.old) (λ next.
        IsPlainTurnIn true text.now plain next around.old around.new parentheses parentheses)) }
{
    if plain.at >= text.len() {
        return Ok(None);
    }
    let byte = text[plain.at];
    if is_text(byte) {
        return Ok(after_text(text, plain));
    }
    match byte {
        b'{' => Ok(Some(begin_code(plain, plain.at + 1, around)?)),
        b'<' => Ok(Some(begin_tag(plain, plain.at + 1, around)?)),
        _ => Ok(None),
    }
}

/// Returns whether a byte begins an element's text.
#[inline(always)]
fn is_text(byte: u8) -> bool
    ensures { IsTrue result → kind_in_element byte ≡ JsxText }
{
    !matches!(byte, b'{' | b'<')
}

/// Returns the place after a `{` in an element's text.
#[inline(always)]
fn begin_code(plain: Plain, end: usize, around: &mut Openings) -> Result<Plain, AllocError>
    ensures { (text : List ℕ) (parentheses : List Duty) → IsByteAt text plain 123 end
        → IfOk result (λ next.
        IsPlainTurnIn true text plain next around.old around.new parentheses parentheses) }
{
    around.push(Opening::Brace)?;
    Ok(after_token(
        plain,
        PieceKind::Punctuation,
        end,
        Before::Free,
        Asked::Nothing,
        false,
    ))
}

/// Returns the place after the `<` of a tag in an element's text.
#[inline(always)]
fn begin_tag(plain: Plain, end: usize, around: &mut Openings) -> Result<Plain, AllocError>
    ensures { (text : List ℕ) (parentheses : List Duty) → IsByteAt text plain 60 end
        → IfOk result (λ next.
        IsPlainTurnIn true text plain next around.old around.new parentheses parentheses) }
{
    around.push(Opening::Tag)?;
    Ok(after_token(
        plain,
        PieceKind::Punctuation,
        end,
        Before::TagOpen,
        Asked::Nothing,
        false,
    ))
}

/// Returns the place after text of an element.
#[inline(always)]
fn after_text(text: &[u8], plain: Plain) -> Option<Plain>
    ensures { (around : List Opening) (parentheses : List Duty)
        → kind_in_element (slice_index text.now plain.at) ≡ JsxText → IfSome result (λ next.
        IsPlainTurnIn true text.now plain next around around parentheses parentheses) }
{
    let end = jsx_text_end(text, plain.at);
    if end <= plain.at || end > text.len() {
        return None;
    }
    Some(after_token(
        plain,
        PieceKind::JsxText,
        end,
        Before::Value,
        Asked::Nothing,
        true,
    ))
}

/// Returns whether an opening is that of an element's text.
#[inline(always)]
pub fn is_element(inside: Opening) -> bool
    ensures { result ≡ is_element inside }
{
    match inside {
        Opening::Element => true,
        _ => false,
    }
}
