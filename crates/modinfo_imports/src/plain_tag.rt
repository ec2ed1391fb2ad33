//! Plain pieces of JSX tags alone.

ghost use Rattle.std.specs.Prelude.{
  ◌≡◌,
  ◌==◌,
  ◌||◌,
  ◌⊎◌,
  ◌∷◌,
  IfOk,
  IfSome,
  IsTrue,
  List,
  MatchOption,
  OnOk,
  Some,
  ℕ,
  false,
  slice_index,
};
ghost use Rattle.modinfo_imports.specs.declared.duty.Duty.{Duty};
ghost use Rattle.modinfo_imports.specs.internal.Plains.{IsByteAt, IsPlainTurn};
ghost use Rattle.modinfo_pieces.specs.Openings.{
  around_after_greater,
  around_after_slash,
  innermost,
  is_element,
};
ghost use Rattle.modinfo_pieces.specs.declared.place.Before.TheVariants.{Equal};
ghost use Rattle.modinfo_pieces.specs.declared.place.Opening.{Opening};
ghost use Rattle.modinfo_pieces.specs.declared.place.Opening.TheVariants.{ClosingTag, Tag};

use crate::plain::{Asked, Plain};
use crate::plain_element::is_element;
use crate::plain_piece::after_token;
use modinfo_pieces::bytes::byte_at;
use modinfo_pieces::piece::PieceKind;
use modinfo_pieces::place::{Before, Opening, Openings};
use modinfo_pieces::scan::jsx::jsx_string_end;
use std::alloc::AllocError;

/// Returns the place after a `>` that ends a tag.
#[inline(always)]
pub fn end_tag(plain: Plain, end: usize, around: &mut Openings) -> Result<Option<Plain>, AllocError>
    ensures { (text : List ℕ) (parentheses : List Duty) → IsByteAt text plain 62 end → IfOk result (λ next.
        MatchOption next (around.new ≡ around.old) (λ next.
        IsPlainTurn text plain next around.old around.new parentheses parentheses)) }
{
    match around.innermost() {
        Opening::Tag => Ok(Some(end_first_tag(plain, end, around)?)),
        Opening::ClosingTag => end_closing_tag(plain, end, around),
        _ => Ok(None),
    }
}

/// Returns the place after the `>` of a tag that doesn't begin with `</`.
#[inline(always)]
fn end_first_tag(plain: Plain, end: usize, around: &mut Openings) -> Result<Plain, AllocError>
    ensures { (text : List ℕ) (parentheses : List Duty) → IsByteAt text plain 62 end
        → innermost around.old ≡ Tag → IfOk result (λ next.
        IsPlainTurn text plain next around.old around.new parentheses parentheses) }
{
    let _tag = around.pop();
    let in_element = begin_element(around, plain.before)?;
    Ok(after_token(
        plain,
        PieceKind::Punctuation,
        end,
        Before::Value,
        Asked::Nothing,
        in_element,
    ))
}

/// Adds the element whose tag has ended, unless a slash is at the tag's end. Returns whether the innermost
/// opening is an element.
#[inline(always)]
fn begin_element(around: &mut Openings, before: Before) -> Result<bool, AllocError>
    ensures opening { IfOk result (λ in_element. in_element ≡ is_element (innermost around.new)) }
    ensures around { IfOk result (λ in_element. (previous : ℕ)
        → around_after_greater previous before (Tag ∷ around.old) ≡ Some around.new) }
{
    match before {
        Before::TagSlash => Ok(is_element(around.innermost())),
        _ => {
            around.push(Opening::Element)?;
            Ok(true)
        }
    }
}

/// Returns the place after the `>` of a tag that begins with `</`, if an element is around.
#[inline(always)]
fn end_closing_tag(
    plain: Plain,
    end: usize,
    around: &mut Openings,
) -> Result<Option<Plain>, AllocError>
    ensures { (text : List ℕ) (parentheses : List Duty) → IsByteAt text plain 62 end
        → innermost around.old ≡ ClosingTag → IfOk result (λ next.
        MatchOption next (around.new ≡ around.old) (λ next.
        IsPlainTurn text plain next around.old around.new parentheses parentheses)) }
{
    let Some(tag) = around.pop() else {
        return Ok(None);
    };
    if !is_element(around.innermost()) {
        around.push(tag)?;
        return Ok(None);
    }
    let _element = around.pop();
    Ok(Some(after_token(
        plain,
        PieceKind::Punctuation,
        end,
        Before::Value,
        Asked::Nothing,
        is_element(around.innermost()),
    )))
}

/// Returns the place after a slash in a tag, unless a comment begins with the slash.
#[inline(always)]
pub fn after_slash(
    text: &[u8],
    plain: Plain,
    end: usize,
    around: &mut Openings,
) -> Result<Option<Plain>, AllocError>
    ensures { (parentheses : List Duty) → IsByteAt text.now plain 47 end → IfOk result (λ next.
        MatchOption next (around.new ≡ around.old) (λ next.
        IsPlainTurn text.now plain next around.old around.new parentheses parentheses)) }
{
    if !is_tag(around.innermost()) {
        return Ok(None);
    }
    if begins_comment(byte_at(text, end)) {
        return Ok(None);
    }
    begin_closing_tag(around, plain.before)?;
    Ok(Some(after_token(
        plain,
        PieceKind::Punctuation,
        end,
        Before::TagSlash,
        Asked::Nothing,
        false,
    )))
}

/// Changes the innermost tag by a slash: `</` begins a closing tag.
#[inline(always)]
fn begin_closing_tag(around: &mut Openings, before: Before) -> Result<(), AllocError>
    ensures around { innermost around.old ≡ Tag
        → OnOk result (around.new ≡ around_after_slash before around.old) }
    ensures outside { innermost around.old ≡ Tag → OnOk result (is_element (innermost around.new) ≡ false) }
{
    match before {
        Before::TagOpen => {
            let _tag = around.pop();
            around.push(Opening::ClosingTag)?;
        }
        _ => (),
    }
    Ok(())
}

/// Returns whether a comment begins with a slash, by the byte after the slash.
#[inline(always)]
fn begins_comment(second: u8) -> bool
    ensures { result ≡ ((second == 47) || (second == 42)) }
{
    second == b'/' || second == b'*'
}

/// Returns whether an opening is that of a tag that doesn't begin with `</`.
#[inline(always)]
fn is_tag(inside: Opening) -> bool
    ensures { IsTrue result → inside ≡ Tag }
{
    match inside {
        Opening::Tag => true,
        _ => false,
    }
}

/// Returns the place after the string that is an attribute's value.
#[inline(always)]
pub fn after_attribute(text: &[u8], plain: Plain, quote: u8, inside: Opening) -> Option<Plain>
    ensures { slice_index text.now plain.at ≡ quote → (quote ≡ 34) ⊎ (quote ≡ 39)
        → (around : List Opening) (parentheses : List Duty) → innermost around ≡ inside
        → IfSome result (λ next. IsPlainTurn text.now plain next around around parentheses parentheses) }
{
    if plain.at >= text.len() || !is_tag(inside) || !is_equal(plain.before) {
        return None;
    }
    let end = jsx_string_end(text, plain.at + 1, quote)?;
    if end <= plain.at || end > text.len() {
        return None;
    }
    Some(after_token(
        plain,
        PieceKind::JsxString,
        end,
        Before::Value,
        Asked::Nothing,
        false,
    ))
}

/// Returns whether a `=` is before a place.
#[inline(always)]
fn is_equal(before: Before) -> bool
    ensures { IsTrue result → before ≡ Equal }
{
    match before {
        Before::Equal => true,
        _ => false,
    }
}
