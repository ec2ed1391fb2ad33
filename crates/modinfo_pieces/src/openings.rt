//! How pieces change what encloses a place.

ghost use Rattle.std.specs.Prelude.{◌≡◌, ◌∷◌, IfOk, if◌then◌else◌};
ghost use Rattle.modinfo_pieces.specs.Openings.{
  begins_tag,
  closed,
  is_brace,
  is_element,
  is_parenthesis,
  is_substitution,
  around_after_angle,
  around_after_greater,
  around_after_punctuation,
  around_after_slash,
  around_after_template,
  opening_of_parenthesis,
};
ghost use Rattle.modinfo_pieces.specs.declared.place.Opening.TheVariants.{Tag};

use crate::choice::ChoiceKind;
use crate::place::{Before, Context, Opening, Openings};
use std::alloc::AllocError;

/// Changes the openings by a byte of punctuation, which another byte precedes. Returns whether the byte
/// closes the innermost opening, if it closes one.
#[tactic(auto, unfolding(crate::specs::Openings::around_after_punctuation))]
pub fn change_by_punctuation(
    around: &mut Openings,
    previous: u8,
    byte: u8,
    context: Context,
) -> Result<bool, AllocError>
    ensures { IfOk result (λ nests. around_after_punctuation previous byte context around.old
        ≡ (if nests then Some around.new else None)) }
{
    match byte {
        b'(' => push(around, opening_of_parenthesis(context.before)),
        b')' => Ok(close_parenthesis(around)),
        b'{' => push(around, Opening::Brace),
        b'}' => Ok(close_brace(around)),
        b'<' => change_by_less(around, context),
        b'>' => change_by_greater(around, previous, context.before),
        b'/' => change_by_slash(around, context.before),
        _ => Ok(true),
    }
}

/// Changes the openings by a part of a template with these first and last bytes. Returns whether the part
/// ends an expression of a template, if it begins with `}`.
pub fn change_by_template(around: &mut Openings, first: u8, last: u8) -> Result<bool, AllocError>
    ensures { IfOk result (λ nests. around_after_template first last around.old
        ≡ (if nests then Some around.new else None)) }
{
    if first == b'}' && !close_substitution(around) {
        return Ok(false);
    }
    if last == b'{' {
        around.push(Opening::Substitution)?;
    }
    Ok(true)
}

/// Adds an opening, and returns `true`.
fn push(around: &mut Openings, opening: Opening) -> Result<bool, AllocError>
    ensures { IfOk result (λ nests. Some (opening ∷ around.old) ≡ (if nests then Some around.new else None)) }
{
    around.push(opening)?;
    Ok(true)
}

/// Returns the opening of a parenthesis after a token.
#[inline(always)]
pub fn opening_of_parenthesis(before: Before) -> Opening
    ensures { result ≡ opening_of_parenthesis before }
{
    match before {
        Before::Head => Opening::HeadParenthesis,
        _ => Opening::Parenthesis,
    }
}

/// Takes a parenthesis away, and returns whether one is the innermost opening.
fn close_parenthesis(around: &mut Openings) -> bool
    ensures { closed is_parenthesis around.old ≡ (if result then Some around.new else None) }
{
    matches!(
        around.pop(),
        Some(Opening::Parenthesis | Opening::HeadParenthesis)
    )
}

/// Takes a brace away, and returns whether one is the innermost opening.
fn close_brace(around: &mut Openings) -> bool
    ensures { closed is_brace around.old ≡ (if result then Some around.new else None) }
{
    matches!(around.pop(), Some(Opening::Brace))
}

/// Takes the `${` of a template away, and returns whether one is the innermost opening.
fn close_substitution(around: &mut Openings) -> bool
    ensures { closed is_substitution around.old ≡ (if result then Some around.new else None) }
{
    matches!(around.pop(), Some(Opening::Substitution))
}

/// Takes a JSX element away, and returns whether one is the innermost opening.
fn close_element(around: &mut Openings) -> bool
    ensures { closed is_element around.old ≡ (if result then Some around.new else None) }
{
    matches!(around.pop(), Some(Opening::Element))
}

/// Returns whether a `<` begins a tag.
pub fn begins_tag(inside: Opening, before: Before, chosen: Option<ChoiceKind>) -> bool
    ensures { result ≡ begins_tag inside before chosen }
{
    match (inside, before, chosen) {
        (Opening::Element, _, _) => true,
        (Opening::Tag, Before::Equal, _) => true,
        (Opening::Tag | Opening::ClosingTag | Opening::Angle, _, _) => false,
        (_, _, Some(ChoiceKind::JsxElement)) => true,
        _ => false,
    }
}

/// Changes the openings by `<`, and returns `true`.
fn change_by_less(around: &mut Openings, context: Context) -> Result<bool, AllocError>
    ensures { IfOk result (λ nests. Some (if begins_tag context.inside context.before context.chosen
        then Tag ∷ around.old else around_after_angle around.old) ≡ (if nests then Some around.new else None)) }
{
    if begins_tag(context.inside, context.before, context.chosen) {
        return push(around, Opening::Tag);
    }
    match around.innermost() {
        Opening::Tag | Opening::Angle => push(around, Opening::Angle),
        _ => Ok(true),
    }
}

/// Changes the openings by `>`, and returns whether a tag that begins with `</` ends an element.
fn change_by_greater(
    around: &mut Openings,
    previous: u8,
    before: Before,
) -> Result<bool, AllocError>
    ensures { IfOk result (λ nests. around_after_greater previous before around.old
        ≡ (if nests then Some around.new else None)) }
{
    match around.innermost() {
        Opening::Angle if previous != b'=' => {
            let _angle = around.pop();
            Ok(true)
        }
        Opening::Tag => {
            let _tag = around.pop();
            end_tag(around, before)
        }
        Opening::ClosingTag => {
            let _tag = around.pop();
            Ok(close_element(around))
        }
        _ => Ok(true),
    }
}

/// Adds the element whose tag has ended, unless a slash is at the tag's end, and returns `true`.
fn end_tag(around: &mut Openings, before: Before) -> Result<bool, AllocError>
    ensures { IfOk result (λ nests. around_after_greater 0 before (Tag ∷ around.old)
        ≡ (if nests then Some around.new else None)) }
{
    match before {
        Before::TagSlash => Ok(true),
        _ => push(around, Opening::Element),
    }
}

/// Changes the openings by a slash, and returns `true`.
fn change_by_slash(around: &mut Openings, before: Before) -> Result<bool, AllocError>
    ensures { IfOk result (λ nests. Some (around_after_slash before around.old)
        ≡ (if nests then Some around.new else None)) }
{
    match (before, around.innermost()) {
        (Before::TagOpen, Opening::Tag) => {
            let _tag = around.pop();
            push(around, Opening::ClosingTag)
        }
        _ => Ok(true),
    }
}
