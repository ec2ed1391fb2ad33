//! The values that literals spell.

ghost use Rattle.std.specs.Prelude.{◌≡◌, ◌↔◌, ℕ, List, IfOk, IsTrue, MatchOption};
ghost use Rattle.modinfo_literals.specs.Literal.{Spells, SpellsCooked};

use crate::element::{Form, read_units};
use crate::plain::{plain_text, split_quote};
use crate::text::{is_alone, is_at_end};
use deno_graph_base::text::JsString;
use std::alloc::{AllocError, Global};

/// Returns the value of a string literal, the text of which is `slice` with its quotes, or `None` if
/// `slice` isn't a string literal. Fails only if an allocation fails.
pub fn string_value(alloc: Global, slice: &str) -> Result<Option<JsString>, AllocError>
    ensures { IfOk result (λ found. MatchOption found
        ((value : List ℕ) → Spells slice.now value → ⊥)
        (Spells slice.now)) }
{
    match plain_text(slice) {
        Some(text) => Ok(Some(JsString::from_str(alloc, text)?)),
        None => escaped_value(alloc, slice),
    }
}

/// Returns the cooked value of a part of a template, the text of which is `slice` without its
/// delimiters, or `None` if `slice` has no cooked value: it has a wrong escape, or isn't one part.
/// Fails only if an allocation fails.
pub fn cooked_value(alloc: Global, slice: &str) -> Result<Option<JsString>, AllocError>
    ensures { IfOk result (λ found. MatchOption found
        ((value : List ℕ) → SpellsCooked slice.now value → ⊥)
        (SpellsCooked slice.now)) }
{
    let read = read_units(alloc, Form::Template, slice)?;
    if is_at_end(read.end) {
        Ok(Some(JsString::from_units(alloc, read.units.as_slice())?))
    } else {
        Ok(None)
    }
}

/// Returns whether `slice` is a string literal, with its quotes, whose value is `value`. Allocates
/// only for a literal with escapes. Fails only if an allocation fails.
pub fn spells(alloc: Global, slice: &str, value: &JsString) -> Result<bool, AllocError>
    ensures { IfOk result (λ is. IsTrue is ↔ Spells slice.now value.now) }
{
    if let Some(text) = plain_text(slice) {
        return Ok(match value.as_str() {
            Some(characters) => characters == text,
            None => false,
        });
    }
    match escaped_value(alloc, slice)? {
        Some(spelled) => Ok(spelled == *value),
        None => Ok(false),
    }
}

/// Like `string_value`, for a literal that may have escapes.
fn escaped_value(alloc: Global, slice: &str) -> Result<Option<JsString>, AllocError>
    ensures { IfOk result (λ found. MatchOption found
        ((value : List ℕ) → Spells slice.now value → ⊥)
        (Spells slice.now)) }
{
    let Some((quote, inside)) = split_quote(slice) else {
        return Ok(None);
    };
    let read = read_units(alloc, Form::StringWith(quote), inside)?;
    if is_alone(read.end, quote) {
        Ok(Some(JsString::from_units(alloc, read.units.as_slice())?))
    } else {
        Ok(None)
    }
}
