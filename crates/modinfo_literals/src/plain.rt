//! String literals without escapes, which spell the text between their quotes.

ghost use Rattle.std.specs.Prelude.{◌≡◌, ℕ, ◌⊎◌, List, ◌∷◌, MatchOption, IfSome};
ghost use Rattle.std.specs.List.{list_any};
ghost use Rattle.std.specs.Str.{chars};
ghost use Rattle.modinfo_literals.specs.Literal.{Spells};
ghost use Rattle.modinfo_literals.specs.internal.Plain.{is_special_byte};

use crate::text::split_first;

/// Returns the quote that a text begins with, and the text after it.
pub(crate) fn split_quote(slice: &str) -> Option<(char, &str)>
    ensures { MatchOption result
        ((quote : ℕ) (inside : List ℕ) → (quote ≡ 34) ⊎ (quote ≡ 39)
        → chars slice.now ≡ quote ∷ inside → ⊥)
        (λ r. ((r.0 ≡ 34) ⊎ (r.0 ≡ 39)) × (chars slice.now ≡ r.0 ∷ chars r.1.now)) }
{
    let (quote, inside) = split_first(slice)?;
    if quote == '"' || quote == '\'' {
        Some((quote, inside))
    } else {
        None
    }
}

/// Returns whether some byte of a text may not stand between two of these quotes for itself.
fn has_special(text: &str, quote: u8) -> bool
    ensures { result ≡ list_any (is_special_byte quote) text.now }
{
    text.bytes()
        .any(|b| b == b'\\' || b == quote || b == b'\n' || b == b'\r')
}

/// Returns the text between the quotes of a string literal that has no escapes, and `None` for any
/// other text.
pub(crate) fn plain_text(slice: &str) -> Option<&str>
    ensures { IfSome result (λ text. Spells slice.now (chars text.now)) }
{
    let (quote, inside) = split_quote(slice)?;
    let text = inside.strip_suffix(quote)?;
    if has_special(text, quote as u8) {
        None
    } else {
        Some(text)
    }
}
