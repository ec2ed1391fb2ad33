//! Steps through the characters of a text.

ghost use Rattle.std.specs.Prelude.{◌≡◌, ◌==◌, ◌<◌, [], ◌∷◌, false, MatchBool, MatchOption, IfSome, length};
ghost use Rattle.std.specs.Char.{IsScalar};
ghost use Rattle.std.specs.Str.{chars};
ghost use Rattle.modinfo_literals.specs.Escape.{begins_with};
ghost use Rattle.modinfo_literals.specs.internal.Step.{after_carriage_return};

/// Returns the first character of a text and the text after it, or `None` if the text is empty.
pub(crate) fn split_first(text: &str) -> Option<(char, &str)>
    ensures cases { MatchOption result (chars text.now ≡ [])
        (λ r. chars text.now ≡ r.0 ∷ chars r.1.now) }
    ensures scalar { IfSome result (λ r. IsScalar r.0) }
    ensures shorter { IfSome result (λ r. length r.1.now < length text.now) }
{
    let mut characters = text.chars();
    let first = characters.next()?;
    Some((first, characters.as_str()))
}

/// Returns the text after `wanted`, or `None` if `text` begins with no or another character.
pub(crate) fn after(text: &str, wanted: char) -> Option<&str>
    ensures { MatchOption result (begins_with (λ c. c == wanted) (chars text.now) ≡ false)
        (λ rest. chars text.now ≡ wanted ∷ chars rest.now) }
{
    let (first, rest) = split_first(text)?;
    if first == wanted { Some(rest) } else { None }
}

/// Returns whether a text begins with this character.
pub(crate) fn begins_with(text: &str, wanted: char) -> bool
    ensures { result ≡ begins_with (λ c. c == wanted) (chars text.now) }
{
    match split_first(text) {
        Some((first, _)) => first == wanted,
        None => false,
    }
}

/// Returns whether nothing is left of a text.
pub(crate) fn is_at_end(rest: &str) -> bool
    ensures { MatchBool result (chars rest.now ≡ []) (chars rest.now ≡ [] → ⊥) }
{
    rest.is_empty()
}

/// Returns whether a text is this character alone.
pub(crate) fn is_alone(text: &str, character: char) -> bool
    ensures { MatchBool result (chars text.now ≡ character ∷ [])
        (chars text.now ≡ character ∷ [] → ⊥) }
{
    match split_first(text) {
        Some((first, rest)) => first == character && is_at_end(rest),
        None => false,
    }
}

/// Returns the text after a carriage return, without the line feed that belongs to it.
pub(crate) fn after_carriage_return(rest: &str) -> &str
    ensures { chars result.now ≡ after_carriage_return (chars rest.now) }
{
    after(rest, '\n').unwrap_or(rest)
}
