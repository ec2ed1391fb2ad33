//! Functions that skip a piece at the start of a text. Each returns the rest of the text, or None if
//! the text doesn't begin with the piece.

ghost use Rattle.std.specs.Prelude.{◌≡◌, [], ◌∷◌, ◌++◌, IfSome, IsNone, IsSome, IsTrue};
ghost use Rattle.std.specs.Char.{is_whitespace, is_not_whitespace};
ghost use Rattle.std.specs.Str.{chars, IsUtf8};
ghost use Rattle.deno_graph_pragmas.specs.Piece.{is_number_or_at, is_quote, is_unquoted};
ghost use Rattle.deno_graph_pragmas.specs.Piece.{is_white_or_star, quote};
ghost use Rattle.deno_graph_pragmas.specs.internal.Reading.{after_exactly, after_keyword, after_one};
ghost use Rattle.deno_graph_pragmas.specs.internal.Reading.{after_pieces, assignment, chars_left, is_ascii};
ghost use Rattle.deno_graph_pragmas.specs.internal.Reading.{skip_while};

use crate::finders::letter::is_letter;

/// Skips white space, if there is any.
pub(super) fn skip_white_space(text: &str) -> &str
    ensures { chars result.now ≡ skip_while is_whitespace (chars text.now) }
{
    text.trim_start()
}

/// Skips white space and stars, if there are any.
pub(super) fn skip_white_space_and_stars(text: &str) -> &str
    ensures { chars result.now ≡ skip_while is_white_or_star (chars text.now) }
{
    text.trim_start_matches(|c: char| c.is_whitespace() || c == '*')
}

/// Skips one character of white space.
pub(super) fn strip_white_space(text: &str) -> Option<&str>
    ensures left { chars_left result ≡ after_one is_whitespace (chars text.now) }
    ensures utf8 { IfSome result (λ rest. IsUtf8 rest.now) }
{
    text.strip_prefix(|c: char| c.is_whitespace())
}

/// Skips a quote of either kind.
pub(super) fn strip_quote(text: &str) -> Option<&str>
    ensures left { chars_left result ≡ after_one is_quote (chars text.now) }
    ensures utf8 { IfSome result (λ rest. IsUtf8 rest.now) }
{
    text.strip_prefix(['"', '\''])
}

/// Skips a number sign or an at sign.
pub(super) fn strip_number_or_at(text: &str) -> Option<&str>
    ensures left { chars_left result ≡ after_one is_number_or_at (chars text.now) }
    ensures utf8 { IfSome result (λ rest. IsUtf8 rest.now) }
{
    text.strip_prefix(['#', '@'])
}

/// Skips the character `c`.
pub(super) fn strip_char(text: &str, c: char) -> Option<&str>
    ensures left { chars_left result ≡ after_exactly (c ∷ []) (chars text.now) }
    ensures utf8 { IfSome result (λ rest. IsUtf8 rest.now) }
{
    text.strip_prefix(c)
}

/// Skips the characters of `word` in any case.
pub(super) fn strip_keyword<'a>(text: &'a str, word: &str) -> Option<&'a str>
    requires { IsTrue (is_ascii word.now) }
    ensures left { chars_left result ≡ after_keyword word.now (chars text.now) }
    ensures utf8 { IfSome result (λ rest. IsUtf8 rest.now) }
{
    let mut rest = text.chars();
    for letter in word.as_bytes() {
        if !is_letter(rest.next()?, *letter as char) {
            return None;
        }
    }
    Some(rest.as_str())
}

/// Skips the name in any case, and an equals sign with the white space around it.
pub(super) fn strip_assignment<'a>(text: &'a str, name: &str) -> Option<&'a str>
    requires { IsTrue (is_ascii name.now) }
    ensures left { chars_left result ≡ after_pieces (assignment name.now) (chars text.now) }
    ensures utf8 { IfSome result (λ rest. IsUtf8 rest.now) }
{
    let after_name = strip_keyword(text, name)?;
    let after_sign = strip_char(skip_white_space(after_name), '=')?;
    Some(skip_white_space(after_sign))
}

/// Returns the text up to its first quote of either kind, or None if it has no quote.
pub(super) fn before_quote(text: &str) -> Option<&str>
    ensures utf8 { IfSome result (λ front. IsUtf8 front.now) }
    ensures front { IfSome result
        (λ front. chars text.now ≡ chars front.now ++ skip_while is_unquoted (chars text.now)) }
    ensures quote { IfSome result
        (λ _. IsSome (after_pieces (quote ∷ []) (skip_while is_unquoted (chars text.now)))) }
    ensures none { IsNone result
        → after_pieces (quote ∷ []) (skip_while is_unquoted (chars text.now)) ≡ None }
{
    let (front, _) = text.split_once(['"', '\''])?;
    Some(front)
}

/// Returns the text up to its first white space, or the whole text if it has none.
pub(super) fn before_white_space(text: &str) -> &str
    ensures { chars text.now ≡ chars result.now ++ skip_while is_not_whitespace (chars text.now) }
{
    match text.split_once(|c: char| c.is_whitespace()) {
        Some((front, _)) => front,
        None => text,
    }
}
