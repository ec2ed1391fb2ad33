//! Parsers of the parts of imports: words, white space, quoted texts and identifiers. Each function
//! returns what follows the part that it reads, or None if the input doesn't begin with that part.

ghost use Rattle.std.specs.Prelude.{◌≡◌, ◌<◌, codes};
ghost use Rattle.std.specs.Str.{IsAscii, chars, skip_leading_whitespace};
ghost use Rattle.deno_graph_jsdoc.specs.Characters.{closing_brace};
ghost use Rattle.deno_graph_jsdoc.specs.JsDocGrammar.{◌·◌, Is, IsSpace, IsGap, IsQuote, IsBetween};
ghost use Rattle.deno_graph_jsdoc.specs.JsDocGrammar.{IsIdent, Lacks, ends_ident, Anything};
ghost use Rattle.deno_graph_jsdoc.specs.JsDocGrammar.{NoSpace};
ghost use Rattle.deno_graph_jsdoc.specs.internal.Reading.{begins_ident, Reads, EndOfIdent, rest_of};
ghost use Rattle.deno_graph_jsdoc.specs.internal.Reading.{rest_and_text};
ghost use Rattle.deno_graph_jsdoc.specs.internal.Braces.{IsUnclosed};

/// Skips white space, if there is any.
pub(crate) fn skip_space(input: &str) -> &str
    ensures { chars result.now ≡ skip_leading_whitespace (chars input.now) }
{
    input.trim_start()
}

/// Skips white space, of which there is at least one character.
pub(crate) fn gap(input: &str) -> Option<&str>
    ensures { Reads NoSpace (λ _. IsGap) (chars input.now) (rest_of result) }
{
    let rest = skip_space(input);
    if rest.len() < input.len() {
        Some(rest)
    } else {
        None
    }
}

/// Skips `word`.
pub(crate) fn word<'a>(input: &'a str, word: &str) -> Option<&'a str>
    requires { IsAscii word.now }
    ensures { Reads Anything (λ _. Is word.now) (chars input.now) (rest_of result) }
{
    input.strip_prefix(word)
}

/// Skips `word` and white space.
pub(crate) fn token<'a>(input: &'a str, word: &str) -> Option<&'a str>
    requires { IsAscii word.now }
    ensures { Reads NoSpace (λ _. Is word.now · IsSpace) (chars input.now) (rest_of result) }
{
    Some(skip_space(self::word(input, word)?))
}

/// Reads a text between two `"` or two `'`, and returns the text too.
pub(crate) fn quote(input: &str) -> Option<(&str, &str)>
    ensures { Reads Anything IsQuote (chars input.now) (rest_and_text result) }
{
    match between(input, '"') {
        Some((rest, text)) => Some((rest, text)),
        None => between(input, '\''),
    }
}

/// Reads a text between two `mark`s, and returns the text too.
fn between(input: &str, mark: char) -> Option<(&str, &str)>
    requires { mark < 128 }
    ensures { Reads Anything (IsBetween mark) (chars input.now) (rest_and_text result) }
{
    let (text, rest) = input.strip_prefix(mark)?.split_once(mark)?;
    Some((rest, text))
}

/// Skips the text up to and with the next `}`.
pub(crate) fn through_brace(input: &str) -> Option<&str>
    ensures { Reads Anything (λ _. Lacks closing_brace · Is (codes "}"))
        (chars input.now) (rest_of result) }
{
    let (_, rest) = input.split_once('}')?;
    Some(rest)
}

/// Returns the number of bytes after the last `}` of a text, or of all bytes if there is none.
pub(crate) fn unclosed_len(text: &str) -> usize
    ensures { IsUnclosed (chars text.now) result }
{
    match text.rsplit_once('}') {
        Some((_, after)) => after.len(),
        None => text.len(),
    }
}

/// Reads an identifier, and returns the identifier too: an Alphabetic character and all others up to
/// white space, `:` or `-`.
pub(crate) fn ident(input: &str) -> Option<(&str, &str)>
    ensures { Reads EndOfIdent (λ name text. IsIdent text × (name ≡ text))
        (chars input.now) (rest_and_text result) }
{
    let end = input.find(ends_ident).unwrap_or(input.len());
    let name = &input[..end];
    if begins_ident(name) {
        Some((&input[end..], name))
    } else {
        None
    }
}

/// Returns whether a text begins as an identifier does.
fn begins_ident(text: &str) -> bool
    ensures { result ≡ begins_ident (chars text.now) }
{
    text.chars().next().is_some_and(|c| c.is_alphabetic())
}

/// Returns whether an identifier ends before this character.
fn ends_ident(c: char) -> bool
    ensures { result ≡ ends_ident c }
{
    c.is_whitespace() || c == ':' || c == '-'
}
