//! Finders of triple-slash references, and of the attributes in them.

ghost use Rattle.std.specs.Prelude.{◌≡◌, ◌≤◌, ◌↔◌, IfSome, IsNone, IsTrue, length};
ghost use Rattle.std.specs.Str.{chars, IsUtf8};
ghost use Rattle.deno_graph_pragmas.specs.Finders.{attribute, path_reference_pattern};
ghost use Rattle.deno_graph_pragmas.specs.Finders.{resolution_mode_pattern};
ghost use Rattle.deno_graph_pragmas.specs.Finders.{triple_slash_reference_pattern};
ghost use Rattle.deno_graph_pragmas.specs.Finders.{types_reference_pattern};
ghost use Rattle.deno_graph_pragmas.specs.Match.{match_part_of, FindsFirstInQuotes};
ghost use Rattle.deno_graph_pragmas.specs.internal.Reading.{after_pieces, attribute_front, chars_left};
ghost use Rattle.deno_graph_pragmas.specs.internal.Reading.{is_ascii, HasNoAttribute, IsAttributeAt};
ghost use Rattle.deno_graph_pragmas.specs.internal.Reading.{IsClosedInLine, IsFirstLine};
ghost use Rattle.deno_graph_pragmas.specs.Split.{Split};

use crate::finders::captured::capture_quoted;
use crate::finders::matches::Match;
use crate::finders::scan::{
    skip_white_space, strip_assignment, strip_char, strip_keyword, strip_quote, strip_white_space,
};

/// Returns whether the text of a line comment is a reference, as `/ <reference path="./mod.d.ts" />`.
pub fn is_comment_triple_slash_reference(text: &str) -> bool
    ensures { IsTrue result ↔ Split triple_slash_reference_pattern (chars text.now) }
{
    match strip_reference(text) {
        Some(rest) => is_closed_in_line(rest),
        None => false,
    }
}

/// Skips a slash, `<reference` in any case, and one character of white space.
fn strip_reference(text: &str) -> Option<&str>
    ensures left { chars_left result
        ≡ after_pieces triple_slash_reference_pattern.front (chars text.now) }
    ensures utf8 { IfSome result (λ rest. IsUtf8 rest.now) }
{
    let after_slash = strip_char(text, '/')?;
    let after_name = strip_keyword(skip_white_space(after_slash), "<reference")?;
    strip_white_space(after_name)
}

/// Returns whether `/>` is in the first line of the text.
fn is_closed_in_line(text: &str) -> bool
    ensures { IsTrue result ↔ IsClosedInLine (chars text.now) }
{
    first_line(text).contains("/>")
}

/// Returns the text up to its first line feed, or the whole text if it has none.
fn first_line(text: &str) -> &str
    ensures { IsFirstLine (chars text.now) (chars result.now) }
{
    match text.split_once('\n') {
        Some((line, _)) => line,
        None => text,
    }
}

/// Returns the value of the first attribute `path`, without its quotes.
pub fn find_path_reference(text: &str) -> Option<Match<'_>>
    ensures { FindsFirstInQuotes path_reference_pattern text.now result }
{
    find_attribute(text, "path")
}

/// Returns the value of the first attribute `types`, without its quotes.
pub fn find_types_reference(text: &str) -> Option<Match<'_>>
    ensures { FindsFirstInQuotes types_reference_pattern text.now result }
{
    find_attribute(text, "types")
}

/// Returns the value of the first attribute `resolution-mode`, without its quotes.
pub fn find_resolution_mode(text: &str) -> Option<Match<'_>>
    ensures { FindsFirstInQuotes resolution_mode_pattern text.now result }
{
    find_attribute(text, "resolution-mode")
}

/// Returns the value of the first attribute of this name, without its quotes.
fn find_attribute<'a>(text: &'a str, name: &str) -> Option<Match<'a>>
    requires { IsTrue (is_ascii name.now) }
    ensures { FindsFirstInQuotes (attribute name.now) text.now result }
{
    let mut rest = text.chars();
    while let Some(c) = rest.next() {
        if c.is_whitespace()
            && let Some(found) = attribute_at(text, rest.as_str(), name)
        {
            return Some(found);
        }
    }
    None
}

/// Returns the value of the attribute at the start of `rest`, or None if there is no attribute of
/// this name. `text` ends with `rest`.
fn attribute_at<'a>(text: &str, rest: &'a str, name: &str) -> Option<Match<'a>>
    requires ascii { IsTrue (is_ascii name.now) }
    requires rest { length rest.now ≤ length text.now }
    ensures found { IfSome result
        (λ found. IsAttributeAt name.now text.now rest.now (match_part_of found)) }
    ensures none { IsNone result → HasNoAttribute name.now (chars rest.now) }
{
    let value = strip_attribute(rest, name)?;
    capture_quoted(text, value)
}

/// Skips the name in any case, an equals sign with white space around it, and a quote.
fn strip_attribute<'a>(text: &'a str, name: &str) -> Option<&'a str>
    requires { IsTrue (is_ascii name.now) }
    ensures left { chars_left result ≡ after_pieces (attribute_front name.now) (chars text.now) }
    ensures utf8 { IfSome result (λ rest. IsUtf8 rest.now) }
{
    strip_quote(strip_assignment(text, name)?)
}
