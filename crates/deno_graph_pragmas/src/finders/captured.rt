//! Readers of the part that a finder returns. The part is at the start of `rest`, and `text` ends
//! with `rest`.

ghost use Rattle.std.specs.Prelude.{◌≡◌, ◌≤◌, List, [], ◌∷◌, None, IfSome, IsNone, length};
ghost use Rattle.std.specs.Str.{chars};
ghost use Rattle.deno_graph_pragmas.specs.Match.{match_part_of};
ghost use Rattle.deno_graph_pragmas.specs.Piece.{non_white_space, quote, unquoted};
ghost use Rattle.deno_graph_pragmas.specs.internal.Reading.{after_pieces, IsCapturedAt};

use crate::finders::matches::Match;
use crate::finders::scan::{before_quote, before_white_space};

/// Returns the characters up to the next quote, or None if there is no quote.
pub(super) fn capture_quoted<'a>(text: &str, rest: &'a str) -> Option<Match<'a>>
    requires { length rest.now ≤ length text.now }
    ensures found { IfSome result
        (λ found. IsCapturedAt unquoted (quote ∷ []) text.now rest.now (match_part_of found)) }
    ensures none { IsNone result
        → after_pieces (unquoted ∷ quote ∷ []) (chars rest.now) ≡ None }
{
    let found = before_quote(rest)?;
    Some(Match::at_start_of(rest, text, found))
}

/// Returns the characters up to the next white space or the end, or None if there are none.
pub(super) fn capture_run<'a>(text: &str, rest: &'a str) -> Option<Match<'a>>
    requires { length rest.now ≤ length text.now }
    ensures found { IfSome result
        (λ found. IsCapturedAt non_white_space [] text.now rest.now (match_part_of found)) }
    ensures none { IsNone result → after_pieces (non_white_space ∷ []) (chars rest.now) ≡ None }
{
    let found = before_white_space(rest);
    if found.is_empty() {
        return None;
    }
    Some(Match::at_start_of(rest, text, found))
}
