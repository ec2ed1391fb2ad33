//! Finders of pragmas that name types.

ghost use Rattle.std.specs.Prelude.{◌≡◌, ◌∷◌, ◌↔◌, IfSome, IsNone, IsTrue, false, true};
ghost use Rattle.std.specs.Str.{chars, IsUtf8};
ghost use Rattle.deno_graph_pragmas.specs.Finders.{deno_types_pattern, quoted_pragma};
ghost use Rattle.deno_graph_pragmas.specs.Finders.{quoteless_deno_types_pattern, quoteless_pragma};
ghost use Rattle.deno_graph_pragmas.specs.Finders.{ts_self_types_pattern, ts_types_pattern};
ghost use Rattle.deno_graph_pragmas.specs.Match.{pragma_part_of, FindsFirst, FindsFirstInQuotes};
ghost use Rattle.deno_graph_pragmas.specs.Piece.{any_white_space};
ghost use Rattle.deno_graph_pragmas.specs.internal.Reading.{after_pieces, assignment, begins_above_star};
ghost use Rattle.deno_graph_pragmas.specs.internal.Reading.{chars_left, is_ascii};
ghost use Rattle.deno_graph_pragmas.specs.Split.{HasSplit, IsCaptured, IsSliceOf, IsInQuotes};

use crate::finders::captured::{capture_quoted, capture_run};
use crate::finders::matches::{DenoTypesPragmaMatch, Match};
use crate::finders::scan::{skip_white_space, strip_assignment, strip_quote};

/// Returns the specifier of the types of the module itself, as in `@ts-self-types="./mod.d.ts"`: the
/// text between the quotes, which isn't empty.
pub fn find_ts_self_types(text: &str) -> Option<Match<'_>>
    ensures { FindsFirstInQuotes ts_self_types_pattern text.now result }
{
    find_quoted_pragma(text, "@ts-self-types")
}

/// Returns the specifier of the types of an imported module, as in `@ts-types="./mod.d.ts"`: the
/// text between the quotes, which isn't empty.
pub fn find_ts_types(text: &str) -> Option<Match<'_>>
    ensures { FindsFirstInQuotes ts_types_pattern text.now result }
{
    find_quoted_pragma(text, "@ts-types")
}

/// Returns the specifier of the types of an imported module, as in `@deno-types="./mod.d.ts"`: the
/// text between the quotes, which isn't empty. If there is no such text, returns the characters up
/// to the next white space, as in `@deno-types=./mod.d.ts`.
pub fn find_deno_types(text: &str) -> Option<DenoTypesPragmaMatch<'_>>
    ensures quoted { IfSome result (λ found. found.is_quoteless ≡ false
        → IsCaptured deno_types_pattern text.now (pragma_part_of found)) }
    ensures quoteless { IfSome result (λ found. found.is_quoteless ≡ true
        → ¬ HasSplit deno_types_pattern text.now
        × IsCaptured quoteless_deno_types_pattern text.now (pragma_part_of found)) }
    ensures none { IsNone result
        ↔ (¬ HasSplit deno_types_pattern text.now
        × ¬ HasSplit quoteless_deno_types_pattern text.now) }
    ensures slice { IfSome result (λ found. IsSliceOf text.now (pragma_part_of found)) }
    ensures quotes { IfSome result (λ found. found.is_quoteless ≡ false
        → IsInQuotes text.now (pragma_part_of found)) }
{
    match find_quoted_pragma(text, "@deno-types") {
        Some(found) => Some(DenoTypesPragmaMatch::new(found, false)),
        None => {
            let found = find_quoteless_pragma(text, "@deno-types")?;
            Some(DenoTypesPragmaMatch::new(found, true))
        }
    }
}

/// Returns the value of a pragma with quotes: the text between the quotes, which isn't empty.
fn find_quoted_pragma<'a>(text: &'a str, name: &str) -> Option<Match<'a>>
    requires ascii { IsTrue (is_ascii name.now) }
    requires start { IsTrue (begins_above_star name.now) }
    ensures { FindsFirstInQuotes (quoted_pragma name.now) text.now result }
{
    let value = strip_pragma_and_quote(text, name)?;
    let found = capture_quoted(text, value)?;
    if found.as_str().is_empty() {
        return None;
    }
    Some(found)
}

/// Returns the value of a pragma without quotes: the characters up to the next white space.
fn find_quoteless_pragma<'a>(text: &'a str, name: &str) -> Option<Match<'a>>
    requires ascii { IsTrue (is_ascii name.now) }
    requires start { IsTrue (begins_above_star name.now) }
    ensures { FindsFirst (quoteless_pragma name.now) text.now result }
{
    let value = strip_pragma(text, name)?;
    capture_run(text, value)
}

/// Skips white space, the name in any case, and an equals sign with white space around it.
fn strip_pragma<'a>(text: &'a str, name: &str) -> Option<&'a str>
    requires { IsTrue (is_ascii name.now) }
    ensures left { chars_left result
        ≡ after_pieces (any_white_space ∷ assignment name.now) (chars text.now) }
    ensures utf8 { IfSome result (λ rest. IsUtf8 rest.now) }
{
    strip_assignment(skip_white_space(text), name)
}

/// Like `strip_pragma`, but also skips a quote.
fn strip_pragma_and_quote<'a>(text: &'a str, name: &str) -> Option<&'a str>
    requires { IsTrue (is_ascii name.now) }
    ensures left { chars_left result
        ≡ after_pieces (quoted_pragma name.now).front (chars text.now) }
    ensures utf8 { IfSome result (λ rest. IsUtf8 rest.now) }
{
    strip_quote(strip_pragma(text, name)?)
}
