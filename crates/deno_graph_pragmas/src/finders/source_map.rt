//! The finder of the pragma that names a source map.

ghost use Rattle.std.specs.Prelude.{◌≡◌, IfSome};
ghost use Rattle.std.specs.Str.{chars, IsUtf8};
ghost use Rattle.deno_graph_pragmas.specs.Finders.{source_mapping_url_pattern};
ghost use Rattle.deno_graph_pragmas.specs.Match.{FindsFirst};
ghost use Rattle.deno_graph_pragmas.specs.internal.Reading.{after_pieces, chars_left};

use crate::finders::captured::capture_run;
use crate::finders::matches::Match;
use crate::finders::scan::{skip_white_space, strip_assignment, strip_number_or_at};

/// Returns the URL of a source map, as in `# sourceMappingURL=mod.js.map`: the characters up to the
/// next white space.
pub fn find_source_mapping_url(text: &str) -> Option<Match<'_>>
    ensures { FindsFirst source_mapping_url_pattern text.now result }
{
    let value = strip_source_mapping_url(text)?;
    capture_run(text, value)
}

/// Skips a number sign or an at sign, `sourceMappingURL` in any case, and an equals sign, each with
/// the white space after it.
fn strip_source_mapping_url(text: &str) -> Option<&str>
    ensures left { chars_left result
        ≡ after_pieces source_mapping_url_pattern.front (chars text.now) }
    ensures utf8 { IfSome result (λ rest. IsUtf8 rest.now) }
{
    let after_sign = strip_number_or_at(text)?;
    strip_assignment(skip_white_space(after_sign), "sourceMappingURL")
}
