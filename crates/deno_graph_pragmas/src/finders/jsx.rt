//! Finders of pragmas that name the source of JSX.

ghost use Rattle.std.specs.Prelude.{◌≡◌, IfSome, IsTrue};
ghost use Rattle.std.specs.Str.{chars, IsUtf8};
ghost use Rattle.deno_graph_pragmas.specs.Finders.{jsx_import_source_pattern};
ghost use Rattle.deno_graph_pragmas.specs.Finders.{jsx_import_source_types_pattern, jsx_pragma};
ghost use Rattle.deno_graph_pragmas.specs.Match.{FindsFirst};
ghost use Rattle.deno_graph_pragmas.specs.internal.Reading.{after_pieces, begins_above_star, chars_left};
ghost use Rattle.deno_graph_pragmas.specs.internal.Reading.{is_ascii};

use crate::finders::captured::capture_run;
use crate::finders::matches::Match;
use crate::finders::scan::{
    skip_white_space, skip_white_space_and_stars, strip_keyword, strip_white_space,
};

/// Returns the specifier of the JSX library, as in `@jsxImportSource preact`: the characters up to
/// the next white space.
pub fn find_jsx_import_source(text: &str) -> Option<Match<'_>>
    ensures { FindsFirst jsx_import_source_pattern text.now result }
{
    find_jsx_pragma(text, "@jsxImportSource")
}

/// Returns the specifier of the types of the JSX library, as in
/// `@jsxImportSourceTypes @types/react`: the characters up to the next white space.
pub fn find_jsx_import_source_types(text: &str) -> Option<Match<'_>>
    ensures { FindsFirst jsx_import_source_types_pattern text.now result }
{
    find_jsx_pragma(text, "@jsxImportSourceTypes")
}

/// Returns the value of a pragma of JSX: the characters up to the next white space.
fn find_jsx_pragma<'a>(text: &'a str, name: &str) -> Option<Match<'a>>
    requires ascii { IsTrue (is_ascii name.now) }
    requires start { IsTrue (begins_above_star name.now) }
    ensures { FindsFirst (jsx_pragma name.now) text.now result }
{
    let value = strip_jsx_pragma(text, name)?;
    capture_run(text, value)
}

/// Skips white space and stars, the name in any case, and white space.
fn strip_jsx_pragma<'a>(text: &'a str, name: &str) -> Option<&'a str>
    requires { IsTrue (is_ascii name.now) }
    ensures left { chars_left result ≡ after_pieces (jsx_pragma name.now).front (chars text.now) }
    ensures utf8 { IfSome result (λ rest. IsUtf8 rest.now) }
{
    let after_name = strip_keyword(skip_white_space_and_stars(text), name)?;
    let after_space = strip_white_space(after_name)?;
    Some(skip_white_space(after_space))
}
