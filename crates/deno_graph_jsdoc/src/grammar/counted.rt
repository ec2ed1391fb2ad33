//! Ranges of imports, counted from the start of a longer text.

ghost use Rattle.std.specs.Prelude.{◌≡◌, ◌-◌, ◌≤◌, IfSome, length, option_map};
ghost use Rattle.deno_graph_jsdoc.specs.JsDocImport.{moved};
ghost use Rattle.deno_graph_jsdoc.specs.internal.Braces.{IsWithin};
ghost use Rattle.deno_graph_jsdoc.specs.internal.Reading.{rest_and_import};

use crate::import::JsDocImport;

/// Returns what a parser read of `after`, with the range of the import counted from the start of
/// `input`, which ends with `after`.
pub(crate) fn counted_from<'a>(
    input: &str,
    after: &str,
    read: Option<(&'a str, JsDocImport<'a>)>,
) -> Option<(&'a str, JsDocImport<'a>)>
    requires end { length after.now ≤ length input.now }
    requires within { IfSome read (λ parsed. IsWithin parsed.1 (length after.now)) }
    ensures read { rest_and_import result ≡ option_map
        (λ parsed. (parsed.0, moved (length input.now - length after.now) parsed.1))
        (rest_and_import read.entry) }
    ensures within { IfSome result (λ parsed. IsWithin parsed.1 (length input.now)) }
{
    let (rest, import) = read?;
    Some((rest, import.moved(input.len() - after.len())))
}
