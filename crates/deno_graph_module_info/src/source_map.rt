ghost use Rattle.std.specs.Prelude.{IfOk, IfSome};
ghost use Rattle.deno_graph_module_info.specs.Pragma.{source_mapping_url_pragma, NamesLast};
ghost use Rattle.deno_graph_module_info.specs.Spelled.{CoversBare};

use crate::specifier::specifier_of_match;
use crate::spelled::SpelledComments;
use deno_graph_info::analysis::SpecifierWithRange;
use deno_graph_pragmas::finders::find_source_mapping_url;
use std::alloc::{AllocError, Global};

/// Returns the URL of the source map, from the last comment that names one. Fails only if an
/// allocation fails.
pub(crate) fn analyze_source_map_url(
    alloc: Global,
    tail: SpelledComments<'_>,
) -> Result<Option<SpecifierWithRange>, AllocError>
    ensures is { IfOk result
        (NamesLast tail.entry.text_info.now source_mapping_url_pragma tail.entry.comments.now) }
    ensures covers { IfOk result
        (λ specifier. IfSome specifier (CoversBare tail.entry.text_info.now)) }
{
    let mut rest = tail.comments;
    'search: while let Some((comment, front)) = rest.split_last() {
        if let Some(found) = find_source_mapping_url(comment.text.as_str()) {
            let specifier = specifier_of_match(alloc, tail.text_info, comment, found, true)?;
            return Ok(Some(specifier));
        }
        rest = front;
    }
    Ok(None)
}
