ghost use Rattle.std.specs.Prelude.{All, IfOk, IfSome};
ghost use Rattle.deno_graph_source.specs.Source.{IsSpelled};
ghost use Rattle.deno_graph_module_info.specs.Pragma.{dependency_types_pragmas, NamesByFirst, NamesDependencyTypes};
ghost use Rattle.deno_graph_module_info.specs.Spelled.{CoversAsWritten};

use crate::specifier::{specifier_of_match, specifier_with_range};
use deno_graph_base::text::SourceTextInfo;
use deno_graph_info::analysis::SpecifierWithRange;
use deno_graph_pragmas::finders::{find_deno_types, find_ts_types};
use deno_graph_source::tree::DependencyComment;
use std::alloc::{AllocError, Global};

/// Returns the specifier of the types of a dependency, from `@ts-types` or else `@deno-types` in the
/// last of the comments before the dependency. The text must have each comment at its range. Fails
/// only if an allocation fails.
pub fn analyze_ts_or_deno_types(
    alloc: Global,
    text_info: &SourceTextInfo,
    leading_comments: &[DependencyComment],
) -> Result<Option<SpecifierWithRange>, AllocError>
    requires { All (IsSpelled text_info.now) leading_comments.now }
    ensures is { IfOk result (NamesDependencyTypes text_info.now leading_comments.now) }
    ensures covers { IfOk result (λ specifier. IfSome specifier (CoversAsWritten text_info.now)) }
{
    match leading_comments.last() {
        Some(comment) => types_in(alloc, text_info, comment),
        None => Ok(None),
    }
}

/// Returns the specifier of the types that a comment names for the dependency after the comment, or
/// `None` if it names none. Fails only if an allocation fails.
pub(crate) fn types_in(
    alloc: Global,
    text_info: &SourceTextInfo,
    comment: &DependencyComment,
) -> Result<Option<SpecifierWithRange>, AllocError>
    requires { IsSpelled text_info.now comment.now }
    ensures is { IfOk result (NamesByFirst text_info.now dependency_types_pragmas comment.now) }
    ensures covers { IfOk result (λ specifier. IfSome specifier (CoversAsWritten text_info.now)) }
{
    let text = comment.text.as_str();
    if let Some(found) = find_ts_types(text) {
        let specifier = specifier_of_match(alloc, text_info, comment, found, false)?;
        return Ok(Some(specifier));
    }
    match find_deno_types(text) {
        Some(found) => Ok(Some(specifier_with_range(
            alloc,
            text_info,
            comment,
            found.text,
            found.range,
            found.is_quoteless,
        )?)),
        None => Ok(None),
    }
}
