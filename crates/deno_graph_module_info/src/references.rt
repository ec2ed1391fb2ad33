ghost use Rattle.std.specs.Prelude.{◌≡◌, ◌↔◌, All, IfOk, IfSome, IsTrue};
ghost use Rattle.deno_graph_source.specs.Source.{IsSpelled};
ghost use Rattle.deno_graph_module_info.specs.References.{AreReferences, CoversReference, IsModeOf, IsReferenceOf, IsTripleSlashReference, RefersTo};

use crate::specifier::specifier_of_match;
use crate::spelled::SpelledComments;
use deno_graph_base::text::SourceTextInfo;
use deno_graph_base::values::{Items, TypeScriptTypesResolutionMode};
use deno_graph_info::analysis::TypeScriptReference;
use deno_graph_pragmas::finders::{
    find_path_reference, find_resolution_mode, find_types_reference,
    is_comment_triple_slash_reference,
};
use deno_graph_source::tree::{CommentKind, DependencyComment};
use std::alloc::{AllocError, Global};

/// Returns the triple-slash references among the comments, in the order of the comments. Fails only
/// if an allocation fails.
pub(crate) fn analyze_ts_references(
    alloc: Global,
    head: SpelledComments<'_>,
) -> Result<Items<TypeScriptReference>, AllocError>
    ensures are { IfOk result
        (AreReferences head.entry.text_info.now head.entry.comments.now) }
    ensures cover { IfOk result (All (CoversReference head.entry.text_info.now)) }
{
    let mut references = Items::new(alloc);
    for comment in head.comments {
        if let Some(reference) = reference_of(alloc, head.text_info, comment)? {
            references.push(reference)?;
        }
    }
    Ok(references)
}

/// Returns the triple-slash reference of a comment, or `None` if the comment is no triple-slash
/// reference or names neither a path nor types. Fails only if an allocation fails.
fn reference_of(
    alloc: Global,
    text_info: &SourceTextInfo,
    comment: &DependencyComment,
) -> Result<Option<TypeScriptReference>, AllocError>
    requires { IsSpelled text_info.now comment.now }
    ensures is { IfOk result (IsReferenceOf text_info.now comment.now) }
    ensures covers { IfOk result
        (λ reference. IfSome reference (CoversReference text_info.now)) }
{
    if is_triple_slash_reference(comment) {
        referred(alloc, text_info, comment)
    } else {
        Ok(None)
    }
}

/// Returns whether a comment is a line comment with the text of a triple-slash reference.
fn is_triple_slash_reference(comment: &DependencyComment) -> bool
    ensures { IsTrue result ↔ IsTripleSlashReference comment.now }
{
    comment.kind == CommentKind::Line && is_comment_triple_slash_reference(comment.text.as_str())
}

/// Returns the path of a triple-slash reference, or else its types, or else `None`. Fails only if an
/// allocation fails.
fn referred(
    alloc: Global,
    text_info: &SourceTextInfo,
    comment: &DependencyComment,
) -> Result<Option<TypeScriptReference>, AllocError>
    requires { IsSpelled text_info.now comment.now }
    ensures is { IfOk result (RefersTo text_info.now comment.now) }
    ensures covers { IfOk result
        (λ reference. IfSome reference (CoversReference text_info.now)) }
{
    let text = comment.text.as_str();
    if let Some(found) = find_path_reference(text) {
        let specifier = specifier_of_match(alloc, text_info, comment, found, false)?;
        return Ok(Some(TypeScriptReference::Path(specifier)));
    }
    match find_types_reference(text) {
        Some(found) => {
            let resolution_mode = resolution_mode(text);
            let specifier = specifier_of_match(alloc, text_info, comment, found, false)?;
            Ok(Some(TypeScriptReference::Types {
                specifier,
                resolution_mode,
            }))
        }
        None => Ok(None),
    }
}

/// Returns the value of `resolution-mode` in a text, if the text has a value that is a known mode.
fn resolution_mode(text: &str) -> Option<TypeScriptTypesResolutionMode>
    ensures { IsModeOf text.now result }
{
    let found = find_resolution_mode(text)?;
    TypeScriptTypesResolutionMode::from_str(found.as_str())
}
