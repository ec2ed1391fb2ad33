//! The pragmas that are read in the comments at the head of a module. Of each pragma, the first
//! comment that has it counts.

ghost use Rattle.std.specs.Prelude.{◌≡◌, false, IfOk, IfSome, IsNone, None};
ghost use Rattle.deno_graph_module_info.specs.Pragma.{comments_for_jsx, comments_for_types, has_jsx, jsx_import_source_pragma, jsx_import_source_types_pragma, self_types_pragma, HasPragma, NamesFirst};
ghost use Rattle.deno_graph_module_info.specs.internal.HeadPragma.{head_pragma, Covers, IsMatch};
ghost use Rattle.deno_graph_module_info.specs.Spelled.{CoversBare, CoversQuoted};
ghost use Rattle.deno_graph_pragmas.specs.Match.{match_part_of, FindsFirst, IsQuotedIn};

use crate::specifier::specifier_of_match;
use crate::spelled::SpelledComments;
use deno_graph_info::analysis::SpecifierWithRange;
use deno_graph_pragmas::finders::{
    Match, find_jsx_import_source, find_jsx_import_source_types, find_ts_self_types,
};
use deno_graph_source::tree::{CommentKind, DependencyComment, MediaType};
use std::alloc::{AllocError, Global};

/// Returns the specifier of the module's own types, from the first comment with `@ts-self-types`.
/// Returns `None` for a file that holds types. Fails only if an allocation fails.
pub(crate) fn analyze_ts_self_types(
    alloc: Global,
    media_type: MediaType,
    head: SpelledComments<'_>,
) -> Result<Option<SpecifierWithRange>, AllocError>
    ensures is { IfOk result (NamesFirst head.entry.text_info.now self_types_pragma
        (comments_for_types media_type head.entry.comments.now)) }
    ensures covers { IfOk result
        (λ specifier. IfSome specifier (CoversQuoted head.entry.text_info.now)) }
{
    if media_type.is_typed() {
        return Ok(None);
    }
    first_specifier(alloc, head, HeadPragma::TsSelfTypes)
}

/// Returns the specifier of the first block comment with `@jsxImportSource`. Returns `None` for a
/// file without JSX. Fails only if an allocation fails.
pub(crate) fn analyze_jsx_import_source(
    alloc: Global,
    media_type: MediaType,
    head: SpelledComments<'_>,
) -> Result<Option<SpecifierWithRange>, AllocError>
    ensures is { IfOk result (NamesFirst head.entry.text_info.now jsx_import_source_pragma
        (comments_for_jsx media_type head.entry.comments.now)) }
    ensures covers { IfOk result
        (λ specifier. IfSome specifier (CoversBare head.entry.text_info.now)) }
{
    if !has_jsx(media_type) {
        return Ok(None);
    }
    first_specifier(alloc, head, HeadPragma::JsxImportSource)
}

/// Returns the specifier of the first block comment with `@jsxImportSourceTypes`. Returns `None` for
/// a file without JSX. Fails only if an allocation fails.
pub(crate) fn analyze_jsx_import_source_types(
    alloc: Global,
    media_type: MediaType,
    head: SpelledComments<'_>,
) -> Result<Option<SpecifierWithRange>, AllocError>
    ensures is { IfOk result (NamesFirst head.entry.text_info.now jsx_import_source_types_pragma
        (comments_for_jsx media_type head.entry.comments.now)) }
    ensures covers { IfOk result
        (λ specifier. IfSome specifier (CoversBare head.entry.text_info.now)) }
{
    if !has_jsx(media_type) {
        return Ok(None);
    }
    first_specifier(alloc, head, HeadPragma::JsxImportSourceTypes)
}

/// Returns whether files of this type have JSX.
fn has_jsx(media_type: MediaType) -> bool
    ensures { result ≡ has_jsx media_type }
{
    matches!(media_type, MediaType::Jsx | MediaType::Tsx)
}

/// A pragma that is read in the comments at the head of a module.
#[derive(Clone, Copy)]
enum HeadPragma {
    TsSelfTypes,
    JsxImportSource,
    JsxImportSourceTypes,
}

impl HeadPragma {
    /// Returns whether the specifier of the pragma has no quotes. Such a pragma counts only in block
    /// comments.
    fn is_quoteless(self) -> bool
        ensures quoteless { result ≡ (head_pragma self).is_quoteless }
        ensures blocks { result ≡ (head_pragma self).is_in_blocks_alone }
    {
        !matches!(self, HeadPragma::TsSelfTypes)
    }

    /// Returns the specifier of the pragma in a comment, or `None` if the comment doesn't have the
    /// pragma.
    fn find(self, comment: &DependencyComment) -> Option<Match<'_>>
        ensures found { IfSome result
            (λ found. IsMatch (head_pragma self) comment.now (match_part_of found)) }
        ensures none { IsNone result → ¬ HasPragma (head_pragma self) comment.now }
    {
        if self.is_quoteless() && comment.kind == CommentKind::Line {
            return None;
        }
        self.find_in(comment.text.as_str())
    }

    /// Returns the specifier of the pragma in the text of a comment of any kind, or `None` if the text
    /// doesn't have the pragma.
    fn find_in(self, text: &str) -> Option<Match<'_>>
        ensures finds { FindsFirst (head_pragma self).pattern text.now result }
        ensures quotes { (head_pragma self).is_quoteless ≡ false
            → IfSome result (IsQuotedIn text.now) }
    {
        match self {
            HeadPragma::TsSelfTypes => find_ts_self_types(text),
            HeadPragma::JsxImportSource => find_jsx_import_source(text),
            HeadPragma::JsxImportSourceTypes => find_jsx_import_source_types(text),
        }
    }
}

/// Returns the specifier of the first comment that has the pragma. Fails only if an allocation fails.
fn first_specifier(
    alloc: Global,
    head: SpelledComments<'_>,
    pragma: HeadPragma,
) -> Result<Option<SpecifierWithRange>, AllocError>
    ensures is { IfOk result
        (NamesFirst head.entry.text_info.now (head_pragma pragma) head.entry.comments.now) }
    ensures covers { IfOk result (λ specifier. IfSome specifier
        (Covers head.entry.text_info.now (head_pragma pragma).is_quoteless)) }
{
    for comment in head.comments {
        if let Some(found) = pragma.find(comment) {
            let is_quoteless = pragma.is_quoteless();
            let specifier = specifier_of_match(
                alloc,
                head.text_info,
                comment,
                found,
                is_quoteless,
            )?;
            return Ok(Some(specifier));
        }
    }
    Ok(None)
}
