//! The imports in JSDoc comments, with their ranges in the source.

ghost use Rattle.std.specs.Prelude.{◌≡◌, ◌+◌, ◌<◌, ◌^◌, ◌↔◌, ℕ, List, map, length, IfOk, OnOk, IsTrue};
ghost use Rattle.std.specs.List.{All};
ghost use Rattle.std.specs.List.Sorted.{IsNonDecreasingBy};
ghost use Rattle.std.specs.Str.{IsUtf8, chars};
ghost use Rattle.deno_graph_jsdoc.specs.JsDocImports.{Ascend};
ghost use Rattle.deno_graph_jsdoc.specs.JsDocImport.{import_of};
ghost use Rattle.deno_graph_module_info.specs.CommentImports.{AreApart, AreImports, IsJsDoc, IsQuotedAt, reads_jsdoc};
ghost use Rattle.deno_graph_module_info.specs.internal.CommentImportSteps.{AreJsDocOf, GainsImports, IsMovedImport};
ghost use Rattle.deno_graph_source.specs.Source.{IsSpelled};

use deno_graph_jsdoc::{JsDocImport, scan};
use deno_graph_source::tree::{CommentKind, DependencyComment, MediaType};
use std::alloc::{AllocError, Global};

/// Returns all imports in the JSDoc comments among `comments`, in ascending order of their starts,
/// with offsets that count from the start of the source.
///
/// The comments must be those of a valid source: the text has each comment at its range, and unequal
/// comments share no byte. They may be in any order, and each may occur several times. Fails only if
/// an allocation fails.
pub fn imports_of<'a>(
    alloc: Global,
    comments: &[&'a DependencyComment],
) -> Result<Vec<JsDocImport<'a>>, AllocError>
    requires spelled { (text : List ℕ) × All (IsSpelled text)
        (map (λ comment. comment.now) comments.now) }
    requires apart { AreApart (map (λ comment. comment.now) comments.now) }
    ensures all { IfOk result (λ imports. AreImports
        (map (λ comment. comment.now) comments.now) (map import_of imports.items)) }
    ensures quoted { IfOk result
        (λ imports. (text : List ℕ)
        → All (IsSpelled text) (map (λ comment. comment.now) comments.now)
        → All (IsQuotedAt text) (map import_of imports.items)) }
{
    let mut imports = Vec::new(alloc);
    let mut end = 0;
    for comment in &jsdoc_by_start(alloc, comments)? {
        // The sum of an offset in the comment and the comment's start is at most the comment's end.
        let own_end = comment.range.end;
        // A comment that starts before the end of the last one is the same comment again.
        if comment.range.start >= end {
            add_imports(alloc, &mut imports, comment)?;
            end = own_end;
        }
    }
    Ok(imports)
}

/// Returns the JSDoc comments in ascending order of their starts. Fails only if an allocation fails.
fn jsdoc_by_start<'a>(
    alloc: Global,
    comments: &[&'a DependencyComment],
) -> Result<Vec<&'a DependencyComment>, AllocError>
    ensures jsdoc { IfOk result (λ chosen. AreJsDocOf
        (map (λ comment. comment.now) comments.now) (map (λ comment. comment.now) chosen.items)) }
    ensures ascending { IfOk result
        (λ chosen. IsNonDecreasingBy (λ comment. comment.now.range.start) chosen.items) }
{
    let mut chosen = Vec::new(alloc);
    for comment in comments {
        if is_jsdoc(comment) {
            chosen.push(*comment)?;
        }
    }
    chosen.sort_unstable_by_key(|comment| comment.range.start);
    Ok(chosen)
}

/// Adds the imports in a comment at the end of `imports`, with offsets that count from the start of
/// the source. Fails only if an allocation fails.
fn add_imports<'a>(
    alloc: Global,
    imports: &mut Vec<JsDocImport<'a>>,
    comment: &'a DependencyComment,
) -> Result<(), AllocError>
    requires ascending { Ascend (map import_of imports.old.items) }
    requires before { All (λ import. import.start < comment.now.range.start + 2)
        (map import_of imports.old.items) }
    requires fits { comment.now.range.start + 2 + length comment.now.text < 2 ^ 64 }
    ensures utf8 { OnOk result (IsUtf8 comment.now.text) }
    ensures gains { OnOk result (GainsImports
        (map import_of imports.old.items) (IsMovedImport comment.now)
        (map import_of imports.new.items)) }
{
    let found = scan(alloc, comment.text.as_str())?;
    for import in &found.imports {
        imports.push(import.moved(comment.range.start + 2))?;
    }
    Ok(())
}

/// Returns whether JSDoc imports are read in files of this type: in JavaScript, which has no types
/// of its own.
pub fn reads_jsdoc(media_type: MediaType) -> bool
    ensures { result ≡ reads_jsdoc media_type }
{
    matches!(
        media_type,
        MediaType::JavaScript | MediaType::Jsx | MediaType::Mjs | MediaType::Cjs
    )
}

/// Returns whether a comment is a JSDoc comment: a block comment whose text begins with `*`.
fn is_jsdoc(comment: &DependencyComment) -> bool
    ensures { IsTrue result ↔ IsJsDoc comment.now }
{
    comment.kind == CommentKind::Block && comment.text.as_str().starts_with('*')
}
