//! The JSDoc imports of a module as values of its `ModuleInfo`.

ghost use Rattle.std.specs.Prelude.{◌≡◌, map, true, IfOk};
ghost use Rattle.std.specs.List.{All};
ghost use Rattle.deno_graph_jsdoc.specs.JsDocImport.{import_of};
ghost use Rattle.deno_graph_module_info.specs.JsDocInfo.{IsJsDocList, info_of};
ghost use Rattle.deno_graph_module_info.specs.Spelled.{CoversInSameQuotes};
ghost use Rattle.deno_graph_module_info.specs.CommentImports.{AreApart, IsQuotedAt, reads_jsdoc};
ghost use Rattle.deno_graph_source.specs.Source.{IsSpelled};

use crate::jsdoc::imports::{imports_of, reads_jsdoc};
use deno_graph_base::text::{PositionRange, SourceRange, SourceTextInfo};
use deno_graph_base::values::Text;
use deno_graph_info::analysis::{JsDocImportInfo, SpecifierWithRange};
use deno_graph_jsdoc::JsDocImport;
use deno_graph_source::tree::{DependencyComment, MediaType};
use std::alloc::{AllocError, Global};

/// Returns the imports in the JSDoc comments among `comments`, each once, in ascending order of their
/// starts. The range of a specifier includes its two quotes. Returns no imports for files of other
/// types than JavaScript, Jsx, Mjs and Cjs.
///
/// The comments must be those of a valid source: the text has each comment at its range, and unequal
/// comments share no byte. They may be in any order, and each may occur several times. Fails only if
/// an allocation fails.
pub fn jsdoc_imports(
    alloc: Global,
    media_type: MediaType,
    text_info: &SourceTextInfo,
    comments: &[&DependencyComment],
) -> Result<Vec<JsDocImportInfo>, AllocError>
    requires spelled { All (IsSpelled text_info.now) (map (λ comment. comment.now) comments.now) }
    requires apart { AreApart (map (λ comment. comment.now) comments.now) }
    ensures list { IfOk result (λ infos. IsJsDocList (reads_jsdoc media_type) text_info.now
        (map (λ comment. comment.now) comments.now) infos.items) }
    ensures covers { IfOk result
        (λ infos. All (λ info. CoversInSameQuotes text_info.now info.specifier) infos.items) }
{
    if !reads_jsdoc(media_type) {
        return Ok(Vec::new(alloc));
    }
    infos_of(alloc, text_info, comments)
}

/// Like `jsdoc_imports`, for a file of a type in which JSDoc imports are read.
pub(crate) fn infos_of(
    alloc: Global,
    text_info: &SourceTextInfo,
    comments: &[&DependencyComment],
) -> Result<Vec<JsDocImportInfo>, AllocError>
    requires spelled { All (IsSpelled text_info.now) (map (λ comment. comment.now) comments.now) }
    requires apart { AreApart (map (λ comment. comment.now) comments.now) }
    ensures list { IfOk result (λ infos. IsJsDocList true text_info.now
        (map (λ comment. comment.now) comments.now) infos.items) }
    ensures covers { IfOk result
        (λ infos. All (λ info. CoversInSameQuotes text_info.now info.specifier) infos.items) }
{
    let imports = imports_of(alloc, comments)?;
    let mut infos = Vec::new(alloc);
    for import in &imports {
        infos.push(info_of(alloc, text_info, import)?)?;
    }
    Ok(infos)
}

/// Returns the info of an import whose offsets count from the start of the source. Fails only if an
/// allocation fails.
fn info_of(
    alloc: Global,
    text_info: &SourceTextInfo,
    import: &JsDocImport<'_>,
) -> Result<JsDocImportInfo, AllocError>
    requires { IsQuotedAt text_info.now (import_of import.now) }
    ensures info { IfOk result (λ info. info ≡ info_of text_info.now (import_of import.now)) }
    ensures covers { IfOk result (λ info. CoversInSameQuotes text_info.now info.specifier) }
{
    let length = text_info.text().len();
    prove!(import.specifier_range.end < length);
    let range = SourceRange {
        start: import.specifier_range.start - 1,
        end: import.specifier_range.end + 1,
    };
    Ok(JsDocImportInfo {
        specifier: SpecifierWithRange {
            text: Text::from_str(alloc, import.specifier)?,
            range: PositionRange::from_source_range(range, text_info),
        },
        resolution_mode: import.resolution_mode,
    })
}
