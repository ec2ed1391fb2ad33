//! The JSDoc imports of a source.

ghost use Rattle.std.specs.Prelude.{IfOk, All};
ghost use Rattle.deno_graph_module_info.specs.JsDocInfo.{IsJsDocList};
ghost use Rattle.deno_graph_module_info.specs.Spelled.{CoversInSameQuotes};
ghost use Rattle.deno_graph_module_info.specs.CommentImports.{AreApart, reads_jsdoc};
ghost use Rattle.deno_graph_source.specs.Comments.{comments_of};
ghost use Rattle.deno_graph_source.specs.Source.{IsSpelled};

use crate::jsdoc::imports::reads_jsdoc;
use crate::jsdoc::infos::infos_of;
use deno_graph_base::text::SourceTextInfo;
use deno_graph_base::values::Items;
use deno_graph_info::analysis::JsDocImportInfo;
use deno_graph_source::tree::{Comments, MediaType};
use std::alloc::{AllocError, Global};

/// Returns the imports in the JSDoc comments of a source, each once, in ascending order of their
/// starts. Fails only if an allocation fails.
pub(crate) fn analyze_jsdoc_imports(
    alloc: Global,
    media_type: MediaType,
    text_info: &SourceTextInfo,
    comments: &Comments,
) -> Result<Items<JsDocImportInfo>, AllocError>
    requires spelled { All (IsSpelled text_info.now) (comments_of comments.now) }
    requires apart { AreApart (comments_of comments.now) }
    ensures list { IfOk result (IsJsDocList (reads_jsdoc media_type) text_info.now
        (comments_of comments.now)) }
    ensures covers { IfOk result
        (All (λ info. CoversInSameQuotes text_info.now info.specifier)) }
{
    if !reads_jsdoc(media_type) {
        return Ok(Items::new(alloc));
    }
    let all = comments.iter_unstable(alloc)?;
    let infos = infos_of(alloc, text_info, all.as_slice())?;
    Ok(Items::from_vec(infos))
}
