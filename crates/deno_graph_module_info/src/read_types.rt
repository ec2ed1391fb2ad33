ghost use Rattle.std.specs.Prelude.{All, IfOk, IfSome, OnOk};
ghost use Rattle.deno_graph_source.specs.Source.{IsSpelled};
ghost use Rattle.deno_graph_module_info.specs.Pragma.{NamesDependencyTypes};
ghost use Rattle.deno_graph_module_info.specs.internal.ReadTypes.{AreRead};
ghost use Rattle.deno_graph_module_info.specs.Spelled.{CoversAsWritten};

use crate::types::types_in;
use deno_graph_base::text::SourceTextInfo;
use deno_graph_base::values::TryClone;
use deno_graph_info::analysis::SpecifierWithRange;
use deno_graph_source::tree::DependencyComment;
use std::alloc::{AllocError, Global};
use std::collections::BTreeMap;

/// A cache: the types that each comment read so far names, by the start and the end of the comment's
/// range.
pub(crate) type ReadTypes = BTreeMap<(usize, usize), Option<SpecifierWithRange>>;

/// Like `analyze_ts_or_deno_types`, but reads each comment once. Dependencies that begin at one
/// offset share their comments, and a tree may have any number of such dependencies.
pub(crate) fn types_before(
    alloc: Global,
    text_info: &SourceTextInfo,
    leading_comments: &[DependencyComment],
    read: &mut ReadTypes,
) -> Result<Option<SpecifierWithRange>, AllocError>
    requires spelled { All (IsSpelled text_info.now) leading_comments.now }
    requires read { AreRead text_info.now read.old }
    ensures is { IfOk result (NamesDependencyTypes text_info.now leading_comments.now) }
    ensures covers { IfOk result (λ specifier. IfSome specifier (CoversAsWritten text_info.now)) }
    ensures read { OnOk result (AreRead text_info.now read.new) }
{
    let Some(comment) = leading_comments.last() else {
        return Ok(None);
    };
    let range = (comment.range.start, comment.range.end);
    if let Some(types) = read.get(&range) {
        return types.try_clone(alloc);
    }
    let types = types_in(alloc, text_info, comment)?;
    drop(read.insert(range, types.try_clone(alloc)?)?);
    Ok(types)
}
