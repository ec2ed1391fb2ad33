//! The JSON Pointer of a comment.

ghost use Rattle.std.specs.Prelude.{◌≡◌, IfOk, IsSome, List, Some};
ghost use Rattle.deno_graph_json.specs.Data.{data_of};
ghost use Rattle.deno_graph_json.specs.declared.error.Step.{Step};
ghost use Rattle.deno_graph_source.specs.Comments.{FiledComments};
ghost use Rattle.deno_graph_source.specs.FaultPlace.{comment_at};
ghost use Rattle.modinfo_document.specs.Comments.{AreThoseOf};
ghost use Rattle.modinfo_document.specs.Document.{Contents, reads_document};
ghost use Rattle.modinfo_document.specs.Place.{IsCommentPath, Points};

use crate::comments::member_of;
use crate::lookup::find_comment;
use crate::report::pointer::pointer_to;
use deno_graph_json::{Element, ReferenceToken};
use deno_graph_source::tree::CommentPlace;
use std::alloc::{AllocError, Global};

/// The JSON Pointer of the comment that is filed at a place, in the document at `root`. The only error is
/// a failed allocation.
pub fn comment_pointer(
    alloc: Global,
    root: Element<'_>,
    place: CommentPlace,
) -> Result<Option<String>, AllocError>
    ensures { (contents : Contents) → reads_document (data_of root.entry) ≡ Some contents
        → (comments : FiledComments) → AreThoseOf contents.comments comments
        → IsSome (comment_at comments place)
        → IfOk result (λ pointer. (path : List Step) × IsCommentPath (data_of root.entry) comments place path
        × Points (data_of root.entry) path pointer) }
{
    let Some(found) = find_comment(root, place.side, place.position, place.number) else {
        return Ok(None);
    };
    let tokens = [
        ReferenceToken::Name(member_of(place.side)),
        ReferenceToken::Index(found.entry),
        ReferenceToken::Name("comments"),
        ReferenceToken::Index(found.number),
    ];
    Ok(Some(pointer_to(alloc, &tokens)?))
}
