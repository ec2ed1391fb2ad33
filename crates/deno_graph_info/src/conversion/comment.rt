//! The comments that version 1 stores with a dependency.

ghost use Rattle.std.specs.Prelude.{◌≡◌, IfOk};
ghost use Rattle.deno_graph_json.specs.Data.{data_of};
ghost use Rattle.deno_graph_info.specs.Comment.{reads_stored_comment};
ghost use Rattle.deno_graph_info.specs.Conversion.{comments_in};

use crate::analysis::ModuleInfo;
use deno_graph_base::text::PositionRange;
use deno_graph_base::values::{Items, Text};
use deno_graph_json::{Element, FromJson, ObjectReader, ReadError};
use std::alloc::{AllocError, Global};

/// A comment before a dependency.
#[derive(Debug, PartialEq, Eq, Drop)]
pub struct Comment {
    /// The text after the two characters that begin the comment.
    pub text: Text,
    /// Range of the comment: lines and characters from zero.
    pub range: PositionRange,
}

impl FromJson<ModuleInfo> for Comment {
    ghost reads = { reads_stored_comment };

    #[tactic(auto, unfolding(crate::specs::Comment::reads_stored_comment))]
    fn from_json(alloc: Global, value: Element<'_>) -> Result<Comment, ReadError> {
        let object = ObjectReader::<ModuleInfo>::new(alloc, value)?;
        let text = object.read("text")?;
        let range = object.read("range")?;
        Ok(Comment { text, range })
    }
}

/// Reads the leading comments of a dependency. Returns None if they aren't an array of readable
/// comments. The only error is that an allocation fails.
pub fn read_comments(
    alloc: Global,
    dependency: Element<'_>,
) -> Result<Option<Items<Comment>>, AllocError>
    ensures { IfOk result (λ comments. comments ≡ comments_in (data_of dependency.entry)) }
{
    let Some(members) = dependency.members() else {
        return Ok(None);
    };
    let Some(comments) = members.get("leadingComments") else {
        return Ok(None);
    };
    match FromJson::from_json(alloc, comments) {
        Ok(comments) => Ok(Some(comments)),
        Err(ReadError::Mismatch(_)) => Ok(None),
        Err(ReadError::OutOfMemory) => Err(AllocError),
    }
}
