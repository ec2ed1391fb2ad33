ghost use Rattle.std.specs.Prelude.{◌≡◌, ◌≢◌, ℕ, List, map, MatchOption};
ghost use Rattle.deno_graph_source.specs.internal.Check.{JudgesComment, JudgesComments, JudgesNeighbours};
ghost use Rattle.deno_graph_source.specs.Source.{spelling};

use crate::tree::check::finding::CommentFinding;
use crate::tree::check::ranges::check_range;
use crate::tree::comments::{CommentKind, DependencyComment};
use crate::tree::fault::SourceFault;

/// Finds a comment that the text doesn't have at the comment's range.
pub(crate) fn check_comments<'a>(
    text: &str,
    comments: &[&'a DependencyComment],
) -> Option<CommentFinding<'a>>
    ensures { JudgesComments text.now (map (λ comment. comment.now) comments.now) result }
{
    for comment in comments {
        if let Err(fault) = check_comment(text, comment) {
            return Some(CommentFinding { fault, comment });
        }
    }
    None
}

/// Returns an error if the range of a comment has a fault, or the text there isn't the comment.
fn check_comment(text: &str, comment: &DependencyComment) -> Result<(), SourceFault>
    ensures { JudgesComment text.now comment.now result }
{
    check_range(text, comment.range)?;
    let written = &text[comment.range.start..comment.range.end];
    match inside(comment.kind, written) {
        Some(inside) if inside == comment.text.as_str() => Ok(()),
        _ => Err(SourceFault::CommentText),
    }
}

/// Returns the text between the marks of a comment, or `None` if `written` isn't a comment of this
/// kind.
fn inside(kind: CommentKind, written: &str) -> Option<&str>
    ensures { MatchOption result
        ((text : List ℕ) → written.now ≢ spelling kind text)
        (λ text. written.now ≡ spelling kind text.now) }
{
    match kind {
        CommentKind::Line => written.strip_prefix("//"),
        CommentKind::Block => written.strip_prefix("/*")?.strip_suffix("*/"),
    }
}

/// Finds two comments that overlap. The comments ascend by their starts, so that some two that
/// overlap are neighbours.
pub(crate) fn check_neighbours<'a>(
    comments: &[&'a DependencyComment],
) -> Option<(&'a DependencyComment, &'a DependencyComment)>
    ensures { JudgesNeighbours (map (λ comment. comment.now) comments.now) result }
{
    for i in 1..comments.len() {
        let before = comments[i - 1];
        let after = comments[i];
        if after.range.start < before.range.end && after.range != before.range {
            return Some((before, after));
        }
    }
    None
}
