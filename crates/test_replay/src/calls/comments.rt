//! Calls on comments.

use crate::answer::push_line;
use crate::case_error::CaseError;
use deno_graph_source::tree::{CommentKind, DependencyComment, ParsedSource};
use std::alloc::Global;

/// A line for each comment: its side and position, for each position of the source in order. Then a line
/// with the number of comments.
pub fn filed(alloc: Global, source: &ParsedSource) -> Result<String, CaseError> {
    let comments = source.comments();
    let mut answer = String::new(alloc);
    for pos in 0..=source.text().as_str().len() {
        push_comments(
            alloc,
            &mut answer,
            "leading",
            pos,
            comments.get_leading(pos),
        )?;
        push_comments(
            alloc,
            &mut answer,
            "trailing",
            pos,
            comments.get_trailing(pos),
        )?;
    }
    let count = comments.iter_unstable(alloc)?.len();
    let line = format!(in alloc; "{count} comments")?;
    push_line(&mut answer, "answer", line.as_str())?;
    Ok(answer)
}

fn push_comments(
    alloc: Global,
    answer: &mut String,
    side: &str,
    pos: usize,
    comments: Option<&[DependencyComment]>,
) -> Result<(), CaseError> {
    for comment in comments.unwrap_or(&[]) {
        push_comment(alloc, answer, side, pos, comment)?;
    }
    Ok(())
}

fn push_comment(
    alloc: Global,
    answer: &mut String,
    side: &str,
    pos: usize,
    comment: &DependencyComment,
) -> Result<(), CaseError> {
    let kind = match comment.kind {
        CommentKind::Line => "line",
        CommentKind::Block => "block",
    };
    let (start, end) = (comment.range.start, comment.range.end);
    let text = comment.text.as_str();
    let line = format!(in alloc; "{side} {pos} {kind} {start}..{end} {text:?}")?;
    Ok(push_line(answer, "answer", line.as_str())?)
}
