//! `Comments::add_leading` and `add_trailing`.

use crate::case_error::CaseError;
use crate::failed_allocations::outcome::{Outcome, check};
use deno_graph_source::text::SourceRange;
use deno_graph_source::tree::{CommentKind, CommentSide, Comments, DependencyComment};
use deno_graph_source::values::{Text, TryClone};
use std::alloc::{AllocError, Global};

/// The side and offset at which each comment is filed: at new offsets before, after and between the
/// others, and several times at one offset.
const FILINGS: [(CommentSide, usize); 16] = [
    (CommentSide::Leading, 8),
    (CommentSide::Leading, 8),
    (CommentSide::Trailing, 8),
    (CommentSide::Leading, 4),
    (CommentSide::Leading, 12),
    (CommentSide::Leading, 8),
    (CommentSide::Leading, 0),
    (CommentSide::Leading, 6),
    (CommentSide::Leading, 8),
    (CommentSide::Leading, 8),
    (CommentSide::Trailing, 2),
    (CommentSide::Leading, 16),
    (CommentSide::Leading, 8),
    (CommentSide::Trailing, 8),
    (CommentSide::Leading, 8),
    (CommentSide::Leading, 8),
];

/// The number of offsets that are looked up: up to one after the last offset.
const OFFSETS: usize = 18;

/// A failed call changes no look-up, and returns when it is tried again.
pub fn file_all(alloc: Global) -> Result<Outcome, CaseError> {
    let mut comments = Comments::new(alloc);
    file_each(alloc, &mut comments)
}

fn file_each(alloc: Global, comments: &mut Comments) -> Result<Outcome, CaseError> {
    let mut outcome = Outcome::Returned;
    for (side, pos) in &FILINGS {
        if file_one(alloc, comments, *side, *pos)? == Outcome::OutOfMemory {
            outcome = Outcome::OutOfMemory;
        }
    }
    outcome.provided(
        count(alloc, comments)? == FILINGS.len(),
        "a comment is missing",
    )
}

fn file_one(
    alloc: Global,
    comments: &mut Comments,
    side: CommentSide,
    pos: usize,
) -> Result<Outcome, CaseError> {
    let before = comments.try_clone(alloc)?;
    file_over(alloc, comments, &before, side, pos)
}

fn file_over(
    alloc: Global,
    comments: &mut Comments,
    before: &Comments,
    side: CommentSide,
    pos: usize,
) -> Result<Outcome, CaseError> {
    file_after(alloc, comments, before, side, pos)?.provided(
        is_filed(comments, before, side, pos),
        "a comment isn't where it was filed",
    )
}

/// Files a comment after those of `before`, and tries again if the first call fails.
fn file_after(
    alloc: Global,
    comments: &mut Comments,
    before: &Comments,
    side: CommentSide,
    pos: usize,
) -> Result<Outcome, CaseError> {
    let comment = comment(alloc, pos)?;
    if file(comments, side, pos, comment).is_ok() {
        return Ok(Outcome::Returned);
    }
    check_unchanged(alloc, comments, before)?;
    file(comments, side, pos, self::comment(alloc, pos)?)?;
    Ok(Outcome::OutOfMemory)
}

fn check_unchanged(alloc: Global, comments: &Comments, before: &Comments) -> Result<(), CaseError> {
    check(comments == before, "a failed call changed the comments")?;
    check(
        look_ups_agree(comments, before),
        "a failed call changed a look-up",
    )?;
    check(
        count(alloc, comments)? == count(alloc, before)?,
        "the number of comments changed",
    )
}

fn comment(alloc: Global, start: usize) -> Result<DependencyComment, AllocError> {
    Ok(DependencyComment {
        kind: CommentKind::Line,
        range: SourceRange {
            start,
            end: start.saturating_add(3),
        },
        text: Text::from_str(alloc, "a")?,
    })
}

fn file(
    comments: &mut Comments,
    side: CommentSide,
    pos: usize,
    comment: DependencyComment,
) -> Result<(), AllocError> {
    match side {
        CommentSide::Leading => comments.add_leading(pos, comment),
        CommentSide::Trailing => comments.add_trailing(pos, comment),
    }
}

fn count(alloc: Global, comments: &Comments) -> Result<usize, AllocError> {
    Ok(comments.iter_unstable(alloc)?.len())
}

fn look_ups_agree(comments: &Comments, before: &Comments) -> bool {
    (0..OFFSETS).all(|pos| {
        comments.get_leading(pos) == before.get_leading(pos)
            && comments.get_trailing(pos) == before.get_trailing(pos)
    })
}

/// Returns whether there are more comments than before at the offset, after the comments of `before`.
fn is_filed(comments: &Comments, before: &Comments, side: CommentSide, pos: usize) -> bool {
    let (now, then) = match side {
        CommentSide::Leading => (comments.get_leading(pos), before.get_leading(pos)),
        CommentSide::Trailing => (comments.get_trailing(pos), before.get_trailing(pos)),
    };
    let (now, then) = (now.unwrap_or(&[]), then.unwrap_or(&[]));
    now.len() > then.len() && now.starts_with(then)
}
