//! `Comments`: filing, look-ups and copies.

use deno_graph_source::text::SourceRange;
use deno_graph_source::tree::{CommentKind, CommentSide, Comments, DependencyComment};
use deno_graph_source::values::{Text, TryClone};
use std::process::Abort;

fn line(rt: &(impl AllocGlobal + Abort), start: usize, text: &str) -> DependencyComment {
    DependencyComment {
        kind: CommentKind::Line,
        range: SourceRange {
            start,
            end: start.wrapping_add(3),
        },
        text: Text::from_str(rt.alloc(), text).expect(rt, "memory"),
    }
}

/// Returns the starts and texts of all comments, sorted.
fn all_of<'a>(rt: &(impl AllocGlobal + Abort), comments: &'a Comments) -> Vec<(usize, &'a str)> {
    let mut all = Vec::new(rt.alloc());
    for comment in comments.iter_unstable(rt.alloc()).expect(rt, "memory") {
        all.push((comment.range.start, comment.text.as_str()))
            .expect(rt, "memory");
    }
    all.sort_unstable();
    all
}

/// Files a comment at this offset, on this side.
fn file(
    rt: &impl Abort,
    comments: &mut Comments,
    side: CommentSide,
    offset: usize,
    comment: DependencyComment,
) {
    let filed = match side {
        CommentSide::Leading => comments.add_leading(offset, comment),
        CommentSide::Trailing => comments.add_trailing(offset, comment),
    };
    filed.expect(rt, "memory");
}

/// Returns four comments at two offsets. Two of the comments are equal.
fn filed(rt: &(impl AllocGlobal + Abort)) -> Comments {
    let mut comments = Comments::new(rt.alloc());
    for (side, offset, start, text) in [
        (CommentSide::Leading, 8, 0, "a"),
        (CommentSide::Leading, 8, 4, "b"),
        (CommentSide::Leading, 0, 0, "a"),
        (CommentSide::Trailing, 8, 9, "c"),
    ] {
        file(rt, &mut comments, side, offset, line(rt, start, text));
    }
    comments
}

#[test]
fn nothing_is_filed(rt: HostRuntime) {
    let comments = Comments::new(rt.alloc());
    assert_filed(&rt, &comments, 0, None, None);
    assert!(rt; all_of(&rt, &comments).is_empty());
}

/// Asserts the texts of the comments at this offset, in order. `None` stands for no list.
fn assert_filed(
    rt: &impl Abort,
    comments: &Comments,
    offset: usize,
    leading: Option<&[&str]>,
    trailing: Option<&[&str]>,
) {
    assert!(rt;
        has_texts(comments.get_leading(offset), leading),
        "leading {offset}"
    );
    assert!(rt;
        has_texts(comments.get_trailing(offset), trailing),
        "trailing {offset}"
    );
}

fn has_texts(found: Option<&[DependencyComment]>, expected: Option<&[&str]>) -> bool {
    let (Some(found), Some(expected)) = (found, expected) else {
        return found.is_none() && expected.is_none();
    };
    found.len() == expected.len()
        && found
            .iter()
            .zip(expected)
            .all(|(comment, text)| comment.text.as_str() == *text)
}

#[test]
fn comments_are_filed_in_order(rt: HostRuntime) {
    let comments = filed(&rt);
    assert_filed(&rt, &comments, 8, Some(&["a", "b"]), Some(&["c"]));
    assert_filed(&rt, &comments, 0, Some(&["a"]), None);
    assert_filed(&rt, &comments, 4, None, None);
}

#[test]
fn all_comments_are_returned(rt: HostRuntime) {
    let comments = filed(&rt);
    let expected = [(0, "a"), (0, "a"), (4, "b"), (9, "c")];
    assert_eq!(rt; all_of(&rt, &comments).as_slice(), expected.as_slice());
}

#[test]
fn comments_are_copied(rt: HostRuntime) {
    let mut comments = filed(&rt);
    let copy = comments.try_clone(rt.alloc()).expect(&rt, "memory");
    assert!(rt; copy == comments);
    // The copy differs after one more comment is filed.
    file(
        &rt,
        &mut comments,
        CommentSide::Trailing,
        0,
        line(&rt, 9, "c"),
    );
    assert!(rt; copy != comments);
}
