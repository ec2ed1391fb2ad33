//! Comments that are longer, or filed more often, than in a real document.

use deno_graph_source::text::SourceRange;
use deno_graph_source::tree::{CommentKind, Comments, DependencyComment};
use deno_graph_source::values::Text;
use std::alloc::{AllocError, Global};

/// The text of a JSDoc comment with an import after this number of braces.
pub fn braces(alloc: Global, count: usize) -> Result<String, AllocError> {
    let mut text = String::from_str(alloc, "*")?;
    for _ in 0..count {
        text.push('{')?;
    }
    text.push_str(" import('a') }")?;
    Ok(text)
}

/// A comment at the start of a source of this length, filed this number of times as leading at the start
/// and as trailing at the end.
pub fn filed(alloc: Global, text: &str, end: usize, count: usize) -> Result<Comments, AllocError> {
    let mut comments = Comments::new(alloc);
    for _ in 0..count {
        comments.add_leading(0, comment(alloc, text, end)?)?;
        comments.add_trailing(end, comment(alloc, text, end)?)?;
    }
    Ok(comments)
}

fn comment(alloc: Global, text: &str, end: usize) -> Result<DependencyComment, AllocError> {
    Ok(DependencyComment {
        kind: CommentKind::Block,
        range: SourceRange { start: 0, end },
        text: Text::from_str(alloc, text)?,
    })
}
