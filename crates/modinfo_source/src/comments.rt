//! The comments of a text, filed.

ghost use Rattle.std.specs.Prelude.{◌≡◌, IfOk, IfSome, OnOk};
ghost use Rattle.modinfo_source.specs.OfText.{HasClaims};
ghost use Rattle.modinfo_source.specs.Comments.{AreFiled, kind_of, text_of};
ghost use Rattle.modinfo_source.specs.internal.Filed.{Files};

use crate::error::TreeError;
use deno_graph_base::text::SourceRange;
use deno_graph_base::values::Text;
use deno_graph_source::tree::{CommentKind, Comments, DependencyComment};
use modinfo_imports::claims::Mark;
use modinfo_imports::find::find;
use modinfo_pieces::choice::Choice;
use modinfo_pieces::filed::FiledComment;
use modinfo_pieces::piece::{Piece, PieceKind};
use std::alloc::{AllocError, Global};

/// Returns the comments of a text, each filed, by the choices of the parser. `Defect` if the text isn't that
/// of the tree with these claims and marks, whose first item begins at `body`, if there is one.
pub(crate) fn comments_of(
    alloc: Global,
    text: &str,
    is_typed: bool,
    choices: &[Choice],
    claims: &[Piece],
    marks: &[Mark],
    body: Option<usize>,
) -> Result<Comments, TreeError>
    ensures { IfOk result (HasClaims text.now is_typed claims.now marks.now body) }
{
    match find(
        alloc,
        text.as_bytes(),
        is_typed,
        choices,
        claims,
        marks,
        body,
    )? {
        Ok(filed) => file_each(alloc, text, &filed),
        Err(offset) => Err(TreeError::Defect(offset)),
    }
}

/// Returns comments, each filed where these are.
fn file_each(alloc: Global, text: &str, filed: &[FiledComment]) -> Result<Comments, TreeError>
    ensures { IfOk result (AreFiled text.now filed.now) }
{
    let mut comments = Comments::new(alloc);
    for comment in filed {
        file(alloc, text, &mut comments, *comment)?;
    }
    Ok(comments)
}

/// Files a comment.
fn file(
    alloc: Global,
    text: &str,
    comments: &mut Comments,
    filed: FiledComment,
) -> Result<(), TreeError>
    ensures { OnOk result (Files text.now filed comments.old comments.new) }
{
    let piece = filed.comment;
    let comment = match text_of(text, piece) {
        Some(inside) => DependencyComment {
            kind: kind_of(piece.kind),
            range: SourceRange::new(piece.start, piece.end),
            text: Text::from_str(alloc, inside)?,
        },
        None => return Err(TreeError::Defect(piece.start)),
    };
    if filed.trails {
        Ok(comments.add_trailing(filed.position, comment)?)
    } else {
        Ok(comments.add_leading(filed.position, comment)?)
    }
}

/// Returns the kind of a comment.
fn kind_of(kind: PieceKind) -> CommentKind
    ensures { result ≡ kind_of kind }
{
    match kind {
        PieceKind::BlockComment => CommentKind::Block,
        _ => CommentKind::Line,
    }
}

/// Returns the text of a comment without its marks, if characters begin and end there.
fn text_of(text: &str, piece: Piece) -> Option<&str>
    ensures { IfSome result (λ inside. inside.now ≡ text_of text.now piece) }
{
    let end_mark = match piece.kind {
        PieceKind::BlockComment => 2,
        _ => 0,
    };
    let start = piece.start.saturating_add(2);
    text.get(start..piece.end.saturating_sub(end_mark))
}
