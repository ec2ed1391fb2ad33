//! What is found among the pieces of a text.

ghost use Rattle.std.specs.Prelude.{◌≡◌, [], IfOk, IsTrue};
ghost use Rattle.modinfo_pieces.specs.Places.{context_of, start};
ghost use Rattle.modinfo_pieces.specs.Spots.{place_of};
ghost use Rattle.modinfo_pieces.specs.Tiles.{IsEnd};
ghost use Rattle.modinfo_imports.specs.Found.{HasFound, begins_at};
ghost use Rattle.modinfo_imports.specs.Sights.{first_after};

use crate::claims::Mark;
use crate::duty::Parentheses;
use crate::plain::{chosen, go_over_plain};
use crate::watch::{is_gap, is_watch_end, watch_piece, watch_start};
use modinfo_pieces::bytes::has_bytes;
use modinfo_pieces::choice::Choice;
use modinfo_pieces::filed::FiledComment;
use modinfo_pieces::filing::Filing;
use modinfo_pieces::piece::Piece;
use modinfo_pieces::place::{Before, Context, Openings};
use modinfo_pieces::places::{Spot, next_piece};
use std::alloc::{AllocError, Global};

/// Returns the comments among the pieces of a text, each filed, in the order of the text; or the offset where
/// the text isn't pieces side by side by these choices, or isn't that of a tree: a claim is no piece, or a
/// word that a dependency begins with is lost. The claims and the marks are in the order of the text. The
/// body's first item begins at `body`, if there is one. In a typed text methods may have no body.
pub fn find(
    alloc: Global,
    text: &[u8],
    is_typed: bool,
    choices: &[Choice],
    claims: &[Piece],
    marks: &[Mark],
    body: Option<usize>,
) -> Result<Result<Vec<FiledComment>, usize>, AllocError>
    ensures { IfOk result (λ found. IfOk found (λ comments.
        HasFound text.now is_typed choices.now claims.now marks.now body comments.items)) }
{
    let mut around = Openings::new(alloc);
    let mut parentheses = Parentheses::new(alloc);
    let mut filing = Filing::new(alloc);
    let mut spot = start(choices);
    let mut seen = watch_start(claims, marks);
    let mut first = None;
    'pieces: while spot.at < text.len() {
        let context = context_of(spot, &around);
        let Some(step) = next_piece(text, spot, context, &mut around)? else {
            return Ok(Err(spot.at));
        };
        let Some(after) = watch_piece(text, is_typed, context, step.piece, seen, &mut parentheses)?
        else {
            return Ok(Err(spot.at));
        };
        filing.add(text, context, step.piece)?;
        first = first_after(first, step.piece);
        let reached = go_over_plain(
            text,
            first.is_some(),
            step.next,
            after,
            &mut around,
            &mut parentheses,
            &mut filing,
        )?;
        seen = reached.seen;
        spot = reached.spot;
    }
    if is_end(text, spot, &around)
        && is_watch_end(seen, &parentheses)
        && begins_at(text, first, body)
    {
        Ok(Ok(filing.finish(text)?))
    } else {
        Ok(Err(first_start(seen.claims)))
    }
}

/// Returns the start of a text.
fn start(choices: &[Choice]) -> Spot<'_>
    ensures { place_of result [] ≡ start choices.now }
{
    Spot {
        at: 0,
        before: Before::Free,
        is_after_line_end: true,
        choices,
    }
}

/// Returns what is known at a spot with these openings around.
#[inline(always)]
fn context_of(spot: Spot<'_>, around: &Openings) -> Context
    ensures { result ≡ context_of (place_of spot.entry around.now) }
{
    Context {
        inside: around.innermost(),
        before: spot.before,
        is_after_line_end: spot.is_after_line_end,
        chosen: chosen(spot.at, spot.choices),
    }
}

/// Returns whether a spot with these openings is the end of a text.
fn is_end(text: &[u8], spot: Spot<'_>, around: &Openings) -> bool
    ensures { IsTrue result → IsEnd text.now (place_of spot.entry around.now) }
{
    spot.at == text.len() && around.is_empty() && spot.choices.is_empty()
}

/// Returns where the first token begins, by where it begins before a piece.
#[inline(always)]
fn first_after(first: Option<usize>, piece: Piece) -> Option<usize>
    ensures { result ≡ first_after first piece }
{
    match first {
        Some(first) => Some(first),
        None if is_gap(piece.kind) => None,
        None => Some(piece.start),
    }
}

/// Returns whether the first item of a body begins at the first token, or after it if that is `declare`.
fn begins_at(text: &[u8], token: Option<usize>, item: Option<usize>) -> bool
    ensures { result ≡ begins_at text.now token item }
{
    match (token, item) {
        (Some(token), Some(item)) => {
            token == item || has_bytes(text, token, b"declare") && has_bytes(text, item, b"import")
        }
        (None, None) => true,
        _ => false,
    }
}

/// Returns where the first of these pieces begins, zero if there is none.
fn first_start(pieces: &[Piece]) -> usize {
    match pieces {
        [first, ..] => first.start,
        [] => 0,
    }
}
