//! Steps from place to place of a text.

ghost use Rattle.std.specs.Prelude.{◌≡◌, IfOk, IfSome, if◌then◌else◌};
ghost use Rattle.modinfo_pieces.specs.Places.{
  IsNext,
  IsPieceAt,
  around_after,
  choices_after,
  context_of,
  is_chosen,
};
ghost use Rattle.modinfo_pieces.specs.Spots.{place_of};

use crate::befores::{before_after, line_end_after};
use crate::bytes::byte_at;
use crate::choice::{Choice, ChoiceKind};
use crate::ends::end_of;
use crate::kinds::kind_at;
use crate::openings::{change_by_punctuation, change_by_template};
use crate::piece::{Piece, PieceKind};
use crate::place::{Before, Context, Openings};
use std::alloc::AllocError;

/// A place of a text, but for the openings around the place.
#[derive(Clone, Copy)]
pub struct Spot<'a> {
    /// Offset from zero.
    pub at: usize,
    pub before: Before,
    /// Whether a line ends between the token before and the place.
    pub is_after_line_end: bool,
    /// The choices that weren't met yet.
    pub choices: &'a [Choice],
}

/// A piece and the spot after it.
#[derive(Clone, Copy)]
pub struct Step<'a> {
    pub piece: Piece,
    pub next: Spot<'a>,
}

/// Returns the piece at a spot and the spot after it, and changes the openings; or `None` if there is no such
/// piece.
#[inline(always)]
pub fn next_piece<'a>(
    text: &[u8],
    spot: Spot<'a>,
    context: Context,
    around: &mut Openings,
) -> Result<Option<Step<'a>>, AllocError>
    ensures { context ≡ context_of (place_of spot.entry around.old) → IfOk result (λ step. IfSome step (λ step.
        IsNext text.now (place_of spot.entry around.old) step.piece (place_of step.next around.new))) }
{
    let Some(piece) = piece_at(text, spot.at, context) else {
        return Ok(None);
    };
    let next = Spot {
        at: piece.end,
        before: before_after(text, piece, context),
        is_after_line_end: line_end_after(text, piece, spot.is_after_line_end),
        choices: choices_after(spot.at, spot.choices),
    };
    if change(text, piece, context, around)? {
        Ok(Some(Step { piece, next }))
    } else {
        Ok(None)
    }
}

/// Returns the piece at an offset, if the piece ends in the text and is what was chosen.
#[inline(always)]
fn piece_at(text: &[u8], at: usize, context: Context) -> Option<Piece>
    ensures { IfSome result (λ piece. IsPieceAt text.now at context piece) }
{
    let kind = kind_at(text, at, context);
    let end = end_of(text, at, kind)?;
    if at < end && end <= text.len() && is_chosen(context.chosen, kind, byte_at(text, at)) {
        Some(Piece {
            kind,
            start: at,
            end,
        })
    } else {
        None
    }
}

/// Returns the choices after an offset.
#[inline(always)]
fn choices_after<'a>(at: usize, choices: &'a [Choice]) -> &'a [Choice]
    ensures { result.now ≡ choices_after at choices.now }
{
    match choices {
        [first, rest @ ..] if first.offset == at => rest,
        _ => choices,
    }
}

/// Returns whether a piece of this kind, with this first byte, is what was chosen.
#[inline(always)]
fn is_chosen(chosen: Option<ChoiceKind>, kind: PieceKind, byte: u8) -> bool
    ensures { result ≡ is_chosen chosen kind byte }
{
    match (chosen, kind) {
        (None, _) => true,
        (Some(ChoiceKind::RegularExpression), PieceKind::RegularExpression) => true,
        (Some(ChoiceKind::HtmlComment), PieceKind::HtmlComment) => true,
        (Some(ChoiceKind::JsxElement), PieceKind::Punctuation) => byte == b'<',
        _ => false,
    }
}

/// Changes the openings by a piece, and returns whether braces, parentheses and tags nest.
#[inline(always)]
fn change(
    text: &[u8],
    piece: Piece,
    context: Context,
    around: &mut Openings,
) -> Result<bool, AllocError>
    ensures { IfOk result (λ nests. around_after text.now piece piece.kind context around.old
        ≡ (if nests then Some around.new else None)) }
{
    match piece.kind {
        PieceKind::Template => change_by_template(
            around,
            byte_at(text, piece.start),
            byte_at(text, piece.end.saturating_sub(1)),
        ),
        PieceKind::Punctuation => change_by_punctuation(
            around,
            byte_at(text, piece.start.saturating_sub(1)),
            byte_at(text, piece.start),
            context,
        ),
        _ => Ok(true),
    }
}
