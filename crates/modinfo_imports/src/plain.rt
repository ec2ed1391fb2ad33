//! Pieces that ask nothing of those after them: nearly all. They are gone over faster than others.

ghost use Rattle.std.specs.Prelude.{◌≡◌, ◌-◌, ◌≤◌, ◌<◌, ◌||◌, Bool, IfOk, IfSome, List, None, ℕ, false, length};
ghost use Rattle.modinfo_imports.specs.Claims.{form_of, is_claimed};
ghost use Rattle.modinfo_imports.specs.Sights.{watch_of};
ghost use Rattle.modinfo_imports.specs.Watches.{Watch};
ghost use Rattle.modinfo_imports.specs.declared.duty.Duty.{Duty};
ghost use Rattle.modinfo_imports.specs.internal.Plains.{
  IsSame,
  IsUnmet,
  Turns,
  duty_of,
  place_at,
  so_far_at,
  watch_at,
};
ghost use Rattle.modinfo_pieces.specs.Filed.{is_token};
ghost use Rattle.modinfo_pieces.specs.Filing.{SoFar};
ghost use Rattle.modinfo_pieces.specs.Openings.{innermost, is_element};
ghost use Rattle.modinfo_pieces.specs.Places.{chosen};
ghost use Rattle.modinfo_pieces.specs.Spots.{place_of};
ghost use Rattle.modinfo_pieces.specs.declared.piece.PieceKind.TheVariants.{Space};
ghost use Rattle.modinfo_pieces.specs.declared.place.Opening.{Opening};

use crate::claims::Mark;
use crate::duty::{Duty, Parentheses};
use crate::plain_element::{is_element, next_plain};
use crate::plain_piece::line_end_after;
use crate::watch::{Seen, last_of};
use modinfo_pieces::befores::before_after_gap;
use modinfo_pieces::bytes::byte_at;
use modinfo_pieces::choice::{Choice, ChoiceKind};
use modinfo_pieces::classes::is_ascii_space;
use modinfo_pieces::filing::Filing;
use modinfo_pieces::piece::{Piece, PieceKind};
use modinfo_pieces::place::{Before, Openings};
use modinfo_pieces::places::Spot;
use modinfo_pieces::scan::spaces::space_end;
use std::alloc::AllocError;

/// Where pieces lead to, but for the openings and the parentheses.
#[derive(Clone, Copy)]
pub struct Reached<'a> {
    pub spot: Spot<'a>,
    pub seen: Seen<'a>,
}

/// What the next token must be, where any token but a `*` may be next and asks nothing then.
#[derive(Clone, Copy)]
pub enum Asked {
    Nothing,
    Claimed,
    NoCall,
    TypeOf,
}

/// A place among plain pieces, at which no comment waits for a token.
#[derive(Clone, Copy)]
pub struct Plain {
    /// Offset from zero.
    pub at: usize,
    pub before: Before,
    /// Whether a line ends between the token before and the place.
    pub is_after_line_end: bool,
    /// Whether the innermost opening is an element.
    pub in_element: bool,
    /// What the next token must be.
    pub asked: Asked,
    /// The kind of the last token among the plain pieces, `Space` if there is none.
    pub kind: PieceKind,
    /// Where the last token begins.
    pub start: usize,
    /// Where the last token ends.
    pub end: usize,
}

/// Goes over plain pieces, as far as they go, or over white space if a comment waits for a token. `has_token`
/// says whether a token was before; otherwise there are none to go over.
#[inline(always)]
pub fn go_over_plain<'a>(
    text: &[u8],
    has_token: bool,
    spot: Spot<'a>,
    seen: Seen<'a>,
    around: &mut Openings,
    parentheses: &mut Parentheses,
    filing: &mut Filing,
) -> Result<Reached<'a>, AllocError>
    ensures on { IfOk result (λ reached. spot.entry.at ≤ reached.spot.at) }
    ensures turns { IfOk result (λ reached. (is_typed : Bool) → Turns text.now is_typed
        (place_of spot.entry around.old) (watch_of seen.entry parentheses.old) filing.old
        (place_of reached.spot around.new) (watch_of reached.seen parentheses.new) filing.new) }
    ensures idle { IfOk result (λ reached. has_token ≡ false → IsSame
        (place_of spot.entry around.old) (watch_of seen.entry parentheses.old) filing.old
        (place_of reached.spot around.new) (watch_of reached.seen parentheses.new) filing.new) }
{
    if !has_token {
        return Ok(Reached { spot, seen });
    }
    if filing.is_quiet() {
        go_over_quiet(text, spot, seen, around, parentheses, filing)
    } else {
        Ok(Reached {
            spot: skip_space(text, spot, around),
            seen,
        })
    }
}

/// Returns the spot after the white space at a spot, if there is any outside of an element's text.
#[inline(always)]
fn skip_space<'a>(text: &[u8], spot: Spot<'a>, around: &Openings) -> Spot<'a>
    ensures on { spot.entry.at ≤ result.at }
    ensures turns { (is_typed : Bool) (watch : Watch) (so_far : SoFar) → Turns text.now is_typed
        (place_of spot.entry around.now) watch so_far (place_of result around.now) watch so_far }
{
    if spot.at >= text.len() {
        return spot;
    }
    if is_element(around.innermost()) {
        return spot;
    }
    if !is_ascii_space(text[spot.at]) {
        return spot;
    }
    let None = chosen(spot.at, spot.choices) else {
        return spot;
    };
    let end = space_end(text, spot.at);
    if end <= spot.at || end > text.len() {
        return spot;
    }
    Spot {
        at: end,
        before: before_after_gap(spot.before),
        is_after_line_end: line_end_after(text, spot.at, end, spot.is_after_line_end),
        choices: spot.choices,
    }
}

/// Goes over plain pieces, as far as they go, if no comment waits for a token.
#[inline(never)]
fn go_over_quiet<'a>(
    text: &[u8],
    spot: Spot<'a>,
    seen: Seen<'a>,
    around: &mut Openings,
    parentheses: &mut Parentheses,
    filing: &mut Filing,
) -> Result<Reached<'a>, AllocError>
    ensures on { IfOk result (λ reached. spot.entry.at ≤ reached.spot.at) }
    ensures turns { IfOk result (λ reached. (is_typed : Bool) → Turns text.now is_typed
        (place_of spot.entry around.old) (watch_of seen.entry parentheses.old) filing.old
        (place_of reached.spot around.new) (watch_of reached.seen parentheses.new) filing.new) }
{
    if !filing.is_quiet() || spot.at < 4 {
        return Ok(Reached { spot, seen });
    }
    let Some(asked) = asked_by(seen.duty) else {
        return Ok(Reached { spot, seen });
    };
    let until = quiet_end(text.len(), spot.choices, seen.claims, seen.marks);
    let mut plain = plain_at(spot, asked, around);
    'plain: while plain.at < until {
        let Some(next) = next_plain(text, plain, around, parentheses)? else {
            break;
        };
        plain = next;
    }
    Ok(leave(text, plain, spot, seen, filing))
}

/// Returns the place of a spot.
#[inline(always)]
fn plain_at(spot: Spot<'_>, asked: Asked, around: &Openings) -> Plain
    ensures { result ≡ record {
      at = spot.entry.at;
      before = spot.entry.before;
      is_after_line_end = spot.entry.is_after_line_end;
      in_element = is_element (innermost around.now);
      asked = asked;
      kind = Space;
      start = spot.entry.at;
      end = spot.entry.at;
    } }
{
    Plain {
        at: spot.at,
        before: spot.before,
        is_after_line_end: spot.is_after_line_end,
        in_element: is_element(around.innermost()),
        asked,
        kind: PieceKind::Space,
        start: spot.at,
        end: spot.at,
    }
}

/// Returns where plain pieces from a spot on have led, and has the last token be known to the comments after.
#[inline(always)]
fn leave<'a>(
    text: &[u8],
    plain: Plain,
    spot: Spot<'a>,
    seen: Seen<'a>,
    filing: &mut Filing,
) -> Reached<'a>
    ensures place { (around : List Opening) →
        place_of result.spot around ≡ place_at plain around spot.entry.choices.now }
    ensures watch { (parentheses : List Duty)
        → (is_token plain.kind ≡ false → duty_of plain.asked ≡ seen.entry.duty) → watch_of result.seen parentheses
        ≡ watch_at text.now plain parentheses (watch_of seen.entry parentheses) }
    ensures filing { filing.new ≡ so_far_at plain filing.old }
{
    let reached = Spot {
        at: plain.at,
        before: plain.before,
        is_after_line_end: plain.is_after_line_end,
        choices: spot.choices,
    };
    if !is_token(plain.kind) {
        return Reached {
            spot: reached,
            seen,
        };
    }
    filing.set_token(Piece {
        kind: plain.kind,
        start: plain.start,
        end: plain.end,
    });
    let last = last_of(
        byte_at(text, plain.start.saturating_sub(1)),
        byte_at(text, plain.start),
    );
    Reached {
        spot: reached,
        seen: Seen {
            duty: duty_of(plain.asked),
            last,
            is_decorated: seen.is_decorated,
            claims: seen.claims,
            marks: seen.marks,
        },
    }
}

/// Returns the choice for an offset, if the first of some choices is for the offset.
#[inline(always)]
pub fn chosen(at: usize, choices: &[Choice]) -> Option<ChoiceKind>
    ensures { result ≡ chosen at choices.now }
{
    match choices {
        [first, ..] if first.offset == at => Some(first.kind),
        _ => None,
    }
}

/// Returns whether a piece of this kind is a token.
fn is_token(kind: PieceKind) -> bool
    ensures { result ≡ is_token kind }
{
    match kind {
        PieceKind::Space
        | PieceKind::LineComment
        | PieceKind::BlockComment
        | PieceKind::HtmlComment => false,
        _ => true,
    }
}

/// Returns an offset up to which no choice, no claim and no mark begins, in a text of this length.
fn quiet_end(length: usize, choices: &[Choice], claims: &[Piece], marks: &[Mark]) -> usize
    ensures within { result ≤ length }
    ensures unmet { (at : ℕ) → at < result → IsUnmet at choices.now claims.now marks.now }
{
    let choices_end = match choices {
        [first, ..] => first.offset.min(length),
        [] => length,
    };
    choices_end
        .min(first_start(claims, length))
        .min(first_mark(marks, length))
}

/// Returns the offset of the first of some pieces, or this length if there is none.
fn first_start(pieces: &[Piece], length: usize) -> usize
    ensures { (piece : Piece) → piece.start < result → is_claimed piece pieces.now ≡ false }
{
    match pieces {
        [first, ..] => first.start,
        [] => length,
    }
}

/// Returns the offset of the first of some marks, or this length if there is none.
fn first_mark(marks: &[Mark], length: usize) -> usize
    ensures { (piece : Piece) → piece.start < result → form_of piece marks.now ≡ None }
{
    match marks {
        [first, ..] => first.start,
        [] => length,
    }
}

/// Returns what a duty asks, `None` if that is more.
fn asked_by(duty: Duty) -> Option<Asked>
    ensures { IfSome result (λ asked. duty_of asked ≡ duty) }
{
    match duty {
        Duty::Nothing => Some(Asked::Nothing),
        Duty::Claimed => Some(Asked::Claimed),
        Duty::NoCall => Some(Asked::NoCall),
        Duty::TypeOf => Some(Asked::TypeOf),
        _ => None,
    }
}

/// Returns the duty that asks this.
fn duty_of(asked: Asked) -> Duty
    ensures { result ≡ duty_of asked }
{
    match asked {
        Asked::Nothing => Duty::Nothing,
        Asked::Claimed => Duty::Claimed,
        Asked::NoCall => Duty::NoCall,
        Asked::TypeOf => Duty::TypeOf,
    }
}
