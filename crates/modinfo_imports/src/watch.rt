//! A watch over the tokens of a text, so that no word that a dependency begins with is lost.

ghost use Rattle.std.specs.Prelude.{List, [], ◌≡◌, ◌<◌, ◌≤◌, ◌&&◌, IfOk, IfSome, OnOk, codes, length, IsTrue, slice_index, ◌-◌};
ghost use Rattle.modinfo_imports.specs.Claims.{form_of};
ghost use Rattle.modinfo_imports.specs.Duties.{is_byte, met_by, met_duty, sight_of};
ghost use Rattle.modinfo_pieces.specs.Openings.{is_brace};
ghost use Rattle.modinfo_imports.specs.Sights.{watch_of};
ghost use Rattle.modinfo_imports.specs.Watches.{
  IsWatchEnd,
  duty_after,
  begins_item,
  duty_after_word,
  is_decorated_after,
  is_flags,
  is_gap,
  is_listed,
  is_member,
  is_method,
  is_name,
  is_of_types,
  is_value,
  keyword_at,
  last_of,
  may_be_method,
  may_end_member,
  parentheses_after,
  phase_of,
  watch_after,
  watch_start,
};

use crate::claims::{Form, Mark, claims_after, form_of, is_claimed, marks_after};
use crate::duty::{Duty, Parentheses, Phase, Sight, met_by, met_duty, sight_of};
use crate::keyword::{Keyword, keyword_of};
use modinfo_pieces::befores::bytes_of;
use modinfo_pieces::bytes::byte_at;
use modinfo_pieces::classes::is_word_byte;
use modinfo_pieces::piece::{Piece, PieceKind};
use modinfo_pieces::place::{Before, Context, Opening};
use std::alloc::AllocError;

/// What is known of the tokens before a place, but for the parentheses.
#[derive(Clone, Copy)]
pub struct Seen<'a> {
    /// What the next token must be.
    pub duty: Duty,
    /// The first byte of the last token, `=` for the second byte of `=>`.
    pub last: u8,
    /// Whether an export began with a decorator.
    pub is_decorated: bool,
    /// The claims that weren't met yet.
    pub claims: &'a [Piece],
    /// The marks that weren't met yet.
    pub marks: &'a [Mark],
}

/// Returns the watch at the start of a text.
pub fn watch_start<'a>(claims: &'a [Piece], marks: &'a [Mark]) -> Seen<'a>
    ensures { watch_of result [] ≡ watch_start claims.now marks.now }
{
    Seen {
        duty: Duty::Nothing,
        last: 0,
        is_decorated: false,
        claims,
        marks,
    }
}

/// Returns the watch after a piece, and changes the parentheses; or `None` if the piece isn't what it must be.
#[inline(always)]
pub fn watch_piece<'a>(
    text: &[u8],
    is_typed: bool,
    context: Context,
    piece: Piece,
    seen: Seen<'a>,
    parentheses: &mut Parentheses,
) -> Result<Option<Seen<'a>>, AllocError>
    ensures { piece.start < piece.end → piece.end ≤ length text.now
        → IfOk result (λ after. IfSome after (λ after.
        watch_after text.now is_typed context piece (watch_of seen.entry parentheses.old)
        ≡ Some (watch_of after parentheses.new))) }
{
    if is_gap(piece.kind) {
        return Ok(Some(seen));
    }
    let Some(met) = met_at(text, is_typed, context, piece, seen) else {
        return Ok(None);
    };
    let after = Seen {
        duty: duty_after(text, is_typed, context, piece, seen, parentheses, met),
        last: last_of(
            byte_at(text, piece.start.saturating_sub(1)),
            byte_at(text, piece.start),
        ),
        is_decorated: is_decorated_after(piece, seen),
        claims: claims_after(piece, seen.claims),
        marks: marks_after(piece, seen.marks),
    };
    change(text, piece, met, parentheses)?;
    Ok(Some(after))
}

/// Returns what the next token must be after a token that meets a duty, or `None` if the token doesn't.
#[inline(always)]
#[tactic(auto, unfolding(crate::specs::Duties::met_by, crate::specs::Duties::met_duty))]
fn met_at(
    text: &[u8],
    is_typed: bool,
    context: Context,
    piece: Piece,
    seen: Seen<'_>,
) -> Option<Duty>
    ensures { piece.start < piece.end → piece.end ≤ length text.now
        → result ≡ met_duty (form_of piece seen.entry.marks.now) piece.start seen.entry.duty
        (sight_of text.now piece piece.kind) context.is_after_line_end is_typed }
{
    let form = form_of(piece, seen.marks);
    match (seen.duty, form) {
        // Nearly every token has none.
        (Duty::Nothing | Duty::Claimed, None) => Some(Duty::Nothing),
        _ => met_duty(
            form,
            piece.start,
            seen.duty,
            sight_of(text, piece),
            context.is_after_line_end,
            is_typed,
        ),
    }
}

/// Returns whether an export began with a decorator, after a token.
#[inline(always)]
fn is_decorated_after(piece: Piece, seen: Seen<'_>) -> bool
    ensures { (parentheses : List Duty)
        → result ≡ is_decorated_after piece piece.kind (watch_of seen.entry parentheses) }
{
    match piece.kind {
        PieceKind::Punctuation if is_claimed(piece, seen.claims) => true,
        _ => seen.is_decorated,
    }
}

/// Returns whether a piece is no token.
#[inline(always)]
pub(crate) fn is_gap(kind: PieceKind) -> bool
    ensures { result ≡ is_gap kind }
{
    match kind {
        PieceKind::Space
        | PieceKind::LineComment
        | PieceKind::BlockComment
        | PieceKind::HtmlComment
        | PieceKind::Hashbang => true,
        _ => false,
    }
}

/// Returns what the next token must be.
#[inline(always)]
#[tactic(auto, unfolding(crate::specs::Watches::duty_after, crate::specs::Duties::sight_of))]
fn duty_after(
    text: &[u8],
    is_typed: bool,
    context: Context,
    piece: Piece,
    seen: Seen<'_>,
    parentheses: &Parentheses,
    met: Duty,
) -> Duty
    ensures { piece.start < piece.end → piece.end ≤ length text.now
        → result ≡ duty_after text.now is_typed context piece piece.kind (watch_of seen.entry parentheses.now)
        (sight_of text.now piece piece.kind) met }
{
    match piece.kind {
        PieceKind::Word => {
            if is_listed(met) {
                met
            } else {
                duty_after_word(
                    keyword_at(text, context, piece, seen.last),
                    is_claimed(piece, seen.claims),
                    form_of(piece, seen.marks),
                    begins_item(context.inside, seen.is_decorated, seen.last),
                    is_brace(context.inside),
                    may_be_method(is_typed, context, seen.last),
                    seen.duty,
                    met,
                )
            }
        }
        PieceKind::Punctuation => {
            if byte_at(text, piece.start) == b')' && parentheses.is_method() {
                Duty::Parameters
            } else {
                met
            }
        }
        _ => met,
    }
}

/// Returns what a word is that isn't a name.
#[inline(always)]
fn keyword_at(text: &[u8], context: Context, piece: Piece, last: u8) -> Keyword
    ensures { piece.start < piece.end → piece.end ≤ length text.now
        → result ≡ keyword_at text.now context piece last }
{
    if is_name(context, byte_at(text, piece.start.saturating_sub(1)), last) {
        Keyword::Other
    } else {
        keyword_of(bytes_of(text, piece))
    }
}

/// Returns what the next token must be after a word.
#[inline(always)]
#[tactic(auto, unfolding(crate::specs::Watches::duty_after_word))]
fn duty_after_word(
    keyword: Keyword,
    is_claimed: bool,
    form: Option<Form>,
    begins_item: bool,
    in_braces: bool,
    may_be_method: bool,
    before: Duty,
    met: Duty,
) -> Duty
    ensures { result ≡ duty_after_word keyword is_claimed form begins_item in_braces may_be_method before met }
{
    match keyword {
        Keyword::Other => { if is_claimed { Duty::Claimed } else { met } }
        Keyword::Import => match before {
            _ if is_claimed => Duty::Start {
                phase: phase_of(form),
            },
            Duty::Claimed => Duty::Names {
                is_before_specifier: true,
                is_named: false,
            },
            Duty::Export {
                is_claimed: true,
                ..
            } => Duty::Names {
                is_before_specifier: true,
                is_named: false,
            },
            _ => Duty::Import {
                in_braces,
                may_be_method: in_braces && may_be_method,
            },
        },
        Keyword::Require => match (form, before) {
            (Some(Form::Call), _) => met,
            (_, Duty::NoCall) => met,
            _ => Duty::Require {
                may_be_method: in_braces && may_be_method,
            },
        },
        Keyword::Export => match before {
            Duty::TypeOf => met,
            _ if begins_item && !is_claimed => Duty::ExportAlone,
            _ => Duty::Export {
                may_be_member: in_braces && !is_claimed,
                is_claimed,
                is_of_types: is_of_types(form),
            },
        },
        Keyword::TypeOf => Duty::TypeOf,
        Keyword::Module => Duty::Module,
        Keyword::New => Duty::NoCall,
    }
}

/// Returns whether an item begins at an `export`.
#[inline(always)]
fn begins_item(inside: Opening, is_decorated: bool, last: u8) -> bool
    ensures { result ≡ begins_item inside is_decorated last }
{
    match inside {
        Opening::Program => !(is_decorated || matches!(last, b'[' | b',')),
        _ => false,
    }
}

/// Returns what the tree says of an import by its first word.
fn phase_of(form: Option<Form>) -> Phase
    ensures { result ≡ phase_of form }
{
    match form {
        Some(Form::Types) => Phase::Types,
        Some(Form::Source) => Phase::Source,
        Some(Form::Defer) => Phase::Defer,
        _ => Phase::Plain,
    }
}

/// Returns whether a declaration is of types alone by what the tree says of its first word.
fn is_of_types(form: Option<Form>) -> bool
    ensures { result ≡ is_of_types form }
{
    match form {
        Some(Form::Types) => true,
        _ => false,
    }
}

/// Returns whether a word is a name by what is before the word.
#[inline(always)]
#[tactic(auto, unfolding(crate::specs::Watches::is_name))]
fn is_name(context: Context, previous: u8, last: u8) -> bool
    ensures { result ≡ is_name context previous last }
{
    is_member(context.before, context.inside)
        || previous == b'#'
        || is_flags(context, previous, last)
}

/// Returns whether a word is in the place of the flags of a regular expression.
fn is_flags(context: Context, previous: u8, last: u8) -> bool
    ensures { result ≡ is_flags context previous last }
{
    previous == b'/' && last == b'/' && is_value(context.before) && !context.is_after_line_end
}

/// Returns whether a token is a name in the list of an import or an export.
fn is_listed(duty: Duty) -> bool
    ensures { result ≡ is_listed duty }
{
    match duty {
        Duty::AsName
        | Duty::ExportNames
        | Duty::ExportEnd
        | Duty::Names { .. }
        | Duty::Name
        | Duty::Alias
        | Duty::Colon { .. } => true,
        _ => false,
    }
}

/// Returns whether a word is the name of a member or a name in a tag.
#[inline(always)]
pub fn is_member(before: Before, inside: Opening) -> bool
    ensures { result ≡ is_member before inside }
{
    match (before, inside) {
        (Before::Dot | Before::DotDot, _) => true,
        (_, Opening::Tag | Opening::ClosingTag) => true,
        _ => false,
    }
}

/// Returns whether an opening is a brace.
#[inline(always)]
pub fn is_brace(inside: Opening) -> bool
    ensures { result ≡ is_brace inside }
{
    match inside {
        Opening::Brace => true,
        _ => false,
    }
}

/// Returns whether a method may be named after a token.
#[inline(always)]
fn may_be_method(is_typed: bool, context: Context, last: u8) -> bool
    ensures { result ≡ may_be_method is_typed context last }
{
    is_value(context.before)
        || matches!(last, b'{' | b'}' | b';' | b',' | b'*' | b'>' | b'@')
        || context.is_after_line_end && may_end_member(is_typed, last)
}

/// Returns whether a member may have ended with a token on another line.
fn may_end_member(is_typed: bool, last: u8) -> bool
    ensures { result ≡ may_end_member is_typed last }
{
    is_word_byte(last) || last == b')' || is_typed && matches!(last, b'?' | b'!')
}

fn is_value(before: Before) -> bool
    ensures { result ≡ is_value before }
{
    match before {
        Before::Value => true,
        _ => false,
    }
}

/// Changes the parentheses by a token.
#[inline(always)]
#[tactic(auto, unfolding(crate::specs::Duties::sight_of))]
fn change(
    text: &[u8],
    piece: Piece,
    met: Duty,
    parentheses: &mut Parentheses,
) -> Result<(), AllocError>
    ensures { OnOk result (parentheses.new
        ≡ parentheses_after (sight_of text.now piece piece.kind) met parentheses.old) }
{
    match piece.kind {
        PieceKind::Punctuation => match byte_at(text, piece.start) {
            b'(' => parentheses.push(met)?,
            b')' => {
                let _parenthesis = parentheses.pop();
            }
            _ => (),
        },
        _ => (),
    }
    Ok(())
}

/// Returns the byte by which the next token knows the last one.
pub fn last_of(previous: u8, byte: u8) -> u8
    ensures { result ≡ last_of previous byte }
{
    if byte == b'>' && previous == b'=' {
        b'='
    } else if previous == b'@' {
        b'@'
    } else {
        byte
    }
}

/// Returns whether nothing is asked of what follows, and each claim is met.
pub fn is_watch_end(seen: Seen<'_>, parentheses: &Parentheses) -> bool
    ensures { IsTrue result → IsWatchEnd (watch_of seen.entry parentheses.now) }
{
    seen.claims.is_empty()
        && seen.marks.is_empty()
        && met_by(seen.duty, Sight::Other, false, false).is_some()
}
