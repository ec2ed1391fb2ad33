//! One plain piece.

ghost use Rattle.std.specs.Prelude.{
  ◌≡◌,
  ◌-◌,
  ◌<◌,
  ◌||◌,
  ◌⊎◌,
  ◌+◌,
  Bool,
  IfOk,
  IfSome,
  IsTrue,
  List,
  MatchOption,
  None,
  Option,
  ℕ,
  false,
  if◌then◌else◌,
  length,
  nat_le,
  slice_index,
  true,
};
ghost use Rattle.modinfo_imports.specs.Keywords.{keyword_of};
ghost use Rattle.modinfo_imports.specs.Watches.{duty_after_word, is_name};
ghost use Rattle.modinfo_imports.specs.declared.claims.Form.{Form};
ghost use Rattle.modinfo_imports.specs.declared.duty.Duty.{Duty};
ghost use Rattle.modinfo_imports.specs.declared.duty.Duty.TheVariants.{Nothing};
ghost use Rattle.modinfo_imports.specs.declared.keyword.Keyword.TheVariants.{Other};
ghost use Rattle.modinfo_imports.specs.internal.Plains.{
  IsByteAt,
  IsPlainTurn,
  after_gap,
  after_token,
  duty_of,
  is_code,
  is_ordinary,
  is_plain_byte,
  plain_context,
};
ghost use Rattle.modinfo_pieces.specs.Befores.{before_after_punctuation};
ghost use Rattle.modinfo_pieces.specs.Openings.{innermost, is_brace, is_element, is_parenthesis};
ghost use Rattle.modinfo_pieces.specs.Spaces.{has_line_end, is_ascii_space, space_step};
ghost use Rattle.modinfo_pieces.specs.Steps.{Ends};
ghost use Rattle.modinfo_pieces.specs.Words.{is_word_byte};
ghost use Rattle.modinfo_pieces.specs.declared.place.Opening.{Opening};

use crate::duty::{Duty, Parentheses};
use crate::keyword::{Keyword, keyword_of};
use crate::plain::{Asked, Plain};
use crate::plain_element::is_element;
use crate::plain_tag::{after_attribute, after_slash, end_tag};
use crate::watch::{is_brace, is_member};
use modinfo_pieces::befores::{
    before_after_bang, before_after_dot, before_after_gap, before_after_minus,
    before_after_parenthesis, before_after_plus,
};
use modinfo_pieces::bytes::byte_at;
use modinfo_pieces::classes::{is_ascii_space, is_word_byte};
use modinfo_pieces::openings::opening_of_parenthesis;
use modinfo_pieces::piece::PieceKind;
use modinfo_pieces::place::{Before, Opening, Openings};
use modinfo_pieces::scan::literals::string_end;
use modinfo_pieces::scan::spaces::{has_line_end, space_end};
use modinfo_pieces::scan::words::word_end;
use modinfo_pieces::word_classes::class_after;
use std::alloc::AllocError;

/// Returns the place after the plain piece at a place outside of an element's text, if there is one.
#[inline(always)]
pub fn next_in_code(
    text: &[u8],
    plain: Plain,
    around: &mut Openings,
    parentheses: &mut Parentheses,
) -> Result<Option<Plain>, AllocError>
    ensures { IfOk result (λ next.
        MatchOption next ((around.new ≡ around.old) × (parentheses.new ≡ parentheses.old)) (λ next.
        IsPlainTurn text.now plain next around.old around.new parentheses.old parentheses.new)) }
{
    if plain.at >= text.len() {
        return Ok(None);
    }
    let byte = text[plain.at];
    if is_word_byte(byte) {
        return Ok(after_word(text, plain, around));
    }
    if is_ascii_space(byte) {
        return Ok(after_space(text, plain));
    }
    after_punctuation(text, plain, byte, plain.at + 1, around, parentheses)
}

/// Returns the place after the string or the byte of punctuation at a place, if that is plain.
#[inline(always)]
fn after_punctuation(
    text: &[u8],
    plain: Plain,
    byte: u8,
    end: usize,
    around: &mut Openings,
    parentheses: &mut Parentheses,
) -> Result<Option<Plain>, AllocError>
    ensures { IsByteAt text.now plain byte end → IfOk result (λ next.
        MatchOption next ((around.new ≡ around.old) × (parentheses.new ≡ parentheses.old)) (λ next.
        IsPlainTurn text.now plain next around.old around.new parentheses.old parentheses.new)) }
{
    let before = plain.before;
    let is_after_line_end = plain.is_after_line_end;
    match byte {
        b',' | b';' | b'?' | b'&' | b'|' | b'^' | b'~' | b'[' => {
            Ok(Some(after_byte(plain, end, Before::Free)))
        }
        b':' | b'%' => Ok(Some(after_byte(plain, end, Before::Free))),
        b']' => Ok(Some(after_byte(plain, end, Before::Value))),
        b'=' => Ok(Some(after_byte(plain, end, Before::Equal))),
        b'.' => Ok(Some(after_byte(plain, end, before_after_dot(before)))),
        b'+' => Ok(Some(after_byte(plain, end, before_after_plus(before, is_after_line_end)))),
        b'-' => Ok(Some(after_byte(plain, end, before_after_minus(before, is_after_line_end)))),
        b'!' => Ok(Some(after_byte(plain, end, before_after_bang(before, is_after_line_end)))),
        b'(' => Ok(Some(open_parenthesis(plain, end, around, parentheses)?)),
        b')' => Ok(close_parenthesis(plain, end, around, parentheses)),
        b'{' => Ok(Some(open_brace(plain, end, around)?)),
        b'}' => Ok(close_brace(plain, end, around)),
        b'"' | b'\'' => Ok(after_string(text, plain, byte, around)),
        b'<' | b'>' => Ok(after_angle(plain, byte, end, around)?),
        b'/' => Ok(after_slash(text, plain, end, around)?),
        _ => Ok(None),
    }
}

/// Returns the place after a token that asks for this duty.
#[inline(always)]
pub fn after_token(
    plain: Plain,
    kind: PieceKind,
    end: usize,
    before: Before,
    asked: Asked,
    in_element: bool,
) -> Plain
    ensures { result ≡ after_token plain kind end before asked in_element }
{
    Plain {
        at: end,
        before,
        is_after_line_end: false,
        in_element,
        asked,
        kind,
        start: plain.at,
        end,
    }
}

/// Returns the place after the word at a place, unless a dependency may begin with the word.
#[inline(always)]
fn after_word(text: &[u8], plain: Plain, around: &Openings) -> Option<Plain>
    ensures { is_word_byte (slice_index text.now plain.at) ≡ true → (parentheses : List Duty)
        → IfSome result (λ next.
        IsPlainTurn text.now plain next around.now around.now parentheses parentheses) }
{
    let end = word_end(text, plain.at);
    if end <= plain.at || end > text.len() {
        return None;
    }
    let word = &text[plain.at..end];
    if is_ordinary(word) {
        return Some(after_token(
            plain,
            PieceKind::Word,
            end,
            Before::Value,
            Asked::Nothing,
            false,
        ));
    }
    let asked = asked_after(text, plain, word, around)?;
    let before = class_after(plain.before, word);
    Some(after_token(plain, PieceKind::Word, end, before, asked, false))
}

/// Returns whether a word ends an expression and asks nothing, by the word's length and first byte.
#[inline(always)]
#[tactic(auto, unfolding(crate::specs::internal::Plains::is_ordinary))]
fn is_ordinary(word: &[u8]) -> bool
    ensures { result ≡ is_ordinary word.now }
{
    let first = byte_at(word, 0);
    if first == b'r' || first == b'\\' {
        return false;
    }
    match word.len() {
        2 => !matches!(first, b'd' | b'i' | b'o'),
        3 => !matches!(first, b'f' | b'n'),
        4 => !matches!(first, b'c' | b'e' | b'v' | b'w'),
        5 => !matches!(first, b'a' | b't' | b'w' | b'y'),
        6 => !matches!(first, b'd' | b'e' | b'i' | b'm' | b't'),
        7 => !matches!(first, b'd' | b'e'),
        8 => first != b'f',
        10 => first != b'i',
        _ => true,
    }
}

/// Returns what a word asks of the next token, `None` if a dependency may begin with the word.
#[inline(always)]
fn asked_after(text: &[u8], plain: Plain, word: &[u8], around: &Openings) -> Option<Asked>
    ensures { (last : ℕ) (form : Option Form) (begins_item in_braces may_be_method : Bool) (before : Duty)
        → IfSome result (λ asked. duty_after_word
        (if is_name (plain_context plain around.now) (slice_index text.now (plain.at - 1)) last then Other
        else keyword_of word.now) false form begins_item in_braces may_be_method before Nothing ≡ duty_of asked) }
{
    match keyword_of(word) {
        Keyword::Other => Some(Asked::Nothing),
        Keyword::New if !may_be_name(text, plain, around.innermost()) => Some(Asked::NoCall),
        Keyword::TypeOf if !may_be_name(text, plain, around.innermost()) => Some(Asked::TypeOf),
        _ => None,
    }
}

/// Returns whether a word may be a name by what is before the word.
#[inline(always)]
#[tactic(auto, unfolding(crate::specs::Watches::is_name))]
fn may_be_name(text: &[u8], plain: Plain, inside: Opening) -> bool
    ensures { result ≡ false → (last : ℕ)
        → is_name (record {
          inside = inside;
          before = plain.before;
          is_after_line_end = plain.is_after_line_end;
          chosen = None;
        }) (slice_index text.now (plain.at - 1)) last ≡ false }
{
    match byte_at(text, plain.at.saturating_sub(1)) {
        b'#' | b'/' => true,
        _ => is_member(plain.before, inside),
    }
}

/// Returns the place after the white space at a place.
#[inline(always)]
fn after_space(text: &[u8], plain: Plain) -> Option<Plain>
    ensures { is_ascii_space (slice_index text.now plain.at) ≡ true → slice_index text.now plain.at < 256
        → (around : List Opening) (parentheses : List Duty)
        → IfSome result (λ next. IsPlainTurn text.now plain next around around parentheses parentheses) }
{
    if is_one_space(text, plain.at) {
        return Some(after_gap(plain, plain.at + 1, plain.is_after_line_end));
    }
    let end = space_end(text, plain.at);
    if end <= plain.at || end > text.len() {
        return None;
    }
    let is_after_line_end = line_end_after(text, plain.at, end, plain.is_after_line_end);
    Some(after_gap(plain, end, is_after_line_end))
}

/// Returns the place after white space.
#[inline(always)]
fn after_gap(plain: Plain, end: usize, is_after_line_end: bool) -> Plain
    ensures { result ≡ after_gap plain end is_after_line_end }
{
    Plain {
        at: end,
        before: before_after_gap(plain.before),
        is_after_line_end,
        in_element: plain.in_element,
        asked: plain.asked,
        kind: plain.kind,
        start: plain.start,
        end: plain.end,
    }
}

/// Returns whether white space at an offset is one space, by the byte after the space.
#[inline(always)]
fn is_one_space(text: &[u8], at: usize) -> bool
    ensures within { IsTrue result → at < length text.now }
    ensures ends { IsTrue result → Ends (space_step text.now) at (at + 1) }
    ensures line { IsTrue result → has_line_end text.now at 1 ≡ false }
{
    if at >= text.len() {
        return false;
    }
    text[at] == b' ' && is_solid(byte_at(text, at + 1))
}

/// Returns whether an ASCII byte is no white space.
#[inline(always)]
fn is_solid(byte: u8) -> bool
    ensures space { IsTrue result → is_ascii_space byte ≡ false }
    ensures narrow { IsTrue result → nat_le 128 byte ≡ false }
{
    matches!(byte, 33..=127)
}

/// Returns whether a line has ended since the last token, after white space.
#[inline(always)]
pub fn line_end_after(text: &[u8], from: usize, end: usize, is_after_line_end: bool) -> bool
    ensures { result ≡ (is_after_line_end || has_line_end text.now from (end - from)) }
{
    is_after_line_end || has_line_end(text, from, end)
}

/// Returns the place after the string at a place.
#[inline(always)]
fn after_string(text: &[u8], plain: Plain, quote: u8, around: &Openings) -> Option<Plain>
    ensures { slice_index text.now plain.at ≡ quote → (quote ≡ 34) ⊎ (quote ≡ 39)
        → (parentheses : List Duty)
        → IfSome result (λ next.
        IsPlainTurn text.now plain next around.now around.now parentheses parentheses) }
{
    if plain.at >= text.len() {
        return None;
    }
    let inside = around.innermost();
    if !is_code(inside) {
        return after_attribute(text, plain, quote, inside);
    }
    let end = string_end(text, plain.at + 1, quote)?;
    if end <= plain.at || end > text.len() {
        return None;
    }
    Some(after_token(
        plain,
        PieceKind::String,
        end,
        Before::Value,
        Asked::Nothing,
        false,
    ))
}

/// Returns the place after a byte of punctuation that changes no opening, and is this for what follows.
#[inline(always)]
fn after_byte(plain: Plain, end: usize, before: Before) -> Plain
    ensures { (text : List ℕ) (byte : ℕ) (around : List Opening) (parentheses : List Duty)
        → IsByteAt text plain byte end → byte < 256 → is_plain_byte byte ≡ true
        → before ≡ before_after_punctuation byte (plain_context plain around)
        → IsPlainTurn text plain result around around parentheses parentheses }
{
    after_token(
        plain,
        PieceKind::Punctuation,
        end,
        before,
        Asked::Nothing,
        false,
    )
}

/// Returns the place after a `<` or a `>` outside of tags, or after a `>` that ends a tag.
#[inline(always)]
fn after_angle(
    plain: Plain,
    byte: u8,
    end: usize,
    around: &mut Openings,
) -> Result<Option<Plain>, AllocError>
    ensures { (text : List ℕ) (parentheses : List Duty) → IsByteAt text plain byte end
        → (byte ≡ 60) ⊎ (byte ≡ 62) → IfOk result (λ next. MatchOption next (around.new ≡ around.old) (λ next.
        IsPlainTurn text plain next around.old around.new parentheses parentheses)) }
{
    if is_code(around.innermost()) {
        return Ok(Some(after_token(
            plain,
            PieceKind::Punctuation,
            end,
            Before::Free,
            Asked::Nothing,
            false,
        )));
    }
    if byte == b'>' {
        return end_tag(plain, end, around);
    }
    Ok(None)
}

/// Returns the place after a `(`.
#[inline(always)]
fn open_parenthesis(
    plain: Plain,
    end: usize,
    around: &mut Openings,
    parentheses: &mut Parentheses,
) -> Result<Plain, AllocError>
    ensures { (text : List ℕ) → IsByteAt text plain 40 end → IfOk result (λ next.
        IsPlainTurn text plain next around.old around.new parentheses.old parentheses.new) }
{
    around.push(opening_of_parenthesis(plain.before))?;
    parentheses.push(Duty::Nothing)?;
    Ok(after_token(
        plain,
        PieceKind::Punctuation,
        end,
        Before::Free,
        Asked::Nothing,
        false,
    ))
}

/// Returns the place after a `)`, unless it is that of a method's parameters.
#[inline(always)]
fn close_parenthesis(
    plain: Plain,
    end: usize,
    around: &mut Openings,
    parentheses: &mut Parentheses,
) -> Option<Plain>
    ensures { (text : List ℕ) → IsByteAt text plain 41 end
        → MatchOption result ((around.new ≡ around.old) × (parentheses.new ≡ parentheses.old)) (λ next.
        IsPlainTurn text plain next around.old around.new parentheses.old parentheses.new) }
{
    let inside = around.innermost();
    if parentheses.is_method() {
        return None;
    }
    if !is_parenthesis(inside) {
        return None;
    }
    let _opening = around.pop();
    let _asked = parentheses.pop();
    Some(after_token(
        plain,
        PieceKind::Punctuation,
        end,
        before_after_parenthesis(inside),
        Asked::Nothing,
        is_element(around.innermost()),
    ))
}

/// Returns the place after a `{`.
#[inline(always)]
fn open_brace(plain: Plain, end: usize, around: &mut Openings) -> Result<Plain, AllocError>
    ensures { (text : List ℕ) (parentheses : List Duty) → IsByteAt text plain 123 end → IfOk result (λ next.
        IsPlainTurn text plain next around.old around.new parentheses parentheses) }
{
    around.push(Opening::Brace)?;
    Ok(after_token(
        plain,
        PieceKind::Punctuation,
        end,
        Before::Free,
        Asked::Nothing,
        false,
    ))
}

/// Returns the place after a `}` that closes a brace.
#[inline(always)]
fn close_brace(plain: Plain, end: usize, around: &mut Openings) -> Option<Plain>
    ensures { (text : List ℕ) (parentheses : List Duty) → IsByteAt text plain 125 end
        → MatchOption result (around.new ≡ around.old) (λ next.
        IsPlainTurn text plain next around.old around.new parentheses parentheses) }
{
    if !is_brace(around.innermost()) {
        return None;
    }
    let _opening = around.pop();
    Some(after_token(
        plain,
        PieceKind::Punctuation,
        end,
        Before::Free,
        Asked::Nothing,
        is_element(around.innermost()),
    ))
}

fn is_parenthesis(inside: Opening) -> bool
    ensures { result ≡ is_parenthesis inside }
{
    match inside {
        Opening::Parenthesis | Opening::HeadParenthesis => true,
        _ => false,
    }
}

/// Returns whether code is directly in an opening, and no tag.
#[inline(always)]
fn is_code(inside: Opening) -> bool
    ensures { result ≡ is_code inside }
{
    match inside {
        Opening::Program
        | Opening::Parenthesis
        | Opening::HeadParenthesis
        | Opening::Brace
        | Opening::Substitution => true,
        _ => false,
    }
}
