//! Marks each byte of a text: in a token, between tokens, or in a line terminator.

ghost use Rattle.std.specs.Prelude.{◌≡◌, ◌++◌, ◌||◌, ℕ, IfOk, OnOk, false, replicate, slice_index_or, true};
ghost use Rattle.std.specs.Char.{len_utf8};
ghost use Rattle.std.specs.List.{list_any};
ghost use Rattle.modinfo_estree.specs.Tokens.{breaks, bytes_of, gaps, has_byte, has_line_break};
ghost use Rattle.modinfo_estree.specs.Tokens.{is_line_break, is_space};
ghost use Rattle.modinfo_estree.specs.internal.Marks.{AreMarked, breaks_of, gaps_of, is_break, is_gap};

use deno_graph_base::text::SourceRange;
use std::alloc::{AllocError, Global};

/// The mark of a byte of a text.
#[derive(Clone, Copy)]
pub enum Mark {
    /// A byte of a token.
    Token,
    /// A byte between tokens, of no line terminator.
    Gap,
    /// A byte of a line terminator.
    Break,
}

impl Mark {
    /// Returns whether the byte is between tokens.
    fn is_gap(self) -> bool
        ensures { result ≡ is_gap self }
    {
        match self {
            Mark::Token => false,
            Mark::Gap | Mark::Break => true,
        }
    }

    /// Returns whether the byte is of a line terminator.
    fn is_break(self) -> bool
        ensures { result ≡ is_break self }
    {
        match self {
            Mark::Token | Mark::Gap => false,
            Mark::Break => true,
        }
    }

    /// Returns the mark of the byte in a comment.
    fn in_comment(self) -> Mark
        ensures gap { is_gap result ≡ true }
        ensures line { is_break result ≡ is_break self }
    {
        match self {
            Mark::Token | Mark::Gap => Mark::Gap,
            Mark::Break => Mark::Break,
        }
    }
}

/// Returns whether the byte at an offset is between tokens, `false` after the last byte.
pub fn is_gap_at(marks: &[Mark], at: usize) -> bool
    ensures { result ≡ slice_index_or (gaps_of marks.now) at false }
{
    match marks.get(at) {
        Some(mark) => mark.is_gap(),
        None => false,
    }
}

/// Returns whether the byte at an offset is of a line terminator, `false` after the last byte.
pub fn is_break_at(marks: &[Mark], at: usize) -> bool
    ensures { result ≡ slice_index_or (breaks_of marks.now) at false }
{
    match marks.get(at) {
        Some(mark) => mark.is_break(),
        None => false,
    }
}

/// Returns the mark of each byte of a text with these comments. Parts of comments outside of the text
/// count for nothing. Fails only if an allocation fails.
pub fn marks_in(
    alloc: Global,
    text: &str,
    comments: &[SourceRange],
) -> Result<Vec<Mark>, AllocError>
    ensures gaps { IfOk result (λ marks. gaps_of marks.items ≡ gaps text.now comments.now) }
    ensures breaks { IfOk result (λ marks. breaks_of marks.items ≡ breaks text.now) }
{
    let mut ranges = Vec::from_slice(alloc, comments)?;
    ranges.sort_by_key(|range| range.start)?;
    let mut marks = char_marks(alloc, text)?;
    mark_ranges(&mut marks, ranges.as_slice());
    Ok(marks)
}

/// Returns the mark of each byte of a text without comments.
fn char_marks(alloc: Global, text: &str) -> Result<Vec<Mark>, AllocError>
    ensures gaps { IfOk result (λ marks. gaps_of marks.items ≡ bytes_of is_space text.now) }
    ensures breaks { IfOk result (λ marks. breaks_of marks.items ≡ breaks text.now) }
{
    let mut marks = Vec::with_capacity(alloc, text.len())?;
    for c in text.chars() {
        push_char(&mut marks, c, mark_of(c))?;
    }
    Ok(marks)
}

/// Returns the mark of the bytes of a character that is in no comment.
fn mark_of(c: char) -> Mark
    ensures gap { is_gap result ≡ is_space c }
    ensures line { is_break result ≡ is_line_break c }
{
    if is_line_break(c) {
        Mark::Break
    } else if is_space(c) {
        Mark::Gap
    } else {
        Mark::Token
    }
}

/// Returns whether a character is white space or a line terminator.
pub fn is_space(c: char) -> bool
    ensures { result ≡ is_space c }
{
    c.is_whitespace() && c != '\u{85}' || c == '\u{FEFF}'
}

/// Returns whether a character is a line terminator.
pub fn is_line_break(c: char) -> bool
    ensures { result ≡ is_line_break c }
{
    matches!(c, '\n' | '\r' | '\u{2028}' | '\u{2029}')
}

/// Returns whether a text has a line terminator.
pub fn has_line_break(text: &str) -> bool
    ensures { result ≡ has_line_break text.now }
{
    for c in text.chars() {
        if is_line_break(c) {
            return true;
        }
    }
    false
}

/// Pushes `mark` for each byte of a character.
fn push_char(marks: &mut Vec<Mark>, c: char, mark: Mark) -> Result<(), AllocError>
    ensures { OnOk result (marks.new.items ≡ marks.old.items ++ replicate (len_utf8 c) mark) }
{
    for _ in 0..c.len_utf8() {
        marks.push(mark)?;
    }
    Ok(())
}

/// Marks the bytes of some ranges as bytes of comments. Marks no byte twice if the ranges are in the order of
/// their starts.
fn mark_ranges(marks: &mut Vec<Mark>, ranges: &[SourceRange])
    ensures { AreMarked (λ at. list_any (has_byte at) ranges.now) marks.old.items marks.new.items }
{
    let mut last = SourceRange::new(0, 0);
    for range in ranges {
        mark_range(marks, part_after(last, *range));
        if range.end > last.end {
            last = *range;
        }
    }
}

/// Returns the part of a range after the range `marked`, or the whole range if it starts before `marked`.
fn part_after(marked: SourceRange, range: SourceRange) -> SourceRange
    ensures { (at : ℕ)
        → (has_byte at marked || has_byte at result) ≡ (has_byte at marked || has_byte at range) }
{
    if range.start < marked.start {
        return range;
    }
    SourceRange::new(range.start.max(marked.end), range.end)
}

/// Marks the bytes of a range as bytes of a comment.
fn mark_range(marks: &mut Vec<Mark>, range: SourceRange)
    ensures { AreMarked (λ at. has_byte at range) marks.old.items marks.new.items }
{
    for at in range.start..range.end.min(marks.len()) {
        marks[at] = marks[at].in_comment();
    }
}
