ghost use Rattle.std.specs.Prelude.{◌≡◌, ℕ, ◌+◌, ◌^◌, ◌<◌, ◌≤◌, ◌↔◌, IfSome, IsNone, IsTrue, List, [], ◌∷◌, ◌++◌, length};
ghost use Rattle.std.specs.Str.{IsCharBoundary, chars};
ghost use Rattle.deno_graph_base.specs.Position.{HasPosition, IsAt, IsBefore, position_at, position_of};
ghost use Rattle.deno_graph_base.specs.PositionRange.{IsRangeAt};
ghost use Rattle.deno_graph_base.specs.internal.Cursor.{is_before};
ghost use Rattle.deno_graph_base.specs.declared.text.position.SourceRange.{SourceRange};

use crate::text::bytes::{characters, line_feeds};
use crate::text::cursor::Cursor;
use crate::text::source_text_info::SourceTextInfo;

/// A range of a text by the offsets of its ends, in bytes from zero. `end` is the offset of the
/// first byte after the range.
#[derive(Clone, Copy, Debug, PartialEq, Eq)]
pub struct SourceRange {
    pub start: usize,
    pub end: usize,
}

impl SourceRange {
    /// Returns the range from the offset `start` up to the offset `end`.
    pub fn new(start: usize, end: usize) -> SourceRange
        ensures { result ≡ record { start = start; end = end } }
    {
        SourceRange { start, end }
    }
}

/// A line and a character of a text, both counted from zero: the number of line feeds (U+000A)
/// before a boundary, and the number of characters (Unicode scalar values) since the last of them.
/// No other character ends a line, not even a carriage return.
#[derive(Clone, Copy, Debug, PartialEq, Eq, PartialOrd, Ord)]
pub struct Position {
    pub line: usize,
    pub character: usize,
}

impl Position {
    /// Returns the position in the line `line` after `character` characters of the line, both
    /// counted from zero.
    pub fn new(line: usize, character: usize) -> Position
        ensures { result ≡ record { line = line; character = character } }
    {
        Position { line, character }
    }

    /// Returns the position of the start of every text.
    pub fn zeroed() -> Position
        ensures line { result.line ≡ 0 }
        ensures character { result.character ≡ 0 }
    {
        Position {
            line: 0,
            character: 0,
        }
    }

    /// Returns the position of a character boundary, given as its offset in bytes. Allocates nothing,
    /// in a time that doesn't grow with the length of the line.
    pub fn from_source_pos(offset: usize, text_info: &SourceTextInfo) -> Position
        requires { IsCharBoundary text_info.now offset }
        ensures { result ≡ position_at text_info.now offset }
    {
        text_info
            .cursor_up_to(offset)
            .ahead(text_info.text(), offset)
            .position
    }

    /// Returns the offset in bytes of the character boundary with this position, or `None` if no
    /// boundary has it. Allocates nothing, in a time that doesn't grow with the length of the line.
    pub fn as_source_pos(&self, text_info: &SourceTextInfo) -> Option<usize>
        ensures some { IfSome result (IsAt text_info.now self.now) }
        ensures none { IsNone result ↔ ¬ (HasPosition text_info.now self.now) }
        ensures found { (offset : ℕ) → IsAt text_info.now self.now offset → result ≡ Some offset }
    {
        let cursor = text_info
            .cursor_up_to_position(*self)
            .first_not_before(*self, text_info.text());
        (cursor.position == *self).then_some(cursor.offset)
    }

    /// Returns whether this position comes before `other`: by line, and in one line by character.
    pub(crate) fn is_before(self, other: Position) -> bool
        ensures test { result ≡ is_before self other }
        ensures fact { IsTrue result ↔ IsBefore self other }
    {
        self < other
    }

    /// Returns the position after `text`, which is shorter than 256 bytes and begins at `self`.
    pub(crate) fn after(self, text: &str) -> Position
        requires short { length text.now < 256 }
        requires line { self.line + length text.now < 2 ^ 64 }
        requires character { self.character + length text.now < 2 ^ 64 }
        ensures { (front : List ℕ) → self ≡ position_of front
            → result ≡ position_of (front ++ chars text.now) }
    {
        let bytes = text.as_bytes();
        let feeds = line_feeds(bytes);
        if feeds.count == 0 {
            return Position {
                line: self.line,
                character: self.character + usize::from(characters(bytes)),
            };
        }
        let last_line = &bytes[usize::from(feeds.end)..];
        Position {
            line: self.line + usize::from(feeds.count),
            character: usize::from(characters(last_line)),
        }
    }

    /// Returns the position after the character `c`, which begins at `self`.
    pub(crate) fn past(self, c: char) -> Position
        requires line { self.line + 1 < 2 ^ 64 }
        requires character { self.character + 1 < 2 ^ 64 }
        ensures passes { (front : List ℕ) → self ≡ position_of front
            → result ≡ position_of (front ++ c ∷ []) }
        ensures line { result.line ≤ self.line + 1 }
        ensures character { result.character ≤ self.character + 1 }
    {
        if c == '\n' {
            Position {
                line: self.line + 1,
                character: 0,
            }
        } else {
            Position {
                line: self.line,
                character: self.character + 1,
            }
        }
    }
}

/// A range of a text by the positions of its ends. `end` is the position after the last character
/// of the range.
#[derive(Clone, Copy, Debug, PartialEq, Eq)]
pub struct PositionRange {
    pub start: Position,
    pub end: Position,
}

impl PositionRange {
    /// Returns the empty range at the start of every text.
    pub fn zeroed() -> PositionRange
        ensures start_line { result.start.line ≡ 0 }
        ensures start_character { result.start.character ≡ 0 }
        ensures end_line { result.end.line ≡ 0 }
        ensures end_character { result.end.character ≡ 0 }
    {
        PositionRange {
            start: Position::zeroed(),
            end: Position::zeroed(),
        }
    }

    /// Returns the positions of the ends of `range`, which are character boundaries of the text.
    pub fn from_source_range(range: SourceRange, text_info: &SourceTextInfo) -> PositionRange
        requires start { IsCharBoundary text_info.now range.start }
        requires end { IsCharBoundary text_info.now range.end }
        ensures start { result.start ≡ position_at text_info.now range.start }
        ensures end { result.end ≡ position_at text_info.now range.end }
    {
        PositionRange {
            start: Position::from_source_pos(range.start, text_info),
            end: Position::from_source_pos(range.end, text_info),
        }
    }

    /// Returns the offsets of the boundaries with these two positions, or `None` if no boundary of
    /// the text has one of them.
    pub fn as_source_range(&self, text_info: &SourceTextInfo) -> Option<SourceRange>
        ensures some { IfSome result (IsRangeAt text_info.now self.now) }
        ensures none { IsNone result ↔ ¬ (HasPosition text_info.now self.now.start
            × HasPosition text_info.now self.now.end) }
        ensures found { (range : SourceRange) → IsRangeAt text_info.now self.now range
            → result ≡ Some range }
    {
        Some(SourceRange {
            start: self.start.as_source_pos(text_info)?,
            end: self.end.as_source_pos(text_info)?,
        })
    }
}
