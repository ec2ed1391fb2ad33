//! Cursors: character boundaries of a text by offset and by position.

ghost use Rattle.std.specs.Prelude.{◌≡◌, ℕ, ◌+◌, ◌^◌, ◌<◌, ◌≤◌, List, [], ◌∷◌, ◌++◌, length};
ghost use Rattle.std.specs.Char.{len_utf8};
ghost use Rattle.std.specs.Str.{IsCharBoundary, IsUtf8};
ghost use Rattle.deno_graph_base.specs.internal.Cursor.{IsCursor};
ghost use Rattle.deno_graph_base.specs.Position.{IsBefore, position_at, position_of};

use crate::text::position::Position;

/// The most bytes that a search for a position passes at once.
const STEP: usize = 32;

/// A character boundary of a text: its offset, in bytes from zero, and its position.
#[derive(Clone, Copy, Debug, PartialEq, Eq)]
pub(crate) struct Cursor {
    pub(crate) offset: usize,
    pub(crate) position: Position,
}

impl Cursor {
    /// Returns the cursor at the start of every text.
    pub(crate) fn start() -> Cursor
        ensures offset { result.offset ≡ 0 }
        ensures line { result.position.line ≡ 0 }
        ensures character { result.position.character ≡ 0 }
        ensures cursor { (text : List ℕ) → IsUtf8 text → IsCursor text result }
    {
        Cursor {
            offset: 0,
            position: Position::zeroed(),
        }
    }

    /// Returns the cursor after the character `c`, which begins at `self`.
    pub(crate) fn past(self, c: char) -> Cursor
        requires offset { self.offset + len_utf8 c < 2 ^ 64 }
        requires line { self.position.line + 1 < 2 ^ 64 }
        requires character { self.position.character + 1 < 2 ^ 64 }
        ensures offset { result.offset ≡ self.offset + len_utf8 c }
        ensures position { (front : List ℕ) → self.position ≡ position_of front
            → result.position ≡ position_of (front ++ c ∷ []) }
    {
        Cursor {
            offset: self.offset + c.len_utf8(),
            position: self.position.past(c),
        }
    }

    /// Returns the cursor at `offset`, a boundary of `text` less than 256 bytes after `self`.
    pub(crate) fn ahead(self, text: &str, offset: usize) -> Cursor
        requires cursor { IsCursor text.now self }
        requires boundary { IsCharBoundary text.now offset }
        requires order { self.offset ≤ offset }
        requires short { offset < self.offset + 256 }
        ensures cursor { IsCursor text.now result }
        ensures offset { result.offset ≡ offset }
    {
        Cursor {
            offset,
            position: self.position.after(&text[self.offset..offset]),
        }
    }

    /// Moves forward by `STEP` bytes at a time, as long as the new position is before `wanted`.
    /// Returns where the next step would reach `wanted` or pass the end of the text.
    fn skip_before(self, wanted: Position, text: &str) -> Cursor
        requires { IsCursor text.now self }
        ensures cursor { IsCursor text.now result }
        ensures from { self.offset ≤ result.offset }
        ensures before { (offset : ℕ) → self.offset ≤ offset → offset < result.offset → IsCharBoundary text.now offset
            → IsBefore (position_at text.now offset) wanted }
    {
        let mut cursor = self;
        while text.len() - cursor.offset >= STEP {
            let next = cursor.ahead(text, text.floor_char_boundary(cursor.offset + STEP));
            if !next.position.is_before(wanted) {
                return cursor;
            }
            cursor = next;
        }
        cursor
    }

    /// Returns the first cursor from `self` on whose position isn't before `wanted`, or the end of
    /// the text if there is none.
    pub(crate) fn first_not_before(self, wanted: Position, text: &str) -> Cursor
        requires { IsCursor text.now self }
        ensures cursor { IsCursor text.now result }
        ensures before { (offset : ℕ) → self.offset ≤ offset → offset < result.offset → IsCharBoundary text.now offset
            → IsBefore (position_at text.now offset) wanted }
        ensures end { IsBefore result.position wanted → result.offset ≡ length text.now }
    {
        let mut cursor = self.skip_before(wanted, text);
        for c in text[cursor.offset..].chars() {
            if !cursor.position.is_before(wanted) {
                return cursor;
            }
            cursor = cursor.past(c);
        }
        cursor
    }
}
