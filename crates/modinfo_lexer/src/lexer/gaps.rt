//! What is between two tokens: white space and comments.

use crate::characters::byte_at;
use crate::lexer::Lexer;
use crate::lexer::fault::Fault;
use crate::scan::spaces::{SpaceEnd, block_comment_end, line_end, space_end};
use modinfo_pieces::choice::ChoiceKind;

/// What begins at an offset between two tokens.
#[derive(Clone, Copy)]
enum GapPart {
    LineComment,
    BlockComment,
    /// A comment as in HTML.
    HtmlComment,
    /// A token, or the text's end.
    Token,
}

impl<'a> Lexer<'a> {
    /// Starts the current token at an offset, after a line end or not.
    #[inline(always)]
    pub(super) fn start_token(&mut self, start: usize, is_after_line_end: bool) {
        self.token.start = start;
        self.token.is_after_line_end = is_after_line_end;
    }

    /// Skips white space and comments from an offset on. The current token starts after them.
    #[inline(never)]
    pub(super) fn skip_gap(&mut self, from: usize) -> Result<(), Fault> {
        let space = space_end(self.text, from);
        match byte_at(self.text.as_bytes(), space.end) {
            b'/' | b'<' | b'-' => self.skip_comments(from, space),
            _ => {
                self.start_token(space.end, space.has_line_end);
                Ok(())
            }
        }
    }

    /// Skips the comments after white space.
    #[inline(never)]
    fn skip_comments(&mut self, from: usize, space: SpaceEnd) -> Result<(), Fault> {
        let mut gap = space;
        for _turn in 0..self.text.len() {
            let comment_end = match self.part_at(gap.end, from, gap.has_line_end) {
                GapPart::Token => break,
                GapPart::HtmlComment => self.skip_html_comment(gap)?,
                GapPart::LineComment => self.line_comment_end(gap),
                GapPart::BlockComment => self.block_comment_end(gap)?,
            };
            let space = space_end(self.text, comment_end.end);
            gap = SpaceEnd {
                end: space.end,
                has_line_end: comment_end.has_line_end || space.has_line_end,
            };
        }
        self.start_token(gap.end, gap.has_line_end);
        Ok(())
    }

    /// Returns what begins at an offset. A `-->` is a comment if no token is before it on its line.
    fn part_at(&self, at: usize, from: usize, has_line_end: bool) -> GapPart {
        let bytes = self.text.as_bytes();
        match byte_at(bytes, at) {
            b'/' => match byte_at(bytes, at.saturating_add(1)) {
                b'/' => GapPart::LineComment,
                b'*' => GapPart::BlockComment,
                _ => GapPart::Token,
            },
            b'<' if self.has_html_comments && begins_with(self.text, at, "<!--") => {
                GapPart::HtmlComment
            }
            b'-'
                if self.has_html_comments
                    && (has_line_end || from == 0)
                    && begins_with(self.text, at, "-->") => { GapPart::HtmlComment }
            _ => GapPart::Token,
        }
    }

    /// Keeps the choice of a comment as in HTML after white space, and returns the comment's end.
    fn skip_html_comment(&mut self, space: SpaceEnd) -> Result<SpaceEnd, Fault> {
        self.choose(ChoiceKind::HtmlComment, space.end)?;
        Ok(self.line_comment_end(space))
    }

    /// Returns the end of the comment after white space that goes on to the end of its line.
    fn line_comment_end(&self, space: SpaceEnd) -> SpaceEnd {
        SpaceEnd {
            end: line_end(self.text.as_bytes(), space.end),
            has_line_end: space.has_line_end,
        }
    }

    /// Returns the end of the block comment after white space.
    fn block_comment_end(&mut self, space: SpaceEnd) -> Result<SpaceEnd, Fault> {
        match block_comment_end(self.text.as_bytes(), space.end) {
            Some(inside) => Ok(SpaceEnd {
                end: inside.end,
                has_line_end: space.has_line_end || inside.has_line_end,
            }),
            None => {
                self.token.start = space.end;
                Err(Fault::Comment)
            }
        }
    }
}

/// Returns whether a word stands in a text at an offset.
fn begins_with(text: &str, at: usize, word: &str) -> bool {
    match text.get(at..) {
        Some(rest) => rest.starts_with(word),
        None => false,
    }
}
