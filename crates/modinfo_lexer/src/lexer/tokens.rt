//! The token that begins at an offset.

use crate::characters::byte_at;
use crate::classes::{NAME, is_of};
use crate::lexer::Lexer;
use crate::lexer::fault::Fault;
use crate::scan::escapes::bad_escape;
use crate::scan::literals::{string_end, template_end};
use crate::scan::names::{name_end, word_end};
use crate::scan::numbers::number_end;
use crate::scan::operators::{bracket_or_separator, operator_at};
use crate::scan::spaces::line_end;
use crate::token::{Token, TokenKind};
use crate::words::kind_of_word;

/// Returns a token between two offsets.
#[inline(always)]
pub(super) fn token(kind: TokenKind, start: usize, end: usize) -> Token {
    Token {
        kind,
        is_after_line_end: false,
        has_escape: false,
        start,
        end,
    }
}

/// Returns the `#!` line at a text's start, which a byte order mark may precede; or, without one, an
/// empty token at the start.
pub(super) fn hashbang(text: &str) -> Token {
    let start = if text.starts_with('\u{FEFF}') { 3 } else { 0 };
    let bytes = text.as_bytes();
    if byte_at(bytes, start) == b'#' && byte_at(bytes, start + 1) == b'!' {
        token(TokenKind::Hashbang, start, line_end(bytes, start))
    } else {
        token(TokenKind::EndOfText, 0, 0)
    }
}

impl<'a> Lexer<'a> {
    /// Scans the current token from its start on, at which no white space and no comment is.
    #[inline(always)]
    pub(super) fn scan_token(&mut self) -> Result<(), Fault> {
        self.scan_token_of(byte_at(self.text.as_bytes(), self.token.start))
    }

    /// Scans the current token from its start on, at which this byte is.
    #[inline(always)]
    pub(super) fn scan_token_of(&mut self, first: u8) -> Result<(), Fault> {
        self.token.has_escape = false;
        if is_of(first, NAME) {
            return self.scan_word(first);
        }
        if let Some(kind) = bracket_or_separator(first) {
            self.end_token(kind, self.token.start.saturating_add(1));
            return Ok(());
        }
        self.scan_longer_token(first)
    }

    /// Scans the current token, which is no ASCII name, no bracket and no separator, by its first byte.
    #[inline(never)]
    fn scan_longer_token(&mut self, first: u8) -> Result<(), Fault> {
        let text = self.text.as_bytes();
        let start = self.token.start;
        match first {
            b'"' | b'\'' => match string_end(text, start) {
                Some(end) => {
                    self.end_token(TokenKind::String, end);
                    Ok(())
                }
                None => Err(self.fault_of_string()),
            },
            b'0'..=b'9' => self.scan_number(),
            b'.' if byte_at(text, start.saturating_add(1)).is_ascii_digit() => self.scan_number(),
            b'`' => self.scan_template_part(TokenKind::TemplateHead, TokenKind::Template),
            _ => match operator_at(text, start) {
                Some(operator) => {
                    self.end_token(operator.kind, operator.end);
                    Ok(())
                }
                None => self.scan_other(),
            },
        }
    }

    /// Gives the current token its kind and its end.
    #[inline(always)]
    pub(super) fn end_token(&mut self, kind: TokenKind, end: usize) {
        self.token.kind = kind;
        self.token.end = end;
    }

    /// Gives the current token its kind and its end, or returns a fault if there is no end.
    #[inline(always)]
    pub(super) fn end_literal(
        &mut self,
        kind: TokenKind,
        end: Option<usize>,
        fault: Fault,
    ) -> Result<(), Fault> {
        match end {
            Some(end) => {
                self.end_token(kind, end);
                Ok(())
            }
            None => Err(fault),
        }
    }

    /// Scans the current token, a name with this first byte.
    #[inline(always)]
    fn scan_word(&mut self, first: u8) -> Result<(), Fault> {
        let text = self.text.as_bytes();
        let end = word_end(text, self.token.start.saturating_add(1));
        let next = byte_at(text, end);
        if next >= 128 || next == b'\\' {
            return self.scan_wide_name(first, end);
        }
        self.end_name(first, end)
    }

    /// Gives the current token, an ASCII name with this first byte, its kind and its end.
    #[inline(always)]
    fn end_name(&mut self, first: u8, end: usize) -> Result<(), Fault> {
        // Names of one letter are every second token of minified texts.
        if first >= b'a' && matches!(end.saturating_sub(self.token.start), 2..=10) {
            return self.end_word(end);
        }
        self.end_token(TokenKind::Identifier, end);
        Ok(())
    }

    /// Gives the current token, which may be a word with a meaning of its own, its kind and its end.
    #[inline(never)]
    fn end_word(&mut self, end: usize) -> Result<(), Fault> {
        let word = self.text.as_bytes().get(self.token.start..end);
        self.end_token(kind_of_word(word.unwrap_or(&[])), end);
        Ok(())
    }

    /// Scans the current token, a name with this first byte, which may go on at an offset with a character
    /// above U+007F or an escape.
    #[inline(never)]
    fn scan_wide_name(&mut self, first: u8, from: usize) -> Result<(), Fault> {
        match name_end(self.text, self.token.start) {
            Some(name) if name.end > from => {
                self.end_token(TokenKind::Identifier, name.end);
                self.token.has_escape = name.has_escape;
                Ok(())
            }
            _ => self.end_name(first, from),
        }
    }

    /// Returns the fault of the current token, which begins as a string. An escape that stands for nothing
    /// becomes the start of the token.
    #[cold]
    fn fault_of_string(&mut self) -> Fault {
        let text = self.text.as_bytes();
        match bad_escape(text, self.token.start.saturating_add(1), text.len(), false) {
            Some(escape) => {
                self.token.start = escape;
                Fault::Escape
            }
            None => Fault::String,
        }
    }

    /// Scans the current token, a number.
    #[inline(never)]
    fn scan_number(&mut self) -> Result<(), Fault> {
        let end = number_end(self.text.as_bytes(), self.token.start);
        self.end_literal(TokenKind::Number, end, Fault::Number)
    }

    /// Scans the current token, a part of a template that begins with a backtick or a brace. The kind is
    /// `head` if the part ends with `${`, else `tail`.
    #[inline(never)]
    pub(super) fn scan_template_part(
        &mut self,
        head: TokenKind,
        tail: TokenKind,
    ) -> Result<(), Fault> {
        match template_end(self.text.as_bytes(), self.token.start.saturating_add(1)) {
            Some(part) => {
                let kind = if part.has_substitution { head } else { tail };
                self.end_token(kind, part.end);
                self.token.has_escape = part.has_escape;
                Ok(())
            }
            None => Err(Fault::Template),
        }
    }

    /// Scans the current token, which is no ASCII name, literal or punctuation.
    #[inline(never)]
    fn scan_other(&mut self) -> Result<(), Fault> {
        let text = self.text.as_bytes();
        let start = self.token.start;
        if start >= text.len() {
            self.start_token(text.len(), self.token.is_after_line_end);
            self.end_token(TokenKind::EndOfText, text.len());
            return Ok(());
        }
        let (kind, from) = if text[start] == b'#' {
            (TokenKind::PrivateName, start + 1)
        } else {
            (TokenKind::Identifier, start)
        };
        match name_end(self.text, from) {
            Some(name) => {
                self.end_token(kind, name.end);
                self.token.has_escape = name.has_escape;
                Ok(())
            }
            None => Err(Fault::Character),
        }
    }
}
