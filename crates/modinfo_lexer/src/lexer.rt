//! The lexer: the tokens of a text one after another.

mod fault;
mod gaps;
mod rescans;
mod tokens;

use crate::characters::byte_at;
use crate::classes::{TOKEN, is_of};
use crate::lexer::fault::Fault;
use crate::syntax_error::ReadError;
use crate::token::{Token, TokenKind};
use modinfo_pieces::choice::{Choice, ChoiceKind};
use std::alloc::Global;

/// Reads the tokens of a text. What a `/`, a `}` or a `>` begins is decided by the caller, who has such
/// a token scanned again.
#[derive(Drop)]
pub struct Lexer<'a> {
    text: &'a str,
    /// Whether `<!--` and `-->` begin comments, as in scripts.
    has_html_comments: bool,
    token: Token,
    /// The end of the token before, in bytes.
    previous_end: usize,
    /// What the bytes don't decide, ascending by offset.
    choices: Vec<Choice>,
}

/// A state of a lexer, to which the lexer can go back.
#[derive(Clone, Copy)]
pub struct Mark {
    token: Token,
    previous_end: usize,
    choices: usize,
}

impl<'a> Lexer<'a> {
    /// Returns a lexer at the first token of a text. `has_html_comments` says whether the text is a
    /// script, in which `<!--` and `-->` begin comments.
    pub fn new(
        alloc: Global,
        text: &'a str,
        has_html_comments: bool,
    ) -> Result<Lexer<'a>, ReadError> {
        let hashbang = tokens::hashbang(text);
        let mut lexer = Lexer {
            text,
            has_html_comments,
            token: hashbang,
            previous_end: 0,
            choices: Vec::new(alloc),
        };
        lexer.next()?;
        Ok(lexer)
    }

    /// Returns the text.
    #[inline(always)]
    pub fn text(&self) -> &'a str {
        self.text
    }

    /// Returns the current token.
    #[inline(always)]
    pub fn token(&self) -> Token {
        self.token
    }

    /// Returns the end of the token before the current one, in bytes.
    #[inline(always)]
    pub fn previous_end(&self) -> usize {
        self.previous_end
    }

    /// Returns whether the text begins with `#!`, also after a byte order mark.
    pub fn has_hashbang(&self) -> bool {
        tokens::hashbang(self.text).kind == TokenKind::Hashbang
    }

    /// Returns the choices up to the current token, in the order of the text.
    pub fn into_choices(self) -> Vec<Choice> {
        let Lexer { choices, .. } = self;
        choices
    }

    /// Keeps a choice for an offset. Fails only if an allocation fails.
    fn choose(&mut self, kind: ChoiceKind, offset: usize) -> Result<(), Fault> {
        match self.choices.push(Choice { kind, offset }) {
            Ok(()) => Ok(()),
            Err(_) => Err(Fault::OutOfMemory),
        }
    }

    /// Returns the current state.
    pub fn mark(&self) -> Mark {
        Mark {
            token: self.token,
            previous_end: self.previous_end,
            choices: self.choices.len(),
        }
    }

    /// Goes back to a state.
    pub fn reset(&mut self, mark: Mark) {
        self.token = mark.token;
        self.previous_end = mark.previous_end;
        self.choices.truncate(mark.choices);
    }

    /// Goes on to the next token. At the text's end, that is a token without text.
    #[inline(always)]
    pub fn next(&mut self) -> Result<(), ReadError> {
        match self.advance() {
            Ok(()) => Ok(()),
            Err(fault) => Err(self.error_of(fault)),
        }
    }

    /// Goes on to the next token. The error is of what begins at the start of the current token. Before most
    /// tokens is nothing or one space. What isn't in every text's most frequent tokens is left to calls at
    /// the end, so that this needs no stack.
    #[inline(never)]
    fn advance(&mut self) -> Result<(), Fault> {
        self.leave_token();
        let text = self.text.as_bytes();
        let from = self.previous_end;
        let first = byte_at(text, from);
        if is_of(first, TOKEN) {
            self.start_token(from, false);
            return self.scan_token_of(first);
        }
        let after = from.saturating_add(1);
        let second = byte_at(text, after);
        if first == b' ' && is_of(second, TOKEN) {
            self.start_token(after, false);
            return self.scan_token_of(second);
        }
        self.advance_after_gap()
    }

    #[inline(never)]
    fn advance_after_gap(&mut self) -> Result<(), Fault> {
        self.skip_gap(self.previous_end)?;
        self.scan_token()
    }

    /// Makes the current token the one before.
    #[inline(always)]
    fn leave_token(&mut self) {
        self.previous_end = self.token.end;
    }

    /// Returns the error of a fault of what begins at the start of the current token.
    #[cold]
    fn error_of(&self, fault: Fault) -> ReadError {
        fault.error_at(self.token.start)
    }
}
