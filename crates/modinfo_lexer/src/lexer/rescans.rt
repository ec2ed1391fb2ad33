//! Tokens that are scanned again, by what the grammar allows at their place.

use crate::characters::byte_at;
use crate::lexer::Lexer;
use crate::lexer::fault::Fault;
use crate::lexer::tokens::token;
use crate::scan::escapes::bad_escape;
use crate::scan::literals::{jsx_name_end, jsx_string_end, jsx_text_end, regular_expression_end};
use crate::syntax_error::ReadError;
use crate::token::{Token, TokenKind};
use modinfo_pieces::choice::ChoiceKind;

impl<'a> Lexer<'a> {
    /// Makes a token the current one. A line ends before it if one ends before the current one.
    fn replace(&mut self, token: Token) {
        let is_after_line_end = self.token.is_after_line_end;
        self.token = token;
        self.token.is_after_line_end = is_after_line_end;
    }

    /// Scans the current token, a `/` or `/=`, again as a regular expression, and keeps the choice.
    pub fn rescan_regular_expression(&mut self) -> Result<(), ReadError> {
        let start = self.token.start;
        match regular_expression_end(self.text, start) {
            Some(end) => {
                self.replace(token(TokenKind::RegularExpression, start, end));
                self.keep_choice(ChoiceKind::RegularExpression)
            }
            None => Err(ReadError::syntax(
                "expected `/` at the end of the regular expression",
                start,
            )),
        }
    }

    /// Scans the current token, a `}`, again as the next part of a template.
    pub fn rescan_template_part(&mut self) -> Result<(), ReadError> {
        match self.scan_template_part(TokenKind::TemplateMiddle, TokenKind::TemplateTail) {
            Ok(()) => Ok(()),
            Err(fault) => Err(self.error_of(fault)),
        }
    }

    /// Returns an error if the current token, a part of a template without a tag, has an escape that stands
    /// for nothing.
    #[inline(always)]
    pub fn check_escapes(&self) -> Result<(), ReadError> {
        if self.token.has_escape {
            self.check_each_escape()
        } else {
            Ok(())
        }
    }

    fn check_each_escape(&self) -> Result<(), ReadError> {
        let Token { start, end, .. } = self.token;
        match bad_escape(self.text.as_bytes(), start.saturating_add(1), end, true) {
            Some(escape) => Err(Fault::Escape.error_at(escape)),
            None => Ok(()),
        }
    }

    /// Scans the current token again as its first byte alone, if that is `<` or `>`, as in types.
    pub fn rescan_angle(&mut self) {
        let start = self.token.start;
        let kind = match byte_at(self.text.as_bytes(), start) {
            b'<' => TokenKind::Less,
            b'>' => TokenKind::Greater,
            _ => return,
        };
        self.replace(token(kind, start, start.saturating_add(1)));
    }

    /// Scans the current token, a name, again as a name in JSX, which may have hyphens.
    pub fn rescan_jsx_name(&mut self) {
        if self.token.kind.is_name() {
            let start = self.token.start;
            let end = jsx_name_end(self.text, start);
            self.replace(token(TokenKind::Identifier, start, end));
        }
    }

    /// Scans the current token, which begins with `<`, again as the `<` of a JSX element in an expression,
    /// and keeps the choice.
    pub fn begin_jsx(&mut self) -> Result<(), ReadError> {
        self.rescan_angle();
        self.keep_choice(ChoiceKind::JsxElement)
    }

    /// Keeps a choice for the start of the current token.
    fn keep_choice(&mut self, kind: ChoiceKind) -> Result<(), ReadError> {
        match self.choose(kind, self.token.start) {
            Ok(()) => Ok(()),
            Err(fault) => Err(self.error_of(fault)),
        }
    }

    /// Goes on to the value of an attribute in JSX, in which a string has no escapes.
    pub fn next_jsx_value(&mut self) -> Result<(), ReadError> {
        match self.advance_to_jsx_value() {
            Ok(()) => Ok(()),
            Err(fault) => Err(self.error_of(fault)),
        }
    }

    fn advance_to_jsx_value(&mut self) -> Result<(), Fault> {
        self.leave_token();
        self.skip_gap(self.previous_end)?;
        let text = self.text.as_bytes();
        let start = self.token.start;
        if !matches!(byte_at(text, start), b'"' | b'\'') {
            return self.scan_token();
        }
        self.token.has_escape = false;
        self.end_literal(
            TokenKind::String,
            jsx_string_end(text, start),
            Fault::String,
        )
    }

    /// Goes on to the next child of a JSX element: text, `{`, `<` or the end of the text.
    pub fn next_jsx_child(&mut self) {
        let start = self.token.end;
        self.leave_token();
        let bytes = self.text.as_bytes();
        let end = jsx_text_end(bytes, start);
        self.token = if end > start {
            token(TokenKind::JsxText, start, end)
        } else {
            match byte_at(bytes, start) {
                b'{' => token(TokenKind::BraceOpen, start, start.saturating_add(1)),
                b'<' => token(TokenKind::Less, start, start.saturating_add(1)),
                _ => token(TokenKind::EndOfText, bytes.len(), bytes.len()),
            }
        };
    }
}
