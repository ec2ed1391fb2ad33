//! Type arguments and type parameters.

use crate::grammar::types::begins_type;
use crate::parser::{Parsed, Parser, is_limit};
use modinfo_lexer::characters::byte_at;
use modinfo_lexer::syntax_error::ReadError;
use modinfo_lexer::token::TokenKind;

impl<'a> Parser<'a> {
    /// `>`, also as the first byte of a longer operator.
    pub(crate) fn expect_greater(&mut self) -> Parsed<()> {
        self.lexer.rescan_angle();
        self.expect(TokenKind::Greater, "expected `>` after the types")
    }

    /// `<`, types with commas between them, and `>`. If that isn't there, no try at the `<` will succeed;
    /// but if the text nests too deep for it there, with less depth left than tries need, one may.
    #[cycle(grammar)]
    pub(crate) fn type_arguments(&mut self, depth: usize) -> Parsed<()> {
        if depth == 0 {
            return Err(self.too_deep());
        }
        let start = self.start();
        let result = self.angle_brackets(depth - 1);
        if let Err(ReadError::Syntax(error)) = result {
            if !is_limit(error.message, depth) {
                self.keep_failed(start)?;
            }
        }
        result
    }

    /// `<`, types with commas between them, and `>`.
    #[cycle(grammar)]
    fn angle_brackets(&mut self, depth: usize) -> Parsed<()> {
        if depth == 0 {
            return Err(self.too_deep());
        }
        self.lexer.rescan_angle();
        self.next()?;
        let context = self.context;
        self.context = context.in_brackets();
        let result = self.list_to_greater(depth - 1);
        self.context = context;
        result?;
        self.expect_greater()
    }

    /// Types with commas between them and, maybe, after the last, up to `>`.
    #[cycle(grammar)]
    fn list_to_greater(&mut self, depth: usize) -> Parsed<()> {
        if depth == 0 {
            return Err(self.too_deep());
        }
        for _turn in 0..self.turns {
            self.lexer.rescan_angle();
            if self.at(TokenKind::Greater) {
                break;
            }
            self.type_(depth - 1)?;
            if !self.eat(TokenKind::Comma)? {
                break;
            }
        }
        Ok(())
    }

    /// Types with commas between them, each with its type arguments on the same line or a later one.
    #[cycle(grammar)]
    pub(crate) fn list_of_types(&mut self, depth: usize) -> Parsed<()> {
        if depth == 0 {
            return Err(self.too_deep());
        }
        for _turn in 0..self.turns {
            self.type_(depth - 1)?;
            if matches!(self.kind(), TokenKind::Less | TokenKind::ShiftLeft) {
                self.type_arguments(depth - 1)?;
            }
            if !self.eat(TokenKind::Comma)? {
                break;
            }
        }
        Ok(())
    }

    /// Type arguments after an expression, if the `<` begins some. Returns whether it does.
    #[cycle(grammar)]
    pub(crate) fn try_type_arguments(&mut self, depth: usize) -> Parsed<bool> {
        if depth == 0 {
            return Err(self.too_deep());
        }
        if self.has_failed() {
            return Ok(false);
        }
        let state = self.begin_try()?;
        let result = self.type_arguments_of_expression(depth - 1);
        self.end_try(depth, state, result)
    }

    /// Type arguments. Returns whether what follows them can't be the right operand of a comparison.
    #[cycle(grammar)]
    fn type_arguments_of_expression(&mut self, depth: usize) -> Parsed<bool> {
        if depth == 0 {
            return Err(self.too_deep());
        }
        self.type_arguments(depth - 1)?;
        self.may_follow_type_arguments()
    }

    /// Returns whether the current token may follow type arguments of an expression: `(`, a template, or
    /// a token with which no operand begins. An `as` before what is no type is a name. The last `>` before
    /// the token isn't the start of a longer operator, as it would be in `a < b >= c`.
    fn may_follow_type_arguments(&mut self) -> Parsed<bool> {
        let token = self.token();
        let next = byte_at(self.lexer.text().as_bytes(), self.lexer.previous_end());
        if matches!(next, b'>' | b'=') {
            return Ok(false);
        }
        match token.kind {
            TokenKind::ParenOpen | TokenKind::Template | TokenKind::TemplateHead => Ok(true),
            TokenKind::Less | TokenKind::Greater | TokenKind::Plus | TokenKind::Minus => Ok(false),
            _ if token.is_after_line_end || !begins_operand(token.kind) => Ok(true),
            TokenKind::As | TokenKind::Satisfies => Ok(begins_type(self.peek()?.kind)),
            _ => Ok(self.at_binary_operator()),
        }
    }

    /// `<`, type parameters with commas between them, and `>`.
    #[cycle(grammar)]
    pub(crate) fn type_parameters(&mut self, depth: usize) -> Parsed<()> {
        if depth == 0 {
            return Err(self.too_deep());
        }
        self.lexer.rescan_angle();
        self.expect(TokenKind::Less, "expected `<` before the type parameters")?;
        for _turn in 0..self.turns {
            self.lexer.rescan_angle();
            if self.at(TokenKind::Greater) {
                break;
            }
            self.type_parameter(depth - 1)?;
            if !self.eat(TokenKind::Comma)? {
                break;
            }
        }
        self.expect_greater()
    }

    /// A type parameter, with its constraint and its default.
    #[cycle(grammar)]
    fn type_parameter(&mut self, depth: usize) -> Parsed<()> {
        if depth == 0 {
            return Err(self.too_deep());
        }
        for _turn in 0..self.turns {
            let is_modifier = match self.kind() {
                TokenKind::Const | TokenKind::In => true,
                TokenKind::Out => self.peek()?.kind.is_identifier(),
                _ => false,
            };
            if !is_modifier {
                break;
            }
            self.next()?;
        }
        self.bound_name()?;
        if self.eat(TokenKind::Extends)? {
            self.type_in_brackets(depth - 1)?;
        }
        if self.eat(TokenKind::Equal)? {
            self.type_in_brackets(depth - 1)?;
        }
        Ok(())
    }
}

/// Returns whether an operand may begin with a token.
fn begins_operand(kind: TokenKind) -> bool {
    match kind {
        TokenKind::BraceOpen
        | TokenKind::BracketOpen
        | TokenKind::ParenOpen
        | TokenKind::Bang
        | TokenKind::Tilde
        | TokenKind::PlusPlus
        | TokenKind::MinusMinus
        | TokenKind::Slash
        | TokenKind::SlashEqual
        | TokenKind::At
        | TokenKind::String
        | TokenKind::Number
        | TokenKind::PrivateName
        | TokenKind::Class
        | TokenKind::Delete
        | TokenKind::False
        | TokenKind::Function
        | TokenKind::Import
        | TokenKind::New
        | TokenKind::Null
        | TokenKind::Super
        | TokenKind::This
        | TokenKind::True
        | TokenKind::Typeof
        | TokenKind::Void => true,
        kind => kind.is_identifier(),
    }
}
