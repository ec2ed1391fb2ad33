//! Arrow functions.

use crate::parser::{Form, Parsed, Parser};
use modinfo_lexer::syntax_error::ReadError;
use modinfo_lexer::token::TokenKind;

impl<'a> Parser<'a> {
    /// `=>` and the body of an arrow function.
    #[cycle(grammar)]
    pub(crate) fn arrow_body(&mut self, depth: usize, is_async: bool) -> Parsed<Form> {
        if depth == 0 {
            return Err(self.too_deep());
        }
        self.next()?;
        let context = self.context;
        let no_parameter = self.no_parameter;
        self.context = context.in_function(is_async, false);
        let result = self.body_of_arrow(depth - 1);
        self.context = context;
        self.no_parameter = no_parameter;
        result?;
        Ok(Form::Arrow)
    }

    /// A body in braces, or an expression.
    #[cycle(grammar)]
    fn body_of_arrow(&mut self, depth: usize) -> Parsed<()> {
        if depth == 0 {
            return Err(self.too_deep());
        }
        if self.at(TokenKind::BraceOpen) {
            return self.block(depth - 1);
        }
        self.assignment(depth - 1)?;
        Ok(())
    }

    /// Names in `<` and `>` before a `(`, and `async` before them, if all that is there: type parameters of
    /// an arrow function, or types before or after an operand. Returns whether they are there.
    pub(crate) fn eat_names_in_angles(&mut self) -> Parsed<bool> {
        let state = self.state();
        match self.skip_names_in_angles() {
            Ok(true) => Ok(true),
            Err(ReadError::OutOfMemory) => Err(ReadError::OutOfMemory),
            _ => {
                self.reset(state);
                Ok(false)
            }
        }
    }

    /// Skips `async`, `<`, names with commas between them, and `>`. Returns whether a `(` follows them.
    fn skip_names_in_angles(&mut self) -> Parsed<bool> {
        self.eat(TokenKind::Async)?;
        if !self.eat(TokenKind::Less)? {
            return Ok(false);
        }
        for _turn in 0..self.turns {
            if !self.kind().is_identifier() {
                break;
            }
            self.next()?;
            if !self.eat(TokenKind::Comma)? {
                break;
            }
        }
        self.lexer.rescan_angle();
        Ok(self.eat(TokenKind::Greater)? && self.at(TokenKind::ParenOpen))
    }

    /// Type parameters before a `(`, and `async` before them, if they are there. Returns whether they are.
    #[cycle(grammar)]
    pub(crate) fn try_type_parameters(&mut self, depth: usize) -> Parsed<bool> {
        if depth == 0 {
            return Err(self.too_deep());
        }
        if self.has_failed() {
            return Ok(false);
        }
        let state = self.begin_try()?;
        let result = self.type_parameters_before_parenthesis(depth - 1);
        self.end_try(depth, state, result)
    }

    /// Type parameters, and `async` before them. Returns whether `(` follows them.
    #[cycle(grammar)]
    fn type_parameters_before_parenthesis(&mut self, depth: usize) -> Parsed<bool> {
        if depth == 0 {
            return Err(self.too_deep());
        }
        self.eat(TokenKind::Async)?;
        self.type_parameters(depth - 1)?;
        Ok(self.at(TokenKind::ParenOpen))
    }

    /// An arrow function after its type parameters.
    #[cycle(grammar)]
    pub(crate) fn generic_arrow(&mut self, depth: usize, is_async: bool) -> Parsed<Form> {
        if depth == 0 {
            return Err(self.too_deep());
        }
        self.parameters(depth - 1)?;
        if self.eat(TokenKind::Colon)? {
            self.return_type(depth - 1)?;
        }
        if !self.at_on_line(TokenKind::Arrow) {
            return Err(self.error("expected `=>` after the parameters"));
        }
        self.arrow_body(depth - 1, is_async)
    }
}
