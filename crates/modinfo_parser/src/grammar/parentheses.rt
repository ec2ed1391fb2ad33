//! Parentheses around an expression, or around the parameters of an arrow function. Both are read as
//! elements with commas between them; `=>` after the parentheses decides.

use crate::parser::{Form, Parsed, Parser};
use modinfo_lexer::syntax_error::ReadError;
use modinfo_lexer::token::TokenKind;

impl<'a> Parser<'a> {
    /// An expression in parentheses, or an arrow function.
    #[cycle(grammar)]
    pub(crate) fn parenthesized(&mut self, depth: usize) -> Parsed<Form> {
        if depth == 0 {
            return Err(self.too_deep());
        }
        let start = self.start();
        let must_be_arrow = self.parentheses(depth - 1)?;
        if self.at_arrow_or_type(start)?
            && self.arrow_after_parentheses(depth - 1, false, must_be_arrow)?
        {
            return Ok(Form::Arrow);
        }
        if must_be_arrow {
            return Err(self.error("expected `=>` after the parameters"));
        }
        Ok(Form::Other)
    }

    /// The parentheses after `async`: parameters of an async arrow function, or arguments of a call. A level of
    /// these takes much of the stack, so it costs one more of the depth.
    #[cycle(grammar)]
    pub(crate) fn async_parentheses(&mut self, depth: usize) -> Parsed<Form> {
        if depth < 2 {
            return Err(self.too_deep());
        }
        let start = self.start();
        self.parentheses(depth - 2)?;
        if self.at_arrow_or_type(start)? && self.arrow_after_parentheses(depth - 2, true, false)? {
            return Ok(Form::Arrow);
        }
        Ok(Form::Other)
    }

    /// `(`, elements and `)`. Returns whether they can only be parameters.
    #[cycle(grammar)]
    fn parentheses(&mut self, depth: usize) -> Parsed<bool> {
        if depth == 0 {
            return Err(self.too_deep());
        }
        self.next()?;
        let context = self.context;
        self.context = context.in_brackets();
        let result = self.parenthesized_elements(depth - 1);
        self.context = context;
        let must_be_arrow = result?;
        self.expect(TokenKind::ParenClose, "expected `)` after the expression")?;
        Ok(must_be_arrow)
    }

    /// Elements with commas between them. Returns whether they can only be parameters.
    #[cycle(grammar)]
    fn parenthesized_elements(&mut self, depth: usize) -> Parsed<bool> {
        if depth == 0 {
            return Err(self.too_deep());
        }
        if self.at(TokenKind::ParenClose) {
            return Ok(true);
        }
        let mut must_be_arrow = false;
        for _turn in 0..self.turns {
            must_be_arrow |= self.parenthesized_element(depth - 1)?;
            if !self.eat(TokenKind::Comma)? {
                break;
            }
            if self.at(TokenKind::ParenClose) {
                return Ok(true);
            }
        }
        Ok(must_be_arrow)
    }

    /// An element, with the type of a parameter if there is one. Returns whether it can only be a
    /// parameter.
    #[cycle(grammar)]
    fn parenthesized_element(&mut self, depth: usize) -> Parsed<bool> {
        if depth == 0 {
            return Err(self.too_deep());
        }
        let start = self.start();
        let is_this = self.at(TokenKind::This);
        let is_rest = self.eat(TokenKind::DotDotDot)?;
        let form = self.assignment(depth - 1)?;
        if !(form.may_be_pattern() || is_this && self.at(TokenKind::Colon)) {
            self.keep_no_pattern(start);
        }
        if !self.language.is_typescript {
            return Ok(is_rest);
        }
        let is_optional = self.eat(TokenKind::Question)?;
        let has_type = self.type_annotation(depth - 1)?;
        if (is_optional || has_type) && self.eat(TokenKind::Equal)? {
            self.assignment(depth - 1)?;
        }
        Ok(is_rest || is_optional || has_type)
    }

    /// Returns whether `=>` or, in TypeScript, a `:` follows parentheses which begin at an offset and may
    /// be parameters. If they can't be and `=>` follows them, returns an error.
    fn at_arrow_or_type(&self, start: usize) -> Parsed<bool> {
        let is_arrow = self.at_on_line(TokenKind::Arrow);
        if !is_arrow && !(self.at(TokenKind::Colon) && self.language.is_typescript) {
            return Ok(false);
        }
        let may_be_parameters = self.no_pattern <= start && self.no_parameter <= start;
        if may_be_parameters || !is_arrow {
            return Ok(may_be_parameters);
        }
        if self.no_pattern > start {
            return Err(ReadError::syntax(
                "expected a name or a pattern",
                self.no_pattern.saturating_sub(1),
            ));
        }
        Err(self.error_in_parameters())
    }

    /// What follows the parameters of an arrow function, if the parentheses before the current token are
    /// that. Returns whether they are. `must_be_arrow` says whether they can be nothing else.
    #[cycle(grammar)]
    fn arrow_after_parentheses(
        &mut self,
        depth: usize,
        is_async: bool,
        must_be_arrow: bool,
    ) -> Parsed<bool> {
        if depth == 0 {
            return Err(self.too_deep());
        }
        if !self.at_on_line(TokenKind::Arrow) {
            if self.context.is_in_conditional {
                return self.arrow_in_conditional(depth - 1, is_async, must_be_arrow);
            }
            if !self.try_return_type(depth - 1)? {
                return Ok(false);
            }
        }
        self.arrow_body(depth - 1, is_async)?;
        Ok(true)
    }

    /// What follows the parameters of an arrow function between the `?` and the `:` of a conditional: a
    /// return type, `=>` and a body. Returns false if there is no arrow function, or if it takes the `:` of
    /// the conditional.
    ///
    /// In `a ? (b) : c => d` the arrow function is `c => d`, and its body is read as that of `(b): c => d`
    /// would be. Nothing is read again: `has_read_conditional` says that the conditional is read.
    #[cycle(grammar)]
    fn arrow_in_conditional(
        &mut self,
        depth: usize,
        is_async: bool,
        must_be_arrow: bool,
    ) -> Parsed<bool> {
        if depth == 0 {
            return Err(self.too_deep());
        }
        let following = self.peek()?;
        if matches!(following.kind, TokenKind::ParenOpen | TokenKind::Less) {
            return self.try_typed_arrow(depth - 1, is_async);
        }
        if !self.try_return_type(depth - 1)? {
            return Ok(false);
        }
        let is_name = following.kind.is_identifier() && following.end == self.lexer.previous_end();
        self.arrow_body(depth - 1, is_async)?;
        if is_name && !must_be_arrow && !self.at(TokenKind::Colon) {
            self.has_read_conditional = true;
        }
        Ok(true)
    }

    /// `:` and a return type, if `=>` follows them. Returns whether it does.
    #[cycle(grammar)]
    fn try_return_type(&mut self, depth: usize) -> Parsed<bool> {
        if depth == 0 {
            return Err(self.too_deep());
        }
        if self.has_failed() {
            return Ok(false);
        }
        let state = self.begin_try()?;
        let result = self.return_type_before_arrow(depth - 1);
        self.end_try(depth, state, result)
    }

    /// `:` and a return type. Returns whether `=>` follows them.
    #[cycle(grammar)]
    fn return_type_before_arrow(&mut self, depth: usize) -> Parsed<bool> {
        if depth == 0 {
            return Err(self.too_deep());
        }
        self.next()?;
        self.return_type(depth - 1)?;
        Ok(self.at_on_line(TokenKind::Arrow))
    }

    /// A return type that begins as the parameters of an arrow function do, `=>` and a body, if that takes
    /// no `:` of the conditional around it. Returns whether it is there.
    #[cycle(grammar)]
    fn try_typed_arrow(&mut self, depth: usize, is_async: bool) -> Parsed<bool> {
        if depth == 0 {
            return Err(self.too_deep());
        }
        if self.has_failed() {
            return Ok(false);
        }
        let state = self.begin_try()?;
        let result = self.typed_arrow(depth - 1, is_async);
        self.end_try(depth, state, result)
    }

    /// A return type, `=>` and a body. Returns whether they are there, and take no `:` of the conditional
    /// around them.
    #[cycle(grammar)]
    fn typed_arrow(&mut self, depth: usize, is_async: bool) -> Parsed<bool> {
        if depth == 0 {
            return Err(self.too_deep());
        }
        if !self.return_type_before_arrow(depth - 1)? {
            return Ok(false);
        }
        self.arrow_body(depth - 1, is_async)?;
        Ok(self.has_read_conditional || self.at(TokenKind::Colon))
    }
}
