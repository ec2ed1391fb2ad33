//! Functions, their parameters and their bodies.

use crate::parser::{Form, Parsed, Parser};
use modinfo_lexer::characters::byte_at;
use modinfo_lexer::token::TokenKind;

impl<'a> Parser<'a> {
    /// `function`, with a name or without, and a body.
    #[cycle(grammar)]
    pub(crate) fn function_expression(&mut self, depth: usize, is_async: bool) -> Parsed<Form> {
        if depth == 0 {
            return Err(self.too_deep());
        }
        self.function(depth - 1, is_async)?;
        let last = self.lexer.previous_end().saturating_sub(1);
        if byte_at(self.lexer.text().as_bytes(), last) != b'}' {
            return Err(self.error("expected `{` before the body of the function"));
        }
        Ok(Form::Other)
    }

    /// `function`, with a name or without. In TypeScript the body may be left out.
    #[cycle(grammar)]
    pub(crate) fn function(&mut self, depth: usize, is_async: bool) -> Parsed<()> {
        if depth == 0 {
            return Err(self.too_deep());
        }
        self.next()?;
        let is_generator = self.eat(TokenKind::Star)?;
        if self.kind().is_identifier() {
            self.next()?;
        }
        self.method(depth - 1, is_async, is_generator)
    }

    /// The parameters and the body of a function or a method.
    #[cycle(grammar)]
    pub(crate) fn method(
        &mut self,
        depth: usize,
        is_async: bool,
        is_generator: bool,
    ) -> Parsed<()> {
        if depth == 0 {
            return Err(self.too_deep());
        }
        let context = self.context;
        let no_parameter = self.no_parameter;
        self.context = context.in_brackets().in_function(is_async, is_generator);
        let result = self.signature_and_body(depth - 1);
        self.context = context;
        self.no_parameter = no_parameter;
        result
    }

    /// A signature and a body. In TypeScript the body may be left out.
    #[cycle(grammar)]
    fn signature_and_body(&mut self, depth: usize) -> Parsed<()> {
        if depth == 0 {
            return Err(self.too_deep());
        }
        let start = self.start();
        self.signature(depth - 1)?;
        if self.no_parameter > start {
            return Err(self.error_in_parameters());
        }
        if self.at(TokenKind::BraceOpen) {
            return self.block(depth - 1);
        }
        if self.language.is_typescript {
            return self.semicolon();
        }
        Err(self.error("expected `{` before the body of the function"))
    }

    /// Parameters, with type parameters and the type of the result in TypeScript.
    #[cycle(grammar)]
    pub(crate) fn signature(&mut self, depth: usize) -> Parsed<()> {
        if depth == 0 {
            return Err(self.too_deep());
        }
        if self.at(TokenKind::Less) && self.language.is_typescript {
            self.type_parameters(depth - 1)?;
        }
        self.parameters(depth - 1)?;
        if self.language.is_typescript && self.eat(TokenKind::Colon)? {
            self.return_type(depth - 1)?;
        }
        Ok(())
    }

    /// `(`, parameters with commas between them, and `)`.
    #[cycle(grammar)]
    pub(crate) fn parameters(&mut self, depth: usize) -> Parsed<()> {
        if depth == 0 {
            return Err(self.too_deep());
        }
        self.expect(TokenKind::ParenOpen, "expected `(` before the parameters")?;
        let context = self.context;
        self.context = context.in_brackets();
        let result = self.list_of_parameters(depth - 1);
        self.context = context;
        result?;
        self.expect(TokenKind::ParenClose, "expected `)` after the parameters")
    }

    /// Parameters with commas between them.
    #[cycle(grammar)]
    fn list_of_parameters(&mut self, depth: usize) -> Parsed<()> {
        if depth == 0 {
            return Err(self.too_deep());
        }
        for _turn in 0..self.turns {
            if self.at(TokenKind::ParenClose) {
                break;
            }
            self.parameter(depth - 1)?;
            if !self.eat(TokenKind::Comma)? {
                break;
            }
        }
        Ok(())
    }

    /// A parameter, with its decorators, its type and its default.
    #[cycle(grammar)]
    fn parameter(&mut self, depth: usize) -> Parsed<()> {
        if depth == 0 {
            return Err(self.too_deep());
        }
        self.decorators(depth - 1)?;
        for _turn in 0..self.turns {
            if !self.at_parameter_modifier()? {
                break;
            }
            self.next()?;
        }
        self.eat(TokenKind::DotDotDot)?;
        self.binding(depth - 1)?;
        if self.language.is_typescript {
            self.eat(TokenKind::Question)?;
            self.type_annotation(depth - 1)?;
        }
        if self.eat(TokenKind::Equal)? {
            self.assignment(depth - 1)?;
        }
        Ok(())
    }
}
