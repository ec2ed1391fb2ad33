//! Classes, and decorators.

use crate::parser::{Form, Operand, Parsed, Parser};
use modinfo_lexer::token::TokenKind;

impl<'a> Parser<'a> {
    /// `class`, with a name or without.
    #[cycle(grammar)]
    pub(crate) fn class_expression(&mut self, depth: usize) -> Parsed<Form> {
        if depth == 0 {
            return Err(self.too_deep());
        }
        self.next()?;
        if self.kind().is_identifier() && !self.is_implements_clause()? {
            self.next()?;
        }
        let context = self.context;
        self.context = context.in_brackets();
        let result = self.class_after_name(depth - 1);
        self.context = context;
        result?;
        Ok(Form::Other)
    }

    /// Returns whether the current token is the word `implements` before a type.
    fn is_implements_clause(&mut self) -> Parsed<bool> {
        if !self.at(TokenKind::Implements) || !self.language.is_typescript {
            return Ok(false);
        }
        Ok(self.peek()?.kind.is_name())
    }

    /// A class after decorators.
    #[cycle(grammar)]
    pub(crate) fn decorated_class(&mut self, depth: usize) -> Parsed<Form> {
        if depth == 0 {
            return Err(self.too_deep());
        }
        self.decorators(depth - 1)?;
        if self.language.is_typescript {
            self.eat(TokenKind::Abstract)?;
        }
        if self.at(TokenKind::Class) {
            return self.class_expression(depth - 1);
        }
        Err(self.error("expected a class after the decorators"))
    }

    /// What follows the name of a class.
    #[cycle(grammar)]
    fn class_after_name(&mut self, depth: usize) -> Parsed<()> {
        if depth == 0 {
            return Err(self.too_deep());
        }
        if self.at(TokenKind::Less) && self.language.is_typescript {
            self.type_parameters(depth - 1)?;
        }
        if self.eat(TokenKind::Extends)? {
            self.superclass(depth - 1)?;
        }
        if self.language.is_typescript && self.eat(TokenKind::Implements)? {
            self.list_of_types(depth - 1)?;
        }
        self.class_body(depth - 1)
    }

    /// The class after `extends`, with type arguments. A level of these takes much of the stack, so it costs one
    /// more of the depth.
    #[cycle(grammar)]
    fn superclass(&mut self, depth: usize) -> Parsed<()> {
        if depth < 2 {
            return Err(self.too_deep());
        }
        self.postfix(depth - 2)?;
        if self.language.is_typescript
            && matches!(self.kind(), TokenKind::Less | TokenKind::ShiftLeft)
        {
            self.type_arguments(depth - 1)?;
        }
        Ok(())
    }

    /// `{`, members and `}`.
    #[cycle(grammar)]
    fn class_body(&mut self, depth: usize) -> Parsed<()> {
        if depth == 0 {
            return Err(self.too_deep());
        }
        self.expect(
            TokenKind::BraceOpen,
            "expected `{` before the members of the class",
        )?;
        for _turn in 0..self.turns {
            if self.at(TokenKind::BraceClose) {
                break;
            }
            self.class_member(depth - 1)?;
        }
        self.expect(
            TokenKind::BraceClose,
            "expected `}` after the members of the class",
        )
    }

    /// Decorators, if there are any.
    #[cycle(grammar)]
    pub(crate) fn decorators(&mut self, depth: usize) -> Parsed<()> {
        if depth == 0 {
            return Err(self.too_deep());
        }
        for _turn in 0..self.turns {
            if !self.eat(TokenKind::At)? {
                break;
            }
            self.decorator(depth - 1)?;
        }
        Ok(())
    }

    /// The expression of a decorator: an operand with members and calls, without `[`.
    #[cycle(grammar)]
    fn decorator(&mut self, depth: usize) -> Parsed<()> {
        if depth == 0 {
            return Err(self.too_deep());
        }
        let first = self.nodes.len();
        let start = self.start();
        let form = self.primary(depth - 1)?;
        let end = self.lexer.previous_end();
        let mut operand = Operand {
            form,
            first,
            start,
            end,
        };
        for _turn in 0..self.turns {
            match self.kind() {
                TokenKind::Dot => self.member_name()?,
                TokenKind::ParenOpen => {
                    let types = self.nodes.len();
                    self.call(depth - 1, operand, types)?;
                }
                TokenKind::Bang if self.language.is_typescript && !self.token().is_after_line_end =>
                    {
                        self.next()?;
                    }
                TokenKind::Less | TokenKind::ShiftLeft if self.language.is_typescript => {
                    let types = self.nodes.len();
                    self.type_arguments(depth - 1)?;
                    self.call(depth - 1, operand, types)?;
                }
                _ => break,
            }
            operand = operand.with_form(Form::Other);
        }
        Ok(())
    }
}
