//! Loops.

use crate::parser::{Parsed, Parser};
use crate::shape::Shape;
use modinfo_lexer::token::TokenKind;

impl<'a> Parser<'a> {
    /// `while`, with its condition and its statement.
    #[cycle(grammar)]
    pub(crate) fn while_statement(&mut self, depth: usize) -> Parsed<()> {
        if depth == 0 {
            return Err(self.too_deep());
        }
        self.next()?;
        self.condition(depth - 1)?;
        self.body(depth - 1)
    }

    /// `do`, with its statement and its condition. A `;` after it may be left out.
    #[cycle(grammar)]
    pub(crate) fn do_statement(&mut self, depth: usize) -> Parsed<()> {
        if depth == 0 {
            return Err(self.too_deep());
        }
        self.next()?;
        self.body(depth - 1)?;
        self.expect(
            TokenKind::While,
            "expected `while` after the statement of `do`",
        )?;
        self.condition(depth - 1)?;
        self.eat(TokenKind::Semicolon)?;
        Ok(())
    }

    /// `for`, with its head and its statement. A level of loops takes much of the stack, so it costs two more
    /// of the depth.
    #[cycle(grammar)]
    pub(crate) fn for_statement(&mut self, depth: usize) -> Parsed<()> {
        if depth < 3 {
            return Err(self.too_deep());
        }
        let first = self.nodes.len();
        let start = self.start();
        self.next()?;
        let is_await = self.context.is_async && self.eat(TokenKind::Await)?;
        self.expect(TokenKind::ParenOpen, "expected `(` after `for`")?;
        if is_await && !self.context.is_function {
            self.push(Shape::Await, first, start)?;
        }
        let context = self.context;
        self.context = context.in_brackets();
        let result = self.for_head(depth - 1, is_await);
        self.context = context;
        result?;
        self.expect(
            TokenKind::ParenClose,
            "expected `)` after the head of the loop",
        )?;
        self.body(depth - 3)
    }

    /// What is between the parentheses of `for`.
    #[cycle(grammar)]
    fn for_head(&mut self, depth: usize, is_await: bool) -> Parsed<()> {
        if depth == 0 {
            return Err(self.too_deep());
        }
        if !self.at(TokenKind::Semicolon) {
            self.context.allows_in = false;
            self.for_start(depth - 1)?;
            self.context.allows_in = true;
        }
        if is_await && !self.at(TokenKind::Of) {
            return Err(self.error("expected `of` in the loop of `for await`"));
        }
        match self.kind() {
            TokenKind::Of => {
                self.next()?;
                self.assignment(depth - 1)?;
                return Ok(());
            }
            TokenKind::In => {
                self.next()?;
                self.expression(depth - 1)?;
                return Ok(());
            }
            _ => self.expect(
                TokenKind::Semicolon,
                "expected `;`, `of` or `in` in the loop",
            )?,
        }
        if !self.at(TokenKind::Semicolon) {
            self.expression(depth - 1)?;
        }
        self.expect(
            TokenKind::Semicolon,
            "expected `;` after the condition of the loop",
        )?;
        if !self.at(TokenKind::ParenClose) {
            self.expression(depth - 1)?;
        }
        Ok(())
    }

    /// The variables or the expression at the start of a loop's head.
    #[cycle(grammar)]
    fn for_start(&mut self, depth: usize) -> Parsed<()> {
        if depth == 0 {
            return Err(self.too_deep());
        }
        let is_declaration = match self.kind() {
            TokenKind::Var | TokenKind::Const => true,
            TokenKind::Let => self.is_let_declaration()?,
            TokenKind::Using => self.is_using_declaration(true)?,
            _ => false,
        };
        if is_declaration {
            self.next()?;
            return self.variables(depth - 1);
        }
        if self.eat_await_using()? {
            return self.variables(depth - 1);
        }
        self.expression(depth - 1)?;
        Ok(())
    }
}
