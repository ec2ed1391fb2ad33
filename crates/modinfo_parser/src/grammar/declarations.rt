//! Declarations that JavaScript has.

use crate::grammar::statements::Item;
use crate::parser::{Parsed, Parser};
use modinfo_lexer::token::TokenKind;

impl<'a> Parser<'a> {
    /// A declaration, or an expression if the words don't begin one.
    #[cycle(grammar)]
    pub(crate) fn declaration_or_expression(&mut self, depth: usize) -> Parsed<()> {
        if depth == 0 {
            return Err(self.too_deep());
        }
        match self.kind() {
            TokenKind::Var | TokenKind::Const => return self.variable_statement(depth - 1),
            TokenKind::Function => return self.function_declaration(depth - 1, false),
            TokenKind::Class => return self.class_declaration(depth - 1),
            TokenKind::Let if self.is_let_declaration()? => {
                return self.variable_statement(depth - 1);
            }
            TokenKind::Using if self.is_using_declaration(false)? => {
                return self.variable_statement(depth - 1);
            }
            TokenKind::Async if self.is_async_function()? => {
                self.next()?;
                return self.function_declaration(depth - 1, true);
            }
            TokenKind::Await if self.eat_await_using()? => {
                self.variables(depth - 1)?;
                return self.semicolon();
            }
            _ => (),
        }
        self.expression_statement(depth - 1)
    }

    /// Variables after `var`, `let`, `const` or `using`, which is the current token.
    #[cycle(grammar)]
    fn variable_statement(&mut self, depth: usize) -> Parsed<()> {
        if depth == 0 {
            return Err(self.too_deep());
        }
        self.next()?;
        self.variables(depth - 1)?;
        self.semicolon()
    }

    /// Returns whether `function` follows the current `async` on its line.
    pub(crate) fn is_async_function(&mut self) -> Parsed<bool> {
        let following = self.peek()?;
        Ok(following.kind == TokenKind::Function && !following.is_after_line_end)
    }

    /// A class or an export after decorators.
    #[cycle(grammar)]
    pub(crate) fn decorated_item(&mut self, depth: usize) -> Parsed<Item> {
        if depth == 0 {
            return Err(self.too_deep());
        }
        let first = self.nodes.len();
        let start = self.start();
        self.decorators(depth - 1)?;
        if self.at(TokenKind::Export) {
            return self.export_from(depth - 1, first, start);
        }
        self.class_after_decorators(depth - 1)?;
        Ok(Item::Plain)
    }

    /// A class with decorators, as a statement.
    #[cycle(grammar)]
    pub(crate) fn decorated_class_declaration(&mut self, depth: usize) -> Parsed<()> {
        if depth == 0 {
            return Err(self.too_deep());
        }
        self.decorators(depth - 1)?;
        self.class_after_decorators(depth - 1)
    }

    /// The class after decorators of a statement.
    #[cycle(grammar)]
    fn class_after_decorators(&mut self, depth: usize) -> Parsed<()> {
        if depth == 0 {
            return Err(self.too_deep());
        }
        if self.language.is_typescript {
            self.eat(TokenKind::Declare)?;
            self.eat(TokenKind::Abstract)?;
        }
        if !self.at(TokenKind::Class) {
            return Err(self.error("expected a class after the decorators"));
        }
        self.class_declaration(depth - 1)
    }

    /// `class` with its name.
    #[cycle(grammar)]
    pub(crate) fn class_declaration(&mut self, depth: usize) -> Parsed<()> {
        if depth == 0 {
            return Err(self.too_deep());
        }
        if !self.peek()?.kind.is_identifier() {
            self.next()?;
            return Err(self.error("expected the name of the class"));
        }
        self.class_expression(depth - 1)?;
        Ok(())
    }

    /// `function` with its name.
    #[cycle(grammar)]
    fn function_declaration(&mut self, depth: usize, is_async: bool) -> Parsed<()> {
        if depth == 0 {
            return Err(self.too_deep());
        }
        self.next()?;
        let is_generator = self.eat(TokenKind::Star)?;
        if !self.kind().is_identifier() {
            return Err(self.error("expected the name of the function"));
        }
        self.next()?;
        self.method(depth - 1, is_async, is_generator)
    }
}
