//! Names and patterns that are bound, and declarations of variables.

use crate::parser::{Parsed, Parser};
use crate::shape::Shape;
use modinfo_lexer::syntax_error::ReadError;
use modinfo_lexer::token::TokenKind;

impl<'a> Parser<'a> {
    /// A name, or a pattern, which is read as an array or an object literal.
    #[cycle(grammar)]
    pub(crate) fn binding(&mut self, depth: usize) -> Parsed<()> {
        if depth == 0 {
            return Err(self.too_deep());
        }
        let start = self.start();
        match self.kind() {
            TokenKind::BracketOpen => self.array(depth - 1)?,
            TokenKind::BraceOpen => self.object(depth - 1)?,
            TokenKind::This if self.language.is_typescript => return self.next(),
            _ => return self.bound_name(),
        };
        if self.no_pattern > start {
            return Err(ReadError::syntax(
                "expected a name or a pattern",
                self.no_pattern.saturating_sub(1),
            ));
        }
        Ok(())
    }

    /// A name that is bound.
    pub(crate) fn bound_name(&mut self) -> Parsed<()> {
        let kind = self.kind();
        if kind == TokenKind::Await && (self.context.is_async || !self.language.is_script) {
            return Err(self.error("`await` is no name in modules and async functions"));
        }
        if kind.is_identifier() {
            self.next()
        } else {
            Err(self.error("expected a name"))
        }
    }

    /// Variables with commas between them, after `var`, `let`, `const` or `using`.
    #[cycle(grammar)]
    pub(crate) fn variables(&mut self, depth: usize) -> Parsed<()> {
        if depth == 0 {
            return Err(self.too_deep());
        }
        for _turn in 0..self.turns {
            self.variable(depth - 1)?;
            if !self.eat(TokenKind::Comma)? {
                break;
            }
        }
        Ok(())
    }

    /// A variable, with its type and its value.
    #[cycle(grammar)]
    fn variable(&mut self, depth: usize) -> Parsed<()> {
        if depth == 0 {
            return Err(self.too_deep());
        }
        self.binding(depth - 1)?;
        if self.language.is_typescript {
            if self.at_on_line(TokenKind::Bang) {
                self.next()?;
            }
            self.type_annotation(depth - 1)?;
        }
        if self.eat(TokenKind::Equal)? {
            self.assignment(depth - 1)?;
        }
        Ok(())
    }

    /// Goes on after a `let` before a line end, where a statement but no declaration may stand: there
    /// `let` is a name in JavaScript, also before a name or a `{`. Returns whether it is there.
    pub(crate) fn eat_lone_let(&mut self) -> Parsed<bool> {
        if !self.at(TokenKind::Let) || self.language.is_typescript {
            return Ok(false);
        }
        let following = self.peek()?;
        let is_alone = following.is_after_line_end
            && (following.kind.is_identifier() || following.kind == TokenKind::BraceOpen);
        if is_alone {
            self.next()?;
        }
        Ok(is_alone)
    }

    /// Returns whether variables follow the current `let`.
    pub(crate) fn is_let_declaration(&mut self) -> Parsed<bool> {
        let following = self.peek()?;
        Ok(
            following.kind.is_identifier()
                || matches!(
                    following.kind,
                    TokenKind::BracketOpen | TokenKind::BraceOpen
                ),
        )
    }

    /// Returns whether a resource that is bound follows the current `using`. In the head of a `for` loop
    /// `using of` begins with the name `using`.
    pub(crate) fn is_using_declaration(&mut self, is_in_for: bool) -> Parsed<bool> {
        let following = self.peek()?;
        Ok(
            !following.is_after_line_end
                && following.kind.is_identifier()
                && !(is_in_for && following.kind == TokenKind::Of),
        )
    }

    /// Goes on after `await using` before a name on the same line, and keeps the node of an await if no
    /// function is around it. Returns whether that is there.
    pub(crate) fn eat_await_using(&mut self) -> Parsed<bool> {
        if !self.at(TokenKind::Await) || !self.context.is_async {
            return Ok(false);
        }
        let following = self.peek()?;
        if following.kind != TokenKind::Using || following.is_after_line_end {
            return Ok(false);
        }
        let state = self.state();
        let first = self.nodes.len();
        let start = self.start();
        self.next()?;
        let is_declaration = self.is_using_declaration(false)?;
        if !is_declaration {
            self.reset(state);
            return Ok(false);
        }
        self.next()?;
        if !self.context.is_function {
            self.push(Shape::Await, first, start)?;
        }
        Ok(true)
    }
}
