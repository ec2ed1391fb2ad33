//! Statements, but for declarations.

use crate::parser::{Form, Parsed, Parser};
use modinfo_lexer::token::TokenKind;

/// Whether a statement has added the one node that stands for it.
#[derive(Clone, Copy, Debug, PartialEq, Eq)]
pub(crate) enum Item {
    Node,
    Plain,
}

impl<'a> Parser<'a> {
    /// A statement or a declaration, but no import and no export.
    #[cycle(grammar)]
    pub(crate) fn statement(&mut self, depth: usize) -> Parsed<Item> {
        if depth == 0 {
            return Err(self.too_deep());
        }
        match self.kind() {
            TokenKind::Export => {
                return Err(self.error("expected no export here"));
            }
            TokenKind::At => {
                self.decorated_class_declaration(depth - 1)?;
                return Ok(Item::Plain);
            }
            kind if self.language.is_typescript && may_begin_typed(kind) => {
                let item = self.typescript_statement(depth - 1)?;
                if let Some(item) = item {
                    return Ok(item);
                }
            }
            _ => (),
        }
        self.plain_statement(depth - 1)?;
        Ok(Item::Plain)
    }

    /// A statement that is neither an import nor an export, and that JavaScript has too.
    #[cycle(grammar)]
    pub(crate) fn plain_statement(&mut self, depth: usize) -> Parsed<()> {
        if depth == 0 {
            return Err(self.too_deep());
        }
        match self.kind() {
            TokenKind::BraceOpen => self.block(depth - 1),
            TokenKind::Semicolon => self.next(),
            TokenKind::If => self.if_statement(depth - 1),
            TokenKind::For => self.for_statement(depth - 1),
            TokenKind::While => self.while_statement(depth - 1),
            TokenKind::Do => self.do_statement(depth - 1),
            TokenKind::Return => self.return_statement(depth - 1),
            TokenKind::Throw => self.throw_statement(depth - 1),
            TokenKind::Break | TokenKind::Continue => self.jump_statement(),
            TokenKind::Switch => self.switch_statement(depth - 1),
            TokenKind::Try => self.try_statement(depth - 1),
            TokenKind::With => self.with_statement(depth - 1),
            TokenKind::Debugger => self.debugger_statement(),
            _ => self.declaration_or_expression(depth - 1),
        }
    }

    /// `{`, statements and `}`.
    #[cycle(grammar)]
    pub(crate) fn block(&mut self, depth: usize) -> Parsed<()> {
        if depth == 0 {
            return Err(self.too_deep());
        }
        self.expect(TokenKind::BraceOpen, "expected `{` before the statements")?;
        let context = self.context;
        self.context = context.in_brackets();
        let result = self.statements_to_brace(depth - 1);
        self.context = context;
        result?;
        self.expect(TokenKind::BraceClose, "expected `}` after the statements")
    }

    /// Statements up to a `}`.
    #[cycle(grammar)]
    fn statements_to_brace(&mut self, depth: usize) -> Parsed<()> {
        if depth == 0 {
            return Err(self.too_deep());
        }
        for _turn in 0..self.turns {
            if matches!(self.kind(), TokenKind::BraceClose | TokenKind::EndOfText) {
                break;
            }
            self.statement(depth - 1)?;
        }
        Ok(())
    }

    /// The statement inside another, where no declaration may stand.
    #[cycle(grammar)]
    pub(crate) fn body(&mut self, depth: usize) -> Parsed<()> {
        if depth == 0 {
            return Err(self.too_deep());
        }
        if !self.eat_lone_let()? {
            self.statement(depth - 1)?;
        }
        Ok(())
    }

    /// `(`, an expression and `)`.
    #[cycle(grammar)]
    pub(crate) fn condition(&mut self, depth: usize) -> Parsed<()> {
        if depth == 0 {
            return Err(self.too_deep());
        }
        self.expect(TokenKind::ParenOpen, "expected `(` before the condition")?;
        self.bracketed_expression(depth - 1)?;
        self.expect(TokenKind::ParenClose, "expected `)` after the condition")
    }

    /// `if`, with all its `else if`.
    #[cycle(grammar)]
    fn if_statement(&mut self, depth: usize) -> Parsed<()> {
        if depth == 0 {
            return Err(self.too_deep());
        }
        for _turn in 0..self.turns {
            self.next()?;
            self.condition(depth - 1)?;
            self.body(depth - 1)?;
            if !self.eat(TokenKind::Else)? {
                break;
            }
            if !self.at(TokenKind::If) {
                self.body(depth - 1)?;
                break;
            }
        }
        Ok(())
    }

    /// `return`, with an expression if there is one on the line.
    #[cycle(grammar)]
    fn return_statement(&mut self, depth: usize) -> Parsed<()> {
        if depth == 0 {
            return Err(self.too_deep());
        }
        self.next()?;
        let token = self.token();
        let is_alone = token.is_after_line_end
            || matches!(
                token.kind,
                TokenKind::Semicolon | TokenKind::BraceClose | TokenKind::EndOfText
            );
        if !is_alone {
            self.expression(depth - 1)?;
        }
        self.semicolon()
    }

    /// `throw` with an expression, which begins on the line.
    #[cycle(grammar)]
    fn throw_statement(&mut self, depth: usize) -> Parsed<()> {
        if depth == 0 {
            return Err(self.too_deep());
        }
        self.next()?;
        if self.token().is_after_line_end {
            return Err(self.error("expected an expression on the line of `throw`"));
        }
        self.expression(depth - 1)?;
        self.semicolon()
    }

    /// `break` or `continue`, with a label if there is one on the line.
    fn jump_statement(&mut self) -> Parsed<()> {
        self.next()?;
        let token = self.token();
        if token.kind.is_identifier() && !token.is_after_line_end {
            self.next()?;
        }
        self.semicolon()
    }

    fn debugger_statement(&mut self) -> Parsed<()> {
        self.next()?;
        self.semicolon()
    }

    /// `with`, with its object and its statement.
    #[cycle(grammar)]
    fn with_statement(&mut self, depth: usize) -> Parsed<()> {
        if depth == 0 {
            return Err(self.too_deep());
        }
        self.next()?;
        self.condition(depth - 1)?;
        self.body(depth - 1)
    }

    /// `try`, with `catch` and `finally`.
    #[cycle(grammar)]
    fn try_statement(&mut self, depth: usize) -> Parsed<()> {
        if depth == 0 {
            return Err(self.too_deep());
        }
        self.next()?;
        self.block(depth - 1)?;
        let has_catch = self.at(TokenKind::Catch);
        if has_catch {
            self.catch_clause(depth - 1)?;
        }
        if self.eat(TokenKind::Finally)? {
            return self.block(depth - 1);
        }
        if has_catch {
            Ok(())
        } else {
            Err(self.error("expected `catch` or `finally` after the block of `try`"))
        }
    }

    /// `catch`, with the name of the error if there is one, and its block.
    #[cycle(grammar)]
    fn catch_clause(&mut self, depth: usize) -> Parsed<()> {
        if depth == 0 {
            return Err(self.too_deep());
        }
        self.next()?;
        if self.eat(TokenKind::ParenOpen)? {
            self.binding(depth - 1)?;
            if self.language.is_typescript {
                self.type_annotation(depth - 1)?;
            }
            self.expect(
                TokenKind::ParenClose,
                "expected `)` after the name of the error",
            )?;
        }
        self.block(depth - 1)
    }

    /// `switch`, with its cases.
    #[cycle(grammar)]
    fn switch_statement(&mut self, depth: usize) -> Parsed<()> {
        if depth == 0 {
            return Err(self.too_deep());
        }
        self.next()?;
        self.condition(depth - 1)?;
        self.expect(TokenKind::BraceOpen, "expected `{` before the cases")?;
        for _turn in 0..self.turns {
            if self.at(TokenKind::BraceClose) {
                break;
            }
            self.switch_case(depth - 1)?;
        }
        self.expect(TokenKind::BraceClose, "expected `}` after the cases")
    }

    /// `case` with its value or `default`, and the statements of the case.
    #[cycle(grammar)]
    fn switch_case(&mut self, depth: usize) -> Parsed<()> {
        if depth == 0 {
            return Err(self.too_deep());
        }
        if self.eat(TokenKind::Case)? {
            self.expression(depth - 1)?;
            self.expect(TokenKind::Colon, "expected `:` after the case")?;
        } else {
            self.expect(TokenKind::Default, "expected `case`, `default` or `}`")?;
            self.expect(TokenKind::Colon, "expected `:` after `default`")?;
        }
        for _turn in 0..self.turns {
            if matches!(
                self.kind(),
                TokenKind::Case | TokenKind::Default | TokenKind::BraceClose
            ) {
                break;
            }
            self.statement(depth - 1)?;
        }
        Ok(())
    }

    /// An expression, or a label with its statement.
    #[cycle(grammar)]
    pub(crate) fn expression_statement(&mut self, depth: usize) -> Parsed<()> {
        if depth == 0 {
            return Err(self.too_deep());
        }
        let form = self.expression(depth - 1)?;
        if matches!(form, Form::Identifier | Form::Require) && self.eat(TokenKind::Colon)? {
            return self.body(depth - 1);
        }
        self.semicolon()
    }
}

/// Returns whether a statement that TypeScript alone has may begin with a word.
pub(crate) fn may_begin_typed(kind: TokenKind) -> bool {
    matches!(
        kind,
        TokenKind::Abstract
            | TokenKind::Const
            | TokenKind::Declare
            | TokenKind::Enum
            | TokenKind::Global
            | TokenKind::Interface
            | TokenKind::Module
            | TokenKind::Namespace
            | TokenKind::Type
    )
}
