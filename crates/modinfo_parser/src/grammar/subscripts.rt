//! What follows an operand: members, calls, tags of templates.

use crate::parser::{Form, Operand, Parsed, Parser};
use modinfo_lexer::token::TokenKind;

impl<'a> Parser<'a> {
    /// The members and calls after an operand.
    #[cycle(grammar)]
    #[inline(never)]
    pub(crate) fn subscripts(&mut self, depth: usize, operand: Operand) -> Parsed<Form> {
        if depth == 0 {
            return Err(self.too_deep());
        }
        let mut form = operand.form;
        for _turn in 0..self.turns {
            match self.kind() {
                TokenKind::Dot => self.member_name()?,
                TokenKind::ParenOpen => {
                    let types = self.nodes.len();
                    self.call(depth - 1, operand.with_form(form), types)?;
                }
                TokenKind::BracketOpen => self.computed_member(depth - 1)?,
                TokenKind::QuestionDot => self.optional_member(depth - 1)?,
                TokenKind::Template | TokenKind::TemplateHead => self.tagged_template(depth - 1)?,
                TokenKind::Bang if self.language.is_typescript && !self.token().is_after_line_end =>
                    {
                        self.next()?;
                    }
                TokenKind::Less | TokenKind::ShiftLeft if self.language.is_typescript => {
                    let types = self.nodes.len();
                    if !self.try_type_arguments(depth - 1)? {
                        break;
                    }
                    if self.at(TokenKind::ParenOpen) {
                        self.call(depth - 1, operand.with_form(form), types)?;
                    }
                }
                _ => break,
            }
            form = Form::Other;
        }
        Ok(form)
    }

    /// `.` and the name of a member.
    #[inline(always)]
    pub(crate) fn member_name(&mut self) -> Parsed<()> {
        self.next()?;
        let kind = self.kind();
        if kind.is_name() || kind == TokenKind::PrivateName {
            self.next()
        } else {
            Err(self.error("expected a name after `.`"))
        }
    }

    /// `[`, an expression and `]`.
    #[cycle(grammar)]
    pub(crate) fn computed_member(&mut self, depth: usize) -> Parsed<()> {
        if depth == 0 {
            return Err(self.too_deep());
        }
        self.next()?;
        self.bracketed_expression(depth - 1)?;
        self.expect(TokenKind::BracketClose, "expected `]` after the expression")
    }

    /// `?.`, with the name of a member or type arguments if they follow.
    #[cycle(grammar)]
    fn optional_member(&mut self, depth: usize) -> Parsed<()> {
        if depth == 0 {
            return Err(self.too_deep());
        }
        self.next()?;
        let kind = self.kind();
        if kind.is_name() || kind == TokenKind::PrivateName {
            return self.next();
        }
        match kind {
            TokenKind::ParenOpen => {
                self.arguments(depth - 1)?;
                Ok(())
            }
            TokenKind::BracketOpen => self.computed_member(depth - 1),
            TokenKind::Less | TokenKind::ShiftLeft if self.language.is_typescript => {
                let types = self.nodes.len();
                self.type_arguments(depth - 1)?;
                self.arguments_before(depth - 1, types)?;
                Ok(())
            }
            _ => Err(self.error("expected a name, `(` or `[` after `?.`")),
        }
    }

    /// The template after a tag.
    #[cycle(grammar)]
    fn tagged_template(&mut self, depth: usize) -> Parsed<()> {
        if depth == 0 {
            return Err(self.too_deep());
        }
        let context = self.context;
        self.context.keeps_values = false;
        let result = self.template(depth - 1, true);
        self.context = context;
        result?;
        Ok(())
    }

    /// A constructor after `new`, with its arguments if there are any. `new.target` too.
    #[cycle(grammar)]
    pub(crate) fn new_expression(&mut self, depth: usize) -> Parsed<Form> {
        if depth == 0 {
            return Err(self.too_deep());
        }
        self.next()?;
        if self.at(TokenKind::Dot) {
            self.member_name()?;
            return Ok(Form::Other);
        }
        let context = self.context;
        self.context.keeps_values = false;
        let result = self.constructor(depth - 1);
        self.context = context;
        result?;
        Ok(Form::Other)
    }

    /// An operand with members and no calls, and then arguments if there are any.
    #[cycle(grammar)]
    fn constructor(&mut self, depth: usize) -> Parsed<()> {
        if depth == 0 {
            return Err(self.too_deep());
        }
        self.primary(depth - 1)?;
        for _turn in 0..self.turns {
            match self.kind() {
                TokenKind::Dot => self.member_name()?,
                TokenKind::BracketOpen => self.computed_member(depth - 1)?,
                TokenKind::Template | TokenKind::TemplateHead => self.tagged_template(depth - 1)?,
                TokenKind::Bang if self.language.is_typescript && !self.token().is_after_line_end =>
                    {
                        self.next()?;
                    }
                TokenKind::Less | TokenKind::ShiftLeft if self.language.is_typescript => {
                    let types = self.nodes.len();
                    if !self.try_type_arguments(depth - 1)? {
                        break;
                    }
                    if self.at(TokenKind::ParenOpen) {
                        return self.arguments_before(depth - 1, types);
                    }
                }
                _ => break,
            }
        }
        match self.kind() {
            TokenKind::ParenOpen => {
                self.arguments(depth - 1)?;
                Ok(())
            }
            TokenKind::QuestionDot => {
                Err(self.error("expected `(`: `?.` can't follow the constructor after `new`"))
            }
            _ => Ok(()),
        }
    }
}
