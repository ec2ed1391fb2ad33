//! Members of classes.

use crate::grammar::modifiers::Modifiers;
use crate::parser::{Parsed, Parser};
use modinfo_lexer::token::TokenKind;

impl<'a> Parser<'a> {
    /// A member of a class, or a `;` between members.
    #[cycle(grammar)]
    pub(crate) fn class_member(&mut self, depth: usize) -> Parsed<()> {
        if depth == 0 {
            return Err(self.too_deep());
        }
        if self.eat(TokenKind::Semicolon)? {
            return Ok(());
        }
        self.decorators(depth - 1)?;
        let modifiers = self.member_modifiers()?;
        if modifiers.is_static {
            return self.static_block(depth - 1);
        }
        if modifiers.name.is_none() {
            if self.language.is_typescript && self.is_index_signature()? {
                return self.index_signature(depth - 1);
            }
            self.property_name(depth - 1)?;
        }
        if self.language.is_typescript
            && matches!(self.kind(), TokenKind::Question | TokenKind::Bang)
        {
            self.next()?;
        }
        self.member_after_name(depth - 1, modifiers)
    }

    /// A method or a field after its name.
    #[cycle(grammar)]
    fn member_after_name(&mut self, depth: usize, modifiers: Modifiers) -> Parsed<()> {
        if depth == 0 {
            return Err(self.too_deep());
        }
        if matches!(self.kind(), TokenKind::ParenOpen | TokenKind::Less) {
            return self.method(depth - 1, modifiers.is_async, modifiers.is_generator);
        }
        if modifiers.is_method {
            return Err(self.error("expected `(` before the parameters"));
        }
        if self.language.is_typescript {
            self.type_annotation(depth - 1)?;
        }
        if self.eat(TokenKind::Equal)? {
            self.field_value(depth - 1)?;
        }
        self.semicolon()
    }

    /// The value of a field, which is read as a function's body is.
    #[cycle(grammar)]
    fn field_value(&mut self, depth: usize) -> Parsed<()> {
        if depth == 0 {
            return Err(self.too_deep());
        }
        let context = self.context;
        let no_parameter = self.no_parameter;
        self.context = context.in_function(false, false);
        let result = self.assignment(depth - 1);
        self.context = context;
        self.no_parameter = no_parameter;
        result?;
        Ok(())
    }

    /// The block after `static`.
    #[cycle(grammar)]
    fn static_block(&mut self, depth: usize) -> Parsed<()> {
        if depth == 0 {
            return Err(self.too_deep());
        }
        let context = self.context;
        let no_parameter = self.no_parameter;
        self.context = context.in_function(false, false);
        let result = self.block(depth - 1);
        self.context = context;
        self.no_parameter = no_parameter;
        result
    }

    /// Returns whether the current token begins an index signature: `[`, a name and `:`.
    pub(crate) fn is_index_signature(&mut self) -> Parsed<bool> {
        if !self.at(TokenKind::BracketOpen) {
            return Ok(false);
        }
        let state = self.state();
        let result = self.skip_index_start();
        self.reset(state);
        result
    }

    /// Skips `[` and a name. Returns whether `:` follows them.
    fn skip_index_start(&mut self) -> Parsed<bool> {
        self.next()?;
        if !self.kind().is_identifier() {
            return Ok(false);
        }
        self.next()?;
        Ok(self.at(TokenKind::Colon))
    }

    /// An index signature, with its type.
    #[cycle(grammar)]
    pub(crate) fn index_signature(&mut self, depth: usize) -> Parsed<()> {
        if depth == 0 {
            return Err(self.too_deep());
        }
        self.next()?;
        self.next()?;
        self.type_annotation(depth - 1)?;
        self.expect(
            TokenKind::BracketClose,
            "expected `]` in the index signature",
        )?;
        self.type_annotation(depth - 1)?;
        self.end_of_member()
    }

    /// Goes on after the end of a member of a type: `;`, `,` or the end of a line.
    pub(crate) fn end_of_member(&mut self) -> Parsed<()> {
        if self.eat(TokenKind::Comma)? {
            return Ok(());
        }
        self.semicolon()
    }
}
