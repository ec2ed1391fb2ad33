//! Declarations that TypeScript alone has.

use crate::grammar::statements::Item;
use crate::parser::{Parsed, Parser};
use crate::shape::Shape;
use modinfo_lexer::token::{Token, TokenKind};

impl<'a> Parser<'a> {
    /// A declaration that begins with a word of TypeScript, or nothing if the word is a name or begins a
    /// statement that JavaScript has.
    #[cycle(grammar)]
    pub(crate) fn typescript_statement(&mut self, depth: usize) -> Parsed<Option<Item>> {
        if depth == 0 {
            return Err(self.too_deep());
        }
        let start = self.start();
        let following = self.peek()?;
        if following.is_after_line_end
            && !matches!(self.kind(), TokenKind::Const | TokenKind::Enum)
        {
            return Ok(None);
        }
        match self.kind() {
            TokenKind::Const if following.kind == TokenKind::Enum => {
                self.next()?;
                self.enumeration(depth - 1)?;
            }
            TokenKind::Enum => self.enumeration(depth - 1)?,
            TokenKind::Interface if following.kind.is_identifier() => self.interface(depth - 1)?,
            TokenKind::Type if following.kind.is_identifier() => self.type_alias(depth - 1)?,
            TokenKind::Abstract if following.kind == TokenKind::Class => {
                self.next()?;
                self.class_expression(depth - 1)?;
            }
            TokenKind::Declare if may_be_declared(following) => {
                self.next()?;
                return Ok(Some(self.declared(depth - 1, start)?));
            }
            TokenKind::Module | TokenKind::Namespace | TokenKind::Global => {
                return self.module_statement(depth - 1, start, following);
            }
            _ => return Ok(None),
        }
        Ok(Some(Item::Plain))
    }

    /// A declaration after `declare`.
    #[cycle(grammar)]
    fn declared(&mut self, depth: usize, start: usize) -> Parsed<Item> {
        if depth == 0 {
            return Err(self.too_deep());
        }
        let following = self.peek()?;
        match self.kind() {
            TokenKind::Module | TokenKind::Namespace | TokenKind::Global => {
                if let Some(item) = self.module_statement(depth - 1, start, following)? {
                    return Ok(item);
                }
            }
            TokenKind::Abstract | TokenKind::Interface | TokenKind::Type => {
                return self.typed_declaration(depth - 1);
            }
            _ => (),
        }
        self.statement(depth - 1)?;
        Ok(Item::Plain)
    }

    /// A declaration that TypeScript alone has. If a line ends after its first word, that is a name, as in
    /// TypeScript's own parser.
    #[cycle(grammar)]
    pub(crate) fn typed_declaration(&mut self, depth: usize) -> Parsed<Item> {
        if depth == 0 {
            return Err(self.too_deep());
        }
        let is_name = self.peek()?.is_after_line_end;
        match self.typescript_statement(depth - 1)? {
            Some(item) => Ok(item),
            None if is_name => self.statement(depth - 1),
            None => Err(self.error("expected a declaration")),
        }
    }

    /// `module`, `namespace` or `global` with its body, if the token after the word goes on with one.
    /// `start` is the offset of the whole declaration.
    #[cycle(grammar)]
    fn module_statement(
        &mut self,
        depth: usize,
        start: usize,
        following: Token,
    ) -> Parsed<Option<Item>> {
        if depth == 0 {
            return Err(self.too_deep());
        }
        let first = self.nodes.len();
        match self.kind() {
            TokenKind::Global if following.kind == TokenKind::BraceOpen => {
                self.next()?;
                self.module_body(depth - 1)?;
                Ok(Some(Item::Plain))
            }
            _ if following.is_after_line_end => Ok(None),
            TokenKind::Module if following.kind == TokenKind::String => {
                self.next()?;
                let name = self.string("expected the name of the module, a string")?;
                if self.at(TokenKind::BraceOpen) {
                    self.module_body(depth - 1)?;
                } else {
                    self.semicolon()?;
                }
                self.push(Shape::ModuleDecl { name }, first, start)?;
                Ok(Some(Item::Node))
            }
            TokenKind::Module | TokenKind::Namespace if following.kind.is_identifier() => {
                self.next()?;
                self.entity_name()?;
                self.module_body(depth - 1)?;
                Ok(Some(Item::Plain))
            }
            _ => Ok(None),
        }
    }

    /// `interface`, with its members.
    #[cycle(grammar)]
    fn interface(&mut self, depth: usize) -> Parsed<()> {
        if depth == 0 {
            return Err(self.too_deep());
        }
        self.next()?;
        self.next()?;
        if self.at(TokenKind::Less) {
            self.type_parameters(depth - 1)?;
        }
        if self.eat(TokenKind::Extends)? {
            self.list_of_types(depth - 1)?;
        }
        self.object_type(depth - 1)
    }

    /// `type`, a name, `=` and a type.
    #[cycle(grammar)]
    fn type_alias(&mut self, depth: usize) -> Parsed<()> {
        if depth == 0 {
            return Err(self.too_deep());
        }
        self.next()?;
        self.next()?;
        if self.at(TokenKind::Less) {
            self.type_parameters(depth - 1)?;
        }
        self.expect(TokenKind::Equal, "expected `=` after the name of the type")?;
        self.type_in_brackets(depth - 1)?;
        self.semicolon()
    }

    /// `enum`, with its members.
    #[cycle(grammar)]
    fn enumeration(&mut self, depth: usize) -> Parsed<()> {
        if depth == 0 {
            return Err(self.too_deep());
        }
        self.next()?;
        self.bound_name()?;
        self.expect(
            TokenKind::BraceOpen,
            "expected `{` before the members of the enum",
        )?;
        for _turn in 0..self.turns {
            if self.at(TokenKind::BraceClose) {
                break;
            }
            self.property_name(depth - 1)?;
            if self.eat(TokenKind::Equal)? {
                self.assignment(depth - 1)?;
            }
            if !self.eat(TokenKind::Comma)? {
                break;
            }
        }
        self.expect(
            TokenKind::BraceClose,
            "expected `}` after the members of the enum",
        )
    }
}

/// Returns whether a declaration may begin with a token after `declare`.
fn may_be_declared(token: Token) -> bool {
    matches!(
        token.kind,
        TokenKind::Abstract
            | TokenKind::Async
            | TokenKind::Await
            | TokenKind::Class
            | TokenKind::Const
            | TokenKind::Enum
            | TokenKind::Function
            | TokenKind::Global
            | TokenKind::Interface
            | TokenKind::Let
            | TokenKind::Module
            | TokenKind::Namespace
            | TokenKind::Type
            | TokenKind::Using
            | TokenKind::Var
    )
}
