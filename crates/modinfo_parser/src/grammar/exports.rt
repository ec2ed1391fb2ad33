//! Exports.

use crate::grammar::statements::{Item, may_begin_typed};
use crate::parser::{Parsed, Parser};
use crate::shape::Shape;
use modinfo_lexer::syntax_error::ReadError;
use modinfo_lexer::token::TokenKind;

impl<'a> Parser<'a> {
    /// An export. Adds its node, but for `export =` and `export as namespace`.
    #[cycle(grammar)]
    pub(crate) fn export(&mut self, depth: usize) -> Parsed<Item> {
        if depth == 0 {
            return Err(self.too_deep());
        }
        let first = self.nodes.len();
        let start = self.start();
        self.export_from(depth - 1, first, start)
    }

    /// An export that begins at an offset with the node `first`, with decorators if there are any.
    #[cycle(grammar)]
    pub(crate) fn export_from(&mut self, depth: usize, first: usize, start: usize) -> Parsed<Item> {
        if depth == 0 {
            return Err(self.too_deep());
        }
        self.expect_module()?;
        let has_decorators = start < self.start();
        self.next()?;
        if has_decorators && self.is_export_without_declaration()? {
            return Err(self.error("expected a class after the decorators"));
        }
        match self.kind() {
            TokenKind::Star => self.export_all(start, false)?,
            TokenKind::BraceOpen => self.export_names(start, false)?,
            TokenKind::Type if self.is_export_of_types()? => {
                self.next()?;
                if self.at(TokenKind::Star) {
                    self.export_all(start, true)?;
                } else {
                    self.export_names(start, true)?;
                }
            }
            TokenKind::Default => {
                self.next()?;
                self.export_default(depth - 1)?;
                self.push(Shape::ExportOther, first, start)?;
            }
            TokenKind::Import if self.language.is_typescript => self.export_import(start)?,
            TokenKind::Equal if self.language.is_typescript => {
                self.next()?;
                self.expression(depth - 1)?;
                self.semicolon()?;
                return Ok(Item::Plain);
            }
            TokenKind::As if self.language.is_typescript => {
                self.export_as_namespace()?;
                return Ok(Item::Plain);
            }
            _ => {
                self.exported_declaration(depth - 1)?;
                self.push(Shape::ExportOther, first, start)?;
            }
        }
        Ok(Item::Node)
    }

    /// Returns whether an export has names, `*` or an import at the current token, and no declaration.
    fn is_export_without_declaration(&mut self) -> Parsed<bool> {
        match self.kind() {
            TokenKind::Star | TokenKind::BraceOpen | TokenKind::Import => Ok(true),
            TokenKind::Type => self.is_export_of_types(),
            _ => Ok(false),
        }
    }

    /// Returns whether the current `type` says that an export is of types alone.
    fn is_export_of_types(&mut self) -> Parsed<bool> {
        if !self.language.is_typescript {
            return Ok(false);
        }
        Ok(matches!(self.peek()?.kind, TokenKind::BraceOpen | TokenKind::Star))
    }

    /// `* from` or `* as name from` with a source. Adds the node of the export.
    fn export_all(&mut self, start: usize, type_only: bool) -> Parsed<()> {
        let first = self.nodes.len();
        self.next()?;
        let has_name = self.eat(TokenKind::As)?;
        if has_name {
            self.name_or_string("expected a name after `as`")?;
        }
        self.expect(TokenKind::From, "expected `from` in the export")?;
        let src = self.string("expected the specifier of the export, a string")?;
        let has_with = self.attributes()?;
        self.semicolon()?;
        let shape = if has_name {
            Shape::NamedExport {
                type_only,
                src: Some(src),
                has_with,
            }
        } else {
            Shape::ExportAll {
                type_only,
                src,
                has_with,
            }
        };
        self.push(shape, first, start)
    }

    /// Names in braces, with a source if there is one. Adds the node of the export.
    fn export_names(&mut self, start: usize, type_only: bool) -> Parsed<()> {
        let first = self.nodes.len();
        let foreign_name = self.exported_specifiers()?;
        let mut src = None;
        let mut has_with = false;
        if self.eat(TokenKind::From)? {
            src = Some(self.string("expected the specifier of the export, a string")?);
            has_with = self.attributes()?;
        } else if let Some(offset) = foreign_name {
            return Err(ReadError::syntax("expected a name that a variable may have", offset));
        }
        self.semicolon()?;
        let shape = Shape::NamedExport {
            type_only,
            src,
            has_with,
        };
        self.push(shape, first, start)
    }

    /// `import name = ..` after `export`. Adds its node.
    fn export_import(&mut self, start: usize) -> Parsed<()> {
        self.next()?;
        let type_only = self.at(TokenKind::Type) && self.peek()?.kind.is_identifier();
        if type_only {
            self.next()?;
        }
        self.bound_name()?;
        self.import_equals(start, type_only, true)
    }

    /// `as namespace name` after `export`.
    fn export_as_namespace(&mut self) -> Parsed<()> {
        self.next()?;
        self.expect(TokenKind::Namespace, "expected `namespace` after `as`")?;
        self.bound_name()?;
        self.semicolon()
    }

    /// What `export default` exports: a declaration or an expression.
    #[cycle(grammar)]
    fn export_default(&mut self, depth: usize) -> Parsed<()> {
        if depth == 0 {
            return Err(self.too_deep());
        }
        match self.kind() {
            TokenKind::Function => return self.function(depth - 1, false),
            TokenKind::Class => self.class_expression(depth - 1)?,
            TokenKind::At => self.decorated_class(depth - 1)?,
            TokenKind::Async if self.is_async_function()? => {
                self.next()?;
                return self.function(depth - 1, true);
            }
            TokenKind::Abstract | TokenKind::Interface if self.language.is_typescript => {
                return self.default_of_typescript(depth - 1);
            }
            _ => {
                self.assignment(depth - 1)?;
                return self.semicolon();
            }
        };
        Ok(())
    }

    /// An abstract class or an interface after `export default`, or an expression if the word is a name.
    #[cycle(grammar)]
    fn default_of_typescript(&mut self, depth: usize) -> Parsed<()> {
        if depth == 0 {
            return Err(self.too_deep());
        }
        match self.typescript_statement(depth - 1)? {
            Some(_) => Ok(()),
            None => {
                self.assignment(depth - 1)?;
                self.semicolon()
            }
        }
    }

    /// A declaration after `export`.
    #[cycle(grammar)]
    fn exported_declaration(&mut self, depth: usize) -> Parsed<()> {
        if depth == 0 {
            return Err(self.too_deep());
        }
        match self.kind() {
            TokenKind::At => self.decorated_class_declaration(depth - 1),
            TokenKind::Declare if self.is_declared_import()? => {
                self.module_item(depth - 1)?;
                Ok(())
            }
            TokenKind::Var
            | TokenKind::Let
            | TokenKind::Const
            | TokenKind::Using
            | TokenKind::Await
            | TokenKind::Function
            | TokenKind::Class => {
                self.statement(depth - 1)?;
                Ok(())
            }
            TokenKind::Async if self.is_async_function()? => {
                self.statement(depth - 1)?;
                Ok(())
            }
            kind if self.language.is_typescript && may_begin_typed(kind) => {
                self.typed_declaration(depth - 1)?;
                Ok(())
            }
            _ => Err(self.error("expected a declaration after `export`")),
        }
    }
}
