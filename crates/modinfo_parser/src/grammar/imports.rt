//! Import declarations.

use crate::grammar::statements::Item;
use crate::parser::{Parsed, Parser};
use crate::shape::{KeyShape, Shape};
use deno_graph_base::text::SourceRange;
use deno_graph_source::tree::ImportPhase;
use modinfo_lexer::token::TokenKind;

/// What an import declaration has before `from`.
#[derive(Clone, Copy)]
struct ImportHead {
    start: usize,
    type_only: bool,
    phase: ImportPhase,
    has_specifiers: bool,
}

impl<'a> Parser<'a> {
    /// An import declaration, or an expression that begins with `import`.
    #[cycle(grammar)]
    pub(crate) fn import_statement(&mut self, depth: usize) -> Parsed<Item> {
        if depth == 0 {
            return Err(self.too_deep());
        }
        if matches!(self.peek()?.kind, TokenKind::ParenOpen | TokenKind::Dot) {
            self.expression_statement(depth - 1)?;
            return Ok(Item::Plain);
        }
        self.import_declaration()?;
        Ok(Item::Node)
    }

    /// An import declaration. Adds its node.
    fn import_declaration(&mut self) -> Parsed<()> {
        let mut head = ImportHead {
            start: self.start(),
            type_only: false,
            phase: ImportPhase::Evaluation,
            has_specifiers: false,
        };
        self.expect_module()?;
        self.next()?;
        if self.at(TokenKind::String) {
            return self.import_source(head);
        }
        head.type_only = self.eat_import_type()?;
        head.phase = self.eat_import_phase()?;
        if self.kind().is_identifier() {
            head.has_specifiers = true;
            self.next()?;
            if self.at(TokenKind::Equal) && self.language.is_typescript {
                return self.import_equals(head.start, head.type_only, false);
            }
            if !self.eat(TokenKind::Comma)? {
                return self.import_from(head);
            }
        }
        if self.eat(TokenKind::Star)? {
            head.has_specifiers = true;
            self.expect(TokenKind::As, "expected `as` after `*`")?;
            self.bound_name()?;
        } else {
            head.has_specifiers |= self.imported_specifiers()?;
        }
        self.import_from(head)
    }

    /// `from` and the source of an import.
    fn import_from(&mut self, head: ImportHead) -> Parsed<()> {
        self.expect(TokenKind::From, "expected `from` in the import")?;
        self.import_source(head)
    }

    /// The source of an import, with its attributes. Adds the node of the import.
    fn import_source(&mut self, head: ImportHead) -> Parsed<()> {
        let first = self.nodes.len();
        let src = self.string("expected the specifier of the import, a string")?;
        let has_with = self.attributes()?;
        self.semicolon()?;
        let shape = Shape::ImportDecl {
            type_only: head.type_only,
            phase: head.phase,
            src,
            has_specifiers: head.has_specifiers,
            has_with,
        };
        self.push(shape, first, head.start)
    }

    /// Goes on after `type`, if that says that an import is of types alone and isn't the name that is
    /// imported. Returns whether it does.
    fn eat_import_type(&mut self) -> Parsed<bool> {
        if !self.at(TokenKind::Type) || !self.language.is_typescript {
            return Ok(false);
        }
        let following = self.peek()?.kind;
        let is_keyword = match following {
            TokenKind::BraceOpen | TokenKind::Star => true,
            TokenKind::From => self.is_from_a_name()?,
            kind => kind.is_identifier(),
        };
        if is_keyword {
            self.next()?;
        }
        Ok(is_keyword)
    }

    /// Goes on after `source` or `defer`, if that is the phase of an import and not the name that is
    /// imported.
    fn eat_import_phase(&mut self) -> Parsed<ImportPhase> {
        let kind = self.kind();
        if !matches!(kind, TokenKind::Source | TokenKind::Defer) {
            return Ok(ImportPhase::Evaluation);
        }
        let following = self.peek()?.kind;
        if kind == TokenKind::Defer {
            if following != TokenKind::Star {
                return Ok(ImportPhase::Evaluation);
            }
            self.next()?;
            return Ok(ImportPhase::Defer);
        }
        let is_phase = match following {
            TokenKind::From => self.is_from_a_name()?,
            following => following.is_identifier(),
        };
        if !is_phase {
            return Ok(ImportPhase::Evaluation);
        }
        self.next()?;
        Ok(ImportPhase::Source)
    }

    /// Returns whether the `from` after the current token is a name: no string follows it.
    fn is_from_a_name(&mut self) -> Parsed<bool> {
        let state = self.state();
        self.next()?;
        let result = self.peek();
        self.reset(state);
        Ok(result?.kind != TokenKind::String)
    }

    /// The attributes after `with`, or after `assert` on the line. Adds the node of their object. Returns
    /// whether there are some.
    pub(crate) fn attributes(&mut self) -> Parsed<bool> {
        if !self.at(TokenKind::With) && !self.at_on_line(TokenKind::Assert) {
            return Ok(false);
        }
        self.next()?;
        self.attribute_object()?;
        Ok(true)
    }

    /// `{`, attributes with commas between them, and `}`. Adds the node of the object.
    pub(crate) fn attribute_object(&mut self) -> Parsed<()> {
        let first = self.nodes.len();
        let start = self.start();
        self.expect(TokenKind::BraceOpen, "expected `{` before the attributes")?;
        for _turn in 0..self.turns {
            if self.at(TokenKind::BraceClose) {
                break;
            }
            self.attribute()?;
            if !self.eat(TokenKind::Comma)? {
                break;
            }
        }
        self.expect(TokenKind::BraceClose, "expected `}` after the attributes")?;
        self.push(Shape::Object, first, start)
    }

    /// An attribute: a key, `:` and a string. Adds its node.
    fn attribute(&mut self) -> Parsed<()> {
        let first = self.nodes.len();
        let start = self.start();
        let range = self.range();
        let key = self.attribute_key(range)?;
        self.next()?;
        self.expect(
            TokenKind::Colon,
            "expected `:` after the key of the attribute",
        )?;
        let value_first = self.nodes.len();
        let value = self.string("expected the value of the attribute, a string")?;
        self.push(Shape::Str, value_first, value.start)?;
        self.push(Shape::KeyValue(key), first, start)
    }

    /// Returns the key that the current token is.
    fn attribute_key(&self, range: SourceRange) -> Parsed<KeyShape> {
        match self.kind() {
            TokenKind::String => Ok(KeyShape::Str(range)),
            kind if kind.is_name() => Ok(KeyShape::Ident(range)),
            _ => Err(self.error("expected the key of an attribute")),
        }
    }

    /// `=` and what an `import name = ..` stands for. Adds the node.
    pub(crate) fn import_equals(
        &mut self,
        start: usize,
        type_only: bool,
        is_export: bool,
    ) -> Parsed<()> {
        let first = self.nodes.len();
        self.expect(TokenKind::Equal, "expected `=` after the name")?;
        let external = self.external_module()?;
        self.semicolon()?;
        let shape = Shape::ImportEquals {
            type_only,
            is_export,
            external,
        };
        self.push(shape, first, start)
    }

    /// `require("..")`, or a name with its members. Returns the range of the string.
    fn external_module(&mut self) -> Parsed<Option<SourceRange>> {
        if self.at(TokenKind::Require) && self.peek()?.kind == TokenKind::ParenOpen {
            self.next()?;
            self.next()?;
            let range = self.string("expected the specifier of the module, a string")?;
            self.expect(TokenKind::ParenClose, "expected `)` after the specifier")?;
            return Ok(Some(range));
        }
        if !self.kind().is_identifier() {
            return Err(self.error("expected a name after the `=`"));
        }
        self.entity_name()?;
        Ok(None)
    }
}
