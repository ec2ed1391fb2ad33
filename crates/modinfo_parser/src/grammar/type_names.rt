//! Types that are no composition of others: names, literals, tuples, `import(..)`.

use crate::parser::{Parsed, Parser};
use crate::shape::Shape;
use modinfo_lexer::token::{Token, TokenKind};

impl<'a> Parser<'a> {
    /// A type without operators.
    #[cycle(grammar)]
    pub(crate) fn primary_type(&mut self, depth: usize) -> Parsed<()> {
        if depth == 0 {
            return Err(self.too_deep());
        }
        match self.kind() {
            TokenKind::ParenOpen => {
                self.next()?;
                self.type_in_brackets(depth - 1)?;
                self.expect(TokenKind::ParenClose, "expected `)` after the type")
            }
            TokenKind::BracketOpen => self.tuple_type(depth - 1),
            TokenKind::BraceOpen => self.object_type(depth - 1),
            TokenKind::String
            | TokenKind::Number
            | TokenKind::Template
            | TokenKind::True
            | TokenKind::False
            | TokenKind::Null
            | TokenKind::Void => self.next(),
            TokenKind::Minus => {
                self.next()?;
                self.expect(TokenKind::Number, "expected a number after `-` in the type")
            }
            TokenKind::TemplateHead => self.template_type(depth - 1),
            TokenKind::Typeof => self.typeof_type(depth - 1),
            TokenKind::Import => self.import_type(depth - 1),
            TokenKind::This => {
                self.entity_name()?;
                self.type_after_is(depth - 1)
            }
            kind if kind.is_identifier() => {
                let first = self.token();
                self.entity_name()?;
                if self.is_basic_type(first) {
                    return Ok(());
                }
                self.type_arguments_on_line(depth - 1)
            }
            _ => Err(self.error("expected a type")),
        }
    }

    /// `is` and a type after `this`, if they follow on its line.
    #[cycle(grammar)]
    fn type_after_is(&mut self, depth: usize) -> Parsed<()> {
        if depth == 0 {
            return Err(self.too_deep());
        }
        if self.at_on_line(TokenKind::Is) {
            self.next()?;
            self.type_(depth - 1)?;
        }
        Ok(())
    }

    /// Returns whether the name that was read is a single word for a type that has no type arguments, as
    /// `number`. `first` is the token with which the name begins.
    fn is_basic_type(&self, first: Token) -> bool {
        if first.end != self.lexer.previous_end() {
            return false;
        }
        match self.lexer.text().as_bytes().get(first.start..first.end) {
            Some(word) => names_basic_type(word),
            None => false,
        }
    }

    /// Names with `.` between them.
    pub(crate) fn entity_name(&mut self) -> Parsed<()> {
        if !self.kind().is_name() {
            return Err(self.error("expected a name"));
        }
        self.next()?;
        for _turn in 0..self.turns {
            if !self.at(TokenKind::Dot) {
                break;
            }
            self.member_name()?;
        }
        Ok(())
    }

    /// Type arguments, if some begin on the line.
    #[cycle(grammar)]
    fn type_arguments_on_line(&mut self, depth: usize) -> Parsed<()> {
        if depth == 0 {
            return Err(self.too_deep());
        }
        if self.at_on_line(TokenKind::Less) || self.at_on_line(TokenKind::ShiftLeft) {
            self.type_arguments(depth - 1)?;
        }
        Ok(())
    }

    /// `typeof` and a name, or an `import(..)`.
    #[cycle(grammar)]
    fn typeof_type(&mut self, depth: usize) -> Parsed<()> {
        if depth == 0 {
            return Err(self.too_deep());
        }
        self.next()?;
        if self.at(TokenKind::Import) {
            return self.import_type(depth - 1);
        }
        self.entity_name()?;
        self.type_arguments_on_line(depth - 1)
    }

    /// `import("..")`, with its options, its members and its type arguments. Adds its node.
    #[cycle(grammar)]
    fn import_type(&mut self, depth: usize) -> Parsed<()> {
        if depth == 0 {
            return Err(self.too_deep());
        }
        let first = self.nodes.len();
        let start = self.start();
        self.next()?;
        self.expect(
            TokenKind::ParenOpen,
            "expected `(` after `import` in the type",
        )?;
        let arg = self.string("expected the specifier of the import type, a string")?;
        let has_with = self.eat(TokenKind::Comma)?;
        if has_with {
            self.import_options()?;
        }
        self.expect(TokenKind::ParenClose, "expected `)` after the specifier")?;
        for _turn in 0..self.turns {
            if !self.at(TokenKind::Dot) {
                break;
            }
            self.member_name()?;
        }
        self.type_arguments_on_line(depth - 1)?;
        self.push(Shape::ImportType { arg, has_with }, first, start)
    }

    /// The options of an `import(..)`: `{ with: { .. } }`. Adds the node of the inner object.
    fn import_options(&mut self) -> Parsed<()> {
        self.expect(
            TokenKind::BraceOpen,
            "expected `{` before the options of the import type",
        )?;
        if !matches!(
            self.kind(),
            TokenKind::With | TokenKind::Assert | TokenKind::String
        ) {
            return Err(self.error("expected `with` in the options of the import type"));
        }
        self.next()?;
        self.expect(TokenKind::Colon, "expected `:` after `with`")?;
        self.attribute_object()?;
        self.eat(TokenKind::Comma)?;
        self.expect(TokenKind::BraceClose, "expected `}` after the options")?;
        self.eat(TokenKind::Comma)?;
        Ok(())
    }

    /// A tuple: `[`, types with commas between them, which may have names, and `]`.
    #[cycle(grammar)]
    fn tuple_type(&mut self, depth: usize) -> Parsed<()> {
        if depth == 0 {
            return Err(self.too_deep());
        }
        self.next()?;
        for _turn in 0..self.turns {
            if self.at(TokenKind::BracketClose) {
                break;
            }
            self.eat(TokenKind::DotDotDot)?;
            if self.is_element_name()? {
                self.next()?;
            } else {
                self.type_in_brackets(depth - 1)?;
            }
            self.eat(TokenKind::Question)?;
            self.type_annotation(depth - 1)?;
            if !self.eat(TokenKind::Comma)? {
                break;
            }
        }
        self.expect(
            TokenKind::BracketClose,
            "expected `]` after the types of the tuple",
        )
    }

    /// Returns whether the current token is the name of an element of a tuple, and no type.
    fn is_element_name(&mut self) -> Parsed<bool> {
        let kind = self.kind();
        if !kind.is_name() {
            return Ok(false);
        }
        match self.peek()?.kind {
            TokenKind::Colon => Ok(true),
            TokenKind::Question => Ok(matches!(
                kind,
                TokenKind::New | TokenKind::Typeof | TokenKind::Import | TokenKind::Function
            )),
            _ => Ok(false),
        }
    }

    /// A template with types in it.
    #[cycle(grammar)]
    fn template_type(&mut self, depth: usize) -> Parsed<()> {
        if depth == 0 {
            return Err(self.too_deep());
        }
        for _turn in 0..self.turns {
            let is_last = self.at(TokenKind::TemplateTail);
            self.next()?;
            if is_last {
                break;
            }
            self.type_in_brackets(depth - 1)?;
            if !self.at(TokenKind::BraceClose) {
                return Err(self.error("expected `}` after the type in the template"));
            }
            self.lexer.rescan_template_part()?;
        }
        Ok(())
    }
}

/// Returns whether a word is a type by itself, which has no type arguments.
fn names_basic_type(word: &[u8]) -> bool {
    matches!(
        word,
        b"any"
            | b"bigint"
            | b"boolean"
            | b"never"
            | b"number"
            | b"object"
            | b"string"
            | b"symbol"
            | b"undefined"
            | b"unknown"
    )
}
