//! Object literals, which may be patterns.

use crate::parser::{Form, Parsed, Parser};
use crate::shape::{KeyShape, Shape};
use modinfo_lexer::token::TokenKind;

impl<'a> Parser<'a> {
    /// An object literal. If values are kept, each property is one node.
    #[cycle(grammar)]
    pub(crate) fn object(&mut self, depth: usize) -> Parsed<Form> {
        if depth == 0 {
            return Err(self.too_deep());
        }
        self.next()?;
        let context = self.context;
        self.context = context.in_brackets();
        self.context.keeps_values = context.keeps_values;
        let result = self.properties(depth - 1);
        self.context = context;
        result?;
        self.expect(TokenKind::BraceClose, "expected `}` after the properties")?;
        Ok(Form::Object)
    }

    /// Properties with commas between them.
    #[cycle(grammar)]
    fn properties(&mut self, depth: usize) -> Parsed<()> {
        if depth == 0 {
            return Err(self.too_deep());
        }
        for _turn in 0..self.turns {
            if self.at(TokenKind::BraceClose) {
                break;
            }
            self.property(depth - 1)?;
            if !self.eat(TokenKind::Comma)? {
                break;
            }
        }
        Ok(())
    }

    /// A property. If values are kept, adds its node.
    #[cycle(grammar)]
    fn property(&mut self, depth: usize) -> Parsed<()> {
        if depth == 0 {
            return Err(self.too_deep());
        }
        let first = self.nodes.len();
        let start = self.start();
        let shape = if self.eat(TokenKind::DotDotDot)? {
            if !self.assignment(depth - 1)?.may_be_pattern() || self.at(TokenKind::Comma) {
                self.keep_no_pattern(start);
            }
            Shape::Other
        } else {
            self.named_property(depth - 1)?
        };
        if self.context.keeps_values {
            self.push(shape, first, start)?;
        }
        Ok(())
    }

    /// A property with a name: a value, a method, an accessor or a shorthand. Returns its shape.
    #[cycle(grammar)]
    fn named_property(&mut self, depth: usize) -> Parsed<Shape> {
        if depth == 0 {
            return Err(self.too_deep());
        }
        let start = self.start();
        let modifiers = self.property_modifiers()?;
        let word = self.kind();
        let key = match modifiers.name {
            Some(range) => KeyShape::Ident(range),
            None => self.property_name(depth - 1)?,
        };
        if matches!(self.kind(), TokenKind::ParenOpen | TokenKind::Less) {
            self.method(depth - 1, modifiers.is_async, modifiers.is_generator)?;
            self.keep_no_pattern(start);
            return Ok(Shape::Other);
        }
        if modifiers.is_method {
            return Err(self.error("expected `(` before the parameters"));
        }
        if self.eat(TokenKind::Colon)? {
            self.property_value(depth - 1)?;
            return Ok(Shape::KeyValue(key));
        }
        if modifiers.name.is_none() && !word.is_identifier() {
            return Err(self.error("expected `:` after the name of the property"));
        }
        self.default_of_shorthand(depth - 1)?;
        Ok(Shape::Other)
    }

    /// `=` and the default of a shorthand property, which is a part of a pattern, if it is there.
    #[cycle(grammar)]
    fn default_of_shorthand(&mut self, depth: usize) -> Parsed<()> {
        if depth == 0 {
            return Err(self.too_deep());
        }
        if self.eat(TokenKind::Equal)? {
            let no_pattern = self.no_pattern;
            self.assignment(depth - 1)?;
            self.no_pattern = no_pattern;
        }
        Ok(())
    }

    /// The value of a property. If values are kept, adds its node.
    #[cycle(grammar)]
    fn property_value(&mut self, depth: usize) -> Parsed<()> {
        if depth == 0 {
            return Err(self.too_deep());
        }
        let first = self.nodes.len();
        let start = self.start();
        let form = self.assignment(depth - 1)?;
        if !form.may_be_pattern() {
            self.keep_no_pattern(start);
        }
        if self.context.keeps_values {
            self.push_value(form, first, start)?;
        }
        Ok(())
    }
}
