//! Elements of JSX.

use crate::parser::{Form, Parsed, Parser};
use deno_graph_base::text::SourceRange;
use modinfo_lexer::token::TokenKind;

impl<'a> Parser<'a> {
    /// An element that is an operand.
    #[cycle(grammar)]
    pub(crate) fn jsx(&mut self, depth: usize) -> Parsed<Form> {
        if depth == 0 {
            return Err(self.too_deep());
        }
        let context = self.context;
        self.context = context.in_brackets();
        let result = self.jsx_operand(depth - 1);
        self.context = context;
        result?;
        Ok(Form::Other)
    }

    /// An element, after which other tokens than those of JSX follow.
    #[cycle(grammar)]
    fn jsx_operand(&mut self, depth: usize) -> Parsed<()> {
        if depth == 0 {
            return Err(self.too_deep());
        }
        self.lexer.begin_jsx()?;
        self.next()?;
        self.jsx_element(depth - 1)?;
        self.next()
    }

    /// An element after its `<`, up to its last `>`, which stays the current token.
    #[cycle(grammar)]
    fn jsx_element(&mut self, depth: usize) -> Parsed<()> {
        if depth == 0 {
            return Err(self.too_deep());
        }
        let name = self.jsx_name()?;
        if name.start == name.end && self.at(TokenKind::Slash) {
            return Err(self.error("expected a name or `>` after the `<`"));
        }
        if self.language.is_typescript
            && matches!(self.kind(), TokenKind::Less | TokenKind::ShiftLeft)
        {
            self.type_arguments(depth - 1)?;
        }
        for _turn in 0..self.turns {
            self.lexer.rescan_angle();
            if matches!(self.kind(), TokenKind::Slash | TokenKind::Greater) {
                break;
            }
            self.jsx_attribute(depth - 1)?;
        }
        if self.eat(TokenKind::Slash)? {
            return self.at_jsx_end();
        }
        if !self.at(TokenKind::Greater) {
            return Err(self.error("expected `>` after the attributes"));
        }
        self.jsx_children(depth - 1, name)
    }

    /// Returns an error if the current token isn't `>`.
    fn at_jsx_end(&mut self) -> Parsed<()> {
        self.lexer.rescan_angle();
        if self.at(TokenKind::Greater) {
            Ok(())
        } else {
            Err(self.error("expected `>` at the end of the element"))
        }
    }

    /// The name of an element, with `.` or `:` in it, or nothing. Returns its range.
    fn jsx_name(&mut self) -> Parsed<SourceRange> {
        let start = self.start();
        if !self.kind().is_name() {
            return Ok(SourceRange::new(start, start));
        }
        self.lexer.rescan_jsx_name();
        self.next()?;
        for _turn in 0..self.turns {
            if !matches!(self.kind(), TokenKind::Dot | TokenKind::Colon) {
                break;
            }
            self.next()?;
            self.lexer.rescan_jsx_name();
            self.expect(TokenKind::Identifier, "expected a name in the element")?;
        }
        Ok(SourceRange::new(start, self.lexer.previous_end()))
    }

    /// An attribute of an element: a name with a value or without, or attributes that are spread. A level of
    /// these takes much of the stack, so it costs one more of the depth.
    #[cycle(grammar)]
    fn jsx_attribute(&mut self, depth: usize) -> Parsed<()> {
        if depth < 2 {
            return Err(self.too_deep());
        }
        if self.eat(TokenKind::BraceOpen)? {
            self.expect(
                TokenKind::DotDotDot,
                "expected `...` after `{` in the element",
            )?;
            self.assignment(depth - 2)?;
            return self.expect(TokenKind::BraceClose, "expected `}` in the element");
        }
        if !self.kind().is_name() {
            return Err(self.error("expected an attribute, `>` or `/>`"));
        }
        self.jsx_name()?;
        if !self.at(TokenKind::Equal) {
            return Ok(());
        }
        self.lexer.next_jsx_value()?;
        match self.kind() {
            TokenKind::String => self.next(),
            TokenKind::BraceOpen => {
                self.next()?;
                self.expression(depth - 2)?;
                self.expect(TokenKind::BraceClose, "expected `}` after the expression")
            }
            TokenKind::Less => self.jsx_element_of_attribute(depth - 2),
            _ => Err(self.error("expected the value of the attribute")),
        }
    }

    /// An element that is the value of an attribute.
    #[cycle(grammar)]
    fn jsx_element_of_attribute(&mut self, depth: usize) -> Parsed<()> {
        if depth == 0 {
            return Err(self.too_deep());
        }
        self.next()?;
        self.jsx_element(depth - 1)?;
        self.next()
    }

    /// The children of an element with a name, and its end tag up to the last `>`. A level of elements takes
    /// much of the stack, so it costs one more of the depth.
    #[cycle(grammar)]
    fn jsx_children(&mut self, depth: usize, name: SourceRange) -> Parsed<()> {
        if depth < 2 {
            return Err(self.too_deep());
        }
        self.lexer.next_jsx_child();
        for _turn in 0..self.turns {
            match self.kind() {
                TokenKind::JsxText => self.lexer.next_jsx_child(),
                TokenKind::BraceOpen => self.jsx_expression(depth - 1)?,
                TokenKind::Less => {
                    self.next()?;
                    if self.eat(TokenKind::Slash)? {
                        break;
                    }
                    self.jsx_element(depth - 2)?;
                    self.lexer.next_jsx_child();
                }
                _ => return Err(self.error("expected the end tag of the element")),
            }
        }
        let end_name = self.jsx_name()?;
        if !self.has_same_text(name, end_name) {
            return Err(self.error("expected the end tag of the element to have its name"));
        }
        self.at_jsx_end()
    }

    /// An expression in braces, or braces with nothing in them, as a child of an element.
    #[cycle(grammar)]
    fn jsx_expression(&mut self, depth: usize) -> Parsed<()> {
        if depth == 0 {
            return Err(self.too_deep());
        }
        self.next()?;
        self.eat(TokenKind::DotDotDot)?;
        if !self.at(TokenKind::BraceClose) {
            self.expression(depth - 1)?;
        }
        if !self.at(TokenKind::BraceClose) {
            return Err(self.error("expected `}` after the expression in the element"));
        }
        self.lexer.next_jsx_child();
        Ok(())
    }

    /// Returns whether the text is the same at two ranges.
    fn has_same_text(&self, one: SourceRange, other: SourceRange) -> bool {
        let text = self.lexer.text().as_bytes();
        text.get(one.start..one.end) == text.get(other.start..other.end)
    }
}
