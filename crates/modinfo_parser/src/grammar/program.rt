//! A whole text, and the bodies of modules, the places of imports and exports.

use crate::grammar::statements::Item;
use crate::parser::{Parsed, Parser};
use crate::shape::Shape;
use modinfo_lexer::token::TokenKind;

impl<'a> Parser<'a> {
    /// The statements of a text.
    pub(crate) fn program(&mut self, depth: usize) -> Parsed<()> {
        for _turn in 0..self.turns {
            if self.at(TokenKind::EndOfText) {
                break;
            }
            self.item(depth)?;
        }
        Ok(())
    }

    /// A statement of a text. Adds its node, unless no rule reads the node.
    fn item(&mut self, depth: usize) -> Parsed<()> {
        let first = self.nodes.len();
        let start = self.start();
        match self.module_item(depth)? {
            Item::Node => Ok(()),
            Item::Plain if self.needs_no_node(first) => Ok(()),
            Item::Plain => self.push(Shape::Other, first, start),
        }
    }

    /// Returns whether a statement needs no node around the nodes from the index `first` on: there are
    /// none, or one that may stand alone. The text's first statement has a node, whose start decides the
    /// head comments.
    fn needs_no_node(&self, first: usize) -> bool {
        first > 0
            && match self.nodes.last() {
                Some(last) => {
                    first == self.nodes.len()
                        || (first == last.first
                            && matches!(last.shape, Shape::Await | Shape::Call { .. }))
                }
                None => false,
            }
    }

    /// An import, an export or a statement.
    #[cycle(grammar)]
    pub(crate) fn module_item(&mut self, depth: usize) -> Parsed<Item> {
        if depth == 0 {
            return Err(self.too_deep());
        }
        match self.kind() {
            TokenKind::Import => self.import_statement(depth - 1),
            TokenKind::Export => self.export(depth - 1),
            TokenKind::At => self.decorated_item(depth - 1),
            TokenKind::Declare if self.is_declared_import()? => {
                self.next()?;
                self.import_statement(depth - 1)
            }
            _ => self.statement(depth - 1),
        }
    }

    /// Returns whether `import` follows the current `declare` on its line.
    pub(crate) fn is_declared_import(&mut self) -> Parsed<bool> {
        if !self.language.is_typescript {
            return Ok(false);
        }
        let following = self.peek()?;
        Ok(following.kind == TokenKind::Import && !following.is_after_line_end)
    }

    /// The body of a `namespace`, a `module` or `global`: `{`, statements, imports and exports, and `}`. A level
    /// of these takes much of the stack, so it costs one more of the depth.
    #[cycle(grammar)]
    pub(crate) fn module_body(&mut self, depth: usize) -> Parsed<()> {
        if depth < 2 {
            return Err(self.too_deep());
        }
        self.expect(TokenKind::BraceOpen, "expected `{` before the statements")?;
        let context = self.context;
        self.context = context.in_brackets();
        let result = self.items_to_brace(depth - 2);
        self.context = context;
        result?;
        self.expect(TokenKind::BraceClose, "expected `}` after the statements")
    }

    /// Statements, imports and exports up to a `}`.
    #[cycle(grammar)]
    fn items_to_brace(&mut self, depth: usize) -> Parsed<()> {
        if depth == 0 {
            return Err(self.too_deep());
        }
        for _turn in 0..self.turns {
            if matches!(self.kind(), TokenKind::BraceClose | TokenKind::EndOfText) {
                break;
            }
            self.module_item(depth - 1)?;
        }
        Ok(())
    }
}
