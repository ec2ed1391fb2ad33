//! Names of properties.

use crate::parser::{Parsed, Parser};
use crate::shape::KeyShape;
use deno_graph_base::text::SourceRange;
use modinfo_lexer::token::TokenKind;

impl<'a> Parser<'a> {
    /// The name of a property or a member: a word, a string, a number or an expression in brackets.
    #[cycle(grammar)]
    pub(crate) fn property_name(&mut self, depth: usize) -> Parsed<KeyShape> {
        if depth == 0 {
            return Err(self.too_deep());
        }
        let token = self.token();
        let range = SourceRange::new(token.start, token.end);
        match token.kind {
            TokenKind::BracketOpen => {
                let no_pattern = self.no_pattern;
                self.computed_member(depth - 1)?;
                self.no_pattern = no_pattern;
                Ok(KeyShape::Other)
            }
            TokenKind::String => {
                self.next()?;
                Ok(KeyShape::Str(range))
            }
            TokenKind::Number | TokenKind::PrivateName => {
                self.next()?;
                Ok(KeyShape::Other)
            }
            kind if kind.is_name() => {
                self.next()?;
                Ok(KeyShape::Ident(range))
            }
            _ => Err(self.error("expected the name of a property")),
        }
    }

    /// Returns the range of the current token.
    pub(crate) fn range(&self) -> SourceRange {
        let token = self.token();
        SourceRange::new(token.start, token.end)
    }

    /// A string. Returns its range.
    pub(crate) fn string(&mut self, message: &'static str) -> Parsed<SourceRange> {
        let range = self.range();
        self.expect(TokenKind::String, message)?;
        Ok(range)
    }
}
