//! `import(..)`, `import.source(..)`, `import.defer(..)` and `import.meta`.

use crate::parser::{Form, Parsed, Parser};
use crate::shape::Shape;
use deno_graph_source::tree::{Callee, ImportPhase};
use modinfo_lexer::syntax_error::ReadError;
use modinfo_lexer::token::TokenKind;

impl<'a> Parser<'a> {
    /// A call of `import`, or `import.meta`.
    #[cycle(grammar)]
    pub(crate) fn import_call(&mut self, depth: usize) -> Parsed<Form> {
        if depth == 0 {
            return Err(self.too_deep());
        }
        let first = self.nodes.len();
        let start = self.start();
        self.next()?;
        let mut phase = ImportPhase::Evaluation;
        if self.eat(TokenKind::Dot)? {
            phase = match self.kind() {
                TokenKind::Source => ImportPhase::Source,
                TokenKind::Defer => ImportPhase::Defer,
                TokenKind::Meta => {
                    self.expect_module()?;
                    self.next()?;
                    self.push(Shape::ImportMeta, first, start)?;
                    return Ok(Form::Other);
                }
                _ => return Err(self.error("expected `meta`, `source` or `defer` after `import.`")),
            };
            self.next()?;
        }
        if !self.at(TokenKind::ParenOpen) {
            return Err(ReadError::syntax("expected no declaration of an import here", start));
        }
        let args = self.kept_arguments(depth - 1)?;
        let shape = Shape::Call {
            callee: Callee::Import(phase),
            args,
        };
        self.push(shape, first, start)?;
        Ok(Form::Other)
    }
}
