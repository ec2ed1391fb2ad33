//! Templates.

use crate::parser::{Form, Parsed, Parser};
use crate::shape::{FlatNode, Shape};
use deno_graph_base::text::SourceRange;
use modinfo_lexer::token::{Token, TokenKind};

impl<'a> Parser<'a> {
    /// A template. If values are kept, its parts and its expressions are nodes, by turns. The parts of a
    /// tagged one may have any escapes.
    #[cycle(grammar)]
    pub(crate) fn template(&mut self, depth: usize, is_tagged: bool) -> Parsed<Form> {
        if depth == 0 {
            return Err(self.too_deep());
        }
        let keeps_values = self.context.keeps_values;
        for _turn in 0..self.turns {
            let part = self.token();
            if !is_tagged {
                self.lexer.check_escapes()?;
            }
            if keeps_values {
                self.push_part(part)?;
            }
            self.next()?;
            if matches!(part.kind, TokenKind::Template | TokenKind::TemplateTail) {
                break;
            }
            self.substitution(depth - 1)?;
            if !self.at(TokenKind::BraceClose) {
                return Err(self.error("expected `}` after the expression in the template"));
            }
            self.lexer.rescan_template_part()?;
        }
        Ok(Form::Template)
    }

    /// An expression in a template.
    #[cycle(grammar)]
    fn substitution(&mut self, depth: usize) -> Parsed<()> {
        if depth == 0 {
            return Err(self.too_deep());
        }
        let first = self.nodes.len();
        let start = self.start();
        self.bracketed_expression(depth - 1)?;
        if self.context.keeps_values {
            self.push(Shape::Other, first, start)?;
        }
        Ok(())
    }

    /// Adds the node of a part of a template, without its marks.
    fn push_part(&mut self, part: Token) -> Parsed<()> {
        let end_marks = match part.kind {
            TokenKind::TemplateHead | TokenKind::TemplateMiddle => 2,
            _ => 1,
        };
        let range = SourceRange::new(
            part.start.saturating_add(1),
            part.end.saturating_sub(end_marks),
        );
        let first = self.nodes.len();
        Ok(
            self.nodes.push(FlatNode {
                shape: Shape::Quasi,
                first,
                range,
            })?,
        )
    }
}
