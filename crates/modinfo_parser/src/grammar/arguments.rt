//! Arguments of calls.

use crate::parser::{Form, Operand, Parsed, Parser};
use crate::shape::{FlatNode, Shape};
use deno_graph_base::text::SourceRange;
use deno_graph_source::tree::Callee;
use modinfo_lexer::token::TokenKind;

impl<'a> Parser<'a> {
    /// The arguments of a call, and the node of a call of `require`. The type arguments before them begin
    /// with the node `types`.
    #[cycle(grammar)]
    pub(crate) fn call(&mut self, depth: usize, callee: Operand, types: usize) -> Parsed<()> {
        if depth == 0 {
            return Err(self.too_deep());
        }
        if callee.form != Form::Require {
            return self.arguments_before(depth - 1, types);
        }
        let middle = self.nodes.len();
        self.push_callee(callee)?;
        let args = self.kept_arguments(depth - 1)?;
        self.move_behind(types, middle);
        let shape = Shape::Call {
            callee: Callee::Expr,
            args,
        };
        self.push(shape, callee.first, callee.start)
    }

    /// Arguments, whose nodes come before those from the index `types` on.
    #[cycle(grammar)]
    pub(crate) fn arguments_before(&mut self, depth: usize, types: usize) -> Parsed<()> {
        if depth == 0 {
            return Err(self.too_deep());
        }
        let middle = self.nodes.len();
        self.arguments(depth - 1)?;
        self.move_behind(types, middle);
        Ok(())
    }

    /// Arguments, of which no values are kept.
    #[cycle(grammar)]
    pub(crate) fn arguments(&mut self, depth: usize) -> Parsed<()> {
        if depth == 0 {
            return Err(self.too_deep());
        }
        let context = self.context;
        self.context = context.in_brackets();
        let result = self.list_of_arguments(depth - 1);
        self.context = context;
        result?;
        Ok(())
    }

    /// Arguments whose values are kept, each as one node. Returns their number.
    #[cycle(grammar)]
    pub(crate) fn kept_arguments(&mut self, depth: usize) -> Parsed<usize> {
        if depth == 0 {
            return Err(self.too_deep());
        }
        let context = self.context;
        self.context = context.in_brackets();
        self.context.keeps_values = true;
        let result = self.list_of_arguments(depth - 1);
        self.context = context;
        result
    }

    /// `(`, arguments with commas between them, and `)`. Returns the number of arguments.
    #[cycle(grammar)]
    fn list_of_arguments(&mut self, depth: usize) -> Parsed<usize> {
        if depth == 0 {
            return Err(self.too_deep());
        }
        self.expect(TokenKind::ParenOpen, "expected `(` before the arguments")?;
        let mut count = 0usize;
        for _turn in 0..self.turns {
            if self.at(TokenKind::ParenClose) {
                break;
            }
            self.argument(depth - 1)?;
            count = count.saturating_add(1);
            if !self.eat(TokenKind::Comma)? {
                break;
            }
        }
        self.expect(TokenKind::ParenClose, "expected `)` after the arguments")?;
        Ok(count)
    }

    /// An argument, which may be spread.
    #[cycle(grammar)]
    fn argument(&mut self, depth: usize) -> Parsed<()> {
        if depth == 0 {
            return Err(self.too_deep());
        }
        let first = self.nodes.len();
        let start = self.start();
        let is_spread = self.eat(TokenKind::DotDotDot)?;
        let form = self.assignment(depth - 1)?;
        if !self.context.keeps_values {
            return Ok(());
        }
        if is_spread {
            return self.push(Shape::Spread, first, start);
        }
        self.push_value(form, first, start)
    }

    /// Adds the node of the callee `require`.
    fn push_callee(&mut self, callee: Operand) -> Parsed<()> {
        let index = self.nodes.len();
        Ok(
            self.nodes.push(FlatNode {
                shape: Shape::Ident,
                first: index,
                range: SourceRange::new(callee.start, callee.end),
            })?,
        )
    }

    /// Moves the nodes from the index `from` up to `middle` after all others.
    fn move_behind(&mut self, from: usize, middle: usize) {
        let end = self.nodes.len();
        if from >= middle || middle >= end {
            return;
        }
        for index in from..middle {
            let first = self.nodes[index].first;
            self.nodes[index].first = first.saturating_add(end - middle);
        }
        for index in middle..end {
            let first = self.nodes[index].first;
            self.nodes[index].first = first.saturating_sub(middle - from);
        }
        self.nodes[from..].rotate_left(middle - from);
    }
}
