//! Sums whose operands are kept, in the arguments of `import` and `require`.

use crate::parser::{Form, Parsed, Parser};
use modinfo_lexer::token::TokenKind;

/// The largest number of operands that a sum keeps. The tree of a sum is as deep as the sum has
/// operands.
const MAX_OPERANDS: usize = 3000;

impl<'a> Parser<'a> {
    /// Operands with binary operators between them, of which the operands of sums are kept.
    #[cycle(grammar)]
    pub(crate) fn sum(&mut self, depth: usize) -> Parsed<Form> {
        if depth == 0 {
            return Err(self.too_deep());
        }
        let first = self.nodes.len();
        let start = self.start();
        let mut form = self.product(depth - 1)?;
        let mut operands = 1usize;
        for _turn in 0..self.turns {
            let is_sum = self.at(TokenKind::Plus) && operands < MAX_OPERANDS;
            if form == Form::Arrow || !(is_sum || self.at(TokenKind::Minus)) {
                break;
            }
            if is_sum {
                self.push_value(form, first, start)?;
            }
            self.next()?;
            let operand_first = self.nodes.len();
            let operand_start = self.start();
            let operand = self.product(depth - 1)?;
            if is_sum {
                self.push_value(operand, operand_first, operand_start)?;
            }
            form = if is_sum { Form::Sum } else { Form::Operation };
            operands = operands.saturating_add(1);
        }
        if form == Form::Arrow || !self.at_binary_operator() {
            return Ok(form);
        }
        self.rest_of_binary(depth - 1)
    }

    /// An operand of a sum: operands with operators between them that bind closer than `+`.
    #[cycle(grammar)]
    fn product(&mut self, depth: usize) -> Parsed<Form> {
        if depth == 0 {
            return Err(self.too_deep());
        }
        let mut form = self.unary(depth - 1)?;
        for _turn in 0..self.turns {
            let is_product = matches!(
                self.kind(),
                TokenKind::Star | TokenKind::StarStar | TokenKind::Slash | TokenKind::Percent
            );
            if form == Form::Arrow || !is_product {
                break;
            }
            form = self.binary_operand(depth - 1)?;
        }
        Ok(form)
    }
}
