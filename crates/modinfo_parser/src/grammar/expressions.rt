//! Expressions, but for what their operands are.

use crate::parser::{Form, Operand, Parsed, Parser};
use crate::shape::Shape;
use modinfo_lexer::characters::byte_at;
use modinfo_lexer::syntax_error::ReadError;
use modinfo_lexer::token::{Token, TokenKind};

impl<'a> Parser<'a> {
    /// Expressions with commas between them.
    #[cycle(grammar)]
    pub(crate) fn expression(&mut self, depth: usize) -> Parsed<Form> {
        if depth == 0 {
            return Err(self.too_deep());
        }
        let form = self.assignment(depth - 1)?;
        if !self.at(TokenKind::Comma) {
            return Ok(form);
        }
        for _turn in 0..self.turns {
            if !self.eat(TokenKind::Comma)? {
                break;
            }
            self.assignment(depth - 1)?;
        }
        Ok(Form::Other)
    }

    /// An expression in which `in` is an operator, whatever is around it.
    #[cycle(grammar)]
    pub(crate) fn bracketed_expression(&mut self, depth: usize) -> Parsed<Form> {
        if depth == 0 {
            return Err(self.too_deep());
        }
        let context = self.context;
        self.context = context.in_brackets();
        let result = self.expression(depth - 1);
        self.context = context;
        result
    }

    /// An expression without a comma: an assignment, a conditional or an arrow function.
    #[cycle(grammar)]
    pub(crate) fn assignment(&mut self, depth: usize) -> Parsed<Form> {
        if depth == 0 {
            return Err(self.too_deep());
        }
        if let Some(form) = self.lone_operand()? {
            return Ok(form);
        }
        let form = self.assignment_operand(depth - 1)?;
        let kind = self.kind();
        if form == Form::Arrow || !(kind == TokenKind::Question || kind.is_assignment()) {
            return Ok(form);
        }
        if kind == TokenKind::Question && self.is_optional_mark()? {
            return Ok(form);
        }
        self.expect_target(form)?;
        if kind != TokenKind::Equal || !form.may_be_pattern() {
            return self.rest_of_assignment(depth - 1);
        }
        let no_pattern = self.no_pattern;
        self.rest_of_assignment(depth - 1)?;
        self.no_pattern = no_pattern;
        Ok(Form::Assigned)
    }

    /// An operand of one token that a delimiter follows. Returns `None`, and stays at the current token,
    /// where there is none.
    #[inline(always)]
    fn lone_operand(&mut self) -> Parsed<Option<Form>> {
        let token = self.token();
        if !is_delimiter(byte_at(self.lexer.text().as_bytes(), token.end)) {
            return Ok(None);
        }
        let form = form_of_token(token);
        if form.is_some() {
            self.next()?;
        }
        Ok(form)
    }

    /// The rest of assignments and conditionals after their first operand.
    #[cycle(grammar)]
    fn rest_of_assignment(&mut self, depth: usize) -> Parsed<Form> {
        if depth == 0 {
            return Err(self.too_deep());
        }
        for _turn in 0..self.turns {
            if self.at(TokenKind::Question) {
                if self.is_optional_mark()? {
                    break;
                }
                self.next()?;
                self.middle_of_conditional(depth - 1)?;
                if self.has_read_conditional {
                    self.has_read_conditional = false;
                    break;
                }
                self.expect(
                    TokenKind::Colon,
                    "expected `:` in the conditional expression",
                )?;
            } else if self.kind().is_assignment() {
                self.next()?;
            } else {
                break;
            }
            let form = self.assignment_operand(depth - 1)?;
            if form == Form::Arrow {
                break;
            }
            self.expect_target(form)?;
        }
        Ok(Form::Operation)
    }

    /// Returns an error at an assignment operator after an expression to which nothing can be assigned.
    fn expect_target(&self, form: Form) -> Parsed<()> {
        if self.kind().is_assignment() && !form.may_be_target() {
            Err(self.error("nothing can be assigned to an operation"))
        } else {
            Ok(())
        }
    }

    /// Returns whether the current `?` marks a parameter of TypeScript that may be left out.
    fn is_optional_mark(&mut self) -> Parsed<bool> {
        if !self.language.is_typescript {
            return Ok(false);
        }
        Ok(matches!(
            self.peek()?.kind,
            TokenKind::Colon | TokenKind::Comma | TokenKind::ParenClose | TokenKind::Equal
        ))
    }

    /// The expression between the `?` and the `:` of a conditional.
    #[cycle(grammar)]
    fn middle_of_conditional(&mut self, depth: usize) -> Parsed<Form> {
        if depth == 0 {
            return Err(self.too_deep());
        }
        let context = self.context;
        self.context.is_in_conditional = true;
        self.context.allows_in = true;
        let result = self.assignment(depth - 1);
        self.context = context;
        result
    }

    /// An operand of an assignment: `yield` with its operand, or operands with binary operators.
    #[cycle(grammar)]
    fn assignment_operand(&mut self, depth: usize) -> Parsed<Form> {
        if depth == 0 {
            return Err(self.too_deep());
        }
        if self.at(TokenKind::Yield) && self.context.is_generator {
            return self.yield_expression(depth - 1);
        }
        if self.context.keeps_values {
            return self.sum(depth - 1);
        }
        let form = if begins_without_prefix(self.kind()) {
            self.postfix(depth - 1)?
        } else {
            self.unary(depth - 1)?
        };
        if form == Form::Arrow || !self.at_binary_operator() {
            return Ok(form);
        }
        self.rest_of_binary(depth - 1)
    }

    /// The operators and operands after the first operand.
    #[cycle(grammar)]
    pub(crate) fn rest_of_binary(&mut self, depth: usize) -> Parsed<Form> {
        if depth == 0 {
            return Err(self.too_deep());
        }
        let mut form = Form::Other;
        for _turn in 0..self.turns {
            if !self.at_binary_operator() {
                break;
            }
            match self.binary_operand(depth - 1)? {
                Form::Arrow => return Ok(Form::Arrow),
                Form::Operation => form = Form::Operation,
                _ => (),
            }
        }
        Ok(form)
    }

    /// A binary operator with its right operand. After a type, as in `a as B`, the whole is no operation.
    #[cycle(grammar)]
    pub(crate) fn binary_operand(&mut self, depth: usize) -> Parsed<Form> {
        if depth == 0 {
            return Err(self.too_deep());
        }
        let is_type = matches!(self.kind(), TokenKind::As | TokenKind::Satisfies);
        self.next()?;
        if is_type {
            self.type_in_expression(depth - 1)?;
            return Ok(Form::Other);
        }
        let start = self.start();
        let form = match self.lone_operand()? {
            Some(form) => form,
            None => self.unary(depth - 1)?,
        };
        operation(form, start, self.has_read_conditional)
    }

    /// A type after `as` or `satisfies`; `as const` too.
    #[cycle(grammar)]
    pub(crate) fn type_in_expression(&mut self, depth: usize) -> Parsed<()> {
        if depth == 0 {
            return Err(self.too_deep());
        }
        if self.eat(TokenKind::Const)? {
            return Ok(());
        }
        let context = self.context;
        self.context.allows_conditional_type = true;
        let result = self.type_(depth - 1);
        self.context = context;
        result
    }

    /// Returns whether the current token is an operator between two operands.
    #[inline(always)]
    pub(crate) fn at_binary_operator(&self) -> bool {
        let token = self.token();
        match token.kind {
            TokenKind::In => self.context.allows_in,
            TokenKind::Instanceof => true,
            TokenKind::As | TokenKind::Satisfies => {
                self.language.is_typescript && !token.is_after_line_end
            }
            kind => kind.is_binary_operator(),
        }
    }

    /// An operand with its prefix operators.
    #[cycle(grammar)]
    pub(crate) fn unary(&mut self, depth: usize) -> Parsed<Form> {
        if depth == 0 {
            return Err(self.too_deep());
        }
        let mut is_update = self.at_update();
        if !self.skip_prefix_operator()? {
            return self.postfix(depth - 1);
        }
        let mut is_unary = !is_update;
        for _turn in 0..self.turns {
            // No other prefix operator may follow `++`.
            if is_update {
                break;
            }
            is_update = self.at_update();
            if !self.skip_prefix_operator()? {
                break;
            }
            is_unary |= !is_update;
        }
        let start = self.start();
        let form = self.postfix(depth - 1)?;
        if is_unary {
            self.expect_no_power()?;
        } else {
            self.expect_no_update()?;
        }
        operation(form, start, self.has_read_conditional)
    }

    /// Returns an error at `**` after a prefix operator with its operand.
    #[inline(always)]
    pub(crate) fn expect_no_power(&self) -> Parsed<()> {
        if self.at(TokenKind::StarStar) {
            Err(self.error("expected parentheses around the left operand of `**`"))
        } else {
            Ok(())
        }
    }

    /// Returns an error if `++` or `--` ends the operand that was read, and one of them is before it too.
    fn expect_no_update(&self) -> Parsed<()> {
        let last = self.lexer.previous_end().saturating_sub(1);
        if matches!(byte_at(self.lexer.text().as_bytes(), last), b'+' | b'-') {
            Err(self.error("expected no second `++` or `--` at the operand"))
        } else {
            Ok(())
        }
    }

    /// Returns whether the current token is `++` or `--`.
    #[inline(always)]
    fn at_update(&self) -> bool {
        matches!(self.kind(), TokenKind::PlusPlus | TokenKind::MinusMinus)
    }

    /// Goes on after a prefix operator, and keeps an `await` outside of functions. Returns whether there
    /// is one.
    #[inline(always)]
    fn skip_prefix_operator(&mut self) -> Parsed<bool> {
        match self.kind() {
            TokenKind::Bang
            | TokenKind::Tilde
            | TokenKind::Plus
            | TokenKind::Minus
            | TokenKind::PlusPlus
            | TokenKind::MinusMinus
            | TokenKind::Typeof
            | TokenKind::Void
            | TokenKind::Delete => {
                self.next()?;
                Ok(true)
            }
            TokenKind::Await if self.context.is_async => {
                self.keep_await()?;
                Ok(true)
            }
            _ => Ok(false),
        }
    }

    /// Goes on after the word `await`, and keeps the node of an await if no function is around it.
    pub(crate) fn keep_await(&mut self) -> Parsed<()> {
        let start = self.start();
        self.no_parameter = start.saturating_add(1);
        self.next()?;
        if self.context.is_function {
            return Ok(());
        }
        let first = self.nodes.len();
        self.push(Shape::Await, first, start)
    }

    /// `yield`, with its operand if there is one.
    #[cycle(grammar)]
    fn yield_expression(&mut self, depth: usize) -> Parsed<Form> {
        if depth == 0 {
            return Err(self.too_deep());
        }
        self.no_parameter = self.start().saturating_add(1);
        self.next()?;
        let has_star = self.at_on_line(TokenKind::Star);
        if has_star {
            self.next()?;
        }
        if has_star || self.may_begin_operand() {
            self.assignment(depth - 1)?;
        }
        Ok(Form::Operation)
    }

    /// Returns whether an operand of `yield` may begin with the current token.
    fn may_begin_operand(&self) -> bool {
        let token = self.token();
        !token.is_after_line_end
            && !matches!(
                token.kind,
                TokenKind::ParenClose
                    | TokenKind::BracketClose
                    | TokenKind::BraceClose
                    | TokenKind::Comma
                    | TokenKind::Semicolon
                    | TokenKind::Colon
                    | TokenKind::Question
                    | TokenKind::In
                    | TokenKind::Of
                    | TokenKind::EndOfText
            )
    }

    /// An operand with what follows it: members, calls, `++` and `--`.
    #[cycle(grammar)]
    pub(crate) fn postfix(&mut self, depth: usize) -> Parsed<Form> {
        if depth == 0 {
            return Err(self.too_deep());
        }
        let first = self.nodes.len();
        let start = self.start();
        let form = self.primary(depth - 1)?;
        if form == Form::Arrow || !may_follow_operand(self.kind()) {
            return Ok(form);
        }
        let operand = Operand {
            form,
            first,
            start,
            end: self.lexer.previous_end(),
        };
        let form = self.subscripts(depth - 1, operand)?;
        if self.at_update() && !self.token().is_after_line_end {
            self.next()?;
            return Ok(Form::Operation);
        }
        Ok(form)
    }
}

/// Returns the form of an operator with its operand, which begins at an offset, or an error if that is an
/// arrow function. In `a ? b + (c) : d => e` it is `(c)`, with which the rest of the conditional was read.
#[inline(always)]
fn operation(operand: Form, start: usize, has_read_conditional: bool) -> Parsed<Form> {
    if operand != Form::Arrow {
        Ok(Form::Operation)
    } else if has_read_conditional {
        Ok(Form::Arrow)
    } else {
        Err(ReadError::syntax("expected parentheses around the arrow function", start))
    }
}

/// Returns whether no prefix operator can begin with a token, by far the most frequent tokens at the start
/// of an operand among them.
#[inline(always)]
fn begins_without_prefix(kind: TokenKind) -> bool {
    matches!(
        kind,
        TokenKind::Identifier
            | TokenKind::This
            | TokenKind::String
            | TokenKind::Number
            | TokenKind::ParenOpen
            | TokenKind::BracketOpen
            | TokenKind::BraceOpen
            | TokenKind::Function
            | TokenKind::New
    )
}

/// Returns whether a token may go on with the operand before it, as members, calls, `++` and `--` do.
#[inline(always)]
fn may_follow_operand(kind: TokenKind) -> bool {
    matches!(
        kind,
        TokenKind::Dot
            | TokenKind::ParenOpen
            | TokenKind::BracketOpen
            | TokenKind::QuestionDot
            | TokenKind::Template
            | TokenKind::TemplateHead
            | TokenKind::Bang
            | TokenKind::Less
            | TokenKind::ShiftLeft
            | TokenKind::PlusPlus
            | TokenKind::MinusMinus
    )
}

/// Returns whether an operand ends before a byte.
#[inline(always)]
fn is_delimiter(byte: u8) -> bool {
    matches!(byte, b',' | b';' | b':' | b')' | b']' | b'}')
}

/// Returns the form of an operand that is one token, or `None` where the operand depends on more.
#[inline(always)]
fn form_of_token(token: Token) -> Option<Form> {
    match token.kind {
        TokenKind::Identifier if !token.has_escape => Some(Form::Identifier),
        TokenKind::String => Some(Form::String),
        TokenKind::Number
        | TokenKind::This
        | TokenKind::Null
        | TokenKind::True
        | TokenKind::False => Some(Form::Other),
        _ => None,
    }
}
