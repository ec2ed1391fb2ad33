//! Types of TypeScript.

use crate::parser::{Parsed, Parser};
use modinfo_lexer::token::TokenKind;

impl<'a> Parser<'a> {
    /// `:` and a type, if the current token is `:`. Returns whether it is.
    #[cycle(grammar)]
    pub(crate) fn type_annotation(&mut self, depth: usize) -> Parsed<bool> {
        if depth == 0 {
            return Err(self.too_deep());
        }
        if !self.eat(TokenKind::Colon)? {
            return Ok(false);
        }
        self.type_in_brackets(depth - 1)?;
        Ok(true)
    }

    /// A type, which may be a conditional type, whatever is around it.
    #[cycle(grammar)]
    pub(crate) fn type_in_brackets(&mut self, depth: usize) -> Parsed<()> {
        if depth == 0 {
            return Err(self.too_deep());
        }
        let context = self.context;
        self.context = context.in_brackets();
        let result = self.type_(depth - 1);
        self.context = context;
        result
    }

    /// The type of a result: a type, `name is` with a type, or `asserts`.
    #[cycle(grammar)]
    pub(crate) fn return_type(&mut self, depth: usize) -> Parsed<()> {
        if depth == 0 {
            return Err(self.too_deep());
        }
        if self.kind().is_identifier() {
            let following = self.peek()?;
            if following.kind == TokenKind::Is && !following.is_after_line_end {
                self.next()?;
                self.next()?;
                return self.type_(depth - 1);
            }
        }
        if self.at(TokenKind::Asserts) {
            let following = self.peek()?;
            let is_name = following.kind.is_identifier() || following.kind == TokenKind::This;
            if is_name && !following.is_after_line_end {
                self.next()?;
                self.next()?;
                if !self.eat(TokenKind::Is)? {
                    return Ok(());
                }
            }
        }
        self.type_(depth - 1)
    }

    /// A type.
    #[cycle(grammar)]
    pub(crate) fn type_(&mut self, depth: usize) -> Parsed<()> {
        if depth == 0 {
            return Err(self.too_deep());
        }
        for _turn in 0..self.turns {
            if self.is_function_type()? {
                return self.function_type(depth - 1);
            }
            self.union_type(depth - 1)?;
            if !self.context.allows_conditional_type || !self.at_on_line(TokenKind::Extends) {
                break;
            }
            self.next()?;
            self.constraint_of_conditional(depth - 1)?;
            self.expect(TokenKind::Question, "expected `?` in the conditional type")?;
            self.branch_of_conditional(depth - 1)?;
            self.expect(TokenKind::Colon, "expected `:` in the conditional type")?;
        }
        Ok(())
    }

    /// The type after the `?` of a conditional type. A level of them takes much of the stack, so it costs
    /// three of the depth.
    #[cycle(grammar)]
    fn branch_of_conditional(&mut self, depth: usize) -> Parsed<()> {
        if depth < 3 {
            return Err(self.too_deep());
        }
        self.type_(depth - 3)
    }

    /// The type after `extends`, which is no conditional type.
    #[cycle(grammar)]
    fn constraint_of_conditional(&mut self, depth: usize) -> Parsed<()> {
        if depth == 0 {
            return Err(self.too_deep());
        }
        let context = self.context;
        self.context.allows_conditional_type = false;
        let result = self.type_(depth - 1);
        self.context = context;
        result
    }

    /// Returns whether the type at the current token is that of a function or a constructor.
    fn is_function_type(&mut self) -> Parsed<bool> {
        match self.kind() {
            TokenKind::New => Ok(true),
            TokenKind::Less => Ok(true),
            TokenKind::Abstract => Ok(self.peek()?.kind == TokenKind::New),
            TokenKind::ParenOpen => {
                let state = self.state();
                let result = self.skip_start_of_parameters();
                self.reset(state);
                result
            }
            _ => Ok(false),
        }
    }

    /// Skips `(` and what may be the first parameter. Returns whether parameters are there, and no type
    /// in parentheses.
    fn skip_start_of_parameters(&mut self) -> Parsed<bool> {
        self.next()?;
        match self.kind() {
            TokenKind::ParenClose | TokenKind::DotDotDot => return Ok(true),
            TokenKind::BraceOpen | TokenKind::BracketOpen => {
                if !self.skip_pattern()? {
                    return Ok(self.at(TokenKind::Equal));
                }
            }
            TokenKind::This => self.next()?,
            kind if kind.is_identifier() => self.next()?,
            _ => return Ok(false),
        }
        match self.kind() {
            TokenKind::Colon | TokenKind::Comma | TokenKind::Question | TokenKind::Equal => {
                Ok(true)
            }
            TokenKind::ParenClose => {
                self.next()?;
                Ok(self.at(TokenKind::Arrow))
            }
            _ => Ok(false),
        }
    }

    /// Skips the brackets that the current token opens, if all that is in them may be in a pattern without
    /// defaults. Else stops at the first token that may not. Returns whether the brackets are skipped.
    fn skip_pattern(&mut self) -> Parsed<bool> {
        let mut open = 0usize;
        for _turn in 0..self.turns {
            match self.kind() {
                TokenKind::BraceOpen | TokenKind::BracketOpen => open = open.saturating_add(1),
                TokenKind::BraceClose | TokenKind::BracketClose => open = open.saturating_sub(1),
                TokenKind::Comma
                | TokenKind::Colon
                | TokenKind::Dot
                | TokenKind::DotDotDot
                | TokenKind::String
                | TokenKind::Number => (),
                kind if kind.is_name() => (),
                _ => return Ok(false),
            }
            self.next()?;
            if open == 0 {
                return Ok(true);
            }
        }
        Ok(false)
    }

    /// The type of a function or a constructor. A level of results takes much of the stack, so it costs three
    /// more of the depth.
    #[cycle(grammar)]
    fn function_type(&mut self, depth: usize) -> Parsed<()> {
        if depth < 4 {
            return Err(self.too_deep());
        }
        self.eat(TokenKind::Abstract)?;
        self.eat(TokenKind::New)?;
        if self.at(TokenKind::Less) {
            self.type_parameters(depth - 1)?;
        }
        self.parameters(depth - 1)?;
        self.expect(
            TokenKind::Arrow,
            "expected `=>` in the type of the function",
        )?;
        let context = self.context;
        self.context.allows_conditional_type = true;
        let result = self.return_type(depth - 4);
        self.context = context;
        result
    }

    /// Types with `|` and `&` between them, and before the first.
    #[cycle(grammar)]
    fn union_type(&mut self, depth: usize) -> Parsed<()> {
        if depth == 0 {
            return Err(self.too_deep());
        }
        self.skip_union_operator()?;
        for _turn in 0..self.turns {
            if self.is_function_type()? {
                return self.function_type(depth - 1);
            }
            self.operator_type(depth - 1)?;
            if !self.skip_union_operator()? {
                break;
            }
        }
        Ok(())
    }

    /// Goes on after `|`, `&`, or a `|` with a `&` before the first type of an intersection. Returns whether
    /// one is there.
    fn skip_union_operator(&mut self) -> Parsed<bool> {
        let is_union = self.eat(TokenKind::Bar)?;
        Ok(self.eat(TokenKind::Ampersand)? || is_union)
    }

    /// A type with `keyof`, `unique`, `readonly` or `infer` before it, and `[]` or `[..]` after it.
    #[cycle(grammar)]
    fn operator_type(&mut self, depth: usize) -> Parsed<()> {
        if depth == 0 {
            return Err(self.too_deep());
        }
        for _turn in 0..self.turns {
            if !matches!(
                self.kind(),
                TokenKind::Keyof | TokenKind::Unique | TokenKind::Readonly
            ) {
                break;
            }
            self.next()?;
        }
        if self.at(TokenKind::Infer) {
            return self.infer_type(depth - 1);
        }
        self.primary_type(depth - 1)?;
        self.type_brackets(depth - 1)
    }

    /// `[]` and `[..]` after a type, on its line.
    #[cycle(grammar)]
    fn type_brackets(&mut self, depth: usize) -> Parsed<()> {
        if depth == 0 {
            return Err(self.too_deep());
        }
        for _turn in 0..self.turns {
            if !self.at_on_line(TokenKind::BracketOpen) {
                break;
            }
            self.next()?;
            if !self.at(TokenKind::BracketClose) {
                self.type_in_brackets(depth - 1)?;
            }
            self.expect(TokenKind::BracketClose, "expected `]` in the type")?;
        }
        Ok(())
    }

    /// `infer` and a name, with a constraint if there is one that isn't the start of a conditional type.
    #[cycle(grammar)]
    fn infer_type(&mut self, depth: usize) -> Parsed<()> {
        if depth == 0 {
            return Err(self.too_deep());
        }
        self.next()?;
        self.bound_name()?;
        if !self.at(TokenKind::Extends) {
            return Ok(());
        }
        if !self.context.allows_conditional_type {
            self.next()?;
            return self.constraint_of_conditional(depth - 1);
        }
        if self.has_failed() {
            return Ok(());
        }
        let state = self.begin_try()?;
        let result = self.constraint_of_infer(depth - 1);
        self.end_try(depth, state, result)?;
        Ok(())
    }

    /// `extends` and a type. Returns whether the type is a constraint of `infer`, and no conditional type
    /// begins there.
    #[cycle(grammar)]
    fn constraint_of_infer(&mut self, depth: usize) -> Parsed<bool> {
        if depth == 0 {
            return Err(self.too_deep());
        }
        self.next()?;
        self.constraint_of_conditional(depth - 1)?;
        Ok(!self.at(TokenKind::Question))
    }
}

/// Returns whether a type may begin with a token after `as` or `satisfies`.
pub(crate) fn begins_type(kind: TokenKind) -> bool {
    kind.is_name()
        || matches!(
            kind,
            TokenKind::BraceOpen
                | TokenKind::BracketOpen
                | TokenKind::ParenOpen
                | TokenKind::String
                | TokenKind::Number
                | TokenKind::Minus
                | TokenKind::Template
                | TokenKind::TemplateHead
        )
}
