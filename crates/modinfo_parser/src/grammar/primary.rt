//! Operands: what is neither an operator nor follows an operand.

use crate::parser::{Form, Parsed, Parser};
use modinfo_lexer::token::TokenKind;

impl<'a> Parser<'a> {
    /// An operand without what follows it.
    #[cycle(grammar)]
    pub(crate) fn primary(&mut self, depth: usize) -> Parsed<Form> {
        if depth == 0 {
            return Err(self.too_deep());
        }
        match self.kind() {
            TokenKind::String => self.token_as(Form::String),
            TokenKind::Number
            | TokenKind::This
            | TokenKind::Null
            | TokenKind::True
            | TokenKind::False
            | TokenKind::Super
            | TokenKind::PrivateName => self.token_as(Form::Other),
            TokenKind::Slash | TokenKind::SlashEqual => self.regular_expression(),
            TokenKind::Template | TokenKind::TemplateHead => self.template(depth - 1, false),
            TokenKind::ParenOpen => self.parenthesized(depth - 1),
            TokenKind::BracketOpen => self.array(depth - 1),
            TokenKind::BraceOpen => self.object(depth - 1),
            TokenKind::Function => self.function_expression(depth - 1, false),
            TokenKind::Class => self.class_expression(depth - 1),
            TokenKind::At => self.decorated_class(depth - 1),
            TokenKind::New => self.new_expression(depth - 1),
            TokenKind::Import => self.import_call(depth - 1),
            TokenKind::Less | TokenKind::ShiftLeft => self.angle(depth - 1),
            TokenKind::Async => self.async_operand(depth - 1),
            kind if kind.is_identifier() => self.identifier(depth - 1),
            _ => Err(self.error("expected an expression")),
        }
    }

    /// Goes on after a token, which is an operand of this form.
    #[inline(always)]
    fn token_as(&mut self, form: Form) -> Parsed<Form> {
        self.next()?;
        Ok(form)
    }

    /// A regular expression.
    fn regular_expression(&mut self) -> Parsed<Form> {
        self.lexer.rescan_regular_expression()?;
        self.next()?;
        Ok(Form::Other)
    }

    /// A name, or an arrow function with a name as its parameter.
    #[cycle(grammar)]
    #[inline(always)]
    fn identifier(&mut self, depth: usize) -> Parsed<Form> {
        if depth == 0 {
            return Err(self.too_deep());
        }
        let token = self.token();
        if token.kind == TokenKind::Await && !self.language.is_script {
            return Err(self.error("`await` is an operator of async functions and modules alone"));
        }
        self.next()?;
        if self.at_on_line(TokenKind::Arrow) {
            return self.arrow_body(depth - 1, false);
        }
        if token.kind == TokenKind::Require || token.has_escape {
            Ok(Form::Require)
        } else {
            Ok(Form::Identifier)
        }
    }

    /// `async` as the start of a function or an arrow function, or as a name.
    #[cycle(grammar)]
    fn async_operand(&mut self, depth: usize) -> Parsed<Form> {
        if depth == 0 {
            return Err(self.too_deep());
        }
        let following = self.peek()?;
        if following.is_after_line_end {
            return self.identifier(depth - 1);
        }
        match following.kind {
            TokenKind::Function => {
                self.next()?;
                self.function_expression(depth - 1, true)
            }
            TokenKind::ParenOpen => {
                self.next()?;
                self.async_parentheses(depth - 1)
            }
            TokenKind::Less if self.language.is_typescript => self.async_generic(depth - 1),
            kind if kind.is_identifier() => self.async_name(depth - 1),
            _ => self.identifier(depth - 1),
        }
    }

    /// `async` before a name: an arrow function if `=>` follows the name, else a name itself.
    #[cycle(grammar)]
    fn async_name(&mut self, depth: usize) -> Parsed<Form> {
        if depth == 0 {
            return Err(self.too_deep());
        }
        let state = self.state();
        self.next()?;
        self.next()?;
        if self.at_on_line(TokenKind::Arrow) {
            return self.arrow_body(depth - 1, true);
        }
        self.reset(state);
        self.identifier(depth - 1)
    }

    /// `async` before `<`: an arrow function with type parameters, a call with type arguments, or a name.
    #[cycle(grammar)]
    fn async_generic(&mut self, depth: usize) -> Parsed<Form> {
        if depth == 0 {
            return Err(self.too_deep());
        }
        if self.eat_names_in_angles()? {
            return self.async_parentheses(depth - 1);
        }
        if self.try_type_parameters(depth - 1)? {
            return self.generic_arrow(depth - 1, true);
        }
        self.identifier(depth - 1)
    }

    /// What begins with `<`: an element of JSX, an arrow function with type parameters, or an expression
    /// with a type before it.
    #[cycle(grammar)]
    fn angle(&mut self, depth: usize) -> Parsed<Form> {
        if depth == 0 {
            return Err(self.too_deep());
        }
        if !self.language.is_typescript {
            return self.jsx(depth - 1);
        }
        if self.language.has_jsx {
            if self.is_generic_in_jsx()? && self.try_type_parameters(depth - 1)? {
                return self.generic_arrow(depth - 1, false);
            }
            return self.jsx(depth - 1);
        }
        if self.eat_names_in_angles()? {
            let form = self.postfix(depth - 1)?;
            return self.asserted(form);
        }
        if self.try_type_parameters(depth - 1)? {
            return self.generic_arrow(depth - 1, false);
        }
        self.type_assertion(depth - 1)
    }

    /// Returns the form of an operand in parentheses with names in `<` and `>` before it: that of an arrow
    /// function, or of an operand after a type, which can't be the left operand of `**`.
    fn asserted(&self, operand: Form) -> Parsed<Form> {
        if operand == Form::Arrow {
            return Ok(operand);
        }
        self.expect_no_power()?;
        Ok(Form::Operation)
    }

    /// Returns whether `<` begins type parameters where an element of JSX may begin too: a name with
    /// `,`, `=` or `extends` after it.
    fn is_generic_in_jsx(&mut self) -> Parsed<bool> {
        let state = self.state();
        let result = self.skip_generic_start();
        self.reset(state);
        result
    }

    /// Skips `<`, `const` and a name. Returns whether the token after them goes on with type parameters.
    fn skip_generic_start(&mut self) -> Parsed<bool> {
        self.next()?;
        if self.eat(TokenKind::Const)? {
            return Ok(self.kind().is_identifier());
        }
        if !self.kind().is_identifier() {
            return Ok(false);
        }
        self.next()?;
        if self.eat(TokenKind::Extends)? {
            return Ok(!matches!(
                self.kind(),
                TokenKind::Equal | TokenKind::Greater | TokenKind::Slash
            ));
        }
        Ok(matches!(self.kind(), TokenKind::Comma | TokenKind::Equal))
    }

    /// `<`, a type, `>` and an operand. A level of these takes much of the stack, so it costs one more of the
    /// depth.
    #[cycle(grammar)]
    fn type_assertion(&mut self, depth: usize) -> Parsed<Form> {
        if depth < 2 {
            return Err(self.too_deep());
        }
        self.lexer.rescan_angle();
        self.next()?;
        self.type_in_expression(depth - 1)?;
        self.expect_greater()?;
        self.unary(depth - 2)?;
        self.expect_no_power()?;
        Ok(Form::Operation)
    }

    /// An array literal, which may be a pattern.
    #[cycle(grammar)]
    pub(crate) fn array(&mut self, depth: usize) -> Parsed<Form> {
        if depth == 0 {
            return Err(self.too_deep());
        }
        self.next()?;
        let context = self.context;
        self.context = context.in_brackets();
        let result = self.elements(depth - 1);
        self.context = context;
        result?;
        self.expect(TokenKind::BracketClose, "expected `]` after the elements")?;
        Ok(Form::Array)
    }

    /// Elements of an array, of which some may be left out.
    #[cycle(grammar)]
    fn elements(&mut self, depth: usize) -> Parsed<()> {
        if depth == 0 {
            return Err(self.too_deep());
        }
        for _turn in 0..self.turns {
            match self.kind() {
                TokenKind::BracketClose => break,
                TokenKind::Comma => self.next()?,
                _ => {
                    self.element(depth - 1)?;
                    if !self.eat(TokenKind::Comma)? {
                        break;
                    }
                }
            }
        }
        Ok(())
    }

    /// An element of an array, which may be spread.
    #[cycle(grammar)]
    fn element(&mut self, depth: usize) -> Parsed<()> {
        if depth == 0 {
            return Err(self.too_deep());
        }
        let start = self.start();
        let is_spread = self.eat(TokenKind::DotDotDot)?;
        let form = self.assignment(depth - 1)?;
        if !form.may_be_pattern() || is_spread && self.at(TokenKind::Comma) {
            self.keep_no_pattern(start);
        }
        Ok(())
    }
}
