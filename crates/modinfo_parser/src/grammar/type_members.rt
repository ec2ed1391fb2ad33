//! Object types, mapped types, and the members of both and of interfaces.

use crate::parser::{Parsed, Parser};
use modinfo_lexer::token::TokenKind;

impl<'a> Parser<'a> {
    /// `{`, members and `}`, or a mapped type.
    #[cycle(grammar)]
    pub(crate) fn object_type(&mut self, depth: usize) -> Parsed<()> {
        if depth == 0 {
            return Err(self.too_deep());
        }
        let context = self.context;
        self.context = context.in_brackets();
        let result = self.members_or_mapping(depth - 1);
        self.context = context;
        result
    }

    /// A mapped type if the tokens after `{` begin one, else members.
    #[cycle(grammar)]
    fn members_or_mapping(&mut self, depth: usize) -> Parsed<()> {
        if depth == 0 {
            return Err(self.too_deep());
        }
        if self.is_mapped_type()? {
            return self.mapped_type(depth - 1);
        }
        self.expect(
            TokenKind::BraceOpen,
            "expected `{` before the members of the type",
        )?;
        for _turn in 0..self.turns {
            if self.at(TokenKind::BraceClose) {
                break;
            }
            self.type_member(depth - 1)?;
        }
        self.expect(
            TokenKind::BraceClose,
            "expected `}` after the members of the type",
        )
    }

    /// Returns whether a mapped type begins at the current token.
    fn is_mapped_type(&mut self) -> Parsed<bool> {
        let state = self.state();
        let result = self.skip_mapped_start();
        self.reset(state);
        result
    }

    /// Skips `{`, `readonly`, `[` and a name. Returns whether `in` follows them.
    fn skip_mapped_start(&mut self) -> Parsed<bool> {
        self.next()?;
        if matches!(self.kind(), TokenKind::Plus | TokenKind::Minus) {
            self.next()?;
            return Ok(self.at(TokenKind::Readonly));
        }
        self.eat(TokenKind::Readonly)?;
        if !self.eat(TokenKind::BracketOpen)? || !self.kind().is_identifier() {
            return Ok(false);
        }
        self.next()?;
        Ok(self.at(TokenKind::In))
    }

    /// A mapped type: `{ [K in T as U]?: V }` with modifiers.
    #[cycle(grammar)]
    fn mapped_type(&mut self, depth: usize) -> Parsed<()> {
        if depth == 0 {
            return Err(self.too_deep());
        }
        self.next()?;
        self.skip_sign()?;
        self.eat(TokenKind::Readonly)?;
        self.expect(TokenKind::BracketOpen, "expected `[` in the mapped type")?;
        self.bound_name()?;
        self.expect(TokenKind::In, "expected `in` in the mapped type")?;
        self.type_in_brackets(depth - 1)?;
        if self.eat(TokenKind::As)? {
            self.type_in_brackets(depth - 1)?;
        }
        self.expect(TokenKind::BracketClose, "expected `]` in the mapped type")?;
        self.skip_sign()?;
        self.eat(TokenKind::Question)?;
        self.type_annotation(depth - 1)?;
        self.end_of_member()?;
        self.expect(TokenKind::BraceClose, "expected `}` after the mapped type")
    }

    /// Goes on after `+` or `-`, if one is there.
    fn skip_sign(&mut self) -> Parsed<()> {
        if matches!(self.kind(), TokenKind::Plus | TokenKind::Minus) {
            self.next()?;
        }
        Ok(())
    }

    /// A member of a type, with the `;` or `,` after it.
    #[cycle(grammar)]
    fn type_member(&mut self, depth: usize) -> Parsed<()> {
        if depth == 0 {
            return Err(self.too_deep());
        }
        if matches!(self.kind(), TokenKind::ParenOpen | TokenKind::Less) {
            self.signature(depth - 1)?;
            return self.end_of_member();
        }
        if self.at(TokenKind::New) && self.is_signature_next()? {
            self.next()?;
            self.signature(depth - 1)?;
            return self.end_of_member();
        }
        if !self.skip_type_modifiers()? {
            if self.is_index_signature()? {
                return self.index_signature(depth - 1);
            }
            self.property_name(depth - 1)?;
        }
        self.eat(TokenKind::Question)?;
        if matches!(self.kind(), TokenKind::ParenOpen | TokenKind::Less) {
            self.signature(depth - 1)?;
        } else {
            self.type_annotation(depth - 1)?;
        }
        self.end_of_member()
    }

    /// Returns whether a signature follows the current token.
    fn is_signature_next(&mut self) -> Parsed<bool> {
        Ok(matches!(self.peek()?.kind, TokenKind::ParenOpen | TokenKind::Less))
    }

    /// Goes on after `readonly`, `get` and `set` before a name. Returns whether the last word is the name
    /// itself.
    fn skip_type_modifiers(&mut self) -> Parsed<bool> {
        for _turn in 0..self.turns {
            let may_be_modifier = matches!(
                self.kind(),
                TokenKind::Readonly
                    | TokenKind::Get
                    | TokenKind::Set
                    | TokenKind::Public
                    | TokenKind::Private
                    | TokenKind::Protected
                    | TokenKind::Static
                    | TokenKind::Declare
            );
            if !may_be_modifier {
                return Ok(false);
            }
            self.next()?;
            if !self.at_member_name() {
                return Ok(true);
            }
        }
        Ok(false)
    }

    /// Returns whether the name of a member may begin with the current token, on the line of the word
    /// before it.
    fn at_member_name(&self) -> bool {
        let token = self.token();
        !token.is_after_line_end
            && (token.kind.is_name()
                || matches!(
                    token.kind,
                    TokenKind::String
                        | TokenKind::Number
                        | TokenKind::BracketOpen
                        | TokenKind::PrivateName
                ))
    }
}
