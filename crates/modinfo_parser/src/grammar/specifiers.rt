//! Names in the braces of imports and exports.

use crate::parser::{Parsed, Parser};
use modinfo_lexer::syntax_error::ReadError;
use modinfo_lexer::token::{Token, TokenKind};

/// A name of an import or an export: `name as alias`, or a name alone, which is both.
#[derive(Clone, Copy)]
struct Specifier {
    name: Token,
    alias: Token,
}

impl<'a> Parser<'a> {
    /// `{`, imported names with commas between them, and `}`. Returns whether there are names.
    pub(crate) fn imported_specifiers(&mut self) -> Parsed<bool> {
        self.expect(TokenKind::BraceOpen, "expected `{` before the names")?;
        let mut has_specifiers = false;
        for _turn in 0..self.turns {
            if self.at(TokenKind::BraceClose) {
                break;
            }
            let specifier = self.specifier()?;
            if !specifier.alias.kind.is_identifier() {
                return Err(ReadError::syntax(
                    "expected a name that a variable may have",
                    specifier.alias.start,
                ));
            }
            has_specifiers = true;
            if !self.eat(TokenKind::Comma)? {
                break;
            }
        }
        self.expect(TokenKind::BraceClose, "expected `,` or `}` after the name")?;
        Ok(has_specifiers)
    }

    /// `{`, exported names with commas between them, and `}`. Returns the offset of a name that no variable
    /// may have, and which is thus one of another module.
    pub(crate) fn exported_specifiers(&mut self) -> Parsed<Option<usize>> {
        self.expect(TokenKind::BraceOpen, "expected `{` before the names")?;
        let mut foreign_name = None;
        for _turn in 0..self.turns {
            if self.at(TokenKind::BraceClose) {
                break;
            }
            let specifier = self.specifier()?;
            if foreign_name.is_none() && !specifier.name.kind.is_identifier() {
                foreign_name = Some(specifier.name.start);
            }
            if !self.eat(TokenKind::Comma)? {
                break;
            }
        }
        self.expect(TokenKind::BraceClose, "expected `,` or `}` after the name")?;
        Ok(foreign_name)
    }

    /// A name, or `name as alias`. In TypeScript `type` may be before them, which alone is the name itself,
    /// as it is in `type as alias`.
    fn specifier(&mut self) -> Parsed<Specifier> {
        let mut name = self.token();
        self.name_or_string("expected `}` after the names")?;
        if name.kind == TokenKind::Type && self.language.is_typescript && self.is_after_type()? {
            name = self.token();
            self.next()?;
        }
        let mut alias = name;
        if self.eat(TokenKind::As)? {
            alias = self.token();
            self.name_or_string("expected a name after `as`")?;
        }
        Ok(Specifier { name, alias })
    }

    /// Returns whether the current token is the name after `type` in a specifier. In `type as alias` it
    /// isn't; in `type as`, `type as as alias` it is.
    fn is_after_type(&mut self) -> Parsed<bool> {
        let kind = self.kind();
        if kind != TokenKind::As {
            return Ok(is_name_or_string(kind));
        }
        let state = self.state();
        self.next()?;
        let following = self.kind();
        let last = self.peek();
        self.reset(state);
        let has_alias = is_name_or_string(last?.kind);
        Ok(if following == TokenKind::As {
            has_alias
        } else {
            !is_name_or_string(following)
        })
    }

    /// A name of an import or an export: a word or a string.
    pub(crate) fn name_or_string(&mut self, message: &'static str) -> Parsed<()> {
        if is_name_or_string(self.kind()) {
            self.next()
        } else {
            Err(self.error(message))
        }
    }
}

/// Returns whether a token may be a name of an import or an export.
fn is_name_or_string(kind: TokenKind) -> bool {
    kind.is_name() || kind == TokenKind::String
}
