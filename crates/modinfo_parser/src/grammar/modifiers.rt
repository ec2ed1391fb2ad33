//! Words before the name of a property, a member or a parameter.

use crate::parser::{Parsed, Parser};
use deno_graph_base::text::SourceRange;
use modinfo_lexer::token::{Token, TokenKind};

/// The words before a name that say what kind of function the member is.
#[derive(Clone, Copy)]
pub(crate) struct Modifiers {
    pub(crate) is_async: bool,
    pub(crate) is_generator: bool,
    pub(crate) is_static: bool,
    /// Whether a method has to follow, as after `get` or `*`.
    pub(crate) is_method: bool,
    /// The range of the name itself, if the last word is no modifier but the name.
    pub(crate) name: Option<SourceRange>,
}

impl<'a> Parser<'a> {
    /// Reads `get`, `set`, `async` and `*` before the name of a property.
    pub(crate) fn property_modifiers(&mut self) -> Parsed<Modifiers> {
        let mut modifiers = Modifiers {
            is_async: false,
            is_generator: false,
            is_static: false,
            is_method: false,
            name: None,
        };
        let word = self.token();
        if matches!(
            word.kind,
            TokenKind::Get | TokenKind::Set | TokenKind::Async
        ) {
            self.next()?;
            if self.is_word_the_name(word.kind) {
                modifiers.name = Some(SourceRange::new(word.start, word.end));
                return Ok(modifiers);
            }
            modifiers.is_async = word.kind == TokenKind::Async;
            modifiers.is_method = true;
        }
        modifiers.is_generator = self.eat(TokenKind::Star)?;
        modifiers.is_method |= modifiers.is_generator;
        Ok(modifiers)
    }

    /// Reads the words and the `*` before the name of a member of a class.
    pub(crate) fn member_modifiers(&mut self) -> Parsed<Modifiers> {
        let mut modifiers = Modifiers {
            is_async: false,
            is_generator: false,
            is_static: false,
            is_method: false,
            name: None,
        };
        let mut has_static = false;
        for _turn in 0..self.turns {
            let word = self.token();
            let is_second = has_static && word.kind == TokenKind::Static
                || modifiers.is_async && word.kind == TokenKind::Async;
            if is_second || !self.may_be_modifier(word.kind) {
                break;
            }
            self.next()?;
            if word.kind == TokenKind::Static && self.at(TokenKind::BraceOpen) {
                modifiers.is_static = true;
                return Ok(modifiers);
            }
            if self.is_word_the_name(word.kind) {
                modifiers.name = Some(SourceRange::new(word.start, word.end));
                return Ok(modifiers);
            }
            modifiers.is_async |= word.kind == TokenKind::Async;
            has_static |= word.kind == TokenKind::Static;
            modifiers.is_method = matches!(word.kind, TokenKind::Get | TokenKind::Set);
            if modifiers.is_method {
                return Ok(modifiers);
            }
        }
        modifiers.is_generator = self.eat(TokenKind::Star)?;
        modifiers.is_method = modifiers.is_generator;
        Ok(modifiers)
    }

    /// Returns whether a word may be a modifier of a member of a class.
    fn may_be_modifier(&self, kind: TokenKind) -> bool {
        match kind {
            TokenKind::Static
            | TokenKind::Async
            | TokenKind::Get
            | TokenKind::Set
            | TokenKind::Accessor => true,
            TokenKind::Abstract
            | TokenKind::Declare
            | TokenKind::Override
            | TokenKind::Private
            | TokenKind::Protected
            | TokenKind::Public
            | TokenKind::Readonly => self.language.is_typescript,
            _ => false,
        }
    }

    /// Returns whether a word that could be a modifier, which the current token follows, is the name.
    fn is_word_the_name(&self, word: TokenKind) -> bool {
        let token = self.token();
        match token.kind {
            TokenKind::ParenOpen
            | TokenKind::Less
            | TokenKind::Equal
            | TokenKind::Semicolon
            | TokenKind::Colon
            | TokenKind::Comma
            | TokenKind::Question
            | TokenKind::Bang
            | TokenKind::BraceClose
            | TokenKind::EndOfText => true,
            TokenKind::Star => !may_precede_star(word) || token.is_after_line_end,
            TokenKind::At => token.is_after_line_end,
            _ => token.is_after_line_end && ends_with_line(word),
        }
    }

    /// Returns whether the current token is a modifier of a parameter, as `private` is.
    pub(crate) fn at_parameter_modifier(&mut self) -> Parsed<bool> {
        if !self.language.is_typescript || !is_parameter_modifier(self.kind()) {
            return Ok(false);
        }
        Ok(begins_binding(self.peek()?))
    }
}

/// Returns whether a `*` may follow a modifier.
fn may_precede_star(word: TokenKind) -> bool {
    !matches!(
        word,
        TokenKind::Get | TokenKind::Set | TokenKind::Accessor | TokenKind::Readonly
    )
}

/// Returns whether a word is no modifier if a line ends after the word.
fn ends_with_line(word: TokenKind) -> bool {
    !matches!(word, TokenKind::Static | TokenKind::Get | TokenKind::Set)
}

/// Returns whether a word is a modifier of a parameter, as `private` is.
fn is_parameter_modifier(kind: TokenKind) -> bool {
    matches!(
        kind,
        TokenKind::Override
            | TokenKind::Private
            | TokenKind::Protected
            | TokenKind::Public
            | TokenKind::Readonly
    )
}

/// Returns whether a name or a pattern begins with a token.
fn begins_binding(token: Token) -> bool {
    token.kind.is_identifier()
        || matches!(
            token.kind,
            TokenKind::BraceOpen | TokenKind::BracketOpen | TokenKind::This
        )
}
