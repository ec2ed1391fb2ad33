use crate::characters::byte_at;
use crate::token::TokenKind;

/// The kind and the end of a token of punctuation.
#[derive(Clone, Copy)]
pub struct Operator {
    pub kind: TokenKind,
    pub end: usize,
}

/// Returns the kind of the token that is a bracket or a separator by its first byte, or `None` if there is
/// none. A brace ends no part of a template.
#[inline(always)]
pub fn bracket_or_separator(first: u8) -> Option<TokenKind> {
    let kind = match first {
        b'{' => TokenKind::BraceOpen,
        b'}' => TokenKind::BraceClose,
        b'(' => TokenKind::ParenOpen,
        b')' => TokenKind::ParenClose,
        b'[' => TokenKind::BracketOpen,
        b']' => TokenKind::BracketClose,
        b';' => TokenKind::Semicolon,
        b',' => TokenKind::Comma,
        b':' => TokenKind::Colon,
        b'~' => TokenKind::Tilde,
        b'@' => TokenKind::At,
        _ => return None,
    };
    Some(kind)
}

/// Returns the other token of punctuation at an offset, the longest one, or `None` if there is none. A
/// slash is a division.
#[inline(always)]
pub fn operator_at(text: &[u8], at: usize) -> Option<Operator> {
    let next = byte_at(text, at.saturating_add(1));
    let (kind, length) = match byte_at(text, at) {
        b'.' => dots(next, byte_at(text, at.saturating_add(2))),
        b'?' => question(next, byte_at(text, at.saturating_add(2))),
        b'=' => equal(next, byte_at(text, at.saturating_add(2))),
        b'!' => bang(next, byte_at(text, at.saturating_add(2))),
        b'<' => less(next, byte_at(text, at.saturating_add(2))),
        b'>' => greater(text, at),
        first => arithmetic(first, next, byte_at(text, at.saturating_add(2)))?,
    };
    Some(Operator {
        kind,
        end: at.saturating_add(length),
    })
}

fn dots(second: u8, third: u8) -> (TokenKind, usize) {
    if second == b'.' && third == b'.' {
        (TokenKind::DotDotDot, 3)
    } else {
        (TokenKind::Dot, 1)
    }
}

/// A `?.` before a digit is a question mark: `a?.5:1` is a conditional.
fn question(second: u8, third: u8) -> (TokenKind, usize) {
    match second {
        b'?' if third == b'=' => (TokenKind::CompoundEqual, 3),
        b'?' => (TokenKind::QuestionQuestion, 2),
        b'.' if !third.is_ascii_digit() => (TokenKind::QuestionDot, 2),
        _ => (TokenKind::Question, 1),
    }
}

fn equal(second: u8, third: u8) -> (TokenKind, usize) {
    match second {
        b'>' => (TokenKind::Arrow, 2),
        b'=' if third == b'=' => (TokenKind::Equality, 3),
        b'=' => (TokenKind::Equality, 2),
        _ => (TokenKind::Equal, 1),
    }
}

fn bang(second: u8, third: u8) -> (TokenKind, usize) {
    match second {
        b'=' if third == b'=' => (TokenKind::Equality, 3),
        b'=' => (TokenKind::Equality, 2),
        _ => (TokenKind::Bang, 1),
    }
}

fn less(second: u8, third: u8) -> (TokenKind, usize) {
    match second {
        b'<' if third == b'=' => (TokenKind::CompoundEqual, 3),
        b'<' => (TokenKind::ShiftLeft, 2),
        b'=' => (TokenKind::LessEqual, 2),
        _ => (TokenKind::Less, 1),
    }
}

/// `>`, `>=`, `>>`, `>>=`, `>>>` or `>>>=`
fn greater(text: &[u8], at: usize) -> (TokenKind, usize) {
    let second = byte_at(text, at.saturating_add(1));
    let third = byte_at(text, at.saturating_add(2));
    match (second, third) {
        (b'>', b'>') if byte_at(text, at.saturating_add(3)) == b'=' => {
            (TokenKind::CompoundEqual, 4)
        }
        (b'>', b'>') => (TokenKind::GreaterMore, 3),
        (b'>', b'=') => (TokenKind::CompoundEqual, 3),
        (b'>', _) | (b'=', _) => (TokenKind::GreaterMore, 2),
        _ => (TokenKind::Greater, 1),
    }
}

/// An operator of arithmetic, or one on bits or truth values.
fn arithmetic(first: u8, second: u8, third: u8) -> Option<(TokenKind, usize)> {
    let (single, double) = match first {
        b'+' => (TokenKind::Plus, TokenKind::PlusPlus),
        b'-' => (TokenKind::Minus, TokenKind::MinusMinus),
        b'*' => (TokenKind::Star, TokenKind::StarStar),
        b'&' => (TokenKind::Ampersand, TokenKind::AndAnd),
        b'|' => (TokenKind::Bar, TokenKind::OrOr),
        b'/' if second == b'=' => return Some((TokenKind::SlashEqual, 2)),
        b'/' => return Some((TokenKind::Slash, 1)),
        b'%' => (TokenKind::Percent, TokenKind::Percent),
        b'^' => (TokenKind::Caret, TokenKind::Caret),
        _ => return None,
    };
    if second == b'=' {
        return Some((TokenKind::CompoundEqual, 2));
    }
    if second != first || matches!(first, b'%' | b'^') {
        return Some((single, 1));
    }
    if third == b'=' && !matches!(first, b'+' | b'-') {
        return Some((TokenKind::CompoundEqual, 3));
    }
    Some((double, 2))
}
