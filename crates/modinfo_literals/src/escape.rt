//! Reads the escapes of literals, without their backslash.

ghost use Rattle.std.specs.Prelude.{◌≡◌, ◌≤◌, ◌<◌, ℕ, min, MatchOption, IfSome, Some};
ghost use Rattle.std.specs.Prelude.{List, [], ◌∷◌, length, drop};
ghost use Rattle.std.specs.Char.{is_digit};
ghost use Rattle.std.specs.Str.{chars};
ghost use Rattle.modinfo_literals.specs.Escape.{begins_with, is_line_terminator, number};
ghost use Rattle.modinfo_literals.specs.internal.Read.{IsStep, HasCodePoint, IsFirstDigit};
ghost use Rattle.modinfo_literals.specs.internal.Step.{digits_of, hex_step, braced_step, unicode_step};
ghost use Rattle.modinfo_literals.specs.internal.Step.{octal_step, single_escape, common_step};
ghost use Rattle.modinfo_literals.specs.internal.Step.{string_escape_step, template_escape_step};

use crate::element::Piece;
use crate::text::{after, after_carriage_return, split_first};

/// One more than the largest code point.
const LIMIT: u32 = 0x11_0000;

/// The digits that a text begins with.
#[derive(Clone, Copy)]
struct Digits<'a> {
    /// The number that the digits stand for, or `LIMIT` if the number is larger.
    value: u32,
    /// The number of digits.
    count: usize,
    /// The text after the digits.
    rest: &'a str,
}

/// Returns the digit of `base` that the text begins with, and the text after it, or `None` if there
/// is none or `most` is zero.
fn next_digit(text: &str, base: u32, most: usize) -> Option<(u32, &str)>
    requires low { 2 ≤ base }
    requires high { base ≤ 36 }
    ensures cases { MatchOption result (digits_of base most (chars text.now) ≡ [])
        (λ r. IsFirstDigit base most (chars text.now) r.0 (chars r.1.now)) }
    ensures shorter { IfSome result (λ r. length r.1.now < length text.now) }
    ensures more { IfSome result (λ r. 0 < most) }
{
    if most == 0 {
        return None;
    }
    let (first, rest) = split_first(text)?;
    Some((first.to_digit(base)?, rest))
}

/// Reads the digits of `base` that the text begins with, at most `most` of them.
fn read_digits(text: &str, base: u32, most: usize) -> Digits<'_>
    requires low { 2 ≤ base }
    requires high { base ≤ 36 }
    ensures value { result.value ≡ min (number base (digits_of base most (chars text.now))) LIMIT }
    ensures count { result.count ≡ length (digits_of base most (chars text.now)) }
    ensures rest { chars result.rest.now
        ≡ drop (length (digits_of base most (chars text.now))) (chars text.now) }
{
    let mut value = 0;
    let mut count = 0;
    let mut rest = text;
    while let Some((digit, after)) = next_digit(rest, base, most - count) {
        value = (value * base + digit).min(LIMIT);
        count += 1;
        rest = after;
    }
    Digits { value, count, rest }
}

/// Reads exactly `count` hexadecimal digits.
fn hex_digits(text: &str, count: usize) -> Option<Piece<'_>>
    requires { count ≤ 4 }
    ensures step { IsStep result (hex_step count (chars text.now)) }
    ensures code_point { HasCodePoint result }
{
    let found = read_digits(text, 16, count);
    if found.count == count {
        Some(Piece {
            point: Some(found.value),
            rest: found.rest,
        })
    } else {
        None
    }
}

/// Reads the hexadecimal digits of a code point and the `}` after them.
fn braced_digits(text: &str) -> Option<Piece<'_>>
    ensures step { IsStep result (braced_step (chars text.now)) }
    ensures code_point { HasCodePoint result }
{
    let found = read_digits(text, 16, text.len());
    if found.count == 0 || found.value == LIMIT {
        return None;
    }
    Some(Piece {
        point: Some(found.value),
        rest: after(found.rest, '}')?,
    })
}

/// Reads a Unicode escape after its `u`: four digits, or digits in braces.
fn unicode_escape(text: &str) -> Option<Piece<'_>>
    ensures step { IsStep result (unicode_step (chars text.now)) }
    ensures code_point { HasCodePoint result }
{
    match after(text, '{') {
        Some(rest) => braced_digits(rest),
        None => hex_digits(text, 4),
    }
}

/// Reads a legacy octal escape, `text`, of which `first` is the first digit.
fn octal_escape(text: &str, first: char) -> Piece<'_>
    ensures step { (rest : List ℕ) → chars text.now ≡ first ∷ rest
        → IsStep (Some result) (octal_step first rest) }
    ensures code_point { HasCodePoint (Some result) }
{
    let found = read_digits(text, 8, if first < '4' { 3 } else { 2 });
    Piece {
        point: Some(found.value),
        rest: found.rest,
    }
}

/// Returns the code point that a character stands for after a backslash.
fn single_escape(c: char) -> char
    ensures { result ≡ single_escape c }
{
    match c {
        'b' => '\u{8}',
        't' => '\t',
        'n' => '\n',
        'v' => '\u{B}',
        'f' => '\u{C}',
        'r' => '\r',
        _ => c,
    }
}

/// Returns whether a character ends a line.
fn is_line_terminator(c: char) -> bool
    ensures { result ≡ is_line_terminator c }
{
    c == '\n' || c == '\r' || c == '\u{2028}' || c == '\u{2029}'
}

/// Reads an escape that doesn't begin with a digit: `first` and what belongs to it of `rest`.
fn common_escape(first: char, rest: &str) -> Option<Piece<'_>>
    ensures step { IsStep result (common_step first (chars rest.now)) }
    ensures code_point { HasCodePoint result }
{
    match first {
        'x' => hex_digits(rest, 2),
        'u' => unicode_escape(rest),
        '\r' => Some(Piece {
            point: None,
            rest: after_carriage_return(rest),
        }),
        _ if is_line_terminator(first) => Some(Piece { point: None, rest }),
        _ => Some(Piece {
            point: Some(u32::from(single_escape(first))),
            rest,
        }),
    }
}

/// Reads an escape of a string literal.
pub(crate) fn string_escape(text: &str) -> Option<Piece<'_>>
    ensures step { IsStep result (string_escape_step (chars text.now)) }
    ensures code_point { HasCodePoint result }
{
    let (first, rest) = split_first(text)?;
    if first.is_digit(8) {
        return Some(octal_escape(text, first));
    }
    if first.is_digit(10) {
        return Some(Piece {
            point: Some(u32::from(first)),
            rest,
        });
    }
    common_escape(first, rest)
}

/// Reads an escape of a template. No digit but a `0` alone is one.
pub(crate) fn template_escape(text: &str) -> Option<Piece<'_>>
    ensures step { IsStep result (template_escape_step (chars text.now)) }
    ensures code_point { HasCodePoint result }
{
    let (first, rest) = split_first(text)?;
    if !first.is_digit(10) {
        return common_escape(first, rest);
    }
    if first == '0' && !begins_with_digit(rest) {
        Some(Piece {
            point: Some(0),
            rest,
        })
    } else {
        None
    }
}

/// Returns whether a text begins with a decimal digit.
fn begins_with_digit(text: &str) -> bool
    ensures { result ≡ begins_with (λ c. is_digit c 10) (chars text.now) }
{
    match split_first(text) {
        Some((first, _)) => first.is_digit(10),
        None => false,
    }
}
