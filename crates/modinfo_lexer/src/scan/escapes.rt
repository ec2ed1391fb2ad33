//! Escapes of strings and templates.

use crate::characters::byte_at;
use crate::scan::names::word_end;

/// Returns whether the escape whose backslash is at an offset stands for something in a string: `\x` needs
/// two digits to base sixteen, `\u` four, or some in braces for a character up to U+10FFFF.
pub fn is_escape(text: &[u8], at: usize) -> bool {
    let digits = at.saturating_add(2);
    match byte_at(text, at.saturating_add(1)) {
        b'x' => has_digits(text, digits, 2),
        b'u' if byte_at(text, digits) == b'{' => { is_code_point(text, digits.saturating_add(1)) }
        b'u' => has_digits(text, digits, 4),
        _ => true,
    }
}

/// Returns the offset of the first escape between two offsets that stands for nothing, or `None` if there is
/// none. Of a string, a line end ends the search. A template has no octal escapes.
pub fn bad_escape(text: &[u8], from: usize, end: usize, is_template: bool) -> Option<usize> {
    let mut at = from;
    'bytes: while at < end {
        let byte = byte_at(text, at);
        if byte == b'\\' {
            if !is_escape(text, at) || is_template && is_octal(text, at) {
                return Some(at);
            }
            at = at.saturating_add(2);
        } else if !is_template && matches!(byte, b'\n' | b'\r') {
            return None;
        } else {
            at += 1;
        }
    }
    None
}

/// Returns whether the escape whose backslash is at an offset is a digit, but for a `\0` without another
/// digit.
fn is_octal(text: &[u8], at: usize) -> bool {
    match byte_at(text, at.saturating_add(1)) {
        b'0' => byte_at(text, at.saturating_add(2)).is_ascii_digit(),
        digit => digit.is_ascii_digit(),
    }
}

/// Returns whether a number of digits to base sixteen is at an offset.
fn has_digits(text: &[u8], from: usize, count: usize) -> bool {
    match text.get(from..from.saturating_add(count)) {
        Some(digits) => digits.iter().all(|digit| digit.is_ascii_hexdigit()),
        None => false,
    }
}

/// Returns whether digits to base sixteen for a character, and `}`, are at an offset.
fn is_code_point(text: &[u8], from: usize) -> bool {
    let end = word_end(text, from);
    if byte_at(text, end) != b'}' {
        return false;
    }
    let mut code = 0u32;
    for at in from..end {
        let digit = byte_at(text, at);
        if !digit.is_ascii_hexdigit() {
            return false;
        }
        code = code.saturating_mul(16).saturating_add(hex_value(digit));
    }
    end > from && code <= 0x10_FFFF
}

/// Returns the value of a digit to base sixteen.
fn hex_value(digit: u8) -> u32 {
    let value = match digit {
        b'0'..=b'9' => digit.saturating_sub(b'0'),
        b'a'..=b'f' => digit.saturating_sub(b'a').saturating_add(10),
        _ => digit.saturating_sub(b'A').saturating_add(10),
    };
    value as u32
}
