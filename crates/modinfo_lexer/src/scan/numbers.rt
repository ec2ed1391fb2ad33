use crate::characters::{byte_at, is_word_byte};
use crate::scan::names::word_end;

/// Returns the end of the number that begins at an offset, with a digit or with a dot before a digit, or
/// `None` if what begins there is none, as `1_`, `0b2` or `3in`.
pub fn number_end(text: &[u8], from: usize) -> Option<usize> {
    let end = if byte_at(text, from) == b'0' {
        number_after_zero(text, from)?
    } else {
        decimal_end(text, from)?
    };
    let next = byte_at(text, end);
    if is_word_byte(next) || next == b'\\' {
        return None;
    }
    Some(end)
}

/// Returns the end of the number that begins with the zero at an offset.
fn number_after_zero(text: &[u8], from: usize) -> Option<usize> {
    match byte_at(text, from.saturating_add(1)) {
        b'x' | b'X' => based_end(text, from, 16),
        b'o' | b'O' => based_end(text, from, 8),
        b'b' | b'B' => based_end(text, from, 2),
        b'0'..=b'9' | b'_' => old_end(text, from),
        _ => decimal_end(text, from),
    }
}

/// Returns the end of the number that begins with a zero and the letter of a base.
fn based_end(text: &[u8], from: usize, base: u8) -> Option<usize> {
    let digits = from.saturating_add(2);
    let end = word_end(text, digits);
    let digits = match text.get(digits..end)? {
        [front @ .., b'n'] => front,
        digits => digits,
    };
    let is_number = digits
        .iter()
        .all(|digit| *digit == b'_' || is_digit(*digit, base));
    if digits.is_empty() || !is_number || has_loose_separator(digits) {
        return None;
    }
    Some(end)
}

/// Returns whether a byte is a digit to a base of at most sixteen.
fn is_digit(byte: u8, base: u8) -> bool {
    match base {
        2 => matches!(byte, b'0' | b'1'),
        8 => matches!(byte, b'0'..=b'7'),
        _ => byte.is_ascii_hexdigit(),
    }
}

/// Returns the end of the number that begins with a zero before another digit, as only scripts have them:
/// to base eight, or with an 8 or a 9 a decimal.
fn old_end(text: &[u8], from: usize) -> Option<usize> {
    let end = digits_end(text, from);
    let digits = text.get(from..end)?;
    if digits.contains(&b'_') {
        return None;
    }
    if is_octal(digits) || byte_at(text, end) == b'n' {
        return Some(end);
    }
    decimal_end(text, from)
}

/// Returns the end of a decimal with its fraction, its exponent or the `n` of a large integer.
fn decimal_end(text: &[u8], from: usize) -> Option<usize> {
    let whole = digits_end(text, from);
    if byte_at(text, whole) == b'n' {
        return end_without_loose_separator(text, from, whole.saturating_add(1));
    }
    let mut end = whole;
    if byte_at(text, end) == b'.' {
        end = digits_end(text, end.saturating_add(1));
    }
    end_without_loose_separator(text, from, exponent_end(text, end))
}

/// Returns the end of a number, or `None` if a separator in it isn't between two digits.
#[inline(always)]
fn end_without_loose_separator(text: &[u8], from: usize, end: usize) -> Option<usize> {
    if has_loose_separator(text.get(from..end)?) {
        None
    } else {
        Some(end)
    }
}

/// Returns whether a separator isn't between two digits.
fn has_loose_separator(number: &[u8]) -> bool {
    for at in 0..number.len() {
        if number[at] == b'_'
            && !(byte_at(number, at.wrapping_sub(1)).is_ascii_hexdigit()
                && byte_at(number, at.saturating_add(1)).is_ascii_hexdigit())
        {
            return true;
        }
    }
    false
}

/// Returns whether digits are a number to base eight by a zero before others, as only scripts have
/// them.
fn is_octal(digits: &[u8]) -> bool {
    match digits {
        [b'0', rest @ ..] => {
            !rest.is_empty() && rest.iter().all(|digit| matches!(digit, b'0'..=b'7'))
        }
        _ => false,
    }
}

/// Returns the end of the decimal digits and separators from an offset on.
fn digits_end(text: &[u8], from: usize) -> usize {
    let mut at = from;
    'digits: while at < text.len() && (text[at].is_ascii_digit() || text[at] == b'_') {
        at += 1;
    }
    at
}

/// Returns the end of the exponent at an offset, or the offset if there is none.
fn exponent_end(text: &[u8], at: usize) -> usize {
    if !matches!(byte_at(text, at), b'e' | b'E') {
        return at;
    }
    let after = at.saturating_add(1);
    let digits = if matches!(byte_at(text, after), b'+' | b'-') {
        after.saturating_add(1)
    } else {
        after
    };
    if byte_at(text, digits).is_ascii_digit() {
        digits_end(text, digits)
    } else {
        at
    }
}
