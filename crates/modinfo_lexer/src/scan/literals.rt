use crate::characters::{byte_at, is_word_byte};
use crate::classes::{JSX_STOP, PATTERN_STOP, STRING_STOP, TEMPLATE_STOP, next_of_class};
use crate::scan::escapes::is_escape;
use crate::scan::names::rest_of_name;

/// Returns the end of the string whose quote is at an offset, or `None` if a line or the text ends
/// before the string does, or if an escape in it stands for nothing.
pub fn string_end(text: &[u8], from: usize) -> Option<usize> {
    let quote = byte_at(text, from);
    let mut at = from.saturating_add(1);
    for _turn in 0..text.len() {
        at = next_of_class(text, at, STRING_STOP);
        match byte_at(text, at) {
            byte if byte == quote => return Some(at.saturating_add(1)),
            b'\\' if !is_escape(text, at) => return None,
            b'\\' if is_line_end_pair(text, at.saturating_add(1)) => at = at.saturating_add(3),
            b'\\' => at = at.saturating_add(2),
            b'"' | b'\'' => at = at.saturating_add(1),
            _ => return None,
        }
    }
    None
}

/// Returns whether CR LF is at an offset.
#[inline(always)]
fn is_line_end_pair(text: &[u8], at: usize) -> bool {
    byte_at(text, at) == b'\r' && byte_at(text, at.saturating_add(1)) == b'\n'
}

/// Returns the end of the string in JSX whose quote is at an offset, or `None` if the text ends before
/// the string does. Such a string has no escapes, and may have line ends.
pub fn jsx_string_end(text: &[u8], from: usize) -> Option<usize> {
    let quote = byte_at(text, from);
    let mut at = from.saturating_add(1);
    'bytes: while at < text.len() {
        if text[at] == quote {
            return Some(at + 1);
        }
        at += 1;
    }
    None
}

/// The end of a part of a template.
#[derive(Clone, Copy)]
pub struct TemplateEnd {
    /// Offset after the backtick, or after `${`.
    pub end: usize,
    /// Whether the part ends with `${`.
    pub has_substitution: bool,
    pub has_escape: bool,
}

/// Returns the end of the part of a template whose text begins at an offset, or `None` if the text ends
/// before the template does.
pub fn template_end(text: &[u8], from: usize) -> Option<TemplateEnd> {
    let mut at = from;
    let mut has_escape = false;
    for _turn in 0..text.len() {
        at = next_of_class(text, at, TEMPLATE_STOP);
        match byte_at(text, at) {
            b'`' => {
                return Some(TemplateEnd {
                    end: at.saturating_add(1),
                    has_substitution: false,
                    has_escape,
                });
            }
            b'$' if byte_at(text, at.saturating_add(1)) == b'{' => {
                return Some(TemplateEnd {
                    end: at.saturating_add(2),
                    has_substitution: true,
                    has_escape,
                });
            }
            b'$' => at = at.saturating_add(1),
            b'\\' => {
                has_escape = true;
                at = at.saturating_add(2);
            }
            _ => return None,
        }
    }
    None
}

/// Returns the end of the regular expression whose slash is at an offset, with its flags, or `None` if
/// the line or the text ends before the regular expression does.
pub fn regular_expression_end(text: &str, from: usize) -> Option<usize> {
    let bytes = text.as_bytes();
    let mut is_in_class = false;
    let mut at = from.saturating_add(1);
    for _turn in 0..bytes.len() {
        at = next_of_class(bytes, at, PATTERN_STOP);
        if at >= bytes.len() || is_line_end(bytes, at) {
            return None;
        }
        let after = at.saturating_add(1);
        match bytes[at] {
            b'/' if !is_in_class => return Some(rest_of_name(text, after, false).end),
            b'[' => is_in_class = true,
            b']' => is_in_class = false,
            _ => (),
        }
        at = if bytes[at] == b'\\' && !is_line_end(bytes, after) {
            at.saturating_add(2)
        } else {
            after
        };
    }
    None
}

/// Returns whether a line ends at an offset.
#[inline(always)]
fn is_line_end(text: &[u8], at: usize) -> bool {
    match byte_at(text, at) {
        b'\n' | b'\r' => true,
        0xE2 => {
            byte_at(text, at.saturating_add(1)) == 0x80
                && matches!(byte_at(text, at.saturating_add(2)), 0xA8 | 0xA9)
        }
        _ => false,
    }
}

/// Returns the end of the text of JSX from an offset on: the offset of the next `{` or `<`, or the
/// text's end.
pub fn jsx_text_end(text: &[u8], from: usize) -> usize {
    next_of_class(text, from, JSX_STOP)
}

/// Returns the end of the name in JSX that goes on at an offset: such a name may have hyphens.
pub fn jsx_name_end(text: &str, from: usize) -> usize {
    let mut end = rest_of_name(text, from, false).end;
    for _turn in 0..text.len() {
        if byte_at(text.as_bytes(), end) != b'-' {
            break;
        }
        let next = end.saturating_add(1);
        end = if is_word_byte(byte_at(text.as_bytes(), next)) || next >= text.len() {
            rest_of_name(text, next, false).end
        } else {
            next
        };
    }
    end
}
