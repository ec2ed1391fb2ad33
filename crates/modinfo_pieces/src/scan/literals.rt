//! Strings, parts of templates and regular expressions.

ghost use Rattle.std.specs.Prelude.{◌≡◌, ◌<◌, length};
ghost use Rattle.modinfo_pieces.specs.Literals.{
  body_close,
  body_start,
  body_step,
  class_after,
  escape_end,
  quote_close,
  string_step,
  template_close,
  template_step,
};
ghost use Rattle.modinfo_pieces.specs.Steps.{Closes};

use crate::bytes::byte_at;
use crate::scan::spaces::is_line_end;

/// Returns the offset after the quote that ends a string, or `None` if a line or the text ends before. The
/// string's first character is at `from`.
pub fn string_end(text: &[u8], from: usize, quote: u8) -> Option<usize>
    ensures { Closes (string_step quote text.now) from (quote_close quote text.now) result }
{
    let mut at = from;
    'bytes: while at < text.len() {
        let byte = text[at];
        if byte == quote {
            return Some(at + 1);
        }
        if byte == b'\n' || byte == b'\r' {
            return None;
        }
        at = if byte == b'\\' {
            escape_end(text, at)
        } else {
            at + 1
        };
    }
    None
}

/// Returns the end of an escape in a string.
fn escape_end(text: &[u8], at: usize) -> usize
    ensures { at < length text.now → result ≡ escape_end text.now at }
{
    if byte_at(text, at.saturating_add(1)) == b'\r'
        && byte_at(text, at.saturating_add(2)) == b'\n'
    {
        at.saturating_add(3)
    } else {
        at.saturating_add(2)
    }
}

/// Returns the offset after the backtick or the `${` that ends a part of a template, or `None` if the text
/// ends before. The part's first character is at `from`.
pub fn template_end(text: &[u8], from: usize) -> Option<usize>
    ensures { Closes (template_step text.now) from (template_close text.now) result }
{
    let mut at = from;
    'bytes: while at < text.len() {
        let byte = text[at];
        if byte == b'`' {
            return Some(at + 1);
        }
        if byte == b'$' && byte_at(text, at + 1) == b'{' {
            return Some(at + 2);
        }
        at = if byte == b'\\' { at + 2 } else { at + 1 };
    }
    None
}

/// Returns the offset after the slash that ends a regular expression, or `None` if a line or the text ends
/// before. The regular expression's first character is at `from`.
pub fn body_end(text: &[u8], from: usize) -> Option<usize>
    ensures { Closes (body_step text.now) (body_start from) (body_close text.now) result }
{
    let mut at = from;
    let mut in_class = false;
    'bytes: while at < text.len() {
        let byte = text[at];
        if is_line_end(text, at) {
            return None;
        }
        if byte == b'/' && !in_class {
            return Some(at + 1);
        }
        if byte == b'\\' {
            if is_line_end(text, at + 1) {
                return None;
            }
            at += 2;
        } else {
            in_class = class_after(byte, in_class);
            at += 1;
        }
    }
    None
}

/// Returns whether the offset after a byte of a regular expression is in a class.
#[inline(always)]
fn class_after(byte: u8, in_class: bool) -> bool
    ensures { result ≡ class_after byte in_class }
{
    match byte {
        b'[' => true,
        b']' => false,
        _ => in_class,
    }
}
