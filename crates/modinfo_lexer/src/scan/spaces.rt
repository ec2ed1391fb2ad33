use crate::characters::{byte_at, character_at, is_wide_line_end, is_wide_space};
use crate::classes::{BLANK, end_of_class};
use memchr::{memchr, memchr3};

/// The end of white space, and whether a line ends in it.
#[derive(Clone, Copy)]
pub struct SpaceEnd {
    pub end: usize,
    pub has_line_end: bool,
}

/// Returns the end of the white space from an offset on.
#[inline(always)]
pub fn space_end(text: &str, from: usize) -> SpaceEnd {
    let ascii = ascii_space_end(text.as_bytes(), from, false);
    if byte_at(text.as_bytes(), ascii.end) < 128 {
        ascii
    } else {
        wide_space_end(text, ascii)
    }
}

/// Returns the end of the ASCII white space from an offset on. `has_line_end` says whether a line ends
/// before it.
#[inline(always)]
fn ascii_space_end(text: &[u8], from: usize, has_line_end: bool) -> SpaceEnd {
    let mut at = from;
    let mut has_line_end = has_line_end;
    for _turn in 0..text.len() {
        at = end_of_class(text, at, BLANK);
        if !matches!(byte_at(text, at), b'\n' | b'\r') {
            break;
        }
        has_line_end = true;
        at = at.saturating_add(1);
    }
    SpaceEnd {
        end: at,
        has_line_end,
    }
}

/// Returns the end of the white space that goes on with a character above U+007F, if it does.
#[inline(never)]
fn wide_space_end(text: &str, from: SpaceEnd) -> SpaceEnd {
    let mut found = from;
    for _turn in 0..text.len() {
        match character_at(text, found.end) {
            Some(character) if is_wide_space(character) || is_wide_line_end(character) => {
                let end = found.end.saturating_add(character.len_utf8());
                let has_line_end = found.has_line_end || is_wide_line_end(character);
                found = ascii_space_end(text.as_bytes(), end, has_line_end);
            }
            _ => break,
        }
    }
    found
}

/// Returns the offset of the next line end from an offset on, or the text's end.
pub fn line_end(text: &[u8], from: usize) -> usize {
    let mut at = from;
    for _turn in 0..text.len() {
        let rest = text.get(at..).unwrap_or(&[]);
        match memchr3(b'\n', b'\r', 0xE2, rest) {
            Some(length) => at = at.saturating_add(length),
            None => return text.len(),
        }
        if byte_at(text, at) != 0xE2 || is_wide_line_end_at(text, at) {
            return at;
        }
        at = at.saturating_add(1);
    }
    at
}

/// Returns whether U+2028 or U+2029 is at an offset.
fn is_wide_line_end_at(text: &[u8], at: usize) -> bool {
    byte_at(text, at.saturating_add(1)) == 0x80
        && matches!(byte_at(text, at.saturating_add(2)), 0xA8 | 0xA9)
}

/// Returns the offset after the `*/` that ends the block comment at an offset, and whether a line ends
/// inside the comment; or `None` if the text ends before the comment does.
pub fn block_comment_end(text: &[u8], from: usize) -> Option<SpaceEnd> {
    let inside = from.saturating_add(2);
    let mut at = inside;
    for _turn in 0..text.len() {
        at = at.saturating_add(memchr(b'/', text.get(at..)?)?);
        if at > inside && byte_at(text, at - 1) == b'*' {
            return Some(SpaceEnd {
                end: at.saturating_add(1),
                has_line_end: line_end(text.get(..at)?, inside) < at,
            });
        }
        at = at.saturating_add(1);
    }
    None
}
