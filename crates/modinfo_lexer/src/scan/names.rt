use crate::characters::{byte_at, character_at, is_word_byte, may_continue_name, may_start_name};
use crate::classes::{WORD, end_of_class};
use crate::scan::escapes::is_escape;

/// Returns the end of the ASCII letters, digits, `$` and `_` from an offset on.
#[inline(always)]
pub fn word_end(text: &[u8], from: usize) -> usize {
    end_of_class(text, from, WORD)
}

/// The end of a name, and whether the name has an escape.
#[derive(Clone, Copy)]
pub struct NameEnd {
    pub end: usize,
    pub has_escape: bool,
}

/// Returns the end of the name that begins at an offset, or `None` if none does there.
pub fn name_end(text: &str, from: usize) -> Option<NameEnd> {
    let bytes = text.as_bytes();
    let first = byte_at(bytes, from);
    if first.is_ascii_digit() {
        return None;
    }
    if is_word_byte(first) {
        return Some(rest_of_name(text, from, false));
    }
    if first == b'\\' {
        let end = escape_end(bytes, from)?;
        return Some(rest_of_name(text, end, true));
    }
    let character = character_at(text, from)?;
    if character.is_ascii() || !may_start_name(character) {
        return None;
    }
    Some(rest_of_name(text, from, false))
}

/// Returns the end of the parts of a name from an offset on.
pub fn rest_of_name(text: &str, from: usize, has_escape: bool) -> NameEnd {
    let mut end = word_end(text.as_bytes(), from);
    let mut has_escape = has_escape;
    for _turn in 0..text.len() {
        match wide_part_end(text, end) {
            Some(next) => end = word_end(text.as_bytes(), next),
            None => match escape_end(text.as_bytes(), end) {
                Some(next) => {
                    has_escape = true;
                    end = word_end(text.as_bytes(), next);
                }
                None => break,
            },
        }
    }
    NameEnd { end, has_escape }
}

/// Returns the end of the character above U+007F at an offset, if a name may go on with it.
#[inline(always)]
fn wide_part_end(text: &str, at: usize) -> Option<usize> {
    if byte_at(text.as_bytes(), at) < 128 {
        return None;
    }
    let character = character_at(text, at)?;
    if may_continue_name(character) {
        Some(at.saturating_add(character.len_utf8()))
    } else {
        None
    }
}

/// Returns the end of the escape `\u....` or `\u{..}` at an offset, if there is one.
fn escape_end(text: &[u8], at: usize) -> Option<usize> {
    if byte_at(text, at) != b'\\' || byte_at(text, at.saturating_add(1)) != b'u' {
        return None;
    }
    let digits = at.saturating_add(2);
    if !is_escape(text, at) {
        return None;
    }
    if byte_at(text, digits) == b'{' {
        return Some(word_end(text, digits.saturating_add(1)).saturating_add(1));
    }
    Some(digits.saturating_add(4))
}
