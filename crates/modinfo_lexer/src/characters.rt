//! Classes of bytes and characters.

use crate::classes::{WORD, is_of};
use unicode_ident::{is_xid_continue, is_xid_start};

/// Returns whether a byte is an ASCII letter, an ASCII digit, `$` or `_`.
#[inline(always)]
pub fn is_word_byte(byte: u8) -> bool {
    is_of(byte, WORD)
}

/// Returns the byte of a text at an offset, or zero after the text's end.
#[inline(always)]
pub fn byte_at(text: &[u8], at: usize) -> u8 {
    match text.get(at) {
        Some(byte) => *byte,
        None => 0,
    }
}

/// Returns the character of a text that begins at an offset, if one does.
pub fn character_at(text: &str, at: usize) -> Option<char> {
    text.get(at..)?.chars().next()
}

/// Returns whether a character above U+007F is white space.
pub fn is_wide_space(character: char) -> bool {
    matches!(
        character,
        '\u{85}' | '\u{A0}' | '\u{1680}' | '\u{180E}' | '\u{2000}'..='\u{200B}'
            | '\u{202F}'
            | '\u{205F}'
            | '\u{3000}'
            | '\u{FEFF}'
    )
}

/// Returns whether a character above U+007F ends a line.
pub fn is_wide_line_end(character: char) -> bool {
    matches!(character, '\u{2028}' | '\u{2029}')
}

/// Returns whether a name may begin with a character above U+007F.
pub fn may_start_name(character: char) -> bool {
    is_xid_start(character) || is_compatible_start(character)
}

/// Returns whether a name may go on with a character above U+007F.
pub fn may_continue_name(character: char) -> bool {
    is_xid_continue(character)
        || is_compatible_start(character)
        || matches!(character, '\u{200C}' | '\u{200D}')
}

/// Returns whether a character has Unicode's property `ID_Start` but not `XID_Start`.
fn is_compatible_start(character: char) -> bool {
    matches!(
        character,
        '\u{37A}'
            | '\u{E33}'
            | '\u{EB3}'
            | '\u{309B}'..='\u{309C}'
            | '\u{FC5E}'..='\u{FC63}'
            | '\u{FDFA}'..='\u{FDFB}'
            | '\u{FE70}'
            | '\u{FE72}'
            | '\u{FE74}'
            | '\u{FE76}'
            | '\u{FE78}'
            | '\u{FE7A}'
            | '\u{FE7C}'
            | '\u{FE7E}'
            | '\u{FF9E}'..='\u{FF9F}'
    )
}
