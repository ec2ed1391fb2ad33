//! Classes of bytes, and scans by a class. Each scan takes the text and an offset in bytes from zero, and
//! returns an offset.

/// The class of the bytes that are part of a name: ASCII letters, digits, `$` and `_`.
pub const WORD: u8 = 1;
/// The class of the ASCII white space that ends no line.
pub const BLANK: u8 = 2;
/// The class of the bytes at which the scan of a string stops: quotes, backslashes and line ends.
pub const STRING_STOP: u8 = 4;
/// The class of the bytes at which the scan of a template stops: backticks, `$` and backslashes.
pub const TEMPLATE_STOP: u8 = 8;
/// The class of the bytes at which the scan of a regular expression stops: slashes, brackets, backslashes,
/// line ends and the first byte of the line ends above U+007F.
pub const PATTERN_STOP: u8 = 16;
/// The class of the bytes at which text of JSX stops.
pub const JSX_STOP: u8 = 32;
/// The class of the ASCII bytes that begin a token, and neither white space nor maybe a comment.
pub const TOKEN: u8 = 64;
/// The class of the ASCII bytes that begin a name: letters, `$` and `_`.
pub const NAME: u8 = 128;

/// The classes of each byte, a bit for each class.
static CLASSES: [u8; 256] = [
    0, 0, 0, 0, 0, 0, 0, 0, 0, 2, 20, 2, 2, 20, 0, 0, 0, 0, 0, 0, 0, 0, 0, 0, 0, 0, 0, 0, 0, 0, 0,
    0, 2, 64, 68, 64, 201, 64, 64, 68, 64, 64, 64, 64, 64, 0, 64, 16, 65, 65, 65, 65, 65, 65, 65,
    65, 65, 65, 64, 64, 32, 64, 64, 64, 64, 193, 193, 193, 193, 193, 193, 193, 193, 193, 193, 193,
    193, 193, 193, 193, 193, 193, 193, 193, 193, 193, 193, 193, 193, 193, 193, 80, 92, 80, 64, 193,
    72, 193, 193, 193, 193, 193, 193, 193, 193, 193, 193, 193, 193, 193, 193, 193, 193, 193, 193,
    193, 193, 193, 193, 193, 193, 193, 193, 96, 64, 64, 64, 64, 0, 0, 0, 0, 0, 0, 0, 0, 0, 0, 0, 0,
    0, 0, 0, 0, 0, 0, 0, 0, 0, 0, 0, 0, 0, 0, 0, 0, 0, 0, 0, 0, 0, 0, 0, 0, 0, 0, 0, 0, 0, 0, 0, 0,
    0, 0, 0, 0, 0, 0, 0, 0, 0, 0, 0, 0, 0, 0, 0, 0, 0, 0, 0, 0, 0, 0, 0, 0, 0, 0, 0, 0, 0, 0, 0, 0,
    0, 0, 0, 0, 0, 0, 0, 0, 0, 0, 0, 0, 0, 0, 0, 0, 0, 0, 0, 0, 0, 0, 16, 0, 0, 0, 0, 0, 0, 0, 0,
    0, 0, 0, 0, 0, 0, 0, 0, 0, 0, 0, 0, 0, 0, 0, 0, 0, 0, 0, 0, 0,
];

/// Returns whether a byte is of a class.
#[inline(always)]
pub fn is_of(byte: u8, class: u8) -> bool {
    CLASSES[byte as usize] & class != 0
}

/// Returns the offset of the first byte from an offset on that isn't of a class, or the text's end.
#[inline(always)]
pub fn end_of_class(text: &[u8], from: usize, class: u8) -> usize {
    let mut at = from;
    'fours: while at < text.len() && text.len() - at >= 4 {
        if !is_of(text[at], class) {
            return at;
        }
        if !is_of(text[at + 1], class) {
            return at + 1;
        }
        if !is_of(text[at + 2], class) {
            return at + 2;
        }
        if !is_of(text[at + 3], class) {
            return at + 3;
        }
        at += 4;
    }
    'bytes: while at < text.len() && is_of(text[at], class) {
        at += 1;
    }
    at
}

/// Returns the offset of the first byte from an offset on that is of a class, or the text's end.
#[inline(always)]
pub fn next_of_class(text: &[u8], from: usize, class: u8) -> usize {
    let mut at = from;
    'fours: while at < text.len() && text.len() - at >= 4 {
        if is_of(text[at], class) {
            return at;
        }
        if is_of(text[at + 1], class) {
            return at + 1;
        }
        if is_of(text[at + 2], class) {
            return at + 2;
        }
        if is_of(text[at + 3], class) {
            return at + 3;
        }
        at += 4;
    }
    'bytes: while at < text.len() && !is_of(text[at], class) {
        at += 1;
    }
    at
}
