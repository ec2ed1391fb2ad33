//! Words: names, keywords and numbers.

ghost use Rattle.std.specs.Prelude.{◌≡◌, ◌<◌, ◌≤◌, ◌+◌, ◌-◌, ◌==◌, ◌||◌, if◌then◌else◌, IfSome, length, nat_le, not, position, slice_index};
ghost use Rattle.modinfo_pieces.specs.Steps.{Ends};
ghost use Rattle.modinfo_pieces.specs.Words.{escape_size, hex_digits, is_hex_digit, word_step};

use crate::bytes::byte_at;
use crate::classes::is_word_byte;
use crate::scan::spaces::space_size;

/// Returns the end of the word that goes on at an offset.
#[inline(always)]
pub fn word_end(text: &[u8], from: usize) -> usize
    ensures { Ends (word_step text.now) from result }
{
    let mut at = from;
    'letters: while at < text.len() && is_word_byte(text[at]) {
        at += 1;
    }
    if goes_on(text, at) {
        rest_end(text, at)
    } else {
        at
    }
}

/// Returns whether an escape or a byte of a character above U+007F is at an offset.
#[inline(always)]
fn goes_on(text: &[u8], at: usize) -> bool
    ensures { result ≡ (nat_le 128 (slice_index text.now at) || slice_index text.now at == 92) }
{
    let byte = byte_at(text, at);
    byte >= 128 || byte == b'\\'
}

/// Like `word_end`.
#[inline(never)]
fn rest_end(text: &[u8], from: usize) -> usize
    ensures { Ends (word_step text.now) from result }
{
    let mut at = from;
    'bytes: while at < text.len() {
        let size = step_size(text, at);
        if size == 0 {
            break;
        }
        at += size;
    }
    at
}

/// Returns how many bytes of a word are at an offset in one step, zero if a word doesn't go on there.
#[inline(always)]
#[tactic(auto, unfolding(crate::specs::Words::word_step))]
fn step_size(text: &[u8], at: usize) -> usize
    ensures step { word_step text.now at ≡ (if result == 0 then None else Some (at + result)) }
    ensures within { at < length text.now → at + result ≤ length text.now }
{
    if at >= text.len() {
        return 0;
    }
    let byte = text[at];
    if is_word_byte(byte) || byte >= 128 && space_size(text, at) == 0 {
        1
    } else if byte == b'\\' {
        escape_size(text, at)
    } else {
        0
    }
}

/// Returns the length of the escape whose backslash is at an offset.
#[inline(never)]
#[tactic(auto, unfolding(crate::specs::Words::escape_size))]
fn escape_size(text: &[u8], at: usize) -> usize
    ensures exact { at < length text.now → result ≡ escape_size text.now at }
    ensures within { at < length text.now → at + result ≤ length text.now }
    ensures some { 0 < result }
{
    if at >= text.len() || byte_at(text, at + 1) != b'u' || byte_at(text, at + 2) != b'{' {
        return 1;
    }
    let digits = hex_digits(text, at + 3);
    if byte_at(text, at + 3 + digits) == b'}' {
        4 + digits
    } else {
        1
    }
}

/// Returns how many hexadecimal digits there are from an offset on.
#[tactic(auto, unfolding(crate::specs::Words::hex_digits))]
fn hex_digits(text: &[u8], from: usize) -> usize
    ensures exact { result ≡ hex_digits text.now from }
    ensures within { result ≤ length text.now - from }
{
    if from >= text.len() {
        return 0;
    }
    let rest = &text[from..];
    first_other(rest).unwrap_or(rest.len())
}

/// Returns the position of the first byte that is no hexadecimal digit.
fn first_other(bytes: &[u8]) -> Option<usize>
    ensures exact { result ≡ position (λ byte. not (is_hex_digit byte)) bytes.now }
    ensures within { IfSome result (λ position. position < length bytes.now) }
{
    bytes.iter().position(|byte| !is_hex_digit(*byte))
}

/// Returns whether a byte is a hexadecimal digit.
fn is_hex_digit(byte: u8) -> bool
    ensures { result ≡ is_hex_digit byte }
{
    matches!(byte, b'0'..=b'9' | b'A'..=b'F' | b'a'..=b'f')
}
