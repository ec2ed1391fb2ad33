//! White space and line terminators.

ghost use Rattle.std.specs.Prelude.{◌≡◌, ◌≤◌, ◌-◌};
ghost use Rattle.modinfo_pieces.specs.Spaces.{has_line_end, is_line_end, is_space_of_e280, is_space_of_three, space_size, space_step, wide_space_size};
ghost use Rattle.modinfo_pieces.specs.Steps.{Ends};

use crate::bytes::byte_at;
use crate::classes::is_ascii_space;

/// Returns the end of the white space from an offset on.
#[inline(always)]
pub fn space_end(text: &[u8], from: usize) -> usize
    ensures { Ends (space_step text.now) from result }
{
    let mut at = from;
    'spaces: while at < text.len() {
        let size = space_size(text, at);
        if size == 0 {
            break;
        }
        at += size;
    }
    at
}

/// Returns how many bytes the white space or the line terminator at an offset has, zero if there is none.
#[inline(always)]
#[tactic(auto, unfolding(crate::specs::Spaces::space_size))]
pub fn space_size(text: &[u8], at: usize) -> usize
    ensures exact { result ≡ space_size text.now at }
    ensures few { result ≤ 3 }
{
    let first = byte_at(text, at);
    if is_ascii_space(first) {
        1
    } else if first < 0x80 {
        0
    } else {
        wide_space_size(first, byte_at(text, at + 1), byte_at(text, at + 2))
    }
}

/// Returns how many of three bytes are white space or a line terminator above U+007F, zero if they begin with none.
#[inline(never)]
fn wide_space_size(first: u8, second: u8, third: u8) -> usize
    ensures exact { result ≡ wide_space_size first second third }
    ensures few { result ≤ 3 }
{
    if first == 0xC2 && (second == 0x85 || second == 0xA0) {
        2
    } else if is_space_of_three(first, second, third) {
        3
    } else {
        0
    }
}

/// Returns whether three bytes are white space or a line terminator.
#[tactic(auto, unfolding(crate::specs::Spaces::is_space_of_three))]
#[inline(always)]
fn is_space_of_three(first: u8, second: u8, third: u8) -> bool
    ensures { result ≡ is_space_of_three first second third }
{
    match first {
        0xE1 => second == 0x9A && third == 0x80 || second == 0xA0 && third == 0x8E,
        0xE2 => second == 0x80 && is_space_of_e280(third) || second == 0x81 && third == 0x9F,
        0xE3 => second == 0x80 && third == 0x80,
        0xEF => second == 0xBB && third == 0xBF,
        _ => false,
    }
}

/// Returns whether a byte after E2 80 ends white space or a line terminator.
#[inline(always)]
fn is_space_of_e280(third: u8) -> bool
    ensures { result ≡ is_space_of_e280 third }
{
    matches!(third, 0x80..=0x8B | 0xA8 | 0xA9 | 0xAF)
}

/// Returns whether a line terminator begins at an offset.
#[tactic(auto, unfolding(crate::specs::Spaces::is_line_end))]
pub fn is_line_end(text: &[u8], at: usize) -> bool
    ensures { result ≡ is_line_end text.now at }
{
    if at >= text.len() {
        return false;
    }
    match text[at] {
        10 | 13 => true,
        0xE2 => byte_at(text, at + 1) == 0x80 && matches!(byte_at(text, at + 2), 0xA8 | 0xA9),
        _ => false,
    }
}

/// Returns whether a line terminator begins at an offset from `from` on, before `to`.
pub fn has_line_end(text: &[u8], from: usize, to: usize) -> bool
    ensures { result ≡ has_line_end text.now from (to - from) }
{
    let mut at = from;
    'bytes: while at < to {
        if is_line_end(text, at) {
            return true;
        }
        at += 1;
    }
    false
}
