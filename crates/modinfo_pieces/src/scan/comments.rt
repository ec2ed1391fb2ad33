//! Comments.

ghost use Rattle.std.specs.Prelude.{◌≡◌, ◌+◌};
ghost use Rattle.modinfo_pieces.specs.Comments.{block_close, block_step, is_comment_end, line_step};
ghost use Rattle.modinfo_pieces.specs.Steps.{Closes, Ends};

use crate::bytes::byte_at;
use crate::scan::spaces::is_line_end;

/// Returns the offset of the next line terminator from an offset on, or the text's end.
pub fn line_end(text: &[u8], from: usize) -> usize
    ensures { Ends (line_step text.now) from result }
{
    let mut at = from;
    'bytes: while at < text.len() && !is_line_end(text, at) {
        at += 1;
    }
    at
}

/// Returns the offset after the first `*/` from an offset on, or `None` if there is none.
pub fn block_comment_end(text: &[u8], from: usize) -> Option<usize>
    ensures { Closes (block_step text.now) from (block_close text.now) result }
{
    let mut at = from;
    'bytes: while at < text.len() {
        if is_comment_end(text, at) {
            return Some(at + 2);
        }
        at += 1;
    }
    None
}

/// Returns whether `*/` is at an offset.
#[inline(always)]
fn is_comment_end(text: &[u8], at: usize) -> bool
    ensures { result ≡ is_comment_end text.now at }
{
    at < text.len() && text[at] == b'*' && byte_at(text, at + 1) == b'/'
}
