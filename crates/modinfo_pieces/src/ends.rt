//! Where pieces end.

ghost use Rattle.std.specs.Prelude.{◌<◌, length};
ghost use Rattle.modinfo_pieces.specs.Ends.{HasEnd};

use crate::piece::PieceKind;
use crate::scan::comments::{block_comment_end, line_end};
use crate::scan::jsx::{jsx_string_end, jsx_text_end};
use crate::scan::literals::{body_end, string_end, template_end};
use crate::scan::spaces::space_end;
use crate::scan::words::word_end;

/// Returns the end of the piece at an offset, or `None` if the text or a line ends before the piece does.
#[inline(always)]
pub fn end_of(text: &[u8], at: usize, kind: PieceKind) -> Option<usize>
    ensures { at < length text.now → HasEnd text.now at kind result }
{
    if at >= text.len() {
        return None;
    }
    match kind {
        PieceKind::Space => Some(space_end(text, at)),
        PieceKind::LineComment | PieceKind::Hashbang => Some(line_end(text, at + 2)),
        PieceKind::BlockComment => block_comment_end(text, at + 2),
        PieceKind::HtmlComment => Some(line_end(text, at + 3)),
        PieceKind::Word => Some(word_end(text, at)),
        PieceKind::String => string_end(text, at + 1, text[at]),
        PieceKind::Template => template_end(text, at + 1),
        PieceKind::RegularExpression => body_end(text, at + 1),
        PieceKind::JsxText => Some(jsx_text_end(text, at)),
        PieceKind::JsxString => jsx_string_end(text, at + 1, text[at]),
        PieceKind::Punctuation => Some(at + 1),
    }
}
