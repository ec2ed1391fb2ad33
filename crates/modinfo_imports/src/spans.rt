//! Pieces and bytes at given places of a text.

ghost use Rattle.std.specs.Prelude.{◌≡◌};
ghost use Rattle.modinfo_imports.specs.Spans.{bytes_at, no_piece, piece_at, word_claim};

use deno_graph_base::text::SourceRange;
use modinfo_pieces::bytes::has_bytes;
use modinfo_pieces::piece::{Piece, PieceKind};

/// Returns a word at an offset, or no piece if the text has another there.
pub fn word_claim(text: &[u8], at: usize, word: &[u8]) -> Piece
    ensures { result ≡ word_claim text.now at word.now }
{
    if has_bytes(text, at, word) {
        Piece {
            kind: PieceKind::Word,
            start: at,
            end: at + word.len(),
        }
    } else {
        no_piece(at)
    }
}

/// Returns a piece that no text has.
pub fn no_piece(at: usize) -> Piece
    ensures { result ≡ no_piece at }
{
    Piece {
        kind: PieceKind::Word,
        start: at,
        end: at,
    }
}

/// Returns the piece of a kind at a range.
pub fn piece_at(kind: PieceKind, range: SourceRange) -> Piece
    ensures { result ≡ piece_at kind range }
{
    Piece {
        kind,
        start: range.start,
        end: range.end,
    }
}

/// Returns the bytes at a range, none if the text has no such range.
pub fn bytes_at(text: &[u8], range: SourceRange) -> &[u8]
    ensures { result.now ≡ bytes_at text.now range }
{
    if range.start < range.end && range.end <= text.len() {
        &text[range.start..range.end]
    } else {
        &[]
    }
}
