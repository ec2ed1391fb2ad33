//! Pieces that a tree claims to have, in the order of the text.

ghost use Rattle.std.specs.Prelude.{◌≡◌};
ghost use Rattle.modinfo_imports.specs.Claims.{
  claims_after,
  form_of,
  is_claimed,
  is_same,
  is_same_kind,
  marks_after,
};

use modinfo_pieces::piece::{Piece, PieceKind};

/// What a tree says of the token at an offset.
#[derive(Clone, Copy)]
pub struct Mark {
    pub start: usize,
    pub form: Form,
}

/// What a tree says of a token that few places may have.
#[derive(Clone, Copy)]
pub enum Form {
    /// The name of a call, which may be `require`.
    Call,
    /// The specifier of a declaration.
    Specifier {
        /// Whether the declaration names something that it imports or exports.
        has_names: bool,
        /// Whether the declaration has attributes.
        has_with: bool,
    },
    /// The key or the value of an attribute of a declaration.
    Attribute {
        /// Where the specifier of the declaration begins.
        specifier: usize,
        /// Where the value of the attribute begins.
        value: usize,
    },
    /// The word that a declaration of types alone begins with.
    Types,
    /// The word that an import in the phase `source` begins with.
    Source,
    /// The word that an import in the phase `defer` begins with.
    Defer,
}

/// Returns whether a piece is the first of these claims.
#[inline(always)]
pub fn is_claimed(piece: Piece, claims: &[Piece]) -> bool
    ensures { result ≡ is_claimed piece claims.now }
{
    match claims {
        [first, ..] => is_same(piece, *first),
        [] => false,
    }
}

/// Returns the claims after a piece: without the first, if the piece is the first.
#[inline(always)]
pub fn claims_after<'a>(piece: Piece, claims: &'a [Piece]) -> &'a [Piece]
    ensures { result.now ≡ claims_after piece claims.now }
{
    match claims {
        [first, rest @ ..] if is_same(piece, *first) => rest,
        _ => claims,
    }
}

/// Returns whether two pieces are the same, of a kind that may be claimed.
#[inline(always)]
fn is_same(piece: Piece, other: Piece) -> bool
    ensures { result ≡ is_same piece other }
{
    piece.start == other.start && piece.end == other.end && is_same_kind(piece.kind, other.kind)
}

/// Returns whether two kinds are the same, one that may be claimed.
fn is_same_kind(kind: PieceKind, other: PieceKind) -> bool
    ensures { result ≡ is_same_kind kind other }
{
    match (kind, other) {
        (PieceKind::Word, PieceKind::Word) => true,
        (PieceKind::String, PieceKind::String) => true,
        (PieceKind::Template, PieceKind::Template) => true,
        (PieceKind::Punctuation, PieceKind::Punctuation) => true,
        _ => false,
    }
}

/// Returns what the first of these marks says of a token, if the mark is that token's.
#[inline(always)]
pub fn form_of(piece: Piece, marks: &[Mark]) -> Option<Form>
    ensures { result ≡ form_of piece marks.now }
{
    match marks {
        [first, ..] if piece.start == first.start => Some(first.form),
        _ => None,
    }
}

/// Returns the marks after a token: without the first, if the mark is that token's.
#[inline(always)]
pub fn marks_after<'a>(piece: Piece, marks: &'a [Mark]) -> &'a [Mark]
    ensures { result.now ≡ marks_after piece marks.now }
{
    match marks {
        [first, rest @ ..] if piece.start == first.start => rest,
        _ => marks,
    }
}
