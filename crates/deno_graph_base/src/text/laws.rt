//! Laws of positions. These functions do nothing: a caller learns a law of its text from the
//! contract.

ghost use Rattle.std.specs.Prelude.{◌≡◌, ℕ, ◌↔◌, ◌++◌, List, length, encode_utf8_all};
ghost use Rattle.std.specs.Ordering.{nat_cmp};
ghost use Rattle.std.specs.Str.{IsCharBoundary, chars};
ghost use Rattle.deno_graph_base.specs.Position.{IsFrontSize, position_at, position_of};

use crate::text::position::Position;

/// Ensures that the character boundaries of a text are the byte lengths of the prefixes of its
/// characters, and that the position of a boundary is the position after the prefix.
pub fn boundaries_are_fronts(text: &str)
    ensures sizes { (n : ℕ) → IsCharBoundary text.now n ↔ IsFrontSize text.now n }
    ensures positions { (front rest : List ℕ) → front ++ rest ≡ chars text.now
        → position_at text.now (length (encode_utf8_all front)) ≡ position_of front }
{}

/// Ensures that the positions of boundaries have the order of the boundaries.
pub fn positions_keep_order(text: &str)
    ensures { (a b : ℕ) → IsCharBoundary text.now a → IsCharBoundary text.now b
        → ⟦<Position as Ord>⟧.cmp (position_at text.now a) (position_at text.now b) ≡ nat_cmp a b }
{}

/// Ensures that a position belongs to at most one boundary.
pub fn positions_are_unique(text: &str)
    ensures { (a b : ℕ) → IsCharBoundary text.now a → IsCharBoundary text.now b
        → position_at text.now a ≡ position_at text.now b → a ≡ b }
{}
