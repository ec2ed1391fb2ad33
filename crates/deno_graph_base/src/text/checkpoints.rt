//! Checkpoints of a text: cursors at most 96 bytes apart, from which others are found by counting.

ghost use Rattle.std.specs.Prelude.{◌≡◌, ◌-◌, ◌*◌, ◌≤◌, IfOk, length, vec_len};
ghost use Rattle.deno_graph_base.specs.internal.Cursor.{AreCheckpoints};

use crate::text::cursor::Cursor;
use std::alloc::{AllocError, Global};

/// The largest distance of two neighbouring checkpoints, in bytes. Up to three bytes fewer lie
/// between them, so that none is inside a character. With this distance checkpoints take a quarter
/// of the text's size, and loops that count 32 bytes at once have no remainder.
const STRIDE: usize = 96;

/// Returns the checkpoints of `text`, in ascending order. Fails only if an allocation fails.
pub(crate) fn checkpoints(alloc: Global, text: &str) -> Result<Vec<Cursor>, AllocError>
    ensures checkpoints { IfOk result (λ cursors. AreCheckpoints text.now cursors.items) }
    ensures few { IfOk result (λ cursors. (STRIDE - 3) * vec_len cursors ≤ length text.now) }
{
    let mut cursors = Vec::with_capacity(alloc, text.len() / (STRIDE - 3))?;
    let mut cursor = Cursor::start();
    while text.len() - cursor.offset >= STRIDE {
        cursor = cursor.ahead(text, text.floor_char_boundary(cursor.offset + STRIDE));
        cursors.push(cursor)?;
    }
    Ok(cursors)
}
