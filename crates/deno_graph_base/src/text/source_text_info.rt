ghost use Rattle.std.specs.Prelude.{◌≡◌, ℕ, ◌+◌, ◌<◌, ◌≤◌, ◌↔◌, length, IfOk, IfSome, IsSome, nat_eq};
ghost use Rattle.std.specs.Cmp.{partial_equiv_from_equiv};
ghost use Rattle.std.specs.Cmp.Lexicographic.{pointwise, nat_list_eq_equiv};
ghost use Rattle.std.specs.Rc.{rc_str_bytes};
ghost use Rattle.deno_graph_base.specs.internal.Cursor.{IsCursor, reach};
ghost use Rattle.deno_graph_base.specs.Position.{IsAt, IsBefore};
ghost use Rattle.deno_graph_base.specs.SourceRange.{IsTextRange, slice_of};

use crate::text::checkpoints::checkpoints;
use crate::text::cursor::Cursor;
use crate::text::position::{Position, SourceRange};
use crate::values::TryClone;
use std::alloc::{AllocError, Global};
use std::marker::Model;
use std::rc::{Rc, RcStr};

/// A text with checkpoints, by which positions are found without reading a whole line. Contracts
/// see only the bytes of the text.
#[derive(Debug, Drop)]
pub struct SourceTextInfo {
    text: RcStr,
    checkpoints: Rc<Vec<Cursor>>,
}

impl Model for SourceTextInfo {
    ghost use Rattle.std.specs.Prelude.{List, ℕ};
    ghost use Rattle.std.specs.Coded.{coded_list, coded_ℕ};
    ghost use Rattle.std.specs.Rc.{rc_str_bytes};

    ghost Value = { List ℕ };

    ghost coded = { coded_list coded_ℕ };

    ghost use Rattle.deno_graph_base.specs.internal.Cursor.{AreCheckpoints};

    ghost view = { λ t. rc_str_bytes t.text };

    ghost invariant = { λ t. AreCheckpoints (rc_str_bytes t.text) t.checkpoints.value.items };
}

impl SourceTextInfo {
    /// Reads `text` once, and allocates about a quarter of its size for checkpoints. Fails only if an
    /// allocation fails.
    pub fn new(alloc: Global, text: RcStr) -> Result<SourceTextInfo, AllocError>
        ensures { IfOk result (λ info. info ≡ rc_str_bytes text) }
    {
        let checkpoints = checkpoints(alloc, text.as_str())?;
        Ok(SourceTextInfo {
            text,
            checkpoints: Rc::new(alloc, checkpoints)?,
        })
    }

    /// Returns the text.
    pub fn text(&self) -> &str
        ensures { result.now ≡ self.now }
    {
        self.text.as_str()
    }

    /// Returns the text as a shared pointer, which a caller can clone without copying the text.
    pub fn rc_text(&self) -> &RcStr
        ensures { rc_str_bytes result.now ≡ self.now }
    {
        &self.text
    }

    /// Returns a cursor at or before `offset`: at most 96 bytes before, if `offset` is in the text.
    pub(crate) fn cursor_up_to(&self, offset: usize) -> Cursor
        ensures cursor { IsCursor self.now result }
        ensures before { result.offset ≤ offset }
        ensures near { offset ≤ length self.now → offset < result.offset + reach }
    {
        let cursors = self.checkpoints.as_slice();
        match cursors.partition_point(|cursor| cursor.offset <= offset) {
            0 => Cursor::start(),
            passed => cursors[passed - 1],
        }
    }

    /// Returns a cursor at or before `position`: at most 96 bytes before the boundary with this
    /// position, if there is one.
    pub(crate) fn cursor_up_to_position(&self, position: Position) -> Cursor
        ensures cursor { IsCursor self.now result }
        ensures before { ¬ (IsBefore position result.position) }
        ensures near { (offset : ℕ) → IsAt self.now position offset → offset < result.offset + reach }
    {
        let cursors = self.checkpoints.as_slice();
        match cursors.partition_point(|cursor| !position.is_before(cursor.position)) {
            0 => Cursor::start(),
            passed => cursors[passed - 1],
        }
    }

    /// Returns the part of the text at `range`. Returns `None` if the range is reversed, ends after
    /// the text, or starts or ends inside a character.
    pub fn range_text(&self, range: &SourceRange) -> Option<&str>
        ensures some { IsSome result ↔ IsTextRange self.now range.now }
        ensures text { IfSome result (λ part. part.now ≡ slice_of self.now range.now) }
    {
        let text = self.text();
        let (front, _) = text.split_at_checked(range.end)?;
        let (_, part) = front.split_at_checked(range.start)?;
        Some(part)
    }
}

/// A copy shares the text and its checkpoints.
impl TryClone for SourceTextInfo {
    fn try_clone(&self, _alloc: Global) -> Result<SourceTextInfo, AllocError> {
        Ok(SourceTextInfo {
            text: self.text.clone()?,
            checkpoints: self.checkpoints.clone()?,
        })
    }
}

impl PartialEq for SourceTextInfo {
    ghost eq = { pointwise nat_eq };

    ghost laws = { partial_equiv_from_equiv nat_list_eq_equiv };

    fn eq(&self, other: &SourceTextInfo) -> bool {
        self.text() == other.text()
    }
}

impl Eq for SourceTextInfo {
    ghost laws = { nat_list_eq_equiv };
}
