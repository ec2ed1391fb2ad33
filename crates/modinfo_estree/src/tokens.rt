//! Where tokens begin and end. Between two tokens are only white space and comments.

ghost use Rattle.std.specs.Prelude.{◌≡◌, IfOk, false, length, slice_index_or};
ghost use Rattle.modinfo_estree.specs.Tokens.{is_on_line, token_end, token_start};
ghost use Rattle.modinfo_estree.specs.internal.Marks.{breaks_of, gaps_of};
ghost use Rattle.modinfo_estree.specs.internal.Tables.{at_32nds};

use crate::marks::{Mark, is_break_at, is_gap_at, marks_in};
use crate::stride::STRIDE;
use deno_graph_base::text::SourceRange;
use std::alloc::{AllocError, Global};
use std::marker::Model;

/// The tokens of a text, by its white space and its comments. Offsets count bytes. Takes about one and a half
/// bytes for each byte of the text.
#[derive(Drop)]
pub struct Tokens {
    marks: Vec<Mark>,
    /// For each 32nd offset up to the end, the start of the next token.
    starts: Vec<usize>,
    /// For each 32nd offset up to the end, the end of the token before it.
    ends: Vec<usize>,
    /// For each 32nd offset up to the end, whether it is on the line of the token before it.
    on_line: Vec<bool>,
}

impl Model for Tokens {
    ghost use Rattle.modinfo_estree.specs.Tokens.{Layout};
    ghost use Rattle.modinfo_estree.specs.internal.Marks.{breaks_of, gaps_of};
    ghost use Rattle.modinfo_estree.specs.internal.Tokens.{AreTables};

    ghost Value = { Layout };

    ghost view = { λ tokens. record {
      is_gap = gaps_of tokens.marks.items;
      is_break = breaks_of tokens.marks.items;
    } };

    ghost invariant = { λ tokens. AreTables tokens.marks.items tokens.starts.items tokens.ends.items
        tokens.on_line.items };
}

impl Tokens {
    ghost use Rattle.modinfo_estree.specs.Tokens.{layout};

    /// Reads `text` and `comments` once. Parts of comments outside of the text count for nothing. Fails
    /// only if an allocation fails.
    pub fn new(alloc: Global, text: &str, comments: &[SourceRange]) -> Result<Tokens, AllocError>
        ensures { IfOk result (λ tokens. tokens ≡ layout text.now comments.now) }
    {
        let marks = marks_in(alloc, text, comments)?;
        let starts = token_starts(alloc, &marks)?;
        let ends = token_ends(alloc, &marks)?;
        let on_line = offsets_on_line(alloc, &marks)?;
        Ok(Tokens {
            marks,
            starts,
            ends,
            on_line,
        })
    }

    /// Returns the start of the first token that begins at `offset` or after it; the end of the text if
    /// there is none; `offset` if it is after the end.
    pub fn start(&self, offset: usize) -> usize
        ensures { result ≡ token_start self.now.is_gap offset }
    {
        let marks = self.marks.as_slice();
        for at in offset..marks.len() {
            if at % STRIDE == 0 {
                return self.starts[at / STRIDE];
            }
            if !is_gap_at(marks, at) {
                return at;
            }
        }
        offset.max(marks.len())
    }

    /// Returns the end of the last token that ends at `offset` or before it; zero if there is none.
    pub fn end(&self, offset: usize) -> usize
        ensures { result ≡ token_end self.now.is_gap offset }
    {
        let marks = self.marks.as_slice();
        let end = offset.min(marks.len());
        for at in (0..end).rev() {
            if !is_gap_at(marks, at) {
                return at + 1;
            }
            if at % STRIDE == 0 {
                return self.ends[at / STRIDE];
            }
        }
        0
    }

    /// Returns whether the byte at an offset is between tokens.
    pub fn is_gap(&self, offset: usize) -> bool
        ensures { result ≡ slice_index_or self.now.is_gap offset false }
    {
        is_gap_at(self.marks.as_slice(), offset)
    }

    /// Returns whether no line terminator is between the last token before `offset` and `offset`.
    pub fn is_on_line(&self, offset: usize) -> bool
        ensures { result ≡ is_on_line self.now.is_break self.now.is_gap offset }
    {
        let marks = self.marks.as_slice();
        let end = offset.min(marks.len());
        for at in (0..end).rev() {
            if !is_gap_at(marks, at) {
                return true;
            }
            if is_break_at(marks, at) {
                return false;
            }
            if at % STRIDE == 0 {
                return self.on_line[at / STRIDE];
            }
        }
        true
    }
}

/// Returns for each 32nd offset up to the end the start of the next token.
fn token_starts(alloc: Global, marks: &[Mark]) -> Result<Vec<usize>, AllocError>
    ensures { IfOk result (λ starts. starts.items
        ≡ at_32nds (token_start (gaps_of marks.now)) (length marks.now)) }
{
    let mut start = marks.len();
    let mut starts = vec![in alloc; start; start / STRIDE + 1]?;
    for at in (0..marks.len()).rev() {
        if !is_gap_at(marks, at) {
            start = at;
        }
        if at % STRIDE == 0 {
            starts[at / STRIDE] = start;
        }
    }
    Ok(starts)
}

/// Returns for each 32nd offset up to the end the end of the token before it.
fn token_ends(alloc: Global, marks: &[Mark]) -> Result<Vec<usize>, AllocError>
    ensures { IfOk result (λ ends. ends.items ≡ at_32nds (token_end (gaps_of marks.now)) (length marks.now)) }
{
    let mut ends = Vec::with_capacity(alloc, marks.len() / STRIDE + 1)?;
    let mut end = 0;
    ends.push(end)?;
    for at in 0..marks.len() {
        if !is_gap_at(marks, at) {
            end = at + 1;
        }
        if (at + 1) % STRIDE == 0 {
            ends.push(end)?;
        }
    }
    Ok(ends)
}

/// Returns for each 32nd offset up to the end whether no line terminator is between the token before the
/// offset and the offset.
fn offsets_on_line(alloc: Global, marks: &[Mark]) -> Result<Vec<bool>, AllocError>
    ensures { IfOk result (λ on_line. on_line.items
        ≡ at_32nds (is_on_line (breaks_of marks.now) (gaps_of marks.now)) (length marks.now)) }
{
    let mut on_line = Vec::with_capacity(alloc, marks.len() / STRIDE + 1)?;
    let mut is_on_line = true;
    on_line.push(is_on_line)?;
    for at in 0..marks.len() {
        let is_gap = is_gap_at(marks, at);
        let is_break = is_break_at(marks, at);
        is_on_line = !is_gap || is_on_line && !is_break;
        if (at + 1) % STRIDE == 0 {
            on_line.push(is_on_line)?;
        }
    }
    Ok(on_line)
}
