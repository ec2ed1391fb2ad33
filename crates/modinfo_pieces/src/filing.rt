//! The comments of a text, filed while its pieces are found.

ghost use Rattle.std.specs.Prelude.{◌≡◌, ◌++◌, [], None, Some, IfOk, IsTrue, OnOk, map};
ghost use Rattle.modinfo_pieces.specs.Filed.{filed_before, is_token};
ghost use Rattle.modinfo_pieces.specs.Filing.{
  IsQuiet,
  all_waiting,
  filed_by,
  settled,
  so_far_after,
  with_last,
  with_newest,
  with_token,
  without_newest,
};

use crate::filed::{FiledComment, Waiting, filed_before, is_semicolon, waiting_of};
use crate::piece::{Piece, PieceKind};
use crate::place::Context;
use std::alloc::{AllocError, Global};
use std::marker::Model;

/// A comment, and what is before it.
#[derive(Clone, Copy)]
pub struct Newest {
    pub comment: Piece,
    /// What is known where the comment begins.
    pub context: Context,
    /// The token before the comment.
    pub token: Option<Piece>,
}

/// The comments of a text up to a place, filed as far as the pieces there decide.
#[derive(Drop)]
pub struct Filing {
    /// The comments before the last token.
    filed: Vec<FiledComment>,
    /// The comments after the last token but the newest, if only white space follows that so far.
    waiting: Vec<Waiting>,
    newest: Option<Newest>,
    /// The last token.
    token: Option<Piece>,
}

impl Model for Filing {
    ghost use Rattle.modinfo_pieces.specs.Filing.{SoFar};

    ghost Value = { SoFar };

    ghost view = { λ filing. record {
      filed = filing.filed.items;
      waiting = filing.waiting.items;
      newest = filing.newest;
      token = filing.token;
    } };
}

impl Filing {
    /// Returns no comments, before the first piece of a text.
    pub fn new(alloc: Global) -> Filing
        ensures { result ≡ record { filed = []; waiting = []; newest = None; token = None } }
    {
        Filing {
            filed: Vec::new(alloc),
            waiting: Vec::new(alloc),
            newest: None,
            token: None,
        }
    }

    /// Returns whether no comment waits for a token.
    #[inline(always)]
    pub fn is_quiet(&self) -> bool
        ensures { IsTrue result → IsQuiet self.now }
    {
        self.newest.is_none() && self.waiting.is_empty()
    }

    /// Has a token be the last.
    #[inline(always)]
    pub fn set_token(&mut self, token: Piece)
        ensures { self.new ≡ with_last (Some token) self.old }
    {
        self.token = Some(token);
    }

    /// Goes on after a piece. `context` is what is known where the piece begins.
    #[inline(always)]
    pub fn add(&mut self, text: &[u8], context: Context, piece: Piece) -> Result<(), AllocError>
        ensures { OnOk result (self.new ≡ so_far_after text.now context piece piece.kind self.old) }
    {
        match piece.kind {
            PieceKind::Space => Ok(()),
            PieceKind::LineComment | PieceKind::BlockComment => {
                self.add_comment(text, context, piece)
            }
            PieceKind::HtmlComment => self.settle(text, false),
            _ => self.add_token(text, piece),
        }
    }

    /// Goes on after a comment.
    #[inline(never)]
    fn add_comment(
        &mut self,
        text: &[u8],
        context: Context,
        comment: Piece,
    ) -> Result<(), AllocError>
        ensures { OnOk result (self.new ≡ with_newest text.now context comment self.old) }
    {
        self.settle(text, false)?;
        self.newest = Some(Newest {
            comment,
            context,
            token: self.token,
        });
        Ok(())
    }

    /// Goes on after a token.
    #[inline(always)]
    fn add_token(&mut self, text: &[u8], token: Piece) -> Result<(), AllocError>
        ensures { OnOk result (self.new ≡ with_token text.now token self.old) }
    {
        if self.newest.is_some() || !self.waiting.is_empty() {
            self.settle(text, is_semicolon(text, token))?;
            self.file(text, Some(token))?;
        }
        self.token = Some(token);
        Ok(())
    }

    /// Has the newest comment wait for a token, too. `is_before_semicolon` says whether a `;` follows it.
    #[inline(never)]
    fn settle(&mut self, text: &[u8], is_before_semicolon: bool) -> Result<(), AllocError>
        ensures { OnOk result (self.new ≡ record {
          filed = self.old.filed;
          waiting = all_waiting text.now self.old is_before_semicolon;
          newest = None;
          token = self.old.token;
        }) }
    {
        if let Some(newest) = self.newest {
            self.waiting.push(waiting_of(
                text,
                newest.context,
                newest.token,
                newest.comment,
                is_before_semicolon,
            ))?;
        }
        self.newest = None;
        Ok(())
    }

    /// Files the comments that wait for this token.
    #[inline(never)]
    fn file(&mut self, text: &[u8], token: Option<Piece>) -> Result<(), AllocError>
        ensures { OnOk result (self.new ≡ record {
          filed = self.old.filed ++ map (filed_before text.now token) self.old.waiting;
          waiting = [];
          newest = self.old.newest;
          token = self.old.token;
        }) }
    {
        file_each(text, token, &self.waiting, &mut self.filed)?;
        self.waiting.clear();
        Ok(())
    }

    /// Returns the comments, each filed, at the end of a text.
    pub fn finish(self, text: &[u8]) -> Result<Vec<FiledComment>, AllocError>
        ensures { IfOk result (λ filed. filed.items ≡ filed_by text.now self []) }
    {
        let mut filing = self;
        filing.settle(text, false)?;
        filing.file(text, None)?;
        let Filing { filed, .. } = filing;
        Ok(filed)
    }
}

/// Files comments that wait for this token, after others.
fn file_each(
    text: &[u8],
    token: Option<Piece>,
    waiting: &[Waiting],
    filed: &mut Vec<FiledComment>,
) -> Result<(), AllocError>
    ensures { OnOk result (filed.new.items
        ≡ filed.old.items ++ map (filed_before text.now token) waiting.now) }
{
    for comment in waiting {
        filed.push(filed_before(text, token, *comment))?;
    }
    Ok(())
}
