ghost use Rattle.std.specs.Prelude.{◌≡◌, [], ◌∷◌, map, Contains, IfOk, OnOk, OnErr};
ghost use Rattle.std.specs.List.Sorted.{IsPermutation};
ghost use Rattle.std.specs.Option.{option_copied};

use crate::tree::by_offset::ByOffset;
use deno_graph_base::text::SourceRange;
use deno_graph_base::values::{Items, Text, TryClone};
use std::alloc::{AllocError, Global};
use std::marker::Model;

/// The form of a comment.
#[derive(Clone, Copy, Debug, PartialEq, Eq)]
pub enum CommentKind {
    /// `// ..`
    Line,
    /// `/* .. */`
    Block,
}

/// A comment. Its range includes the marks, its text doesn't: the text begins two bytes after the
/// start of the range.
#[derive(Debug, PartialEq, Eq, Drop)]
pub struct DependencyComment {
    pub kind: CommentKind,
    pub range: SourceRange,
    pub text: Text,
}

impl TryClone for DependencyComment {
    fn try_clone(&self, alloc: Global) -> Result<DependencyComment, AllocError> {
        Ok(DependencyComment {
            kind: self.kind,
            range: self.range,
            text: self.text.try_clone(alloc)?,
        })
    }
}

/// The side on which a comment is filed.
#[derive(Clone, Copy, Debug, PartialEq, Eq)]
pub enum CommentSide {
    Leading,
    Trailing,
}

/// Where a comment is filed.
#[derive(Clone, Copy, Debug, PartialEq, Eq)]
pub struct CommentPlace {
    pub side: CommentSide,
    /// The offset at which the comment is filed, in bytes from zero.
    pub position: usize,
    /// The index of the comment, from zero, among those at this offset on this side, in the order
    /// of filing.
    pub number: usize,
}

/// The comments of a source, each filed at an offset, as leading or as trailing. An offset counts
/// bytes of the text, and need not be a character boundary.
#[derive(Debug, PartialEq, Eq, Drop)]
pub struct Comments {
    leading: ByOffset<Items<DependencyComment>>,
    trailing: ByOffset<Items<DependencyComment>>,
}

impl Model for Comments {
    ghost use Rattle.deno_graph_source.specs.Comments.{FiledComments};

    ghost Value = { FiledComments };

    ghost view = { λ comments. record {
      leading = comments.leading;
      trailing = comments.trailing;
    } };

    ghost inverse = { λ filed. record { leading = filed.leading; trailing = filed.trailing } };
}

impl Comments {
    ghost use Rattle.deno_graph_source.specs.ByOffset.{AddsItem, value_at};
    ghost use Rattle.deno_graph_source.specs.Comments.{Ascends, comments_of, leading_at};
    ghost use Rattle.deno_graph_source.specs.FaultPlace.{comment_at};

    /// Returns no comments. Allocates nothing.
    pub fn new(alloc: Global) -> Comments
        ensures leading { result.leading ≡ [] }
        ensures trailing { result.trailing ≡ [] }
    {
        Comments {
            leading: ByOffset::new(alloc),
            trailing: ByOffset::new(alloc),
        }
    }

    /// Files a comment as leading at the offset `pos`, in bytes, after those that are filed there. If
    /// an allocation fails, drops the comment and leaves the others unchanged.
    pub fn add_leading(&mut self, pos: usize, comment: DependencyComment) -> Result<(), AllocError>
        ensures leading { OnOk result (AddsItem self.old.leading self.new.leading pos comment) }
        ensures trailing { OnOk result (self.new.trailing ≡ self.old.trailing) }
        ensures all { OnOk result
            (IsPermutation (comment ∷ comments_of self.old) (comments_of self.new)) }
        ensures ascending { Ascends self.new.leading }
        ensures err { OnErr result (self.new ≡ self.old) }
    {
        self.leading.add(pos, comment)
    }

    /// Files a comment as trailing at the offset `pos`, in bytes, after those that are filed there. If
    /// an allocation fails, drops the comment and leaves the others unchanged.
    pub fn add_trailing(&mut self, pos: usize, comment: DependencyComment) -> Result<(), AllocError>
        ensures trailing { OnOk result (AddsItem self.old.trailing self.new.trailing pos comment) }
        ensures leading { OnOk result (self.new.leading ≡ self.old.leading) }
        ensures all { OnOk result
            (IsPermutation (comment ∷ comments_of self.old) (comments_of self.new)) }
        ensures ascending { Ascends self.new.trailing }
        ensures err { OnErr result (self.new ≡ self.old) }
    {
        self.trailing.add(pos, comment)
    }

    /// Returns the comments that are filed as leading at the offset `pos`, in the order of filing, or
    /// `None` if there are none.
    pub fn get_leading(&self, pos: usize) -> Option<&[DependencyComment]>
        ensures { option_copied result ≡ value_at self.now.leading pos }
    {
        Some(self.leading.get(pos)?.as_slice())
    }

    /// Returns the comments that are filed as trailing at the offset `pos`, in the order of filing,
    /// or `None` if there are none.
    pub fn get_trailing(&self, pos: usize) -> Option<&[DependencyComment]>
        ensures { option_copied result ≡ value_at self.now.trailing pos }
    {
        Some(self.trailing.get(pos)?.as_slice())
    }

    /// Returns every comment as often as it was filed, in no promised order. Fails only if an
    /// allocation fails.
    pub fn iter_unstable(&self, alloc: Global) -> Result<Vec<&DependencyComment>, AllocError>
        ensures { IfOk result (λ all.
            IsPermutation (comments_of self.now) (map (λ comment. comment.now) all.items)) }
    {
        let mut all = Vec::new(alloc);
        self.leading.push_items(&mut all)?;
        self.trailing.push_items(&mut all)?;
        Ok(all)
    }

    /// Returns the place of a comment that is equal to `comment`. Searches leading comments first.
    pub(crate) fn place_of(&self, comment: &DependencyComment) -> CommentPlace
        requires { Contains (comments_of self.now) comment.now }
        ensures { comment_at self.now result ≡ Some comment.now }
    {
        if let Some((position, number)) = self.leading.find(comment) {
            return CommentPlace {
                side: CommentSide::Leading,
                position,
                number,
            };
        }
        match self.trailing.find(comment) {
            Some((position, number)) => CommentPlace {
                side: CommentSide::Trailing,
                position,
                number,
            },
            None => unreachable!(),
        }
    }

    /// Returns the comments that are filed as leading at the offset `pos`, in the order of filing.
    /// The slice is empty if there are none.
    pub fn leading_comments(&self, pos: usize) -> &[DependencyComment]
        ensures { result.now ≡ leading_at self.now pos }
    {
        self.get_leading(pos).unwrap_or(&[])
    }
}

impl TryClone for Comments {
    fn try_clone(&self, alloc: Global) -> Result<Comments, AllocError> {
        Ok(Comments {
            leading: self.leading.try_clone(alloc)?,
            trailing: self.trailing.try_clone(alloc)?,
        })
    }
}
