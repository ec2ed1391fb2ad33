//! Places between two pieces of a text.

ghost use Rattle.std.specs.Prelude.{◌≡◌, ◌↔◌, ◌∷◌, [], IsTrue, OnOk, MatchOption};
ghost use Rattle.modinfo_pieces.specs.Openings.{innermost};

use crate::choice::ChoiceKind;
use std::alloc::{AllocError, Global};
use std::marker::Model;

/// What encloses a place in a text.
#[derive(Clone, Copy)]
pub enum Opening {
    /// Nothing.
    Program,
    /// A parenthesis.
    Parenthesis,
    /// The parenthesis after `if`, `while`, `for` or `with`.
    HeadParenthesis,
    /// A brace.
    Brace,
    /// The `${` of a template.
    Substitution,
    /// A JSX tag before its `>`.
    Tag,
    /// A JSX tag that begins with `</`, before its `>`.
    ClosingTag,
    /// The `<` of type arguments in a JSX tag.
    Angle,
    /// A JSX element after its first tag.
    Element,
}

/// What the token before a place is, as far as it decides what may follow.
#[derive(Clone, Copy)]
pub enum Before {
    /// A token after which an expression may begin.
    Free,
    /// The end of an expression.
    Value,
    /// `if`, `while`, `for`, `for await` or `with`.
    Head,
    /// A `+` directly after the end of an expression.
    Plus,
    /// A `-` directly after the end of an expression.
    Minus,
    Dot,
    DotDot,
    /// `=`
    Equal,
    /// The `<` of a JSX tag.
    TagOpen,
    /// A `/` in a JSX tag.
    TagSlash,
}

/// What is known at a place.
#[derive(Clone, Copy)]
pub struct Context {
    /// The innermost opening.
    pub inside: Opening,
    pub before: Before,
    /// Whether a line ends between the token before and the place.
    pub is_after_line_end: bool,
    /// The parser's choice for the place.
    pub chosen: Option<ChoiceKind>,
}

/// The enclosing openings of a place.
#[derive(Drop)]
pub struct Openings {
    outermost_first: Vec<Opening>,
}

impl Model for Openings {
    ghost use Rattle.std.specs.Prelude.{List, reverse};
    ghost use Rattle.modinfo_pieces.specs.declared.place.Opening.{Opening};

    ghost Value = { List Opening };

    ghost view = { λ openings. reverse openings.outermost_first.items };
}

impl Openings {
    /// Returns no openings.
    pub fn new(alloc: Global) -> Openings
        ensures { result ≡ [] }
    {
        Openings {
            outermost_first: Vec::new(alloc),
        }
    }

    /// Returns whether there are no openings.
    pub fn is_empty(&self) -> bool
        ensures { IsTrue result ↔ (self.now ≡ []) }
    {
        self.outermost_first.is_empty()
    }

    /// Returns the innermost opening.
    #[inline(always)]
    pub fn innermost(&self) -> Opening
        ensures { result ≡ innermost self.now }
    {
        match self.outermost_first.last() {
            Some(opening) => *opening,
            None => Opening::Program,
        }
    }

    /// Adds an opening inside the others.
    pub fn push(&mut self, opening: Opening) -> Result<(), AllocError>
        ensures { OnOk result (self.new ≡ opening ∷ self.old) }
    {
        self.outermost_first.push(opening)?;
        Ok(())
    }

    /// Takes the innermost opening away.
    pub fn pop(&mut self) -> Option<Opening>
        ensures { MatchOption result ((self.old ≡ []) × (self.new ≡ [])) (λ opening. self.old ≡ opening ∷ self.new) }
    {
        self.outermost_first.pop()
    }
}
