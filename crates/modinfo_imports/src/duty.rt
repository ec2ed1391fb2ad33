//! What words that dependencies may begin with ask of the tokens after them.

ghost use Rattle.std.specs.Prelude.{◌≡◌, ◌∷◌, ◌<◌, ◌≤◌, OnOk, drop, length};
ghost use Rattle.modinfo_pieces.specs.WordClasses.{is_among};
ghost use Rattle.modinfo_imports.specs.Duties.{
  is_byte,
  is_name,
  is_one_of,
  met_by,
  met_duty,
  name_of,
  only,
  operators,
  sight_of,
};

mod calls;
mod exports;
mod imports;
mod names;
mod specifiers;

use crate::claims::Form;
use crate::duty::calls::{met_no_call, met_no_parenthesis, met_require, met_type, met_type_end};
use crate::duty::exports::{
    met_export, met_export_alone, met_export_end, met_export_names, met_export_star, met_module,
};
use crate::duty::imports::{after_name, after_names, after_phase, after_type, met_start};
use crate::duty::names::{met_import, met_parameters, met_parenthesis};
use crate::duty::specifiers::{after_specifier, attributed, met_comma, specified, takes_specifier};
use modinfo_pieces::befores::bytes_of;
use modinfo_pieces::bytes::byte_at;
use modinfo_pieces::piece::{Piece, PieceKind};
use std::alloc::{AllocError, Global};
use std::marker::Model;

/// What the next token must be.
#[derive(Clone, Copy)]
pub enum Duty {
    /// Anything.
    Nothing,
    /// Anything, after a word at which a node begins.
    Claimed,
    /// What follows a name, after a word `import`.
    Import {
        /// Whether the word is directly inside braces.
        in_braces: bool,
        /// Whether the word may be the name of a method.
        may_be_method: bool,
    },
    /// Another name, after `import as`.
    As,
    /// The end of the names in braces, after `import as name`.
    AsName,
    /// A parameter, after `import (` or `require (`.
    Parenthesis,
    /// What follows the parameters of a method.
    Parameters,
    /// Anything but the `(` of a call, after a word `require`.
    Require {
        /// Whether the word may be the name of a method.
        may_be_method: bool,
    },
    /// Anything, after `require <`: it may be a type.
    TypeName,
    /// Anything, after a type in `require <`.
    TypeEnd,
    /// Anything but the `(` of a call, after `require <type>`.
    NoParenthesis,
    /// What follows a word `import` at which a node begins.
    Start {
        phase: Phase,
    },
    /// What follows `import type`, `import source` or `import defer`.
    Phase,
    /// What follows the name in `import name`.
    Name,
    /// What follows `import type`, where `type` is a name or an alias is of types.
    TypeWord,
    /// What follows `import type from`, where `type` is a name or an alias is of types.
    TypeFrom,
    /// The `=` after `import type name`.
    Alias,
    /// A name or a specifier, after a word `import` at which a node begins, and more.
    Names {
        /// Whether a string is the specifier.
        is_before_specifier: bool,
        /// Whether something is named.
        is_named: bool,
    },
    /// Anything, after `new`, `function` or the `=` of an alias: a name isn't called.
    NoCall,
    /// Anything, after `typeof`: `export` is a name.
    TypeOf,
    /// What follows a word `export`.
    Export {
        /// Whether the word may be the name of a member.
        may_be_member: bool,
        /// Whether a node begins at the word.
        is_claimed: bool,
        /// Whether the node is a declaration of types alone.
        is_of_types: bool,
    },
    /// A name, a comma or the brace, after `export {`.
    ExportNames,
    /// `from` or `as`, after `export *`.
    ExportStar,
    /// A name, after `export * as`.
    ExportAs,
    /// Anything, after the names of an export: it may be `from`.
    ExportEnd,
    /// The specifier of an export.
    From,
    /// `=` or `as`, after a word `export` outside of everything at which no node begins.
    ExportAlone,
    /// Anything, after `module`: a string is a specifier.
    Module,
    /// What follows the specifier of a declaration.
    Specifier {
        /// Where the specifier begins.
        at: usize,
        /// Whether the declaration has attributes.
        has_with: bool,
    },
    /// The brace of the attributes, after `with`, with where the specifier begins, as the next ones.
    With {
        at: usize,
    },
    /// A key of the attributes, or their end.
    Key {
        at: usize,
    },
    /// The `:` after a key.
    Colon {
        at: usize,
        /// Where the value begins.
        value: usize,
    },
    /// The value of a key.
    Value {
        at: usize,
        /// Where the value begins.
        value: usize,
    },
    /// A comma or the end of the attributes.
    Comma {
        at: usize,
    },
}

/// What the word after `import` says of an import, if that is more than a name.
#[derive(Clone, Copy)]
pub enum Phase {
    Plain,
    Types,
    Source,
    Defer,
}

/// A token, as far as duties tell tokens apart.
#[derive(Clone, Copy)]
pub enum Sight {
    Word(Name),
    String,
    /// A byte of punctuation.
    Byte(u8),
    Other,
}

/// A word, as far as duties tell words apart.
#[derive(Clone, Copy)]
pub enum Name {
    From,
    As,
    Type,
    Source,
    Defer,
    With,
    Assert,
    /// A word that begins a type, or an expression, and is none.
    Operator,
    Other,
}

/// What was asked after each open parenthesis.
#[derive(Drop)]
pub struct Parentheses {
    outermost_first: Vec<Duty>,
}

impl Model for Parentheses {
    ghost use Rattle.std.specs.Prelude.{List, reverse};
    ghost use Rattle.modinfo_imports.specs.declared.duty.Duty.{Duty};

    ghost Value = { List Duty };

    ghost view = { λ parentheses. reverse parentheses.outermost_first.items };
}

impl Parentheses {
    ghost use Rattle.std.specs.Prelude.{[]};
    ghost use Rattle.modinfo_imports.specs.Watches.{is_method};

    /// Returns no parentheses.
    pub fn new(alloc: Global) -> Parentheses
        ensures { result ≡ [] }
    {
        Parentheses {
            outermost_first: Vec::new(alloc),
        }
    }

    /// Returns whether the innermost parenthesis is that of a method.
    pub fn is_method(&self) -> bool
        ensures { result ≡ is_method self.now }
    {
        match self.outermost_first.last() {
            Some(Duty::Parenthesis) => true,
            _ => false,
        }
    }

    /// Adds a parenthesis inside the others.
    pub fn push(&mut self, asked: Duty) -> Result<(), AllocError>
        ensures { OnOk result (self.new ≡ asked ∷ self.old) }
    {
        self.outermost_first.push(asked)?;
        Ok(())
    }

    /// Takes the innermost parenthesis away.
    pub fn pop(&mut self) -> Option<Duty>
        ensures { self.new ≡ drop 1 self.old }
    {
        self.outermost_first.pop()
    }
}

/// Returns a token as far as duties tell tokens apart.
#[inline(always)]
#[tactic(auto, unfolding(crate::specs::Duties::sight_of))]
pub fn sight_of(text: &[u8], piece: Piece) -> Sight
    ensures { piece.start < piece.end → piece.end ≤ length text.now
        → result ≡ sight_of text.now piece piece.kind }
{
    match piece.kind {
        PieceKind::Word => Sight::Word(name_of(bytes_of(text, piece))),
        PieceKind::String => Sight::String,
        PieceKind::Punctuation => Sight::Byte(byte_at(text, piece.start)),
        _ => Sight::Other,
    }
}

/// Returns a word as far as duties tell words apart.
#[tactic(auto, unfolding(crate::specs::Duties::name_of))]
fn name_of(word: &[u8]) -> Name
    ensures { result ≡ name_of word.now }
{
    if word == b"from".as_slice() {
        Name::From
    } else if word == b"as".as_slice() {
        Name::As
    } else if word == b"type".as_slice() {
        Name::Type
    } else if word == b"source".as_slice() {
        Name::Source
    } else if word == b"defer".as_slice() {
        Name::Defer
    } else if word == b"with".as_slice() {
        Name::With
    } else if word == b"assert".as_slice() {
        Name::Assert
    } else if is_operator(word) {
        Name::Operator
    } else {
        Name::Other
    }
}

/// Returns whether a word begins a type, or an expression, and is none.
fn is_operator(word: &[u8]) -> bool
    ensures { result ≡ is_among operators word.now }
{
    word == b"infer".as_slice()
        || word == b"keyof".as_slice()
        || word == b"readonly".as_slice()
        || word == b"super".as_slice()
        || word == b"unique".as_slice()
}

/// Returns what the next token must be after a token that meets a duty, or `None` if the token doesn't.
#[tactic(auto, unfolding(crate::specs::Duties::met_by))]
pub fn met_by(duty: Duty, sight: Sight, is_after_line_end: bool, is_typed: bool) -> Option<Duty>
    ensures { result ≡ met_by duty sight is_after_line_end is_typed }
{
    match duty {
        Duty::Nothing | Duty::Claimed | Duty::TypeOf => Some(Duty::Nothing),
        Duty::Import {
            in_braces,
            may_be_method,
        } => met_import(in_braces, may_be_method, sight, is_after_line_end),
        Duty::As => only(is_name(sight), Duty::AsName),
        Duty::AsName => only(is_byte(b",}", sight), Duty::Nothing),
        Duty::Parenthesis => met_parenthesis(sight),
        Duty::Parameters => met_parameters(sight, is_after_line_end, is_typed),
        Duty::Require { may_be_method } => {
            met_require(may_be_method, sight, is_after_line_end, is_typed)
        }
        Duty::TypeName => met_type(sight),
        Duty::TypeEnd => met_type_end(sight),
        Duty::NoParenthesis => met_no_parenthesis(sight, is_after_line_end),
        Duty::Names {
            is_before_specifier,
            is_named,
        } => after_names(is_before_specifier, is_named, sight),
        Duty::Start { phase } => met_start(phase, sight),
        Duty::Phase => after_phase(sight),
        Duty::Name => after_name(sight),
        Duty::TypeWord => after_type(sight),
        Duty::TypeFrom => only(is_byte(b"=", sight), Duty::NoCall),
        Duty::Alias => only(is_byte(b"=", sight), Duty::NoCall),
        Duty::NoCall => met_no_call(sight),
        Duty::Export {
            may_be_member,
            is_claimed,
            is_of_types,
        } => met_export(
            may_be_member,
            is_claimed,
            is_of_types,
            sight,
            is_after_line_end,
        ),
        Duty::ExportNames => met_export_names(sight),
        Duty::ExportStar => met_export_star(sight),
        Duty::ExportAs => only(is_name(sight), Duty::ExportEnd),
        Duty::ExportEnd => met_export_end(sight),
        Duty::From => None,
        Duty::ExportAlone => met_export_alone(sight),
        Duty::Module => met_module(sight, is_after_line_end),
        Duty::Specifier { at, has_with } => {
            after_specifier(at, has_with, sight, is_after_line_end)
        }
        Duty::With { at } => only(is_byte(b"{", sight), Duty::Key { at }),
        Duty::Key { .. } => only(is_byte(b"}", sight), Duty::Nothing),
        Duty::Colon { at, value } => only(is_byte(b":", sight), Duty::Value { at, value }),
        Duty::Value { .. } => None,
        Duty::Comma { at } => met_comma(at, sight),
    }
}

/// Returns a duty, if a token is right.
fn only(is_right: bool, duty: Duty) -> Option<Duty>
    ensures { result ≡ only is_right duty }
{
    if is_right { Some(duty) } else { None }
}

/// Returns whether a token is one of these bytes of punctuation.
fn is_byte(bytes: &[u8], sight: Sight) -> bool
    ensures { result ≡ is_byte bytes.now sight }
{
    match sight {
        Sight::Byte(byte) => is_one_of(bytes, byte),
        _ => false,
    }
}

/// Returns whether a byte is one of these.
fn is_one_of(bytes: &[u8], byte: u8) -> bool
    ensures { result ≡ is_one_of bytes.now byte }
{
    bytes.contains(&byte)
}

/// Returns whether a token is a word or a string.
fn is_name(sight: Sight) -> bool
    ensures { result ≡ is_name sight }
{
    match sight {
        Sight::Word(_) | Sight::String => true,
        _ => false,
    }
}

/// Returns what the next token must be after a token at an offset, by what the tree says of it, or `None` if the
/// token doesn't meet a duty.
#[inline(always)]
#[tactic(auto, unfolding(crate::specs::Duties::met_duty))]
pub fn met_duty(
    form: Option<Form>,
    at: usize,
    duty: Duty,
    sight: Sight,
    is_after_line_end: bool,
    is_typed: bool,
) -> Option<Duty>
    ensures { result ≡ met_duty form at duty sight is_after_line_end is_typed }
{
    match form {
        Some(
            Form::Specifier {
                has_names,
                has_with,
            },
        ) => only(
            takes_specifier(has_names, duty),
            specified(at, has_with, duty),
        ),
        Some(Form::Attribute { specifier, value }) => attributed(specifier, value, duty, sight),
        _ => met_by(duty, sight, is_after_line_end, is_typed),
    }
}
