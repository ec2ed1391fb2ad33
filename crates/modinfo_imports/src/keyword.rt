//! Words that dependencies begin with.

ghost use Rattle.std.specs.Prelude.{◌≡◌};
ghost use Rattle.modinfo_imports.specs.Keywords.{has_escape, keyword_of, may_be_require};

use modinfo_pieces::bytes::{byte_at, equals};

/// What a word is, as far as it may begin a dependency.
#[derive(Clone, Copy)]
pub enum Keyword {
    Import,
    /// `require`, or a word with escapes that may spell it.
    Require,
    Export,
    Module,
    /// `new` or `function`, after which a name isn't called.
    New,
    TypeOf,
    Other,
}

/// Returns what a word is.
#[inline(always)]
#[tactic(auto, unfolding(crate::specs::Keywords::keyword_of))]
pub fn keyword_of(word: &[u8]) -> Keyword
    ensures { result ≡ keyword_of word.now }
{
    if may_be_require(word) {
        Keyword::Require
    } else if equals(word, b"import") {
        Keyword::Import
    } else if equals(word, b"export") {
        Keyword::Export
    } else if equals(word, b"module") {
        Keyword::Module
    } else if equals(word, b"typeof") {
        Keyword::TypeOf
    } else if equals(word, b"function") || equals(word, b"new") {
        Keyword::New
    } else {
        Keyword::Other
    }
}

/// Returns whether a word is `require`, or may spell it with escapes.
#[inline(always)]
#[tactic(auto, unfolding(crate::specs::Keywords::may_be_require))]
pub fn may_be_require(word: &[u8]) -> bool
    ensures { result ≡ may_be_require word.now }
{
    let first = byte_at(word, 0);
    (first == b'r' || first == b'\\') && (equals(word, b"require") || has_escape(word))
}

/// Returns whether a word has an escape.
pub fn has_escape(word: &[u8]) -> bool
    ensures { result ≡ has_escape word.now }
{
    word.contains(&b'\\')
}
