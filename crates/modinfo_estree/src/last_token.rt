//! The last token of a text, for the comments after it. `text` is the text as far as the token's end.

ghost use Rattle.std.specs.Prelude.{◌≡◌, ◌<◌, length};
ghost use Rattle.std.specs.List.{list_any};
ghost use Rattle.modinfo_estree.specs.LastToken as spec;
ghost use Rattle.modinfo_estree.specs.LastToken.{is_in_name, is_last};

use crate::tokens::Tokens;
use modinfo_pieces::trails::{KEYWORDS, last_byte};

/// Returns whether the last token of a text is a name or a number, and no keyword.
#[tactic(auto, unfolding(crate::specs::LastToken::is_name))]
pub fn is_name(tokens: &Tokens, text: &[u8]) -> bool
    ensures { result ≡ spec.is_name tokens.now.is_gap text.now }
{
    is_name_byte(last_byte(text)) && !is_last_of(tokens, text, KEYWORDS)
}

/// Returns whether the last token of a text is one of some words.
fn is_last_of(tokens: &Tokens, text: &[u8], words: &[&str]) -> bool
    ensures { result ≡ list_any (λ word. is_last tokens.now.is_gap text.now word.now) words.now }
{
    for word in words {
        if is_last(tokens, text, word) {
            return true;
        }
    }
    false
}

/// Returns whether the last token of a text is this word.
fn is_last(tokens: &Tokens, text: &[u8], word: &str) -> bool
    ensures { result ≡ is_last tokens.now.is_gap text.now word.now }
{
    text.ends_with(word.as_bytes()) && begins_name(tokens, text, word.len())
}

/// Returns whether a name with `size` bytes at the end of a text begins there.
fn begins_name(tokens: &Tokens, text: &[u8], size: usize) -> bool
    ensures { result ≡ spec.begins_name tokens.now.is_gap text.now size }
{
    size >= text.len() || !is_in_name(tokens, text, text.len() - (size + 1))
}

/// Returns whether the byte of a text at an offset is one of a name, also of a private one, and not of white
/// space.
fn is_in_name(tokens: &Tokens, text: &[u8], at: usize) -> bool
    requires { at < length text.now }
    ensures { result ≡ is_in_name tokens.now.is_gap text.now at }
{
    !tokens.is_gap(at) && is_private_name_byte(text[at])
}

/// Returns whether a byte is `;`, `{` or `}`, or a quote of a string.
pub fn is_closing(byte: u8) -> bool
    ensures { result ≡ spec.is_closing byte }
{
    matches!(byte, b';' | b'{' | b'}' | b'"' | b'\'')
}

/// Returns whether a byte is one of a name or a number.
fn is_name_byte(byte: u8) -> bool
    ensures { result ≡ spec.is_name_byte byte }
{
    matches!(byte, b'0'..=b'9' | b'A'..=b'Z' | b'a'..=b'z' | b'$' | b'_' | 128..=255)
}

/// Returns whether a byte is one of a name, or the `#` before a private name.
fn is_private_name_byte(byte: u8) -> bool
    ensures { result ≡ spec.is_private_name_byte byte }
{
    is_name_byte(byte) || byte == b'#'
}
