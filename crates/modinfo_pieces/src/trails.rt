//! Whether a comment trails the token before it.

ghost use Rattle.std.specs.Prelude.{◌≡◌};
ghost use Rattle.std.specs.List.{list_any};
ghost use Rattle.std.specs.Str.{bytes_eq};
ghost use Rattle.modinfo_pieces.specs.Trails.{
  ends_in,
  is_comparison,
  is_keyword,
  is_operator,
  is_simple_operator,
  last_byte,
  trails,
};

/// The words that name no variable, but for `enum`, and `await`, `let` and `yield`.
pub const KEYWORDS: &[&str] = &[
    "await",
    "break",
    "case",
    "catch",
    "class",
    "const",
    "continue",
    "debugger",
    "default",
    "delete",
    "do",
    "else",
    "export",
    "extends",
    "false",
    "finally",
    "for",
    "function",
    "if",
    "import",
    "in",
    "instanceof",
    "let",
    "new",
    "null",
    "return",
    "super",
    "switch",
    "this",
    "throw",
    "true",
    "try",
    "typeof",
    "var",
    "void",
    "while",
    "with",
    "yield",
];

/// Returns whether a comment on the line of the token before trails this token. `is_trailed` says that block
/// comments trail the token, whatever follows them.
pub fn trails(is_line: bool, is_operator: bool, is_trailed: bool, is_before_semicolon: bool) -> bool
    ensures { result ≡ trails is_line is_operator is_trailed is_before_semicolon }
{
    if is_line {
        !is_operator
    } else {
        is_trailed || is_before_semicolon
    }
}

/// Returns whether a word is one of `KEYWORDS`.
#[tactic(auto, unfolding(crate::specs::Trails::is_keyword))]
pub fn is_keyword(word: &[u8]) -> bool
    ensures { result ≡ is_keyword word.now }
{
    is_one_of(word, KEYWORDS)
}

/// Returns whether a word is one of some words.
fn is_one_of(word: &[u8], words: &[&str]) -> bool
    ensures { result ≡ list_any (λ other. bytes_eq word.now other.now) words.now }
{
    for other in words {
        if word == other.as_bytes() {
            return true;
        }
    }
    false
}

/// Returns whether bytes that go as far as the end of a token of punctuation end with a binary operator, by
/// its spelling.
#[tactic(auto, unfolding(crate::specs::Trails::is_operator))]
pub fn is_operator(bytes: &[u8]) -> bool
    ensures { result ≡ is_operator bytes.now }
{
    match last_byte(bytes) {
        b'*' | b'/' | b'%' | b'<' | b'&' | b'|' | b'^' => true,
        b'+' => !bytes.ends_with(b"++") || bytes.ends_with(b"+++"),
        b'-' => !bytes.ends_with(b"--") || bytes.ends_with(b"---"),
        b'>' => !bytes.ends_with(b"=>"),
        b'=' => is_comparison(bytes),
        _ => bytes.ends_with(b"??"),
    }
}

/// Returns whether bytes end with `==`, `!=`, `<=` or `>=`, but not with `<<=` or `>>=`.
fn is_comparison(bytes: &[u8]) -> bool
    ensures { result ≡ is_comparison bytes.now }
{
    bytes.ends_with(b"==")
        || bytes.ends_with(b"!=")
        || bytes.ends_with(b"<=") && !bytes.ends_with(b"<<=")
        || bytes.ends_with(b">=") && !bytes.ends_with(b">>=")
}

/// Returns the last of some bytes, zero if there is none.
pub fn last_byte(bytes: &[u8]) -> u8
    ensures { result ≡ last_byte bytes.now }
{
    match bytes.last() {
        Some(byte) => *byte,
        None => 0,
    }
}
