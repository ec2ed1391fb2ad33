//! Letters in any case.

ghost use Rattle.std.specs.Prelude.{◌≡◌, ◌<◌, ◌↔◌, IsTrue};
ghost use Rattle.unicode.specs.CaseFolding.{simple_fold};

/// Returns whether `c` is the ASCII character `letter` in any case. Two characters outside ASCII
/// fold to a character of ASCII: U+017F to `s`, and U+212A to `k`.
pub(crate) fn is_letter(c: char, letter: char) -> bool
    requires { letter < 128 }
    ensures { IsTrue result ↔ (simple_fold c ≡ simple_fold letter) }
{
    match c {
        '\u{17F}' => letter.eq_ignore_ascii_case(&'s'),
        '\u{212A}' => letter.eq_ignore_ascii_case(&'k'),
        _ => c.eq_ignore_ascii_case(&letter),
    }
}
