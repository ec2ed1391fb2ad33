//! Finding the first invalid byte of a token of JSON (RFC 8259).

ghost use Rattle.std.specs.Prelude.{◌<◌, ◌≤◌, length};
ghost use Rattle.modinfo_document.specs.internal.Token.{FindsFrom, IsFrom};

/// The offset of the first invalid byte of a text whose token at `start` is invalid: a byte in the
/// token, or after a name without a colon; `start` if the whole token is misplaced.
pub fn invalid_byte(text: &str, start: usize) -> usize
    ensures { start ≤ length text.now → IsFrom start (length text.now) result }
{
    match invalid_in(text.as_bytes(), start) {
        Ok(offset) | Err(offset) => offset,
    }
}

/// Like `invalid_byte`: `Err` if the byte is in the token.
fn invalid_in(bytes: &[u8], start: usize) -> Result<usize, usize>
    ensures { start ≤ length bytes.now → FindsFrom start (length bytes.now) result }
{
    match bytes.get(start) {
        Some(b'"') => Ok(after_string(bytes, start, string_end(bytes, start)?)),
        Some(b'-' | b'0'..=b'9') => Ok(after_word(bytes, start, number_end(bytes, start)?)),
        Some(b't') => Ok(after_word(bytes, start, word_end(bytes, start, b"true")?)),
        Some(b'f') => Ok(after_word(bytes, start, word_end(bytes, start, b"false")?)),
        Some(b'n') => Ok(after_word(bytes, start, word_end(bytes, start, b"null")?)),
        _ => Ok(start),
    }
}

/// The offset of the invalid byte, for a string that ends at `end`: after the string if that is a name,
/// else the start of the string.
fn after_string(bytes: &[u8], start: usize, end: usize) -> usize
    requires { IsFrom start (length bytes.now) end }
    ensures { IsFrom start (length bytes.now) result }
{
    let previous = bytes[..start].iter().rev().find(|byte| !is_space(**byte));
    if matches!(previous, Some(b'{' | b',')) && !bytes[start..end].contains(&b'\\') {
        let spaces = bytes[end..].iter().position(|byte| !is_space(*byte));
        end + spaces.unwrap_or(bytes.len() - end)
    } else {
        start
    }
}

/// The offset of the invalid byte, for a number or a word that ends at `end`: `end` if the byte there
/// continues the token, else the start of the token.
fn after_word(bytes: &[u8], start: usize, end: usize) -> usize
    requires { IsFrom start (length bytes.now) end }
    ensures { IsFrom start (length bytes.now) result }
{
    match bytes.get(end) {
        Some(b'0'..=b'9' | b'a'..=b'z' | b'A'..=b'Z' | b'.' | b'+' | b'-' | b'_') => end,
        _ => start,
    }
}

fn is_space(byte: u8) -> bool {
    matches!(byte, b' ' | b'\t' | b'\n' | b'\r')
}

/// The state of reading a string.
#[derive(Clone, Copy)]
enum InString {
    Plain,
    /// After a backslash.
    Escape,
    /// In an escape `\u` with this number of hexadecimal digits left.
    Digits(u8),
}

/// The end of the string that starts with the quote at `start`, or the offset of the first invalid byte.
fn string_end(bytes: &[u8], start: usize) -> Result<usize, usize>
    requires { start < length bytes.now }
    ensures { FindsFrom start (length bytes.now) result }
{
    let mut state = InString::Plain;
    for at in start + 1..bytes.len() {
        state = match (state, bytes[at]) {
            (InString::Plain, b'"') => return Ok(at + 1),
            (InString::Plain, b'\\') => InString::Escape,
            (InString::Plain, b' '..) => InString::Plain,
            (InString::Escape, b'u') => InString::Digits(4),
            (InString::Escape, b'"' | b'\\' | b'/' | b'b' | b'f' | b'n' | b'r' | b't') => {
                InString::Plain
            }
            (InString::Digits(1), digit) if digit.is_ascii_hexdigit() => InString::Plain,
            (InString::Digits(left), digit) if digit.is_ascii_hexdigit() => {
                InString::Digits(left.saturating_sub(1))
            }
            _ => return Err(at),
        };
    }
    Err(bytes.len())
}

/// The end of the number that starts at `start`, or the offset of the first invalid byte.
fn number_end(bytes: &[u8], start: usize) -> Result<usize, usize>
    requires { start ≤ length bytes.now }
    ensures { FindsFrom start (length bytes.now) result }
{
    let whole = after_one_of(bytes, start, b"-");
    let point = match bytes.get(whole) {
        Some(b'0') => whole + 1,
        _ => digits_end(bytes, whole)?,
    };
    let exponent = match bytes.get(point) {
        Some(b'.') => digits_end(bytes, point + 1)?,
        _ => point,
    };
    match bytes.get(exponent) {
        Some(b'e' | b'E') => {
            let digits = after_one_of(bytes, exponent + 1, b"+-");
            digits_end(bytes, digits)
        }
        _ => Ok(exponent),
    }
}

/// The end of the digits at `start`, or `start` as the offset of the invalid byte if there are none.
fn digits_end(bytes: &[u8], start: usize) -> Result<usize, usize>
    requires { start ≤ length bytes.now }
    ensures { FindsFrom start (length bytes.now) result }
{
    let rest = &bytes[start..];
    let digits = rest.iter().position(|byte| !byte.is_ascii_digit());
    match digits.unwrap_or(rest.len()) {
        0 => Err(start),
        count => Ok(start + count),
    }
}

/// The offset after the byte at `at` if that is one of `these`, else `at`.
fn after_one_of(bytes: &[u8], at: usize, these: &[u8]) -> usize
    requires { at ≤ length bytes.now }
    ensures { IsFrom at (length bytes.now) result }
{
    match bytes.get(at) {
        Some(byte) if these.contains(byte) => at + 1,
        _ => at,
    }
}

/// The end of the word that starts at `start`, or the offset of the first invalid byte.
fn word_end(bytes: &[u8], start: usize, word: &[u8]) -> Result<usize, usize>
    requires { start ≤ length bytes.now }
    ensures { FindsFrom start (length bytes.now) result }
{
    let mut at = start;
    for letter in word {
        if bytes.get(at) != Some(letter) {
            return Err(at);
        }
        at += 1;
    }
    Ok(at)
}
