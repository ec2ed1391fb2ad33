//! Counts the line feeds and the characters of a text of fewer than 256 bytes. The counts fit into
//! a byte, so that the compiler can count many bytes at once.

ghost use Rattle.std.specs.Prelude.{◌≡◌, ◌≢◌, ℕ, ◌==◌, ◌-◌, ◌<◌, ◌≤◌, count_by, length, slice_index};
ghost use Rattle.std.specs.Fmt.{is_char_start};

/// The number of line feeds of a text, and the offset after the last of them: zero if there is
/// none.
#[derive(Clone, Copy)]
pub(crate) struct LineFeeds {
    pub(crate) count: u8,
    pub(crate) end: u8,
}

/// Counts the line feeds of a text.
pub(crate) fn line_feeds(bytes: &[u8]) -> LineFeeds
    requires { length bytes.now < 256 }
    ensures count { result.count ≡ count_by (λ b. b == 10) bytes.now }
    ensures bound { result.end ≤ length bytes.now }
    ensures last { 0 < result.end → slice_index bytes.now (result.end - 1) ≡ 10 }
    ensures after { (k : ℕ) → result.end ≤ k → k < length bytes.now
        → slice_index bytes.now k ≢ 10 }
{
    let mut count = 0;
    let mut end = 0;
    for i in 0..bytes.len() {
        if bytes[i] == b'\n' {
            count += 1;
        }
        end = end.max(if bytes[i] == b'\n' { i as u8 + 1 } else { 0 });
    }
    LineFeeds { count, end }
}

/// Counts the characters of a text: every byte begins one, but for those from 0x80 to 0xBF.
pub(crate) fn characters(bytes: &[u8]) -> u8
    requires { length bytes.now < 256 }
    ensures { result ≡ count_by is_char_start bytes.now }
{
    let mut count = 0;
    for b in bytes {
        if *b < 0x80 || *b >= 0xC0 {
            count += 1;
        }
    }
    count
}
