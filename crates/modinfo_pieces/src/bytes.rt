//! The bytes of a text.

ghost use Rattle.std.specs.Prelude.{◌≡◌, slice_index};
ghost use Rattle.std.specs.Str.{bytes_eq};
ghost use Rattle.modinfo_pieces.specs.Comments.{has_bytes};

/// Returns the byte of a text at an offset, or zero after the text's end.
#[inline(always)]
pub fn byte_at(text: &[u8], at: usize) -> u8
    ensures { result ≡ slice_index text.now at }
{
    if at < text.len() { text[at] } else { 0 }
}

/// Returns whether these bytes are at an offset.
pub fn has_bytes(text: &[u8], at: usize, bytes: &[u8]) -> bool
    ensures { result ≡ has_bytes text.now at bytes.now }
{
    at <= text.len() && bytes.len() <= text.len() - at && &text[at..at + bytes.len()] == bytes
}

/// Returns whether bytes are these. Most differ by their length.
#[inline(always)]
pub fn equals(bytes: &[u8], others: &[u8]) -> bool
    ensures { result ≡ bytes_eq bytes.now others.now }
{
    bytes.len() == others.len() && are_same(bytes, others)
}

#[inline(never)]
fn are_same(bytes: &[u8], others: &[u8]) -> bool
    ensures { result ≡ bytes_eq bytes.now others.now }
{
    bytes == others
}
