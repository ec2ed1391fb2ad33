//! Classes of bytes.

ghost use Rattle.std.specs.Prelude.{◌≡◌};
ghost use Rattle.modinfo_pieces.specs.Spaces.{is_ascii_space};
ghost use Rattle.modinfo_pieces.specs.Words.{is_word_byte};

const WORD: u8 = 1;

const SPACE: u8 = 2;

/// For each byte a digit, whose low two bits are the classes above.
static CLASSES: [u8; 256] = *b"\
    00000000022222000000000000000000\
    20001000000000001111111111000000\
    01111111111111111111111111100001\
    01111111111111111111111111100000\
    00000000000000000000000000000000\
    00000000000000000000000000000000\
    00000000000000000000000000000000\
    00000000000000000000000000000000";

/// Returns whether a byte is an ASCII letter, an ASCII digit, `$` or `_`.
#[inline(always)]
pub fn is_word_byte(byte: u8) -> bool
    ensures { result ≡ is_word_byte byte }
{
    CLASSES[byte as usize] & WORD != 0
}

/// Returns whether a byte is ASCII white space or an ASCII line terminator.
#[inline(always)]
pub fn is_ascii_space(byte: u8) -> bool
    ensures { result ≡ is_ascii_space byte }
{
    CLASSES[byte as usize] & SPACE != 0
}
