//! Offsets as parsers count them, to offsets in bytes.

ghost use Rattle.std.specs.Prelude.{◌≡◌, ◌*◌, ◌/◌, ◌<◌, IfOk, length};
ghost use Rattle.modinfo_estree.specs.Offsets.{byte_offset, unit_sizes};
ghost use Rattle.modinfo_estree.specs.internal.Offsets.{HaveBytes, bytes_of_units, unit_size};
ghost use Rattle.modinfo_estree.specs.internal.Tables.{at_32nds};

use crate::stride::STRIDE;
use std::alloc::{AllocError, Global};
use std::marker::Model;

/// The unit of an offset in a text.
#[derive(Clone, Copy, Debug, PartialEq, Eq)]
pub enum OffsetUnit {
    /// UTF-16 units, as JavaScript counts them.
    Utf16,
    /// Bytes of UTF-8.
    Utf8,
}

/// A text with a unit of offsets: the offsets in bytes by the offsets in the unit.
#[derive(Drop)]
pub struct Offsets<'a> {
    unit: OffsetUnit,
    text: &'a str,
    /// In `Utf16` the offset in bytes of each 32nd unit and, after a multiple of 32 units, of the end;
    /// otherwise nothing.
    bytes: Vec<usize>,
}

impl<'a> Model for Offsets<'a> {
    ghost use Rattle.modinfo_estree.specs.Offsets.{Counted};
    ghost use Rattle.modinfo_estree.specs.internal.Offsets.{AreByteOffsets};

    ghost Value = { Counted };

    ghost view = { λ offsets. record { unit = offsets.unit; text = offsets.text.now } };

    ghost invariant = { λ offsets. AreByteOffsets offsets.unit offsets.text.now offsets.bytes.items };
}

impl<'a> Offsets<'a> {
    ghost use Rattle.modinfo_estree.specs.Offsets.{offset_in};

    /// Reads `text` once and allocates at most a quarter of its size if `unit` is `Utf16`; otherwise does
    /// neither. Fails only if an allocation fails.
    pub fn new(alloc: Global, unit: OffsetUnit, text: &'a str) -> Result<Offsets<'a>, AllocError>
        ensures { IfOk result (λ offsets. offsets ≡ record { unit = unit; text = text.now }) }
    {
        let bytes = match unit {
            OffsetUnit::Utf16 => byte_offsets(alloc, text)?,
            OffsetUnit::Utf8 => Vec::new(alloc),
        };
        Ok(Offsets { unit, text, bytes })
    }

    /// Returns the text.
    pub fn text(&self) -> &'a str
        ensures { result.now ≡ self.now.text }
    {
        self.text
    }

    /// Returns the offset in bytes of an offset in the unit. In `Utf16` this is one byte after the end
    /// of the text if the offset is after the end.
    pub fn byte_offset(&self, offset: usize) -> usize
        ensures { result ≡ offset_in self.now.unit self.now.text offset }
    {
        match self.unit {
            OffsetUnit::Utf16 => match self.bytes.get(offset / STRIDE) {
                Some(start) => byte_offset_from(self.text, *start, offset),
                None => self.text.len() + 1,
            },
            OffsetUnit::Utf8 => offset,
        }
    }
}

/// Converts an offset from UTF-16 units to bytes. `start` is the offset, in bytes, of the last multiple of 32
/// units.
fn byte_offset_from(text: &str, start: usize, offset: usize) -> usize
    requires { HaveBytes (unit_sizes text.now) (32 * (offset / 32)) start }
    ensures { result ≡ byte_offset text.now offset }
{
    let bytes = text.as_bytes();
    let mut at = start;
    for _ in 0..offset % STRIDE {
        match bytes.get(at) {
            Some(byte) => at += unit_size(*byte),
            None => return bytes.len() + 1,
        }
    }
    at
}

/// Returns the offset in bytes of each 32nd UTF-16 unit of a text and, after a multiple of 32 units, of the
/// end.
fn byte_offsets(alloc: Global, text: &str) -> Result<Vec<usize>, AllocError>
    ensures { IfOk result (λ offsets. offsets.items
        ≡ at_32nds (bytes_of_units (unit_sizes text.now)) (length (unit_sizes text.now))) }
{
    let bytes = text.as_bytes();
    let mut offsets = Vec::with_capacity(alloc, bytes.len() / STRIDE + 1)?;
    let mut end = 0;
    let mut units = 0;
    offsets.push(end)?;
    while end < bytes.len() {
        end += unit_size(bytes[end]);
        if (units + 1) % STRIDE == 0 {
            offsets.push(end)?;
        }
        units += 1;
    }
    Ok(offsets)
}

/// Returns the bytes of the UTF-16 unit that begins with `byte`. The second unit of a surrogate pair begins
/// with the third byte of the character.
fn unit_size(byte: u8) -> usize
    ensures size { result ≡ unit_size byte }
    ensures low { 0 < result }
    ensures high { result < 4 }
{
    match byte {
        0..=0x7F => 1,
        0xE0..=0xEF => 3,
        0x80..=0xDF | 0xF0..=0xFF => 2,
    }
}
