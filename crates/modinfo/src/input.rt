//! Reading the input.

ghost use Rattle.std.specs.Prelude.{◌≡◌, IfSome, IsUtf8, MatchResult};
ghost use Rattle.modinfo.specs.internal.Answer.{IsReadFailure};

use crate::fault::Fault;
use simdutf8::basic;
use std::alloc::Global;
use std::io::{ErrorKind, Read};

/// As many bytes are read or written at once, or more.
pub(crate) const CHUNK: usize = 65536;

/// The text of bytes. `Input` if they aren't UTF-8.
pub fn as_text(bytes: &[u8]) -> Result<&str, Fault>
    ensures { MatchResult result (λ text. (text.now ≡ bytes.now) × IsUtf8 bytes.now)
        (λ fault. (fault ≡ Fault.Input) × ¬ (IsUtf8 bytes.now)) }
{
    basic::from_utf8(bytes).map_err(|_| Fault::Input)
}

/// Reads the input to its end. `Input` if a read fails, `OutOfMemory` if an allocation fails: std's
/// `read_to_end` doesn't distinguish them. Not inlined, so that the chunk is on the stack only during
/// the reads.
#[inline(never)]
pub fn read_to_end<R: Read>(alloc: Global, input: &mut R) -> Result<Vec<u8>, Fault>
    ensures { MatchResult result (λ bytes. IfSome (R.remaining input.old) (λ left. bytes.items ≡ left))
        IsReadFailure }
{
    let mut bytes = Vec::new(alloc);
    let mut chunk = [0u8; CHUNK];
    'reads: for _ in 0..u64::MAX {
        match input.read(&mut chunk) {
            Ok(0) => return Ok(bytes),
            Ok(count) => bytes.extend_from_slice(&chunk[..count])?,
            Err(error) if error.kind() == ErrorKind::Interrupted => {}
            Err(_) => return Err(Fault::Input),
        }
    }
    Err(Fault::Input)
}
