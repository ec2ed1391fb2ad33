//! Writing bytes, with a known result if a write fails.

ghost use Rattle.std.specs.Prelude.{◌++◌, MatchResult, codes};
ghost use Rattle.std.specs.Io.KnownBytes.{Appends};
ghost use Rattle.modinfo.specs.Fault.{IsWriteFault};
ghost use Rattle.modinfo.specs.Run.{AppendsFront, error_line};

use crate::fault::Fault;
use std::io::{ErrorKind, Write};

/// Writes the bytes, or a beginning of them if a write fails. Then the error is `Closed` if the reader of
/// the output ended, else `Output`.
pub fn write_front<W: Write>(output: &mut W, bytes: &[u8]) -> Result<(), Fault>
    ensures { MatchResult result (λ _. Appends (W.contents output.old) (W.contents output.new) bytes.now)
        (λ fault. IsWriteFault fault
        × AppendsFront (W.contents output.old) (W.contents output.new) bytes.now) }
{
    let mut rest = bytes;
    'writes: for _ in 0..u64::MAX {
        if rest.is_empty() {
            return Ok(());
        }
        match output.write(rest) {
            Ok(0) => return Err(Fault::Output),
            Ok(count) => rest = &rest[count..],
            Err(error) if error.kind() == ErrorKind::Interrupted => {}
            Err(error) => return Err(Fault::of_write(&error)),
        }
    }
    Err(Fault::Output)
}

/// Prints bytes, and flushes the output. The error is as that of `write_front`.
pub fn print<W: Write>(output: &mut W, bytes: &[u8]) -> Result<(), Fault>
    ensures { MatchResult result (λ _. Appends (W.contents output.old) (W.contents output.new) bytes.now)
        (λ fault. IsWriteFault fault
        × AppendsFront (W.contents output.old) (W.contents output.new) bytes.now) }
{
    write_front(output, bytes)?;
    match output.flush() {
        Ok(()) => Ok(()),
        Err(error) => Err(Fault::of_write(&error)),
    }
}

/// Prints the line of a fault; nothing if the reader of the output ended. A failed write ends the line.
pub fn print_fault<E: Write>(errors: &mut E, fault: &Fault)
    ensures { AppendsFront (E.contents errors.old) (E.contents errors.new) (error_line fault.now) }
{
    if fault.is_closed() {
        return;
    }
    if write_front(errors, b"modinfo: ").is_ok() {
        print_line(errors, fault.name());
    }
}

/// Prints a text and a line feed. A failed write ends the line.
pub fn print_line<E: Write>(errors: &mut E, text: &str)
    ensures { AppendsFront (E.contents errors.old) (E.contents errors.new) (text.now ++ codes "\n") }
{
    if write_front(errors, text.as_bytes()).is_ok() {
        let _ = write_front(errors, b"\n");
    }
}
