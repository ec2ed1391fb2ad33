//! Runs with `--lines`: a document on each line of the input, and a printed line for each.

ghost use Rattle.std.specs.Prelude.{◌≡◌, ◌++◌, ◌∷◌, ◌<◌, ℕ, Bool, IfOk, List, [], length, MatchOption, MatchResult, OnOk, Option, true};
ghost use Rattle.std.specs.Io.Buffered.{reader_remaining};
ghost use Rattle.std.specs.Io.{StopsAt};
ghost use Rattle.std.specs.Io.BufRead.{ends_with_byte, strip_last};
ghost use Rattle.std.specs.Io.KnownBytes.{Appends, Consumes, IsAtEnd};
ghost use Rattle.modinfo.specs.Fault.{IsWriteFault};
ghost use Rattle.modinfo.specs.Lines.{IsPrinted, LeavesFirstLines, LeavesLines, PrintsLine, PrintsLines};
ghost use Rattle.modinfo.specs.Lines.{fault_line, framed, lines_of, passes_without};
ghost use Rattle.modinfo.specs.internal.Lines.{TakesLines, TakesNext};
ghost use Rattle.modinfo.specs.Run.{AppendsFront, IsFailure, IsNoResult};

use crate::command::{Command, Printed};
use crate::fault::Fault;
use crate::input::CHUNK;
use crate::output::print;
use memchr::memchr;
use std::alloc::{AllocError, Global};
use std::io::{BufRead, BufReader, ErrorKind, Read, Write};

/// No line with a fault has more bytes.
const FAULT_ROOM: usize = 64;

/// Prints a line for each line of the input, in the same order: `{"answer":..}`, a report or
/// `{"fault":"NAME"}`. Returns whether each check passed. Writes before each read that may wait for
/// input. `Input` if a read fails, `Output` or `Closed` if a write fails, `OutOfMemory` if an
/// allocation fails.
pub fn run_lines<R: Read, W: Write>(
    alloc: Global,
    command: Command,
    input: R,
    output: &mut W,
) -> Result<bool, Fault>
where
    R: Drop,
    ensures { MatchResult result
        (LeavesLines command (R.remaining input) (W.contents output.old) (W.contents output.new))
        (LeavesFirstLines command (R.remaining input) (W.contents output.old) (W.contents output.new)) }
{
    let mut input = buffered(alloc, input)?;
    let mut waiting = Vec::with_capacity(alloc, CHUNK + FAULT_ROOM)?;
    let mut is_passed = true;
    'lines: for _ in 0..u64::MAX {
        let is_due = waiting.len() >= CHUNK || memchr(b'\n', input.buffer()).is_none();
        write_waiting(output, &mut waiting, is_due)?;
        match run_next(alloc, command, &mut input, &mut waiting)? {
            Some(passes) => is_passed &= passes,
            None => {
                write_waiting(output, &mut waiting, true)?;
                return Ok(is_passed);
            }
        }
    }
    Err(Fault::Input)
}

/// A buffered reader of the input.
pub fn buffered<R: Read>(alloc: Global, input: R) -> Result<BufReader<R, Global>, Fault>
where
    R: Drop,
    ensures { MatchResult result (λ reader. reader_remaining R.remaining reader ≡ R.remaining input)
        (λ fault. fault ≡ Fault.OutOfMemory) }
{
    match BufReader::with_capacity(alloc, CHUNK, input) {
        Ok(reader) => Ok(reader),
        Err(_) => Err(Fault::OutOfMemory),
    }
}

/// Writes the waiting bytes if they are due, and flushes the output.
pub(crate) fn write_waiting<W: Write>(
    output: &mut W,
    waiting: &mut Vec<u8>,
    is_due: bool,
) -> Result<(), Fault>
    ensures { MatchResult result
        (λ _. (written : List ℕ) × (waiting.old.items ≡ written ++ waiting.new.items)
        × Appends (W.contents output.old) (W.contents output.new) written
        × (is_due ≡ true → waiting.new.items ≡ []))
        (λ fault. IsWriteFault fault
        × AppendsFront (W.contents output.old) (W.contents output.new) waiting.old.items) }
{
    if !is_due || waiting.is_empty() {
        return Ok(());
    }
    print(output, waiting.as_slice())?;
    waiting.clear();
    waiting.shrink_to(CHUNK + FAULT_ROOM);
    Ok(())
}

/// Reads a line, and appends the printed line to the waiting bytes. Returns whether the line passes,
/// `None` at the end of the input. Doesn't copy a line that is whole in the buffer.
fn run_next<R: Read>(
    alloc: Global,
    command: Command,
    input: &mut BufReader<R, Global>,
    waiting: &mut Vec<u8>,
) -> Result<Option<bool>, Fault>
    ensures { MatchResult result (λ next. MatchOption next
        ((waiting.new.items ≡ waiting.old.items)
        × IsAtEnd (reader_remaining R.remaining input.old))
        (λ passes. (line : List ℕ) × (printed : List ℕ)
        × TakesLines (reader_remaining R.remaining input.old)
        (reader_remaining R.remaining input.new) (line ∷ [])
        × PrintsLine command line passes printed
        × (waiting.new.items ≡ waiting.old.items ++ printed))) IsFailure }
{
    let buffer = input.buffer();
    if let Some(length) = memchr(b'\n', buffer) {
        let passes = print_line(alloc, command, &buffer[..length], waiting)?;
        input.consume(length + 1);
        return Ok(Some(passes));
    }
    match next_line(alloc, input)? {
        Next::Line(line) => Ok(Some(print_owned(alloc, command, line, waiting)?)),
        Next::Skipped => Ok(Some(put_out_of_memory(command, waiting)?)),
        Next::End => Ok(None),
    }
}

/// The result of reading a line.
#[derive(Drop)]
enum Next {
    /// The line, without its line feed.
    Line(Vec<u8>),
    /// The line was skipped, since an allocation for it failed.
    Skipped,
    /// The input has no further line.
    End,
}

/// Reads the next line. The text after the last line feed is a line if it isn't empty. A read that
/// fails because it is out of memory counts as a failed allocation.
fn next_line<R: Read>(alloc: Global, input: &mut BufReader<R, Global>) -> Result<Next, Fault>
    ensures { MatchResult result
        (TakesNext (reader_remaining R.remaining input.old) (reader_remaining R.remaining input.new))
        IsFailure }
{
    let mut line = Vec::new(alloc);
    match input.read_until(b'\n', &mut line) {
        Ok(0) => Ok(Next::End),
        Ok(_) => Ok(Next::Line(without_end(line, b'\n'))),
        Err(error) if error.kind() == ErrorKind::OutOfMemory => skip_rest(input, line),
        Err(_) => Err(Fault::Input),
    }
}

/// The bytes without the byte that ends them, if they have it.
pub(crate) fn without_end(mut bytes: Vec<u8>, end: u8) -> Vec<u8>
    ensures { result.items ≡ strip_last end bytes.items }
{
    if ends_with(bytes.as_slice(), end) {
        bytes.pop();
    }
    bytes
}

/// Returns whether this byte ends the bytes.
fn ends_with(bytes: &[u8], end: u8) -> bool
    ensures { result ≡ ends_with_byte end bytes.now }
{
    let count = bytes.len();
    count > 0 && bytes[count - 1] == end
}

/// Skips the rest of a line, after an allocation failed for all but its first bytes.
fn skip_rest<R: Read>(input: &mut BufReader<R, Global>, first: Vec<u8>) -> Result<Next, Fault>
    ensures { (before : Option (List ℕ)) → StopsAt first.items 10
        → Consumes before (reader_remaining R.remaining input.old) first.items
        → MatchResult result (TakesNext before (reader_remaining R.remaining input.new)) IsFailure }
{
    if ends_with(first.as_slice(), b'\n') {
        return Ok(Next::Skipped);
    }
    let count = first.len();
    drop(first);
    match input.skip_until(b'\n') {
        Ok(skipped) if count > 0 || skipped > 0 => Ok(Next::Skipped),
        Ok(_) => Err(Fault::OutOfMemory),
        Err(_) => Err(Fault::Input),
    }
}

/// The printed lines for the lines of a text, in the same order. The only error is a failed allocation.
pub fn print_lines(alloc: Global, command: Command, documents: &[u8]) -> Result<Vec<u8>, AllocError>
    ensures { IfOk result (λ printed. (passes : Bool)
        × PrintsLines command (lines_of documents.now) passes printed.items) }
{
    let mut printed = Vec::new(alloc);
    let mut rest = documents;
    'lines: while !rest.is_empty() {
        let (line, after) = split_line(rest);
        print_line(alloc, command, line, &mut printed)?;
        rest = after;
    }
    Ok(printed)
}

/// The first line of a text, without its line feed, and the text after the line.
fn split_line(text: &[u8]) -> (&[u8], &[u8])
    ensures lines { 0 < length text.now → lines_of text.now ≡ result.0.now ∷ lines_of result.1.now }
    ensures shorter { 0 < length text.now → length result.1.now < length text.now }
{
    match memchr(b'\n', text) {
        Some(at) => (&text[..at], &text[at + 1..]),
        None => (text, &[]),
    }
}

/// Appends the printed line for a line of the input. Returns whether the line passes.
fn print_line(
    alloc: Global,
    command: Command,
    line: &[u8],
    waiting: &mut Vec<u8>,
) -> Result<bool, AllocError>
    ensures { IfOk result
        (λ passes. (printed : List ℕ) × PrintsLine command line.now passes printed
        × (waiting.new.items ≡ waiting.old.items ++ printed)) }
{
    put_printed(command, command.print(alloc, line), waiting)
}

/// Like `print_line`, but drops the line when its document was read.
fn print_owned(
    alloc: Global,
    command: Command,
    line: Vec<u8>,
    waiting: &mut Vec<u8>,
) -> Result<bool, AllocError>
    ensures { IfOk result
        (λ passes. (printed : List ℕ) × PrintsLine command line.items passes printed
        × (waiting.new.items ≡ waiting.old.items ++ printed)) }
{
    put_printed(command, command.print_bytes(alloc, line), waiting)
}

/// Appends the line with an answer, a report or a fault. Returns whether the line passes.
fn put_printed(
    command: Command,
    printed: Result<Printed, Fault>,
    waiting: &mut Vec<u8>,
) -> Result<bool, AllocError>
    ensures { (line : List ℕ) → MatchResult printed (IsPrinted command line) (IsNoResult command line)
        → IfOk result (λ passes. (text : List ℕ) × PrintsLine command line passes text
        × (waiting.new.items ≡ waiting.old.items ++ text)) }
{
    match printed {
        Ok(printed) => match put_framed(command, printed.line.as_str(), waiting) {
            Ok(()) => Ok(printed.is_passed),
            Err(_) => put_out_of_memory(command, waiting),
        },
        Err(fault) => {
            put_fault(&fault, waiting)?;
            Ok(passes_without(command))
        }
    }
}

/// Appends the line with the fault `OutOfMemory`. Returns whether the line passes.
fn put_out_of_memory(command: Command, waiting: &mut Vec<u8>) -> Result<bool, AllocError>
    ensures { IfOk result
        (λ passes. (passes ≡ passes_without command)
        × (waiting.new.items ≡ waiting.old.items ++ fault_line Fault.OutOfMemory)) }
{
    put_fault(&Fault::OutOfMemory, waiting)?;
    Ok(passes_without(command))
}

/// Returns whether a line without an answer or a report passes: only a check can fail.
fn passes_without(command: Command) -> bool
    ensures { result ≡ passes_without command }
{
    match command {
        Command::Answer(_) => true,
        Command::Check { .. } => false,
    }
}

/// Appends the line with an answer or a report, or nothing if an allocation fails.
fn put_framed(command: Command, text: &str, waiting: &mut Vec<u8>) -> Result<(), AllocError>
    ensures { MatchResult result
        (λ _. waiting.new.items ≡ waiting.old.items ++ framed command text.now)
        (λ _. waiting.new.items ≡ waiting.old.items) }
{
    let start = waiting.len();
    let (before, after) = frame(command);
    match put_parts(before, text, after, waiting) {
        Ok(()) => Ok(()),
        Err(error) => {
            waiting.truncate(start);
            Err(error)
        }
    }
}

/// The texts before and after an answer or a report in its line.
fn frame(command: Command) -> (&'static str, &'static str)
    ensures { (text : List ℕ) → result.0.now ++ text ++ result.1.now ≡ framed command text }
{
    match command {
        Command::Answer(_) => ("{\"answer\":", "}\n"),
        Command::Check { .. } => ("", "\n"),
    }
}

/// Appends the line with a fault.
fn put_fault(fault: &Fault, waiting: &mut Vec<u8>) -> Result<(), AllocError>
    ensures { OnOk result (waiting.new.items ≡ waiting.old.items ++ fault_line fault.now) }
{
    put_parts("{\"fault\":\"", fault.name(), "\"}\n", waiting)
}

/// Appends three texts, or a beginning of them if an allocation fails.
fn put_parts(before: &str, text: &str, after: &str, waiting: &mut Vec<u8>) -> Result<(), AllocError>
    ensures { MatchResult result
        (λ _. waiting.new.items ≡ waiting.old.items ++ (before.now ++ text.now ++ after.now))
        (λ _. (added : List ℕ) × (waiting.new.items ≡ waiting.old.items ++ added)) }
{
    waiting.extend_from_slice(before.as_bytes())?;
    waiting.extend_from_slice(text.as_bytes())?;
    waiting.extend_from_slice(after.as_bytes())
}
