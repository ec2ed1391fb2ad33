//! `modinfo` as a static library for C, Rust, Python and other languages that can call C functions.
//! `include/modinfo.h` declares the functions.
#![tactic(auto)]

ghost use Rattle.std.specs.Prelude.{◌≡◌, false, IsTrue, MatchResult, None, Some};
ghost use Rattle.std.specs.String.{string_bytes};
ghost use Rattle.modinfo.specs.Commands.{command_at};
ghost use Rattle.modinfo.specs.Fault.{name_of_fault};
ghost use Rattle.modinfo.specs.Run.{IsNoResult};
ghost use Rattle.modinfo.specs.Source.{AreNoParts, is_media_type};
ghost use Rattle.modinfo_c.specs.Call.{IsInfoLine, IsNoInfoLine, IsReportLine};
ghost use Rattle.modinfo_c.specs.Call.{IsAnswered, IsLeft, IsLinesText, IsOutOfMemory, IsResultLine};

use modinfo::check::check_text;
use modinfo::source::{SourceText, is_media_type};
use modinfo::{Command, Fault, Format};
use std::alloc::Global;

/// Status: the answer is in the buffer.
const ANSWERED: u8 = 0;

/// Status: the name of a fault is in the buffer.
const FAULT: u8 = 1;

/// Status: the buffer is too small for the answer or the name of the fault.
const TOO_SMALL: u8 = 2;

/// Status: no command, or no media type, has this number.
const NO_COMMAND: u8 = 3;

/// The version of `modinfo --version` as a number, `MAJOR * 10000 + MINOR * 100 + PATCH`.
const VERSION: u32 = 100;

/// Returns the version, which is `MODINFO_VERSION` in the header for this library.
#[unsafe(no_mangle)]
pub extern "C" fn modinfo_version() -> u32
    ensures { result ≡ 100 }
{
    VERSION
}

/// Runs a command, by its number, on a document, and writes the answer or the name of the fault to the
/// buffer `answer`. Of a check the answer is the report, even on a document with a fault. Returns the
/// status. Sets `length` to the number of bytes that were written, with status 2 to the number of bytes
/// that the buffer needs, with status 3 to 0.
#[unsafe(no_mangle)]
pub extern "C" fn modinfo_run(
    alloc: Global,
    command: u8,
    document: &[u8],
    answer: &mut [u8],
    length: &mut usize,
) -> u8
    ensures run { (of : Command) → command_at command ≡ Some of
        → IsAnswered (IsResultLine of document.now) (IsNoResult of document.now)
        answer.old answer.new length.new result }
    ensures no_command { command_at command ≡ None
        → (result ≡ 3) × (length.new ≡ 0) × (answer.new ≡ answer.old) }
{
    match Command::from_number(command) {
        Some(command) => write_result(alloc, command, document, answer, length),
        None => no_command(length),
    }
}

/// Runs a command, by its number, with `--lines` on documents, one per line. The answer has a line for
/// each document, in the same order. The only fault is `OutOfMemory`. Otherwise like `modinfo_run`.
#[unsafe(no_mangle)]
pub extern "C" fn modinfo_run_lines(
    alloc: Global,
    command: u8,
    documents: &[u8],
    answer: &mut [u8],
    length: &mut usize,
) -> u8
    ensures lines { (of : Command) → command_at command ≡ Some of
        → IsAnswered (IsLinesText of documents.now) IsOutOfMemory
        answer.old answer.new length.new result }
    ensures no_command { command_at command ≡ None
        → (result ≡ 3) × (length.new ≡ 0) × (answer.new ≡ answer.old) }
{
    match Command::from_number(command) {
        Some(command) => write_lines(alloc, command, documents, answer, length),
        None => no_command(length),
    }
}

/// Runs `modinfo analyze` on a document. Otherwise like `modinfo_run`.
#[unsafe(no_mangle)]
pub extern "C" fn modinfo_analyze(
    alloc: Global,
    document: &[u8],
    answer: &mut [u8],
    length: &mut usize,
) -> u8
    ensures { IsAnswered (IsResultLine (Command.Answer Format.Module) document.now)
        (IsNoResult (Command.Answer Format.Module) document.now) answer.old answer.new length.new result }
{
    write_answer(alloc, Format::Module, document, answer, length)
}

/// Runs `modinfo analyze --estree`. Otherwise like `modinfo_run`.
#[unsafe(no_mangle)]
pub extern "C" fn modinfo_analyze_estree(
    alloc: Global,
    document: &[u8],
    answer: &mut [u8],
    length: &mut usize,
) -> u8
    ensures { IsAnswered (IsResultLine (Command.Answer Format.Estree) document.now)
        (IsNoResult (Command.Answer Format.Estree) document.now) answer.old answer.new length.new result }
{
    write_answer(alloc, Format::Estree, document, answer, length)
}

/// Runs `modinfo convert`. Otherwise like `modinfo_run`.
#[unsafe(no_mangle)]
pub extern "C" fn modinfo_convert(
    alloc: Global,
    document: &[u8],
    answer: &mut [u8],
    length: &mut usize,
) -> u8
    ensures { IsAnswered (IsResultLine (Command.Answer Format.Stored) document.now)
        (IsNoResult (Command.Answer Format.Stored) document.now) answer.old answer.new length.new result }
{
    write_answer(alloc, Format::Stored, document, answer, length)
}

/// Runs `modinfo reach`. Otherwise like `modinfo_run`.
#[unsafe(no_mangle)]
pub extern "C" fn modinfo_reach(
    alloc: Global,
    document: &[u8],
    answer: &mut [u8],
    length: &mut usize,
) -> u8
    ensures { IsAnswered (IsResultLine (Command.Answer Format.Modules) document.now)
        (IsNoResult (Command.Answer Format.Modules) document.now) answer.old answer.new length.new result }
{
    write_answer(alloc, Format::Modules, document, answer, length)
}

/// Runs `modinfo check` on a document of `modinfo analyze`. Otherwise like `modinfo_run`.
#[unsafe(no_mangle)]
pub extern "C" fn modinfo_check(
    alloc: Global,
    document: &[u8],
    answer: &mut [u8],
    length: &mut usize,
) -> u8
    ensures { IsAnswered (IsResultLine (Command.Check Format.Module false) document.now)
        (IsNoResult (Command.Check Format.Module false) document.now) answer.old answer.new length.new result }
{
    write_report(alloc, Format::Module, document, answer, length)
}

/// Runs `modinfo check --estree`. Otherwise like `modinfo_run`.
#[unsafe(no_mangle)]
pub extern "C" fn modinfo_check_estree(
    alloc: Global,
    document: &[u8],
    answer: &mut [u8],
    length: &mut usize,
) -> u8
    ensures { IsAnswered (IsResultLine (Command.Check Format.Estree false) document.now)
        (IsNoResult (Command.Check Format.Estree false) document.now) answer.old answer.new length.new result }
{
    write_report(alloc, Format::Estree, document, answer, length)
}

/// Runs `modinfo check convert`. Otherwise like `modinfo_run`.
#[unsafe(no_mangle)]
pub extern "C" fn modinfo_check_convert(
    alloc: Global,
    document: &[u8],
    answer: &mut [u8],
    length: &mut usize,
) -> u8
    ensures { IsAnswered (IsResultLine (Command.Check Format.Stored false) document.now)
        (IsNoResult (Command.Check Format.Stored false) document.now) answer.old answer.new length.new result }
{
    write_report(alloc, Format::Stored, document, answer, length)
}

/// Runs `modinfo check reach`. Otherwise like `modinfo_run`.
#[unsafe(no_mangle)]
pub extern "C" fn modinfo_check_reach(
    alloc: Global,
    document: &[u8],
    answer: &mut [u8],
    length: &mut usize,
) -> u8
    ensures { IsAnswered (IsResultLine (Command.Check Format.Modules false) document.now)
        (IsNoResult (Command.Check Format.Modules false) document.now) answer.old answer.new length.new result }
{
    write_report(alloc, Format::Modules, document, answer, length)
}

/// Runs `modinfo analyze --source` on a text, its specifier and the number of its media type, which is
/// that of `MediaType`'s variants from 1 on, or 0 for the media type of the specifier. `Input` if the text
/// or the specifier isn't UTF-8. Status 3 if no media type has the number. Otherwise like `modinfo_run`.
#[unsafe(no_mangle)]
pub extern "C" fn modinfo_analyze_source(
    alloc: Global,
    text: &[u8],
    specifier: &[u8],
    media_type: u8,
    answer: &mut [u8],
    length: &mut usize,
) -> u8
    ensures media_type { IsTrue (is_media_type media_type)
        → IsAnswered (IsInfoLine text.now specifier.now media_type)
        (IsNoInfoLine text.now specifier.now media_type) answer.old answer.new length.new result }
    ensures no_media_type { is_media_type media_type ≡ false
        → (result ≡ 3) × (length.new ≡ 0) × (answer.new ≡ answer.old) }
{
    if !is_media_type(media_type) {
        return no_command(length);
    }
    write_line(
        source_line(alloc, text, specifier, media_type),
        answer,
        length,
    )
}

/// The information on the module of a text, as JSON with a line feed.
fn source_line(
    alloc: Global,
    text: &[u8],
    specifier: &[u8],
    media_type: u8,
) -> Result<String, Fault>
    ensures { MatchResult result (λ line. IsInfoLine text.now specifier.now media_type (string_bytes line))
        (IsNoInfoLine text.now specifier.now media_type) }
{
    let source = SourceText::from_parts(alloc, text, specifier, media_type)?;
    let mut line = source.info_text(alloc)?;
    line.push('\n')?;
    Ok(line)
}

/// Runs `modinfo check --source`. The answer is the report, even on a text with a fault; its pointers
/// lead into the document that has these parts. Otherwise like `modinfo_analyze_source`.
#[unsafe(no_mangle)]
pub extern "C" fn modinfo_check_source(
    alloc: Global,
    text: &[u8],
    specifier: &[u8],
    media_type: u8,
    answer: &mut [u8],
    length: &mut usize,
) -> u8
    ensures media_type { IsTrue (is_media_type media_type)
        → IsAnswered (IsReportLine text.now specifier.now media_type)
        (AreNoParts text.now specifier.now media_type) answer.old answer.new length.new result }
    ensures no_media_type { is_media_type media_type ≡ false
        → (result ≡ 3) × (length.new ≡ 0) × (answer.new ≡ answer.old) }
{
    if !is_media_type(media_type) {
        return no_command(length);
    }
    write_line(
        source_report_line(alloc, text, specifier, media_type),
        answer,
        length,
    )
}

/// The report on a text, as JSON with a line feed.
fn source_report_line(
    alloc: Global,
    text: &[u8],
    specifier: &[u8],
    media_type: u8,
) -> Result<String, Fault>
    ensures { MatchResult result (λ line. IsReportLine text.now specifier.now media_type (string_bytes line))
        (AreNoParts text.now specifier.now media_type) }
{
    let source = SourceText::from_parts(alloc, text, specifier, media_type)?;
    let report = check_text(alloc, source)?;
    let mut line = report.to_line(alloc)?;
    line.push('\n')?;
    Ok(line)
}

/// Like `modinfo_run_lines`, by its older name.
#[unsafe(no_mangle)]
pub extern "C" fn modinfo_lines(
    alloc: Global,
    command: u8,
    documents: &[u8],
    answer: &mut [u8],
    length: &mut usize,
) -> u8
    ensures lines { (of : Command) → command_at command ≡ Some of
        → IsAnswered (IsLinesText of documents.now) IsOutOfMemory
        answer.old answer.new length.new result }
    ensures no_command { command_at command ≡ None
        → (result ≡ 3) × (length.new ≡ 0) × (answer.new ≡ answer.old) }
{
    modinfo_run_lines(alloc, command, documents, answer, length)
}

/// Writes the result for a document.
fn write_result(
    alloc: Global,
    command: Command,
    document: &[u8],
    answer: &mut [u8],
    length: &mut usize,
) -> u8
    ensures { IsAnswered (IsResultLine command document.now) (IsNoResult command document.now)
        answer.old answer.new length.new result }
{
    write_line(command.print_line(alloc, document), answer, length)
}

/// Writes a line, or the name of a fault.
fn write_line(line: Result<String, Fault>, answer: &mut [u8], length: &mut usize) -> u8
    ensures { MatchResult line
        (λ line. IsLeft (string_bytes line) 0 answer.old answer.new length.new result)
        (λ fault. IsLeft (name_of_fault fault) 1 answer.old answer.new length.new result) }
{
    match line {
        Ok(line) => put(line.as_bytes(), ANSWERED, answer, length),
        Err(fault) => put_name(&fault, answer, length),
    }
}

/// Writes the answer to a document.
fn write_answer(
    alloc: Global,
    format: Format,
    document: &[u8],
    answer: &mut [u8],
    length: &mut usize,
) -> u8
    ensures { IsAnswered (IsResultLine (Command.Answer format) document.now)
        (IsNoResult (Command.Answer format) document.now) answer.old answer.new length.new result }
{
    write_result(alloc, Command::Answer(format), document, answer, length)
}

/// Writes the report on a document.
fn write_report(
    alloc: Global,
    format: Format,
    document: &[u8],
    answer: &mut [u8],
    length: &mut usize,
) -> u8
    ensures { IsAnswered (IsResultLine (Command.Check format false) document.now)
        (IsNoResult (Command.Check format false) document.now) answer.old answer.new length.new result }
{
    let command = Command::Check {
        format,
        is_strict: false,
    };
    write_result(alloc, command, document, answer, length)
}

/// Writes the results for documents, one per line.
fn write_lines(
    alloc: Global,
    command: Command,
    documents: &[u8],
    answer: &mut [u8],
    length: &mut usize,
) -> u8
    ensures { IsAnswered (IsLinesText command documents.now) IsOutOfMemory
        answer.old answer.new length.new result }
{
    match command.print_lines(alloc, documents) {
        Ok(lines) => put(lines.as_slice(), ANSWERED, answer, length),
        Err(_) => put_name(&Fault::OutOfMemory, answer, length),
    }
}

/// Writes nothing.
fn no_command(length: &mut usize) -> u8
    ensures { (result ≡ 3) × (length.new ≡ 0) }
{
    *length = 0;
    NO_COMMAND
}

/// Writes the name of a fault.
fn put_name(fault: &Fault, answer: &mut [u8], length: &mut usize) -> u8
    ensures { IsLeft (name_of_fault fault.now) 1 answer.old answer.new length.new result }
{
    put(fault.name().as_bytes(), FAULT, answer, length)
}

/// Writes bytes to the start of the buffer, if they fit.
fn put(bytes: &[u8], status: u8, answer: &mut [u8], length: &mut usize) -> u8
    ensures { IsLeft bytes.now status answer.old answer.new length.new result }
{
    *length = bytes.len();
    if bytes.len() > answer.len() {
        return TOO_SMALL;
    }
    answer[..bytes.len()].copy_from_slice(bytes);
    status
}
