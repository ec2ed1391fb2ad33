//! The commands: what each reads and does, its words, and its number.

ghost use Rattle.std.specs.Prelude.{◌≡◌, Bool, IfOk, MatchResult, false, map};
ghost use Rattle.std.specs.String.{string_bytes};
ghost use Rattle.modinfo.specs.Commands.{allowed_words, command_at, has_strictness, has_words, name_of, needed_words};
ghost use Rattle.modinfo.specs.internal.Commands.{asked_command, asked_format};
ghost use Rattle.modinfo.specs.Lines.{IsPrinted, PrintsLines, lines_of};
ghost use Rattle.modinfo.specs.Run.{IsNoResult, PrintsResult};

use crate::fault::Fault;
use crate::format::Format;
use crate::lines::print_lines;
use crate::words::{are_among, are_distinct, is_among};
use std::alloc::{AllocError, Global};

/// The first words of all commands.
pub const NAMES: &[&str] = &["analyze", "convert", "reach", "check", "files"];

/// What the program does with each document.
#[derive(Debug, Clone, Copy, PartialEq, Eq)]
pub enum Command {
    /// Prints the answer to a document of this format.
    Answer(Format),
    /// Prints a report on a document of this format. In a strict check a warning counts as a fault.
    Check { format: Format, is_strict: bool },
}

/// The printed result for a document.
#[derive(Debug, PartialEq, Eq, Drop)]
pub struct Printed {
    /// One line of JSON, without a line feed.
    pub line: String,
    /// Whether the check passed; true without a check.
    pub is_passed: bool,
}

impl Command {
    /// The command with this number, `None` if there is none. A strict check has no number.
    pub fn from_number(number: u8) -> Option<Command>
        ensures { result ≡ command_at number }
    {
        match number {
            0 => Some(Command::Answer(Format::Module)),
            1 => Some(Command::Answer(Format::Stored)),
            2 => Some(Command::Answer(Format::Modules)),
            3 => Some(check_of(Format::Module)),
            4 => Some(check_of(Format::Stored)),
            5 => Some(check_of(Format::Modules)),
            6 => Some(Command::Answer(Format::Estree)),
            7 => Some(check_of(Format::Estree)),
            8 => Some(Command::Answer(Format::Source)),
            9 => Some(check_of(Format::Source)),
            _ => None,
        }
    }

    /// Returns whether a name and the words after it ask for this command.
    pub fn has_words(self, name: &str, words: &[&str]) -> bool
        ensures { result ≡ has_words self name.now (map (λ word. word.now) words.now) }
    {
        name == self.name()
            && are_among(self.needed_words(), words)
            && are_among(words, self.allowed_words())
            && are_distinct(words)
            && self.has_strictness(words)
    }

    /// The first word.
    fn name(self) -> &'static str
        ensures { result.now ≡ name_of self }
    {
        match self {
            Command::Answer(Format::Module | Format::Estree | Format::Source) => "analyze",
            Command::Answer(Format::Stored) => "convert",
            Command::Answer(Format::Modules) => "reach",
            Command::Check { .. } => "check",
        }
    }

    /// The words that have to follow the first.
    fn needed_words(self) -> &'static [&'static str]
        ensures { map (λ word. word.now) result.now ≡ needed_words self }
    {
        match self {
            Command::Answer(Format::Estree) => &["--estree"],
            Command::Answer(Format::Source) => &["--source"],
            Command::Answer(_) => &[],
            Command::Check { format, .. } => match format {
                Format::Module => &[],
                Format::Estree => &["--estree"],
                Format::Source => &["--source"],
                Format::Stored => &["convert"],
                Format::Modules => &["reach"],
            },
        }
    }

    /// The words that may follow the first.
    fn allowed_words(self) -> &'static [&'static str]
        ensures { map (λ word. word.now) result.now ≡ allowed_words self }
    {
        match self {
            Command::Answer(Format::Estree) => &["--estree", "--lines"],
            Command::Answer(Format::Source) => &["--source", "--lines"],
            Command::Answer(_) => &["--lines"],
            Command::Check { format, .. } => match format {
                Format::Module => &["analyze", "--lines", "--strict"],
                Format::Estree => &["analyze", "--estree", "--lines", "--strict"],
                Format::Source => &["analyze", "--source", "--lines", "--strict"],
                Format::Stored => &["convert", "--lines", "--strict"],
                Format::Modules => &["reach", "--lines", "--strict"],
            },
        }
    }

    /// Returns whether a check is strict exactly if `--strict` is among the words.
    fn has_strictness(self, words: &[&str]) -> bool
        ensures { result ≡ has_strictness self (map (λ word. word.now) words.now) }
    {
        match self {
            Command::Answer(_) => true,
            Command::Check { is_strict, .. } => is_strict == is_among("--strict", words),
        }
    }
}

/// A check that isn't strict.
fn check_of(format: Format) -> Command
    ensures { result ≡ Command.Check format false }
{
    Command::Check {
        format,
        is_strict: false,
    }
}

/// The only command that these words may ask for.
pub fn asked_command(name: &str, words: &[&str]) -> Command
    ensures { result ≡ asked_command name.now (map (λ word. word.now) words.now) }
{
    let format = asked_format(name, words);
    if name == "check" {
        Command::Check {
            format,
            is_strict: is_among("--strict", words),
        }
    } else {
        Command::Answer(format)
    }
}

/// The format of the only command that these words may ask for.
fn asked_format(name: &str, words: &[&str]) -> Format
    ensures { result ≡ asked_format name.now (map (λ word. word.now) words.now) }
{
    if name == "convert" || is_among("convert", words) {
        Format::Stored
    } else if name == "reach" || is_among("reach", words) {
        Format::Modules
    } else if is_among("--estree", words) {
        Format::Estree
    } else if is_among("--source", words) {
        Format::Source
    } else {
        Format::Module
    }
}

impl Command {
    /// The printed result for a document. The error is a fault of the document, or `OutOfMemory` where
    /// an allocation fails; of a check the second alone.
    pub fn print(self, alloc: Global, document: &[u8]) -> Result<Printed, Fault>
        ensures { MatchResult result (IsPrinted self document.now) (IsNoResult self document.now) }
    {
        match self {
            Command::Answer(format) => Ok(Printed {
                line: format.answer_text(alloc, document)?,
                is_passed: true,
            }),
            Command::Check { format, is_strict } => {
                let report = format.check(alloc, document)?;
                Ok(Printed {
                    line: report.to_line(alloc)?,
                    is_passed: report.passes(is_strict),
                })
            }
        }
    }

    /// The printed result for a document and a line feed. Otherwise like `print`.
    pub fn print_line(self, alloc: Global, document: &[u8]) -> Result<String, Fault>
        ensures { MatchResult result
            (λ line. (passes : Bool) × PrintsResult self document.now passes (string_bytes line))
            (IsNoResult self document.now) }
    {
        let Printed { mut line, .. } = self.print(alloc, document)?;
        line.push('\n')?;
        Ok(line)
    }

    /// Like `print`. Without a check, drops the document before its tree is checked, to halve the peak
    /// memory.
    pub fn print_bytes(self, alloc: Global, document: Vec<u8>) -> Result<Printed, Fault>
        ensures { MatchResult result (IsPrinted self document.items) (IsNoResult self document.items) }
    {
        match self {
            Command::Answer(format) => Ok(Printed {
                line: format.answer_bytes(alloc, document)?,
                is_passed: true,
            }),
            Command::Check { .. } => self.print(alloc, document.as_slice()),
        }
    }

    /// The output of a run with `--lines` over a text: for each line, which is a document, one line, in
    /// the same order. The only error is a failed allocation.
    pub fn print_lines(self, alloc: Global, documents: &[u8]) -> Result<Vec<u8>, AllocError>
        ensures { IfOk result (λ printed. (passes : Bool)
            × PrintsLines self (lines_of documents.now) passes printed.items) }
    {
        print_lines(alloc, self, documents)
    }
}
