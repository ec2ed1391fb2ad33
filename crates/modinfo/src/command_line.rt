//! The arguments of the program.

ghost use Rattle.std.specs.Prelude.{◌≡◌, ◌↔◌, IsTrue, map, Some};
ghost use Rattle.modinfo.specs.CommandLine.{are_names, asks_for, asks_for_help, asks_for_version, command_names, names_have_words};
ghost use Rattle.modinfo.specs.Words.{is_among};
ghost use Rattle.modinfo.specs.internal.Commands.{asked_line, asked_names};

use crate::command::{Command, NAMES, asked_command};
use crate::words::is_among;

/// A run of the program, as its arguments describe it.
#[derive(Debug, Clone, Copy, PartialEq, Eq)]
pub enum CommandLine {
    /// `--help` or `-h`, or a command with `--help`
    Help,
    /// `--version` or `-V`
    Version,
    /// The input is one document.
    Document(Command),
    /// Each line of the input is a document.
    Lines(Command),
    /// The information on files.
    Files(Names),
}

/// Where the names of files are.
#[derive(Debug, Clone, Copy, PartialEq, Eq)]
pub enum Names {
    /// In the arguments after the first.
    Arguments,
    /// In the input, one on a line.
    Lines,
    /// In the input, each ended by a zero byte.
    Zeros,
}

impl CommandLine {
    /// The command line that these arguments ask for, `None` if they are wrong.
    pub fn from_words(words: &[&str]) -> Option<CommandLine>
        ensures { (line : CommandLine) → (result ≡ Some line)
            ↔ IsTrue (asks_for line (map (λ word. word.now) words.now)) }
    {
        let line = asked_line(words);
        if line.is_asked_by(words) {
            Some(line)
        } else {
            None
        }
    }

    /// Where the names of files are, if these arguments ask for `files`.
    pub fn files_from_words(words: &[&str]) -> Option<Names>
        ensures { (names : Names) → (result ≡ Some names)
            ↔ IsTrue (asks_for (CommandLine.Files names) (map (λ word. word.now) words.now)) }
    {
        match CommandLine::from_words(words)? {
            CommandLine::Files(names) => Some(names),
            _ => None,
        }
    }

    /// Returns whether these arguments ask for this command line.
    fn is_asked_by(self, words: &[&str]) -> bool
        ensures { result ≡ asks_for self (map (λ word. word.now) words.now) }
    {
        match (self, words) {
            (CommandLine::Help, _) => asks_for_help(words),
            (CommandLine::Version, _) => asks_for_version(words),
            (CommandLine::Document(command), [name, words @ ..]) => {
                !is_among("--lines", words) && command.has_words(name, words)
            }
            (CommandLine::Lines(command), [name, words @ ..]) => {
                is_among("--lines", words) && command.has_words(name, words)
            }
            (CommandLine::Files(names), [name, words @ ..]) => {
                *name == "files" && names.has_words(words)
            }
            _ => false,
        }
    }
}

impl Names {
    /// Returns whether the words after `files` have the names, or ask for names in the input.
    fn has_words(self, words: &[&str]) -> bool
        ensures { result ≡ names_have_words self (map (λ word. word.now) words.now) }
    {
        match (self, words) {
            (Names::Lines, []) => true,
            (Names::Zeros, [word]) => *word == "--null",
            (Names::Arguments, [_, ..]) => are_names(words),
            _ => false,
        }
    }
}

/// Returns whether no word begins with `-`.
fn are_names(words: &[&str]) -> bool
    ensures { result ≡ are_names (map (λ word. word.now) words.now) }
{
    let mut rest = words;
    'words: while let [word, after @ ..] = rest {
        if word.as_bytes().first() == Some(&b'-') {
            return false;
        }
        rest = after;
    }
    true
}

/// Returns whether the words are `--help`, `-h`, or the name of a command and `--help`.
fn asks_for_help(words: &[&str]) -> bool
    ensures { result ≡ asks_for_help (map (λ word. word.now) words.now) }
{
    match words {
        [word] => is_among(word, &["--help", "-h"]),
        [name, word] => *word == "--help" && is_command(name),
        _ => false,
    }
}

/// Returns whether a word is the first word of a command.
fn is_command(word: &str) -> bool
    ensures { result ≡ is_among word.now command_names }
{
    is_among(word, NAMES)
}

/// Returns whether the words are `--version` or `-V`.
fn asks_for_version(words: &[&str]) -> bool
    ensures { result ≡ asks_for_version (map (λ word. word.now) words.now) }
{
    match words {
        [word] => is_among(word, &["--version", "-V"]),
        _ => false,
    }
}

/// The only command line that these words may ask for.
fn asked_line(words: &[&str]) -> CommandLine
    ensures { result ≡ asked_line (map (λ word. word.now) words.now) }
{
    let [name, rest @ ..] = words else {
        return CommandLine::Help;
    };
    if asks_for_help(words) {
        CommandLine::Help
    } else if asks_for_version(words) {
        CommandLine::Version
    } else if *name == "files" {
        CommandLine::Files(asked_names(rest))
    } else if is_among("--lines", rest) {
        CommandLine::Lines(asked_command(name, rest))
    } else {
        CommandLine::Document(asked_command(name, rest))
    }
}

/// Where the names of files may be.
fn asked_names(words: &[&str]) -> Names
    ensures { result ≡ asked_names (map (λ word. word.now) words.now) }
{
    match words {
        [] => Names::Lines,
        [word] if *word == "--null" => Names::Zeros,
        _ => Names::Arguments,
    }
}
