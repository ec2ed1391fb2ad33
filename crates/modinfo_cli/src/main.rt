//! The program `modinfo`, over the standard streams.
#![tactic(auto)]

use modinfo::files::names_in;
use modinfo::{CommandLine, Names, serve, serve_files};
use std::io::{ErrorKind, IsTerminal, Read};
use std::process::ExitCode;
use std::{env, fs, io};

/// The line on the error output for a terminal as the input of `files`.
const WAITING: &str =
    "modinfo: waiting for the names of files, one on each line, and Ctrl-D after the last";

fn main(rt: HostRuntime) -> ExitCode {
    match run(&rt) {
        Ok(status) => ExitCode::from(status),
        Err(_) => {
            let _ = eprintln!(rt; "modinfo: OutOfMemory");
            ExitCode::FAILURE
        }
    }
}

fn run(rt: &HostRuntime) -> io::Result<u8> {
    let Some(arguments) = arguments(rt)? else {
        return run_bytes(rt);
    };
    let words: Vec<&str> = arguments
        .iter()
        .map(|word| word.as_str())
        .collect(rt.alloc())?;
    let (words, mut input) = (words.as_slice(), rt.stdin());
    if reads_names(words) && input.is_terminal() {
        eprintln!(rt; "{WAITING}")?;
    }
    Ok(run_words(rt, words, &mut input))
}

/// Returns whether the names of files are in the input.
fn reads_names(words: &[&str]) -> bool {
    match CommandLine::from_words(words) {
        Some(CommandLine::Files(names)) => names != Names::Arguments,
        _ => false,
    }
}

/// Runs the program on its arguments.
fn run_words<I: Read + Drop>(rt: &HostRuntime, words: &[&str], input: &mut I) -> u8 {
    let (mut output, mut errors) = (rt.stdout(), rt.stderr());
    match CommandLine::from_words(words) {
        Some(CommandLine::Files(_)) => { serve_files(rt, words, input, &mut output, &mut errors) }
        _ => serve(rt.alloc(), words, input, &mut output, &mut errors),
    }
}

/// Runs the program on arguments of which one isn't UTF-8: a name of `files`, else a wrong word.
fn run_bytes(rt: &HostRuntime) -> io::Result<u8> {
    let arguments = fs::read(rt, "/proc/self/cmdline")?;
    Ok(match names_in(rt.alloc(), arguments.as_slice())? {
        Some(mut names) => run_words(rt, &["files", "--null"], &mut names),
        None => run_words(rt, &[], &mut rt.stdin()),
    })
}

/// Returns the arguments after the program's name. `None` if one isn't UTF-8.
fn arguments(rt: &HostRuntime) -> io::Result<Option<Vec<String>>> {
    match env::args(rt) {
        Ok(arguments) => Ok(Some(arguments.skip(1).collect(rt.alloc())?)),
        Err(error) if error.kind() == ErrorKind::InvalidData => Ok(None),
        Err(error) => Err(error),
    }
}
