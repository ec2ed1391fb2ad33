//! The command `files`: the information on each of many files, one per line.

mod line;
mod reader;

ghost use Rattle.std.specs.Prelude.{◌≡◌, ◌++◌, ◌∷◌, [], ℕ, Bool, IfOk, IfSome, IsTrue, List, MatchOption, MatchResult, Option};
ghost use Rattle.std.specs.Prelude.{drop, map, option_map};
ghost use Rattle.std.specs.Io.Buffered.{reader_remaining};
ghost use Rattle.std.specs.Io.KnownBytes.{Appends, IsAtEnd};
ghost use Rattle.modinfo.specs.CommandLine.{asks_for};
ghost use Rattle.modinfo.specs.Files.{HasNoUrl, IsFilesRun, IsInfoOfFile, LeavesFiles, LeavesFirstFiles, PrintsFile};
ghost use Rattle.modinfo.specs.Lines.{PrintsEach, ended_by};
ghost use Rattle.modinfo.specs.Run.{AppendsFront, IsWrongRun};
ghost use Rattle.modinfo.specs.internal.Files.{LeavesEach, LeavesFirst};
ghost use Rattle.modinfo.specs.internal.Lines.{Takes};

use crate::command_line::{CommandLine, Names};
use crate::fault::Fault;
use crate::file_url::{file_url, is_absolute};
use crate::files::line::{FileFault, put_line};
use crate::files::reader::FileReader;
use crate::help::USAGE;
use crate::input::CHUNK;
use crate::lines::{buffered, without_end, write_waiting};
use crate::output::print_fault;
use crate::program::print_usage;
use deno_graph_info::analysis::ModuleInfo;
use deno_graph_module_info::module_info;
use deno_graph_source::tree::MediaType;
use memchr::memchr;
use modinfo_source::parse_module;
use percent_encoding::{DecodeError, percent_decode_str};
use simdutf8::basic;
use std::alloc::{AllocError, Global};
use std::borrow::CowStr;
use std::env;
use std::io::{BufRead, BufReader, ErrorKind, Read, Write};
use std::rc::RcStr;
use std::rt::{Env, Files};
use url::Url;

/// Runs `files`, and returns the exit status. `words` are the arguments after the program's name. Prints
/// a line for each file, in the order of the names: its information, or a fault.
///
/// - Status 0: each file has information.
/// - Status 1: a file has a fault, or there was a fault of the run, of which `errors` gets a line.
/// - Status 2: the words are no `files`. `errors` gets a line on the usage, and `output` nothing.
pub fn serve_files<R: Files + Env + AllocGlobal, I: Read, W: Write, E: Write>(
    rt: &R,
    words: &[&str],
    input: &mut I,
    output: &mut W,
    errors: &mut E,
) -> u8
where
    I: Drop,
    ensures files { (names : Names)
        → IsTrue (asks_for (CommandLine.Files names) (map (λ word. word.now) words.now))
        → IsFilesRun names (map (λ word. word.now) words.now) (I.remaining input.old)
        (W.contents output.old) (W.contents output.new)
        (E.contents errors.old) (E.contents errors.new) result }
    ensures wrong { ((names : Names)
        → ¬ IsTrue (asks_for (CommandLine.Files names) (map (λ word. word.now) words.now)))
        → IsWrongRun USAGE.now (W.contents output.old) (W.contents output.new)
        (E.contents errors.old) (E.contents errors.new) result }
{
    let Some(names) = CommandLine::files_from_words(words) else {
        return print_usage(errors);
    };
    match run_files(rt, names, words, input, output) {
        Ok(true) => 0,
        Ok(false) => 1,
        Err(fault) => {
            print_fault(errors, &fault);
            1
        }
    }
}

/// Returns the names in the arguments of a process: the bytes after the program's name and `files`, each
/// name ended by a zero byte. `None` for other arguments. Names that aren't UTF-8 are no words of
/// `serve_files`, but the input of `files --null` may have them.
pub fn names_in(alloc: Global, arguments: &[u8]) -> Result<Option<&[u8]>, AllocError> {
    let Some(names) = after_zero(arguments).and_then(|words| words.strip_prefix(b"files\0")) else {
        return Ok(None);
    };
    let text = String::from_utf8_lossy(alloc, names)?;
    let has_flag = text.as_str().starts_with('-') || text.as_str().contains("\0-");
    Ok(if has_flag { None } else { Some(names) })
}

/// Returns what is after the first zero byte. `None` if there is none.
fn after_zero(bytes: &[u8]) -> Option<&[u8]> {
    let at = memchr(0, bytes)?;
    bytes.get(at + 1..)
}

/// Prints a line for each file. Returns whether each has information. After a fault of the run, too, the
/// lines before it are printed.
fn run_files<R: Files + Env + AllocGlobal, I: Read, W: Write>(
    rt: &R,
    names: Names,
    words: &[&str],
    input: I,
    output: &mut W,
) -> Result<bool, Fault>
where
    I: Drop,
    ensures { MatchResult result
        (LeavesFiles names (map (λ word. word.now) words.now) (I.remaining input)
        (W.contents output.old) (W.contents output.new))
        (λ _. LeavesFirstFiles names (map (λ word. word.now) words.now) (I.remaining input)
        (W.contents output.old) (W.contents output.new)) }
{
    let folder = current_folder(rt)?;
    let folder = folder.as_ref().map(|folder| folder.as_str());
    match names {
        Names::Arguments => print_named(rt, folder, after_first(words), output),
        Names::Lines => print_listed(rt, folder, b'\n', input, output),
        Names::Zeros => print_listed(rt, folder, 0, input, output),
    }
}

/// Returns the words after the first.
fn after_first<'a, 'b>(words: &'b [&'a str]) -> &'b [&'a str]
    ensures { result.now ≡ drop 1 words.now }
{
    match words {
        [_, names @ ..] => names,
        [] => words,
    }
}

/// The path of the current folder, without a slash at its end. None if the system doesn't say it, or it isn't
/// UTF-8.
fn current_folder<R: Env + AllocGlobal>(rt: &R) -> Result<Option<String>, Fault> {
    let alloc = rt.alloc();
    match env::current_dir(rt) {
        Ok(folder) => Ok(Some(String::from_str(alloc, folder.as_str().trim_end_matches('/'))?)),
        Err(error) if error.kind() == ErrorKind::OutOfMemory => Err(Fault::OutOfMemory),
        Err(_) => Ok(None),
    }
}

/// Prints a line for each of the named files. Returns whether each has information.
fn print_named<R: Files + AllocGlobal, W: Write>(
    rt: &R,
    folder: Option<&str>,
    names: &[&str],
    output: &mut W,
) -> Result<bool, Fault>
    ensures { MatchResult result
        (LeavesEach (option_map (λ folder. folder.now) folder.entry) (map (λ name. name.now) names.now)
        (W.contents output.old) (W.contents output.new))
        (λ _. (first : List (List ℕ)) × (rest : List (List ℕ)) × (map (λ name. name.now) names.now ≡ first ++ rest)
        × LeavesFirst (option_map (λ folder. folder.now) folder.entry) first (W.contents output.old) (W.contents output.new)) }
{
    let mut reader = FileReader::new(rt);
    let mut waiting = Vec::new(rt.alloc());
    let mut is_whole = true;
    for name in names {
        match put_file(rt, &mut reader, folder, name.as_bytes(), &mut waiting) {
            Ok(has_info) => is_whole &= has_info,
            Err(fault) => {
                write_waiting(output, &mut waiting, true)?;
                return Err(fault);
            }
        }
        let is_due = waiting.len() > CHUNK;
        write_waiting(output, &mut waiting, is_due)?;
    }
    write_waiting(output, &mut waiting, true)?;
    Ok(is_whole)
}

/// Prints a line for each of the files whose names are in the input, each ended by a byte. Returns whether
/// each has information. Writes before each read that may wait for input.
fn print_listed<R: Files + AllocGlobal, I: Read, W: Write>(
    rt: &R,
    folder: Option<&str>,
    end: u8,
    input: I,
    output: &mut W,
) -> Result<bool, Fault>
where
    I: Drop,
    ensures { MatchResult result
        (λ passes. (each : List (List ℕ)) × IfSome (I.remaining input) (λ left. each ≡ ended_by end left)
        × LeavesEach (option_map (λ folder. folder.now) folder.entry) each (W.contents output.old) (W.contents output.new)
        passes)
        (λ _. (first : List (List ℕ)) × IfSome (I.remaining input) (λ left. (rest : List (List ℕ))
        × (ended_by end left ≡ first ++ rest))
        × LeavesFirst (option_map (λ folder. folder.now) folder.entry) first (W.contents output.old) (W.contents output.new)) }
{
    let mut input = buffered(rt.alloc(), input)?;
    let mut reader = FileReader::new(rt);
    let mut waiting = Vec::new(rt.alloc());
    let mut is_whole = true;
    'names: for _ in 0..u64::MAX {
        let is_due = waiting.len() > CHUNK || memchr(end, input.buffer()).is_none();
        write_waiting(output, &mut waiting, is_due)?;
        match put_next(rt, &mut reader, folder, end, &mut input, &mut waiting) {
            Ok(Some(has_info)) => is_whole &= has_info,
            Ok(None) => {
                write_waiting(output, &mut waiting, true)?;
                return Ok(is_whole);
            }
            Err(fault) => {
                write_waiting(output, &mut waiting, true)?;
                return Err(fault);
            }
        }
    }
    Err(Fault::Input)
}

/// Reads a name, and appends the line of its file. Returns whether the file has information, `None` at the
/// end of the input. A fault appends nothing.
fn put_next<R: Files + AllocGlobal, I: Read>(
    rt: &R,
    reader: &mut FileReader,
    folder: Option<&str>,
    end: u8,
    input: &mut BufReader<I, Global>,
    waiting: &mut Vec<u8>,
) -> Result<Option<bool>, Fault>
    ensures { MatchResult result (λ next. MatchOption next
        ((waiting.new.items ≡ waiting.old.items) × IsAtEnd (reader_remaining I.remaining input.old))
        (λ passes. (name : List ℕ) × (printed : List ℕ)
        × Takes end (reader_remaining I.remaining input.old) (reader_remaining I.remaining input.new) (name ∷ [])
        × PrintsFile (option_map (λ folder. folder.now) folder.entry) name passes printed
        × (waiting.new.items ≡ waiting.old.items ++ printed)))
        (λ _. waiting.new.items ≡ waiting.old.items) }
{
    let mut name = Vec::new(rt.alloc());
    match input.read_until(end, &mut name) {
        Ok(0) => Ok(None),
        Ok(_) => {
            let name = without_end(name, end);
            Ok(Some(put_file(rt, reader, folder, name.as_slice(), waiting)?))
        }
        Err(error) if error.kind() == ErrorKind::OutOfMemory => Err(Fault::OutOfMemory),
        Err(_) => Err(Fault::Input),
    }
}

/// Appends the line of a file. Returns whether the file has information. A name without a URL is printed in
/// its place, with U+FFFD for bytes that aren't UTF-8. A fault appends nothing.
fn put_file<R: Files + AllocGlobal>(
    rt: &R,
    reader: &mut FileReader,
    folder: Option<&str>,
    name: &[u8],
    waiting: &mut Vec<u8>,
) -> Result<bool, Fault>
    ensures { MatchResult result
        (λ passes. (printed : List ℕ)
        × PrintsFile (option_map (λ folder. folder.now) folder.entry) name.now passes printed
        × (waiting.new.items ≡ waiting.old.items ++ printed))
        (λ _. waiting.new.items ≡ waiting.old.items) }
{
    let alloc = rt.alloc();
    let Ok(path) = basic::from_utf8(name) else {
        return put_unnamed(alloc, name, "the name isn't UTF-8", waiting);
    };
    if folder.is_none() && !is_absolute(path) {
        let message = "the path of the current folder isn't known, or isn't UTF-8";
        return put_unnamed(alloc, name, message, waiting);
    }
    let specifier = file_url(alloc, folder.unwrap_or(""), path)?;
    let found = info_of_file(rt, reader, path, &specifier);
    put_line(alloc, specifier.as_str(), found, waiting)
}

/// Appends the line of a name without a URL. Returns whether it has information. A fault appends nothing.
fn put_unnamed(
    alloc: Global,
    name: &[u8],
    message: &'static str,
    waiting: &mut Vec<u8>,
) -> Result<bool, Fault>
    ensures { (folder : Option (List ℕ)) → HasNoUrl folder name.now → MatchResult result
        (λ passes. (printed : List ℕ) × PrintsFile folder name.now passes printed
        × (waiting.new.items ≡ waiting.old.items ++ printed))
        (λ _. waiting.new.items ≡ waiting.old.items) }
{
    let specifier = String::from_utf8_lossy(alloc, name)?;
    let found = Err(FileFault::input(message));
    put_line(alloc, specifier.as_str(), found, waiting)
}

/// The information on a file.
fn info_of_file<R: Files + AllocGlobal>(
    rt: &R,
    reader: &mut FileReader,
    name: &str,
    specifier: &Url,
) -> Result<ModuleInfo, FileFault>
    ensures { IfOk result (IsInfoOfFile specifier.now) }
{
    let alloc = rt.alloc();
    let path = path_of(alloc, name, specifier)?;
    let bytes = reader.read(rt, path.as_str())?;
    let Ok(text) = basic::from_utf8(bytes.as_slice()) else {
        return Err(FileFault::input("the file isn't UTF-8"));
    };
    let source = RcStr::from_str(alloc, text)?;
    drop(bytes);
    let media_type = MediaType::from_specifier(specifier);
    let parsed = parse_module(alloc, specifier.clone()?, source, media_type)?;
    Ok(module_info(alloc, &parsed)?)
}

/// The path of a file with a name. Where the name has `..`, it is that of the URL, in which a `..` takes away
/// the step before it, be that a link or not.
fn path_of<'a>(
    alloc: Global,
    name: &'a str,
    specifier: &'a Url,
) -> Result<CowStr<'a, Global>, FileFault> {
    if !name.contains("..") {
        return Ok(CowStr::Borrowed(name));
    }
    match percent_decode_str(specifier.path()).decode_utf8(alloc) {
        Ok(path) => Ok(path),
        Err(DecodeError::OutOfMemory) => Err(FileFault::out_of_memory()),
        Err(DecodeError::Utf8(_)) => Err(FileFault::input("the name isn't UTF-8")),
    }
}
