ghost use Rattle.std.specs.Prelude.{◌≡◌, ◌++◌, ℕ, Bool, codes, List, IfSome, IsTrue, map, if◌then◌else◌};
ghost use Rattle.std.specs.Prelude.{IsSomeAnd, MatchResult, None};
ghost use Rattle.std.specs.Io.KnownBytes.{Appends, Keeps};
ghost use Rattle.modinfo.specs.CommandLine.{asks_for};
ghost use Rattle.modinfo.specs.Fault.{IsWriteFault};
ghost use Rattle.modinfo.specs.Help.{help_on};
ghost use Rattle.modinfo.specs.Lines.{IsLinesRun, LeavesFirstLines, LeavesLines};
ghost use Rattle.modinfo.specs.Run.{AppendsFront, IsDocumentRun, IsRunFault, IsTextRun, IsWrongRun, PrintsResult, error_line};
ghost use Rattle.modinfo.specs.internal.Run.{Leaves, LeavesFault};

use crate::command::{Command, Printed};
use crate::command_line::{CommandLine, Names};
use crate::fault::Fault;
use crate::help::{
    ANALYZE_HELP, CHECK_HELP, CONVERT_HELP, FILES_HELP, HELP, REACH_HELP, USAGE, VERSION, help_on,
};
use crate::input::read_to_end;
use crate::lines::run_lines;
use crate::output::{print, print_fault, print_line};
use std::alloc::Global;
use std::io::{Read, Write};

/// Runs the program, and returns the exit status. `words` are the arguments after the program's name,
/// which `--help` describes.
///
/// - Status 0: the help, the version or the result was printed to `output`.
/// - Status 1: there was a fault. `errors` gets a line with its name, and `output` nothing, or a
///   beginning of the line if a write failed. `errors` gets no line if the write failed since the reader
///   of the output ended. A check whose document has a fault, or with `--strict` a warning, prints its
///   report and has status 1.
/// - Status 2: wrong arguments, or those of `files`, which only `serve_files` runs. `errors` gets a line on
///   the usage, and `output` nothing.
///
/// With `--lines` each line of the input is a document, for which one line is printed; only a failed
/// read, write or allocation ends the run. A failed write to `errors` is ignored.
pub fn serve<R: Read, W: Write, E: Write>(
    alloc: Global,
    words: &[&str],
    input: &mut R,
    output: &mut W,
    errors: &mut E,
) -> u8
    ensures help { IsTrue (asks_for CommandLine.Help (map (λ word. word.now) words.now))
        → IsTextRun (help_on HELP.now FILES_HELP.now ANALYZE_HELP.now CHECK_HELP.now
        CONVERT_HELP.now REACH_HELP.now (map (λ word. word.now) words.now))
        (W.contents output.old) (W.contents output.new)
        (E.contents errors.old) (E.contents errors.new) result }
    ensures version { IsTrue (asks_for CommandLine.Version (map (λ word. word.now) words.now))
        → IsTextRun VERSION.now (W.contents output.old) (W.contents output.new)
        (E.contents errors.old) (E.contents errors.new) result }
    ensures document { (command : Command)
        → IsTrue (asks_for (CommandLine.Document command) (map (λ word. word.now) words.now))
        → IsDocumentRun command (R.remaining input.old) (W.contents output.old) (W.contents output.new)
        (E.contents errors.old) (E.contents errors.new) result }
    ensures lines { (command : Command)
        → IsTrue (asks_for (CommandLine.Lines command) (map (λ word. word.now) words.now))
        → IsLinesRun command (R.remaining input.old) (W.contents output.old) (W.contents output.new)
        (E.contents errors.old) (E.contents errors.new) result }
    ensures files { (names : Names)
        → IsTrue (asks_for (CommandLine.Files names) (map (λ word. word.now) words.now))
        → IsWrongRun USAGE.now (W.contents output.old) (W.contents output.new)
        (E.contents errors.old) (E.contents errors.new) result }
    ensures wrong { ((line : CommandLine) → ¬ IsTrue (asks_for line (map (λ word. word.now) words.now)))
        → IsWrongRun USAGE.now (W.contents output.old) (W.contents output.new)
        (E.contents errors.old) (E.contents errors.new) result }
{
    let Some(command_line) = CommandLine::from_words(words) else {
        return print_usage(errors);
    };
    let Some(ran) = run_command_line(alloc, command_line, help_on(words), input, output) else {
        return print_usage(errors);
    };
    match ran {
        Ok(passes) => status_of(passes),
        Err(fault) => {
            print_fault(errors, &fault);
            1
        }
    }
}

/// Prints the usage, and returns the exit status of wrong words.
pub(crate) fn print_usage<E: Write>(errors: &mut E) -> u8
    ensures { (result ≡ 2) × AppendsFront (E.contents errors.old) (E.contents errors.new) (USAGE.now ++ codes "\n") }
{
    print_line(errors, USAGE);
    2
}

/// The exit status of a run that printed its result.
fn status_of(passes: bool) -> u8
    ensures { result ≡ (if passes then 0 else 1) }
{
    if passes { 0 } else { 1 }
}

/// Runs a command line, where `help` is the text for `Help`, and returns whether its checks passed; true
/// without a check. `None` for `files`, which isn't run.
fn run_command_line<R: Read, W: Write>(
    alloc: Global,
    command_line: CommandLine,
    help: &str,
    input: &mut R,
    output: &mut W,
) -> Option<Result<bool, Fault>>
    ensures help { command_line ≡ CommandLine.Help → IsSomeAnd result (λ ran. MatchResult ran
        (Leaves (λ passes line. IsTrue passes × (line ≡ help.now))
        (W.contents output.old) (W.contents output.new))
        (LeavesFault (λ passes line. IsTrue passes × (line ≡ help.now)) IsWriteFault
        (W.contents output.old) (W.contents output.new))) }
    ensures version { command_line ≡ CommandLine.Version → IsSomeAnd result (λ ran. MatchResult ran
        (Leaves (λ passes line. IsTrue passes × (line ≡ VERSION.now)) (W.contents output.old) (W.contents output.new))
        (LeavesFault (λ passes line. IsTrue passes × (line ≡ VERSION.now)) IsWriteFault
        (W.contents output.old) (W.contents output.new))) }
    ensures document { (command : Command) → command_line ≡ CommandLine.Document command
        → IsSomeAnd result (λ ran. (document : List ℕ)
        × IfSome (R.remaining input.old) (λ left. document ≡ left)
        × MatchResult ran
        (Leaves (PrintsResult command document) (W.contents output.old) (W.contents output.new))
        (LeavesFault (PrintsResult command document) (IsRunFault command document)
        (W.contents output.old) (W.contents output.new))) }
    ensures lines { (command : Command) → command_line ≡ CommandLine.Lines command
        → IsSomeAnd result (λ ran. MatchResult ran
        (LeavesLines command (R.remaining input.old) (W.contents output.old) (W.contents output.new))
        (LeavesFirstLines command (R.remaining input.old) (W.contents output.old) (W.contents output.new))) }
    ensures files { (names : Names) → command_line ≡ CommandLine.Files names → result ≡ None }
    ensures unchanged { result ≡ None → Keeps (W.contents output.old) (W.contents output.new) }
{
    match command_line {
        CommandLine::Help => Some(print_text(output, help)),
        CommandLine::Version => Some(print_text(output, VERSION)),
        CommandLine::Document(command) => Some(run_document(alloc, command, input, output)),
        CommandLine::Lines(command) => Some(run_lines(alloc, command, input, output)),
        CommandLine::Files(_) => None,
    }
}

/// Reads the input, which is one document, and prints one line. Returns whether its check passed; true
/// without a check.
fn run_document<R: Read, W: Write>(
    alloc: Global,
    command: Command,
    input: &mut R,
    output: &mut W,
) -> Result<bool, Fault>
    ensures { (document : List ℕ) × IfSome (R.remaining input.old) (λ left. document ≡ left)
        × MatchResult result
        (Leaves (PrintsResult command document) (W.contents output.old) (W.contents output.new))
        (LeavesFault (PrintsResult command document) (IsRunFault command document)
        (W.contents output.old) (W.contents output.new)) }
{
    let document = read_to_end(alloc, input)?;
    let Printed {
        mut line,
        is_passed,
    } = command.print_bytes(alloc, document)?;
    line.push('\n')?;
    print(output, line.as_bytes())?;
    Ok(is_passed)
}

/// Prints a text of the program about itself. Returns true.
fn print_text<W: Write>(output: &mut W, text: &str) -> Result<bool, Fault>
    ensures { MatchResult result
        (Leaves (λ passes line. IsTrue passes × (line ≡ text.now)) (W.contents output.old) (W.contents output.new))
        (LeavesFault (λ passes line. IsTrue passes × (line ≡ text.now)) IsWriteFault
        (W.contents output.old) (W.contents output.new)) }
{
    print(output, text.as_bytes())?;
    Ok(true)
}
