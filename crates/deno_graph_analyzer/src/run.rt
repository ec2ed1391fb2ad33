//! Runs of commands over an analyzer with a store.

ghost use Rattle.std.specs.Prelude.{◌≡◌, ◌+◌, ◌≤◌, ◌⊎◌, [], None, Err, IfOk, OnOk, OnErr};
ghost use Rattle.deno_graph_analyzer.specs.Captures.{IsSoundState};
ghost use Rattle.deno_graph_analyzer.specs.CapturingModuleAnalyzer.{parser_of, store_of, analyzer_state};
ghost use Rattle.deno_graph_analyzer.specs.Commands.{AreAnswers, misses, unmarked_at};
ghost use Rattle.deno_graph_analyzer.specs.Runs.{Runs, EndsEarly, with_error, Ran, RanOutOfMemory};
ghost use Rattle.deno_graph_analyzer.specs.Sources.{no_sources};

use crate::analyzer::{AnalyzeError, ModuleAnalyzer};
use crate::capturing::CapturingModuleAnalyzer;
use crate::parser::{EsParser, ParseDiagnostic, ParseOptions};
use crate::store::ParsedSourceStore;
use deno_graph_base::values::TryClone;
use deno_graph_info::analysis::ModuleInfo;
use deno_graph_source::tree::{MediaType, ParsedSource};
use std::alloc::{AllocError, Global};
use std::rc::RcStr;
use url::Url;

/// A command to a [`CapturingModuleAnalyzer`].
#[derive(Debug, PartialEq, Eq, Drop)]
pub enum Command {
    /// Call `analyze_sync`.
    Analyze {
        specifier: Url,
        source: RcStr,
        media_type: MediaType,
    },
    /// Call `parse_program`.
    Parse {
        specifier: Url,
        source: RcStr,
        media_type: MediaType,
        scope_analysis: bool,
    },
    /// Call `remove_parsed_source`.
    Remove {
        specifier: Url,
    },
}

impl Command {
    ghost use Rattle.deno_graph_analyzer.specs.Commands.{IsCommand};

    /// Returns an equal command, which shares the text. Returns an error if an allocation fails.
    pub fn try_clone(&self, _alloc: Global) -> Result<Command, AllocError>
        ensures { IfOk result (IsCommand self.now) }
    {
        Ok(match self {
            Command::Analyze {
                specifier,
                source,
                media_type,
            } => Command::Analyze {
                specifier: specifier.clone()?,
                source: source.clone()?,
                media_type: *media_type,
            },
            Command::Parse {
                specifier,
                source,
                media_type,
                scope_analysis,
            } => Command::Parse {
                specifier: specifier.clone()?,
                source: source.clone()?,
                media_type: *media_type,
                scope_analysis: *scope_analysis,
            },
            Command::Remove { specifier } => Command::Remove {
                specifier: specifier.clone()?,
            },
        })
    }
}

/// The result of the command of this name, other than out of memory.
#[derive(Debug, PartialEq, Eq, Drop)]
pub enum Answer {
    Analyzed(Result<ModuleInfo, ParseDiagnostic>),
    Parsed(Result<ParsedSource, ParseDiagnostic>),
    /// The removed source, if there was one.
    Removed(Option<ParsedSource>),
}

impl TryClone for Answer {
    fn try_clone(&self, alloc: Global) -> Result<Answer, AllocError> {
        match self {
            Answer::Analyzed(Ok(info)) => Ok(Answer::Analyzed(Ok(info.try_clone(alloc)?))),
            Answer::Analyzed(Err(diagnostic)) => {
                Ok(Answer::Analyzed(Err(diagnostic.try_clone(alloc)?)))
            }
            Answer::Parsed(Ok(source)) => Ok(Answer::Parsed(Ok(source.try_clone(alloc)?))),
            Answer::Parsed(Err(diagnostic)) => {
                Ok(Answer::Parsed(Err(diagnostic.try_clone(alloc)?)))
            }
            Answer::Removed(found) => Ok(Answer::Removed(found.try_clone(alloc)?)),
        }
    }
}

/// Carries out the commands in order, each by the call of its name, and returns one answer for each
/// command. A diagnostic is an answer, and doesn't stop the run.
///
/// With a sound parser and an empty store at the start, each answer is what the parser alone would
/// return, except for the mark of analyzed scopes. The answer to a `Remove` is the source of the last
/// successful `Analyze` or `Parse` of its specifier since the last `Remove` of the specifier. The
/// parser is called at most once for each `Analyze` or `Parse` whose specifier had no successful
/// command since its last `Remove`, or whose last successful command had another text or media type.
///
/// Returns an error if an allocation fails. The capacity for the answers is reserved first: if that
/// fails, no command has run. Otherwise all commands before the failed command have run.
pub fn run<P: EsParser, S: ParsedSourceStore>(
    alloc: Global,
    analyzer: &mut CapturingModuleAnalyzer<P, S>,
    commands: &[Command],
) -> Result<Vec<Answer>, AllocError>
    ensures ran { IfOk result (λ answers. Runs P.parses P.count P.is_sound P.may_return
        (analyzer_state S.sources analyzer.old) commands.now answers.items
        (analyzer_state S.sources analyzer.new)) }
    ensures out_of_memory { OnErr result ((analyzer.new ≡ analyzer.old)
        ⊎ EndsEarly P.parses P.count P.is_sound P.may_return
        (analyzer_state S.sources analyzer.old) commands.now (analyzer_state S.sources analyzer.new)) }
    ensures function { P.parses (parser_of analyzer.new) ≡ P.parses (parser_of analyzer.old) }

    // A sound state stays sound, after an error too, and each answer is that of the parser alone.
    ensures sound { IsSoundState P.parses P.is_sound (analyzer_state S.sources analyzer.old)
        → IsSoundState P.parses P.is_sound (analyzer_state S.sources analyzer.new) }
    ensures replies { IsSoundState P.parses P.is_sound (analyzer_state S.sources analyzer.old)
        → IfOk result (λ answers. AreAnswers (P.parses (parser_of analyzer.old))
        (unmarked_at (S.sources (store_of analyzer.old))) [] commands.now answers.items) }
    // The parser is called at most once for each miss.
    ensures counted { IsSoundState P.parses P.is_sound (analyzer_state S.sources analyzer.old)
        → OnOk result (P.count (parser_of analyzer.new) ≤ P.count (parser_of analyzer.old)
        + misses (P.parses (parser_of analyzer.old))
        (unmarked_at (S.sources (store_of analyzer.old))) [] commands.now) }

    // With an empty store the state is sound.
    ensures sound_from_empty { P.is_sound (parser_of analyzer.old)
        → S.sources (store_of analyzer.old) ≡ no_sources
        → IsSoundState P.parses P.is_sound (analyzer_state S.sources analyzer.new) }
    ensures from_empty { P.is_sound (parser_of analyzer.old)
        → S.sources (store_of analyzer.old) ≡ no_sources
        → IfOk result (λ answers. AreAnswers (P.parses (parser_of analyzer.old)) (λ _. None)
        [] commands.now answers.items) }
    ensures counted_from_empty { P.is_sound (parser_of analyzer.old)
        → S.sources (store_of analyzer.old) ≡ no_sources
        → OnOk result (P.count (parser_of analyzer.new) ≤ P.count (parser_of analyzer.old)
        + misses (P.parses (parser_of analyzer.old)) (λ _. None) [] commands.now) }
{
    run_each(alloc, analyzer, commands)
}

/// Carries out each command. The laws about whole runs are on [`run`].
fn run_each<P: EsParser, S: ParsedSourceStore>(
    alloc: Global,
    analyzer: &mut CapturingModuleAnalyzer<P, S>,
    commands: &[Command],
) -> Result<Vec<Answer>, AllocError>
    ensures ran { IfOk result (λ answers. Runs P.parses P.count P.is_sound P.may_return
        (analyzer_state S.sources analyzer.old) commands.now answers.items
        (analyzer_state S.sources analyzer.new)) }
    ensures out_of_memory { OnErr result ((analyzer.new ≡ analyzer.old)
        ⊎ EndsEarly P.parses P.count P.is_sound P.may_return
        (analyzer_state S.sources analyzer.old) commands.now (analyzer_state S.sources analyzer.new)) }
{
    let mut answers = Vec::with_capacity(alloc, commands.len())?;
    for command in commands {
        let answer = carry_out(alloc, analyzer, command)?;
        answers.push(answer)?;
    }
    Ok(answers)
}

/// Carries out one command. Returns an error if an allocation fails.
fn carry_out<P: EsParser, S: ParsedSourceStore>(
    alloc: Global,
    analyzer: &mut CapturingModuleAnalyzer<P, S>,
    command: &Command,
) -> Result<Answer, AllocError>
    ensures ran { IfOk result (λ answer. Ran P.parses P.count P.is_sound P.may_return
        (analyzer_state S.sources analyzer.old) command.now answer
        (analyzer_state S.sources analyzer.new)) }
    ensures out_of_memory { OnErr result (RanOutOfMemory P.parses P.count P.is_sound P.may_return
        (analyzer_state S.sources analyzer.old) command.now (analyzer_state S.sources analyzer.new)) }
{
    match command {
        Command::Analyze {
            specifier,
            source,
            media_type,
        } => {
            let source = source.clone()?;
            let outcome = analyzer.analyze_sync(alloc, specifier, source, *media_type);
            Ok(Answer::Analyzed(split_alloc_error(outcome)?))
        }
        Command::Parse {
            specifier,
            source,
            media_type,
            scope_analysis,
        } => {
            let options = ParseOptions {
                specifier,
                source: source.clone()?,
                media_type: *media_type,
                scope_analysis: *scope_analysis,
            };
            let outcome = analyzer.parse_program(alloc, options);
            let outcome = outcome.map_err(|error| AnalyzeError::from(error));
            Ok(Answer::Parsed(split_alloc_error(outcome)?))
        }
        Command::Remove { specifier } => {
            let found = analyzer.remove_parsed_source(alloc, specifier)?;
            Ok(Answer::Removed(found))
        }
    }
}

/// Returns out of memory as the outer error, and a diagnostic as the inner error.
fn split_alloc_error<T>(
    outcome: Result<T, AnalyzeError>,
) -> Result<Result<T, ParseDiagnostic>, AllocError>
    ensures ok { IfOk result (λ answer. outcome ≡ with_error (λ d. AnalyzeError.Parse d) answer) }
    ensures out_of_memory { OnErr result (outcome ≡ Err AnalyzeError.OutOfMemory) }
{
    match outcome {
        Ok(answer) => Ok(Ok(answer)),
        Err(AnalyzeError::Parse(diagnostic)) => Ok(Err(diagnostic)),
        Err(AnalyzeError::OutOfMemory) => Err(AllocError),
    }
}
