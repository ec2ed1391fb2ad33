//! Runs of commands.

use crate::case_error::CaseError;
use crate::failed_allocations::outcome::{Outcome, check};
use crate::failed_allocations::sources::{U, V, options, parser, source, url};
use deno_graph_analysis::ast::{
    Answer, CapturingModuleAnalyzer, Command, DefaultParsedSourceStore, EsParser,
    ParsedSourceStore, run,
};
use deno_graph_source::tree::MediaType;
use example_table_parser::TableParser;
use std::alloc::{AllocError, Global};
use std::cell::Cell;
use std::rc::{Rc, RcStr};
use url::Url;

/// The number of calls of the parser, and the texts of the sources under `U` and `V`.
type State = (u64, Option<&'static str>, Option<&'static str>);

/// The kind of a command.
#[derive(Clone, Copy)]
enum Action {
    Analyze,
    Parse { scope_analysis: bool },
    Remove,
}

const PARSE: Action = Action::Parse {
    scope_analysis: false,
};

const PARSE_WITH_SCOPES: Action = Action::Parse {
    scope_analysis: true,
};

/// The data of a command: kind, specifier and text. `Remove` has no text.
type Planned = (Action, &'static str, &'static str);

/// The first two commands find a stored source, the third returns a diagnostic and stores nothing,
/// and the others change the source of each specifier.
const COMMANDS: [Planned; 7] = [
    (Action::Analyze, V, "b"),
    (Action::Analyze, U, "c"),
    (PARSE_WITH_SCOPES, U, "x"),
    (Action::Remove, V, ""),
    (PARSE_WITH_SCOPES, U, "a"),
    (PARSE, V, "b"),
    (Action::Remove, U, ""),
];

/// The states after each command, and those in the middle of a command.
const STATES: [State; 10] = [
    START,
    (1, Some("c"), None),
    (1, Some("c"), Some("b")),
    (2, Some("c"), Some("b")),
    (2, Some("c"), None),
    (3, Some("c"), None),
    (3, Some("a"), None),
    (4, Some("a"), None),
    (4, Some("a"), Some("b")),
    END,
];

const START: State = (0, Some("c"), None);

const END: State = (4, None, Some("b"));

/// An analyzer, and what is needed to read its state.
#[derive(Drop)]
struct Tested {
    analyzer: CapturingModuleAnalyzer<TableParser, DefaultParsedSourceStore>,
    calls: Rc<Cell<u64>>,
    u: Url,
    v: Url,
}

impl Tested {
    fn new(alloc: Global) -> Result<Tested, CaseError> {
        let calls = Rc::new(alloc, Cell::new(0))?;
        let u = url(alloc, U)?;
        let v = url(alloc, V)?;
        let parser = parser(alloc, &calls)?;
        let store = DefaultParsedSourceStore::new(alloc);
        Ok(Tested {
            analyzer: CapturingModuleAnalyzer::new(parser, store),
            calls,
            u,
            v,
        })
    }

    /// Stores a source under `U` whose text the parser doesn't know.
    fn store_another(&mut self, alloc: Global) -> Result<(), CaseError> {
        let specifier = self.u.clone()?;
        let source = source(alloc, U, "c")?;
        drop(self.analyzer.set_parsed_source(alloc, specifier, source)?);
        Ok(())
    }

    /// Parses `b` under `V` by the capturing parser of the analyzer, and then runs the commands.
    fn carry_out(&mut self, alloc: Global, commands: &[Command]) -> Result<Vec<Answer>, CaseError> {
        let options = options(alloc, &self.v, "b", false)?;
        drop(
            self.analyzer
                .as_capturing_parser()
                .parse_program(alloc, options)?,
        );
        Ok(self.run(alloc, commands)?)
    }

    /// Runs the commands. Has no contract, since no proof of a caller needs one.
    fn run(&mut self, alloc: Global, commands: &[Command]) -> Result<Vec<Answer>, AllocError> {
        run(alloc, &mut self.analyzer, commands)
    }

    /// Returns whether the analyzer is in one of the states. Allocates nothing.
    fn is_in(&self, alloc: Global, states: &[State]) -> Result<bool, AllocError> {
        for (calls, first, second) in states {
            if self.calls.get() == *calls
                && self.has_text(alloc, &self.u, *first)?
                && self.has_text(alloc, &self.v, *second)?
            {
                return Ok(true);
            }
        }
        Ok(false)
    }

    /// Returns whether the source under a specifier has this text, or there is no source if `text` is `None`.
    fn has_text(
        &self,
        alloc: Global,
        specifier: &Url,
        text: Option<&str>,
    ) -> Result<bool, AllocError> {
        let found = self.analyzer.get_parsed_source(alloc, specifier)?;
        Ok(match (&found, text) {
            (Some(source), Some(text)) => source.text().as_str() == text,
            (None, None) => true,
            _ => false,
        })
    }
}

/// Returns the answers of a run in which no allocation fails.
fn expected_answers(alloc: Global, commands: &[Command]) -> Result<Vec<Answer>, CaseError> {
    let mut fresh = Tested::new(alloc)?;
    carry_out_all(alloc, &mut fresh, commands)
}

fn carry_out_all(
    alloc: Global,
    fresh: &mut Tested,
    commands: &[Command],
) -> Result<Vec<Answer>, CaseError> {
    fresh.store_another(alloc)?;
    let answers = fresh.carry_out(alloc, commands)?;
    check(fresh.is_in(alloc, &[END])?, "a command didn't run")?;
    Ok(answers)
}

/// Runs the commands. Checks the answers, and that the state is one after some part of the commands.
fn run_once(
    alloc: Global,
    tested: &mut Tested,
    commands: &[Command],
    expected: &[Answer],
) -> Result<Outcome, CaseError> {
    let outcome = outcome_of(tested.carry_out(alloc, commands), expected)?;
    outcome.provided(
        tested.is_in(alloc, &STATES)?,
        "the state is not after a part of the commands",
    )
}

fn outcome_of(
    answers: Result<Vec<Answer>, CaseError>,
    expected: &[Answer],
) -> Result<Outcome, CaseError> {
    match answers {
        Ok(answers) => {
            Outcome::Returned.provided(answers.as_slice() == expected, "the answers differ")
        }
        Err(CaseError::OutOfMemory) => Ok(Outcome::OutOfMemory),
        Err(failure) => Err(failure),
    }
}

/// The commands before the failed command have run, the failed command in part, and none after it.
/// A second run returns the same answers as the first run of a new analyzer.
pub fn run_all(alloc: Global) -> Result<Outcome, CaseError> {
    let commands = commands(alloc, &COMMANDS)?;
    run_each(alloc, &commands)
}

fn run_each(alloc: Global, commands: &[Command]) -> Result<Outcome, CaseError> {
    let expected = expected_answers(alloc, commands)?;
    run_first(alloc, commands, &expected)
}

fn run_first(
    alloc: Global,
    commands: &[Command],
    expected: &[Answer],
) -> Result<Outcome, CaseError> {
    let mut tested = Tested::new(alloc)?;
    run_twice(alloc, &mut tested, commands, expected)
}

fn run_twice(
    alloc: Global,
    tested: &mut Tested,
    commands: &[Command],
    expected: &[Answer],
) -> Result<Outcome, CaseError> {
    tested.store_another(alloc)?;
    let outcome = run_once(alloc, tested, commands, expected)?;
    tested.store_another(alloc)?;
    let again = tested.carry_out(alloc, commands)?;
    outcome.provided(
        again.as_slice() == expected,
        "the answers of the second run differ",
    )
}

/// A run that allocates only the capacity for its answer: if that fails, no command has run.
pub fn run_without_room(alloc: Global) -> Result<Outcome, CaseError> {
    let commands = commands(alloc, &[(Action::Remove, U, "")])?;
    let mut tested = Tested::new(alloc)?;
    run_one(alloc, &mut tested, &commands)
}

fn run_one(alloc: Global, tested: &mut Tested, commands: &[Command]) -> Result<Outcome, CaseError> {
    tested.store_another(alloc)?;
    let (outcome, state) = match tested.run(alloc, commands) {
        Ok(_) => (Outcome::Returned, (0, None, None)),
        Err(_) => (Outcome::OutOfMemory, START),
    };
    outcome.provided(
        tested.is_in(alloc, &[state])?,
        "a command ran without capacity",
    )
}

fn commands(alloc: Global, planned: &[Planned]) -> Result<Vec<Command>, CaseError> {
    let mut commands = Vec::new(alloc);
    for (action, specifier, text) in planned {
        commands.push(command(alloc, *action, specifier, text)?)?;
    }
    Ok(commands)
}

fn command(
    alloc: Global,
    action: Action,
    specifier: &str,
    text: &str,
) -> Result<Command, CaseError> {
    let specifier = url(alloc, specifier)?;
    let source = RcStr::from_str(alloc, text)?;
    let media_type = MediaType::JavaScript;
    Ok(match action {
        Action::Analyze => Command::Analyze {
            specifier,
            source,
            media_type,
        },
        Action::Parse { scope_analysis } => Command::Parse {
            specifier,
            source,
            media_type,
            scope_analysis,
        },
        Action::Remove => Command::Remove { specifier },
    })
}
