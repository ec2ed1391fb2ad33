//! Runs commands over a parser for which each line of a text is an import.
//!
//!     bench_program commands parse TURNS TEXTS SPECIFIERS LINES
//!         in each of TURNS turns, parses TEXTS texts of LINES lines under SPECIFIERS specifiers
//!     bench_program commands analyze TURNS TEXTS SPECIFIERS LINES
//!         analyzes the texts instead
//!     bench_program commands parse TURNS TEXTS SPECIFIERS LINES build
//!         makes the commands, and runs none
//!
//! With one text, the parser is called only for the first command of each specifier; with more
//! texts, for each command.

use crate::imports::{import, program};
use crate::words::number;
use anyhow::{Context, Result};
use deno_graph_analysis::ast::{
    self, CapturingModuleAnalyzer, Command, DefaultParsedSourceStore, EsParser, ParseError,
    ParseOptions,
};
use deno_graph_source::text::SourceRange;
use deno_graph_source::tree::{Comments, MediaType, ParsedSource, Program};
use deno_graph_source::values::Items;
use std::alloc::{AllocError, Global};
use std::cell::Cell;
use std::rc::{Rc, RcStr};
use url::Url;

pub fn run<R: AllocGlobal + Print>(rt: &R, words: &[&str]) -> Result<()> {
    let commands = commands_from(rt.alloc(), words)?;
    if words.get(5).is_none() {
        print_answers(rt, &commands)?;
    }
    Ok(())
}

fn commands_from(alloc: Global, words: &[&str]) -> Result<Vec<Command>> {
    let analyzes = *words.first().context("parse or analyze?")? == "analyze";
    let turns = number(words, 1)?;
    let texts = texts_of(alloc, number(words, 2)?, number(words, 4)?)?;
    let specifiers = specifiers_of(alloc, number(words, 3)?)?;
    Ok(commands_of(alloc, analyzes, turns, &texts, &specifiers)?)
}

fn print_answers<R: AllocGlobal + Print>(rt: &R, commands: &[Command]) -> Result<()> {
    let alloc = rt.alloc();
    let parsed = Rc::new(alloc, Cell::new(0))?;
    let parser = LineParser {
        parsed: parsed.clone()?,
    };
    let mut analyzer = CapturingModuleAnalyzer::new(parser, DefaultParsedSourceStore::new(alloc));
    let answers = ast::run(alloc, &mut analyzer, commands)?;
    println!(rt; "{} answers, {} parsed", answers.len(), parsed.get())?;
    Ok(())
}

/// A parser for which each line of a text is an import, with the line as its specifier.
#[derive(Drop)]
struct LineParser {
    /// The number of parsed texts.
    parsed: Rc<Cell<u64>>,
}

/// Has no outcomes and no promise: the benchmarks need none.
impl EsParser for LineParser {
    ghost use Rattle.std.specs.Prelude.{None};

    ghost parses = { λ it input. None };

    ghost count = { λ it. 0 };

    ghost is_sound = { λ it. ⊥ };

    fn parse_program(
        &mut self,
        alloc: Global,
        options: ParseOptions<'_>,
    ) -> Result<ParsedSource, ParseError> {
        self.parsed.set(self.parsed.get().saturating_add(1));
        let program = program_of(alloc, options.source.as_str())?;
        let made = ParsedSource::new(
            alloc,
            options.specifier.clone()?,
            options.source,
            options.media_type,
            program,
            Comments::new(alloc),
            options.scope_analysis,
        );
        match made {
            Ok(source) => Ok(source),
            Err(_fault) => Err(ParseError::OutOfMemory),
        }
    }
}

/// Returns a program with an import for each line of the text.
fn program_of(alloc: Global, text: &str) -> Result<Program, AllocError> {
    let mut body = Items::new(alloc);
    let mut start = 0_usize;
    for line in text.lines() {
        let end = start.saturating_add(line.len());
        let range = SourceRange::new(start, end);
        body.push(import(alloc, range, line, range)?)?;
        start = end.saturating_add(1);
    }
    Ok(program(text.len(), body))
}

/// Returns the commands: in each turn, each text under each specifier.
fn commands_of(
    alloc: Global,
    analyzes: bool,
    turns: usize,
    texts: &[RcStr],
    specifiers: &[Url],
) -> Result<Vec<Command>, AllocError> {
    let mut commands = Vec::new(alloc);
    for _ in 0..turns {
        for text in texts {
            for specifier in specifiers {
                commands.push(command(analyzes, specifier, text)?)?;
            }
        }
    }
    Ok(commands)
}

fn command(analyzes: bool, specifier: &Url, text: &RcStr) -> Result<Command, AllocError> {
    let specifier = specifier.clone()?;
    let source = text.clone()?;
    let media_type = MediaType::JavaScript;
    Ok(if analyzes {
        Command::Analyze {
            specifier,
            source,
            media_type,
        }
    } else {
        Command::Parse {
            specifier,
            source,
            media_type,
            scope_analysis: false,
        }
    })
}

/// Returns `count` texts of `lines` lines. All lines have one length, and the texts differ by a number.
fn texts_of(alloc: Global, count: usize, lines: usize) -> Result<Vec<RcStr>, AllocError> {
    let mut texts = Vec::new(alloc);
    for number in 0..count {
        let text = text_of(alloc, number, lines)?;
        texts.push(RcStr::from_str(alloc, text.as_str())?)?;
    }
    Ok(texts)
}

fn text_of(alloc: Global, number: usize, lines: usize) -> Result<String, AllocError> {
    let mut text = String::new(alloc);
    for line in 0..lines {
        let line = format!(in alloc; "./modules/{number:03}/{line:05}.ts\n")?;
        text.push_str(line.as_str())?;
    }
    Ok(text)
}

fn specifiers_of(alloc: Global, count: usize) -> Result<Vec<Url>> {
    let mut specifiers = Vec::new(alloc);
    for number in 0..count {
        let specifier = format!(in alloc; "file:///modules/{number}.js")?;
        specifiers.push(Url::parse(alloc, specifier.as_str())?)?;
    }
    Ok(specifiers)
}
