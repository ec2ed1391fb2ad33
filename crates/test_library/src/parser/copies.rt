//! Tests of `try_clone` of commands, options, scans, answers and errors.

use crate::parser::sources::{Plan, U, analyze, commands, parsed, shared, url};
use deno_graph_analysis::ast::{
    AnalyzeError, Answer, Command, ParseDiagnostic, ParseError, ParseOptions,
};
use deno_graph_analysis::jsdoc::scan;
use deno_graph_source::text::Position;
use deno_graph_source::tree::MediaType;
use deno_graph_source::values::{Text, TryClone};
use std::process::Abort;

#[test]
fn commands_are_copied(rt: HostRuntime) {
    let plans = [
        analyze(U, "a"),
        Plan::Parse(U, "a", true),
        Plan::Parse(U, "a", false),
        Plan::Remove(U),
    ];
    let commands = commands(&rt, &plans);
    for (number, command) in commands.iter().enumerate() {
        let copy = command.try_clone(rt.alloc()).expect(&rt, "memory");
        assert_only(&rt, &copy, number, &commands);
    }
}

/// Asserts that the command is equal to the command with this number, and to no other.
fn assert_only(rt: &impl Abort, command: &Command, number: usize, commands: &[Command]) {
    for (other_number, other) in commands.iter().enumerate() {
        assert_eq!(rt; command == other, number == other_number);
    }
}

#[test]
fn options_are_copied(rt: HostRuntime) {
    let options = ParseOptions {
        specifier: &url(&rt, U),
        source: shared(&rt, "a"),
        media_type: MediaType::Tsx,
        scope_analysis: true,
    };
    let copy = options.try_clone(rt.alloc()).expect(&rt, "memory");
    assert!(rt; copy == options);
}

#[test]
fn scans_are_copied(rt: HostRuntime) {
    let text = "* {import('a')} @import b from 'c'";
    let found = scan(rt.alloc(), text).expect(&rt, "memory");
    let copy = found.try_clone(rt.alloc()).expect(&rt, "memory");
    assert_eq!(rt; copy.imports.len(), 2);
    assert!(rt; copy == found);
}

/// Asserts that a copy is equal to the value.
fn assert_copied<T: TryClone + PartialEq + Drop>(rt: &(impl AllocGlobal + Abort), value: T) {
    let copy = value.try_clone(rt.alloc()).expect(rt, "memory");
    assert!(rt; copy == value);
}

fn diagnostic(rt: &(impl AllocGlobal + Abort)) -> ParseDiagnostic {
    ParseDiagnostic {
        message: Text::from_str(rt.alloc(), "unknown text").expect(rt, "memory"),
        position: Position::new(1, 2),
    }
}

#[test]
fn answers_are_copied(rt: HostRuntime) {
    assert_copied(&rt, Answer::Parsed(Err(diagnostic(&rt))));
    assert_copied(&rt, Answer::Parsed(Ok(parsed(&rt, "a"))));
    assert_copied(&rt, Answer::Analyzed(Err(diagnostic(&rt))));
    assert_copied(&rt, Answer::Removed(Some(parsed(&rt, "a"))));
    assert_copied(&rt, Answer::Removed(None));
}

#[test]
fn errors_are_copied(rt: HostRuntime) {
    assert_copied(&rt, diagnostic(&rt));
    assert_copied(
        &rt,
        AnalyzeError::from(ParseError::Diagnostic(diagnostic(&rt))),
    );
    assert_copied(&rt, ParseError::Diagnostic(diagnostic(&rt)));
}
