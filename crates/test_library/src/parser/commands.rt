use crate::parser::sources::{
    Plan, U, V, analyze, commands, counter, parsed, parser, source_with, url,
};
use deno_graph_analysis::ast::{
    Answer, CapturingModuleAnalyzer, DefaultParsedSourceStore, ParsedSourceStore, run,
};
use deno_graph_info::analysis::{DependencyDescriptor, ModuleInfo};
use deno_graph_source::tree::MediaType;
use deno_graph_source::values::Items;
use std::process::Abort;

/// Returns the specifier that a module imports, or `s` for a script.
fn imported(info: &ModuleInfo) -> &str {
    let Some(DependencyDescriptor::Static(import)) = info.dependencies.first() else {
        return "s";
    };
    import.specifier.as_str()
}

/// Returns one letter per answer: the imported specifier, `s` for a script, `d` for a diagnostic,
/// `p` for a parsed source, `r` for a removed source, `n` if there was none to remove.
fn letters(rt: &(impl AllocGlobal + Abort), answers: &[Answer]) -> String {
    let mut letters = String::new(rt.alloc());
    for answer in answers {
        letters.push_str(letter(answer)).expect(rt, "memory");
    }
    letters
}

fn letter(answer: &Answer) -> &str {
    match answer {
        Answer::Analyzed(Ok(info)) => imported(info),
        Answer::Analyzed(Err(_)) | Answer::Parsed(Err(_)) => "d",
        Answer::Parsed(Ok(_)) => "p",
        Answer::Removed(Some(_)) => "r",
        Answer::Removed(None) => "n",
    }
}

/// Runs commands over a store. Returns the answers and the number of calls of the parser.
fn answers(
    rt: &(impl AllocGlobal + Abort),
    store: DefaultParsedSourceStore,
    plans: &[Plan],
) -> (Vec<Answer>, u64) {
    let calls = counter(rt);
    let mut analyzer = CapturingModuleAnalyzer::new(parser(rt, &calls), store);
    let commands = commands(rt, plans);
    let answers = run(rt.alloc(), &mut analyzer, &commands).expect(rt, "memory");
    (answers, calls.get())
}

fn empty(rt: &(impl AllocGlobal + Abort)) -> DefaultParsedSourceStore {
    DefaultParsedSourceStore::new(rt.alloc())
}

/// Asserts the letters of the answers and the number of calls of the parser.
fn assert_letters(
    rt: &(impl AllocGlobal + Abort),
    store: DefaultParsedSourceStore,
    plans: &[Plan],
    expected: (&str, u64),
) {
    let (answers, calls) = answers(rt, store, plans);
    let letters = letters(rt, &answers);
    assert_eq!(rt; (letters.as_str(), calls), expected);
}

const FROM_AN_EMPTY_STORE: [Plan; 5] = [
    Plan::Analyze(U, "a", MediaType::JavaScript),
    Plan::Analyze(U, "a", MediaType::JavaScript),
    Plan::Analyze(U, "b", MediaType::JavaScript),
    Plan::Remove(U),
    Plan::Analyze(U, "b", MediaType::JavaScript),
];

#[test]
fn runs_from_an_empty_store(rt: HostRuntime) {
    assert_letters(&rt, empty(&rt), &FROM_AN_EMPTY_STORE, ("aabrb", 3));
}

#[test]
fn the_source_that_was_parsed_last_is_removed(rt: HostRuntime) {
    let (answers, _) = answers(&rt, empty(&rt), &FROM_AN_EMPTY_STORE);
    assert_removed(&rt, answers.get(3));
}

/// Asserts that the answer is the removed source of `b`.
fn assert_removed(rt: &(impl AllocGlobal + Abort), answer: Option<&Answer>) {
    let Some(Answer::Removed(Some(source))) = answer else {
        assert!(rt; false);
        return;
    };
    assert!(rt; *source == parsed(rt, "b"));
}

const W: &str = "file:///w.js";

const OF_ONE_TEXT: [Plan; 8] = [
    Plan::Analyze(U, "a", MediaType::JavaScript),
    Plan::Analyze(V, "a", MediaType::JavaScript),
    Plan::Analyze(V, "a", MediaType::TypeScript),
    Plan::Analyze(V, "x", MediaType::JavaScript),
    Plan::Analyze(V, "a", MediaType::TypeScript),
    Plan::Analyze(W, "a", MediaType::JavaScript),
    Plan::Analyze(U, "a", MediaType::TypeScript),
    Plan::Remove(W),
];

/// A text is parsed again under another specifier or media type. A diagnostic doesn't stop the run,
/// and is not stored.
#[test]
fn one_text_has_several_sources(rt: HostRuntime) {
    assert_letters(&rt, empty(&rt), &OF_ONE_TEXT, ("avtdtddn", 6));
}

#[test]
fn a_run_parses_with_scopes_or_without(rt: HostRuntime) {
    let plans = [
        Plan::Parse(U, "a", false),
        Plan::Parse(U, "x", true),
        Plan::Parse(U, "a", false),
    ];
    let (answers, calls) = answers(&rt, empty(&rt), &plans);
    assert_eq!(rt; calls, 2);
    assert_parsed(&rt, answers.as_slice());
}

/// Asserts that the answers are the source of `a`, a diagnostic, and the source with its mark.
fn assert_parsed(rt: &(impl AllocGlobal + Abort), answers: &[Answer]) {
    let [
        Answer::Parsed(Ok(first)),
        Answer::Parsed(Err(_)),
        Answer::Parsed(Ok(last)),
    ] = answers
    else {
        assert!(rt; false);
        return;
    };
    assert!(rt; *first == parsed(rt, "a"));
    assert!(rt; *last == parsed(rt, "a").into_with_scope_analysis());
}

/// Returns a store with a source of `a` that imports nothing, which the parser would not return.
fn store_with_a_source_of_the_caller(rt: &(impl AllocGlobal + Abort)) -> DefaultParsedSourceStore {
    let mut store = empty(rt);
    let source = source_with(rt, U, "a", MediaType::JavaScript, Items::new(rt.alloc()));
    let before = store.set_parsed_source(rt.alloc(), url(rt, U), source);
    assert!(rt; matches!(&before, Ok(None)));
    store
}

#[test]
fn a_source_of_the_caller_is_returned_until_the_text_changes(rt: HostRuntime) {
    let plans = [analyze(U, "a"), analyze(U, "b"), analyze(U, "a")];
    assert_letters(
        &rt,
        store_with_a_source_of_the_caller(&rt),
        &plans,
        ("sba", 2),
    );
}
