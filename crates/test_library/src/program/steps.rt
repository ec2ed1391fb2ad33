//! A walk, step by step.

use crate::program::documents::source_of;
use deno_graph_analysis::dep::Walk;
use std::process::Abort;

/// `import(require("a"))`
const CALL_IN_A_CALL: &str = r#"{"mediaType":"JavaScript","program":{"body":[
    {"kind":"Call","range":[0,20],"callee":"import","args":[{"range":[7,19]}],"children":[
        {"kind":"Call","range":[7,19],"callee":"expr","args":[{"range":[15,18]}],"children":[
            {"kind":"Ident","range":[7,14],"value":"require"},
            {"kind":"Str","range":[15,18],"value":"a"}]}]}
],"range":[0,20]},"source":"import(require(\"a\"))","specifier":"file:///a.js"}"#;

/// `import("a").B<import("b")>`
const TYPE_IN_A_TYPE: &str = r#"{"mediaType":"TypeScript","program":{"body":[
    {"kind":"ImportType","range":[0,26],"arg":{"value":"a","range":[7,10]},"children":[
        {"kind":"ImportType","range":[14,25],"arg":{"value":"b","range":[21,24]}}]}
],"range":[0,26]},"source":"import(\"a\").B<import(\"b\")>","specifier":"file:///a.ts"}"#;

/// A shebang, and nothing after.
const SHEBANG: &str =
    r##"{"mediaType":"JavaScript","program":{"body":[],"range":[0,5],"shebang":true},
    "source":"#!/a\n","specifier":"file:///a.js"}"##;

/// For each step the start of the returned node, if there is one, and the number of nodes entered so
/// far.
fn assert_steps(
    rt: &(impl AllocGlobal + Abort),
    document: &str,
    expected: &[(Option<usize>, u64)],
) {
    let source = source_of(rt, document);
    let mut walk = Walk::new(rt.alloc(), source.program());
    assert_eq!(rt; walk.entered(), 0);
    for (start, entered) in expected {
        let node = walk.step().expect(rt, "memory");
        assert_eq!(rt; node.map(|node| node.range.start), *start);
        assert_eq!(rt; walk.entered(), *entered);
    }
    assert!(rt; walk.program() == source.program());
}

#[test]
fn a_call_comes_after_what_is_inside_it(rt: HostRuntime) {
    let steps = [(Some(7), 4), (Some(0), 4), (None, 4), (None, 4)];
    assert_steps(&rt, CALL_IN_A_CALL, &steps);
}

#[test]
fn other_nodes_come_before_what_is_inside_them(rt: HostRuntime) {
    let steps = [(Some(0), 1), (Some(14), 2), (None, 2)];
    assert_steps(&rt, TYPE_IN_A_TYPE, &steps);
}

#[test]
fn a_walk_keeps_the_shebang_of_its_program(rt: HostRuntime) {
    assert_steps(&rt, SHEBANG, &[(None, 0)]);
    for (document, has_shebang) in [(SHEBANG, true), (CALL_IN_A_CALL, false)] {
        let source = source_of(&rt, document);
        let walk = Walk::new(rt.alloc(), source.program());
        assert_eq!(rt; walk.program().has_shebang, has_shebang);
    }
}
