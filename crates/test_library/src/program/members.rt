//! `member_names` has the names of exactly the members that are read.

use deno_graph_json::{Element, Tape};
use json::Scratch;
use modinfo::document::{KINDS, ObjectKind, member_names, parse_document};
use std::process::Abort;

/// A document whose objects have all members that are read, each with a value other than the default.
/// Only the nodes in `children` have no children, and a key has one of its two members.
const DOCUMENT: &str = r#"{
"specifier":"file:///a.ts","mediaType":"TypeScript","source":"a",
"leading":[{"pos":0,"comments":[{"kind":"line","range":[0,0],"text":"a"}]}],
"trailing":[{"pos":1,"comments":[{"kind":"block","range":[0,1],"text":"b"}]}],
"program":{"range":[0,1],"shebang":true,"body":[
{"kind":"ImportDecl","range":[0,1],"children":[{"kind":"Other","range":[0,0]}],"typeOnly":true,
"phase":"defer","src":{"value":"a","range":[0,1]},"hasSpecifiers":true,"hasWith":true},
{"kind":"NamedExport","range":[0,1],"children":[{"kind":"Other","range":[0,0]}],"typeOnly":true,
"src":{"value":"a","range":[0,1]},"hasWith":true},
{"kind":"ExportAll","range":[0,1],"children":[{"kind":"Other","range":[0,0]}],"typeOnly":true,
"src":{"value":"a","range":[0,1]},"hasWith":true},
{"kind":"ExportOther","range":[0,1],"children":[{"kind":"Other","range":[0,0]}]},
{"kind":"ImportEquals","range":[0,1],"children":[{"kind":"Other","range":[0,0]}],"typeOnly":true,
"isExport":true,"external":{"value":"a","range":[0,1]}},
{"kind":"ImportType","range":[0,1],"children":[{"kind":"Other","range":[0,0]}],
"arg":{"value":"a","range":[0,1]},"hasWith":true},
{"kind":"ModuleDecl","range":[0,1],"children":[{"kind":"Other","range":[0,0]}],
"name":{"value":"a","range":[0,1]}},
{"kind":"Call","range":[0,1],"children":[{"kind":"Other","range":[0,0]}],"callee":"super",
"args":[{"range":[0,1],"spread":true}]},
{"kind":"Str","range":[0,1],"children":[{"kind":"Other","range":[0,0]}],"value":"a"},
{"kind":"Template","range":[0,1],"children":[{"kind":"Other","range":[0,0]}],"quasis":["a"]},
{"kind":"Binary","range":[0,1],"children":[{"kind":"Other","range":[0,0]}],"op":"add"},
{"kind":"Ident","range":[0,1],"children":[{"kind":"Other","range":[0,0]}],"value":"a"},
{"kind":"Object","range":[0,1],"children":[{"kind":"Other","range":[0,0]}]},
{"kind":"KeyValue","range":[0,1],"children":[{"kind":"Other","range":[0,0]}],"key":{"str":"a"}},
{"kind":"KeyValue","range":[0,1],"children":[{"kind":"Other","range":[0,0]}],"key":{"ident":"a"}},
{"kind":"Await","range":[0,1],"children":[{"kind":"Other","range":[0,0]}]},
{"kind":"Function","range":[0,1],"children":[{"kind":"Other","range":[0,0]}]},
{"kind":"ImportMeta","range":[0,1],"children":[{"kind":"Other","range":[0,0]}]},
{"kind":"Other","range":[0,1],"children":[{"kind":"Other","range":[0,0]}]}
]}}"#;

/// Stands after the name of each member, and nowhere else.
const AFTER_NAME: &str = "\":";

#[test]
fn each_member_is_read(rt: HostRuntime) {
    let read = read_of(&rt, DOCUMENT);
    assert!(rt; read.is_some());
    for number in 1..DOCUMENT.split(AFTER_NAME).count() {
        let found = read_of(&rt, with_renamed(&rt, number).as_str());
        assert!(rt; found != read, "the member {number}");
    }
}

/// The document with its member of this number, from 1, renamed.
fn with_renamed(rt: &(impl AllocGlobal + Abort), number: usize) -> String {
    let mut text = String::new(rt.alloc());
    for (index, part) in DOCUMENT.split(AFTER_NAME).enumerate() {
        if index == number {
            text.push('_').expect(rt, "memory");
        }
        if index > 0 {
            text.push_str(AFTER_NAME).expect(rt, "memory");
        }
        text.push_str(part).expect(rt, "memory");
    }
    text
}

/// The document of a text, if the text is one.
fn read_of(rt: &(impl AllocGlobal + Abort), text: &str) -> Option<String> {
    match parse_document(rt.alloc(), text) {
        Ok(document) => Some(format!(in rt.alloc(); "{document:?}").expect(rt, "memory")),
        Err(_) => None,
    }
}

#[test]
fn each_member_is_known(rt: HostRuntime) {
    let mut scratch = Scratch::new(rt.alloc());
    let tape = Tape::read(rt.alloc(), DOCUMENT, &mut scratch).expect(&rt, "it is JSON");
    let root = Some(tape.root());
    assert_members(&rt, ObjectKind::Document, root);
    for name in ["leading", "trailing"] {
        let entry = member(root, name).and_then(first);
        assert_members(&rt, ObjectKind::CommentEntry, entry);
        let comment = member(entry, "comments").and_then(first);
        assert_members(&rt, ObjectKind::Comment, comment);
    }
    let program = member(root, "program");
    assert_members(&rt, ObjectKind::Program, program);
    let body = member(program, "body").and_then(|body| body.elements());
    let Some(nodes) = body else {
        panic!(rt; "there is no body");
    };
    assert!(rt; nodes.len() == KINDS.len() + 1);
    for node in nodes {
        assert_node(&rt, Some(node));
    }
}

/// A node of the body, and its members except `children`.
fn assert_node(rt: &impl Abort, node: Option<Element<'_>>) {
    let kind = member(node, "kind").and_then(|kind| kind.as_str());
    let kind = kind.unwrap_or("");
    assert!(rt; KINDS.iter().any(|name| *name == kind), "the kind {kind}");
    assert_members(rt, ObjectKind::Node(kind), node);
    for name in ["src", "external", "arg", "name"] {
        if let Some(literal) = member(node, name) {
            assert_members(rt, ObjectKind::Literal, Some(literal));
        }
    }
    if let Some(args) = member(node, "args") {
        assert_members(rt, ObjectKind::Argument, first(args));
    }
    if let Some(key) = member(node, "key") {
        assert_named(rt, ObjectKind::Key, key);
    }
}

/// An object with each member of its kind, and no other.
fn assert_members(rt: &impl Abort, kind: ObjectKind<'_>, object: Option<Element<'_>>) {
    let Some(object) = object else {
        panic!(rt; "{kind:?} isn't there");
    };
    for name in member_names(kind) {
        assert!(rt;
            member(Some(object), name).is_some(),
            "{kind:?} has no {name}"
        );
    }
    assert_named(rt, kind, object);
}

fn assert_named(rt: &impl Abort, kind: ObjectKind<'_>, object: Element<'_>) {
    let Some(members) = object.members() else {
        panic!(rt; "{kind:?} is no object");
    };
    for (name, _) in members {
        let is_named = member_names(kind).iter().any(|member| *member == name);
        assert!(rt; is_named, "{kind:?} has {name}");
    }
}

fn member<'a>(object: Option<Element<'a>>, name: &str) -> Option<Element<'a>> {
    object?.members()?.get(name)
}

fn first<'a>(array: Element<'a>) -> Option<Element<'a>> {
    array.elements()?.get(0)
}
