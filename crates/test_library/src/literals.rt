//! Literals and the UTF-16 units of their values, as node evaluates the literals.

use deno_graph_source::text::JsString;
use modinfo_literals::{cooked_value, spells, string_value};
use std::alloc::AllocError;
use std::process::Abort;

const STRINGS: [(&str, &[u16]); 14] = [
    ("\"./a.ts\"", &[46, 47, 97, 46, 116, 115]),
    ("'b\"c'", &[98, 34, 99]),
    ("\"\"", &[]),
    (
        r#""\'\"\\\b\f\n\r\t\v\a\é""#,
        &[39, 34, 92, 8, 12, 10, 13, 9, 11, 97, 233],
    ),
    (r#""\x41\xfF""#, &[65, 255]),
    (r#""\u0041\uD83D\uDE00""#, &[65, 0xD83D, 0xDE00]),
    (r#""\u{1F600}\u{0000000041}""#, &[0xD83D, 0xDE00, 65]),
    (r#""\uDE00\uD83D""#, &[0xDE00, 0xD83D]),
    (r#""\u{10FFFF}""#, &[0xDBFF, 0xDFFF]),
    (
        r#""\0\00\000\0000\08\1\18\12\123\1234""#,
        &[0, 0, 0, 0, 48, 0, 56, 1, 1, 56, 10, 83, 83, 52],
    ),
    (
        r#""\377\400\47\477\8\9""#,
        &[255, 32, 48, 39, 39, 55, 56, 57],
    ),
    (
        "\"a\\\nb\\\rc\\\r\nd\\\u{2028}e\\\u{2029}f\"",
        &[97, 98, 99, 100, 101, 102],
    ),
    ("\"\u{2028}\u{2029}\"", &[0x2028, 0x2029]),
    (r#""\😀😀""#, &[0xD83D, 0xDE00, 0xD83D, 0xDE00]),
];

const NO_STRINGS: [&str; 20] = [
    r#""\x4""#,
    r#""\xg0""#,
    r#""\u004""#,
    r#""\u{110000}""#,
    r#""\u{FFFFFFFFFFFFFFFFF}""#,
    r#""\u{}""#,
    r#""\u{41""#,
    r#""\u{4g}""#,
    "\"a",
    "a\"",
    "\"a'",
    "\"a\"b\"",
    "\"a\nb\"",
    "\"a\rb\"",
    "\"a\\\n\nb\"",
    "\"",
    "",
    "\"\\\"",
    "\"a\" ",
    "`a`",
];

const PARTS: [(&str, &[u16]); 10] = [
    ("a\"'", &[97, 34, 39]),
    (
        r"\n\x41\u{1F600}\uD83D\uDE00",
        &[10, 65, 0xD83D, 0xDE00, 0xD83D, 0xDE00],
    ),
    ("\r\n\r\n\n\r", &[10, 10, 10, 10]),
    (
        "a\\\r\nb\\\rc\\\nd\u{2028}e\\\u{2028}f",
        &[97, 98, 99, 100, 0x2028, 101, 102],
    ),
    (r"\0", &[0]),
    (r"\0a", &[0, 97]),
    (r"\`\${\$", &[96, 36, 123, 36]),
    ("$", &[36]),
    ("$$a", &[36, 36, 97]),
    (r"😀\😀\\", &[0xD83D, 0xDE00, 0xD83D, 0xDE00, 92]),
];

const NO_PARTS: [&str; 11] = [
    r"\00",
    r"\01",
    r"\1",
    r"\8",
    r"\x4",
    r"\u{110000}",
    r"\u",
    r"\",
    "`",
    "${",
    "a${b",
];

fn of_units(rt: &(impl AllocGlobal + Abort), units: &[u16]) -> JsString {
    JsString::from_units(rt.alloc(), units).expect(rt, "memory")
}

fn assert_value(
    rt: &(impl AllocGlobal + Abort),
    literal: &str,
    found: Result<Option<JsString>, AllocError>,
    wanted: &[u16],
) {
    match found.expect(rt, "memory") {
        Some(value) => assert!(rt; value == of_units(rt, wanted), "at {literal}"),
        None => assert!(rt; false, "no value of {literal}"),
    }
}

#[test]
fn string_literals(rt: HostRuntime) {
    for (literal, units) in STRINGS {
        assert_value(&rt, literal, string_value(rt.alloc(), literal), units);
        let value = of_units(&rt, units);
        assert!(rt;
            spells(rt.alloc(), literal, &value).expect(&rt, "memory"),
            "at {literal}"
        );
    }
    for text in NO_STRINGS {
        let found = string_value(rt.alloc(), text).expect(&rt, "memory");
        assert!(rt; found.is_none(), "at {text}");
    }
}

#[test]
fn templates(rt: HostRuntime) {
    for (part, units) in PARTS {
        assert_value(&rt, part, cooked_value(rt.alloc(), part), units);
    }
    for text in NO_PARTS {
        let found = cooked_value(rt.alloc(), text).expect(&rt, "memory");
        assert!(rt; found.is_none(), "at {text}");
    }
}

#[test]
fn other_values(rt: HostRuntime) {
    for (literal, units) in [("'a'", [98]), (r"'\x41'", [97]), ("'a", [97])] {
        let value = of_units(&rt, &units);
        assert!(rt;
            !spells(rt.alloc(), literal, &value).expect(&rt, "memory"),
            "at {literal}"
        );
    }
}
