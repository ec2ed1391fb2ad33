//! The finders, the parsers of JSDoc imports, and the names of modes.

use crate::case_error::CaseError;
use crate::failed_allocations::outcome::{check, check_each};
use deno_graph_analysis::jsdoc::{
    JsDocImport, NoParse, parse_jsdoc_dynamic_import, parse_jsdoc_import_decl,
};
use deno_graph_info::analysis::{
    Match, TypeScriptTypesResolutionMode, find_deno_types, find_jsx_import_source,
    find_jsx_import_source_types, find_path_reference, find_resolution_mode,
    find_source_mapping_url, find_ts_self_types, find_ts_types, find_types_reference,
    is_comment_triple_slash_reference,
};
use deno_graph_source::tree::{MediaType, ResolutionMode};

/// The finders that return a `Match`.
#[derive(Clone, Copy)]
enum Finder {
    Path,
    Types,
    Mode,
    JsxImportSource,
    JsxImportSourceTypes,
    SourceMap,
    SelfTypes,
    TsTypes,
}

/// A match: its text, its start and its end, in bytes.
type Found = (&'static str, usize, usize);

const MATCHES: [(Finder, &str, Option<Found>); 14] = [
    (
        Finder::SourceMap,
        "#  sourceMappingURL  =  file.js.map",
        Some(("file.js.map", 24, 35)),
    ),
    (
        Finder::SourceMap,
        "# SOURCEMAPPINGURL=file.js.map",
        Some(("file.js.map", 19, 30)),
    ),
    (Finder::SourceMap, "// sourceMappingURL=file.js.map", None),
    (Finder::SourceMap, "# sourceMappingURL", None),
    (
        Finder::JsxImportSource,
        " @jsxImportSource preact ",
        Some(("preact", 18, 24)),
    ),
    (Finder::JsxImportSource, "* @jsxImportSourceTypes x", None),
    (
        Finder::JsxImportSourceTypes,
        "* @jsxImportSourceTypes x",
        Some(("x", 24, 25)),
    ),
    (
        Finder::Path,
        "/ <reference path=\"\" />",
        Some(("", 19, 19)),
    ),
    (
        Finder::Path,
        "/ <reference path=\"./ref.d.ts\" />",
        Some(("./ref.d.ts", 19, 29)),
    ),
    (
        Finder::Types,
        "/ <reference types=\"n\" />",
        Some(("n", 20, 21)),
    ),
    (
        Finder::Mode,
        "/ <reference types=\"x\" resolution-mode=\"require\" />",
        Some(("require", 40, 47)),
    ),
    (
        Finder::SelfTypes,
        " @ts-self-types=\"./a.d.ts\"",
        Some(("./a.d.ts", 17, 25)),
    ),
    (Finder::TsTypes, "@ts-types=\"\"", None),
    (Finder::TsTypes, "@t\u{17f}-types='a\"", Some(("a", 12, 13))),
];

/// Texts, the match of `find_deno_types`, and whether it is without quotes.
const DENO_TYPES: [(&str, Found, bool); 3] = [
    (" @deno-types=\"./a.d.ts\"", ("./a.d.ts", 14, 22), false),
    ("@deno-types=\"a b", ("\"a", 12, 14), true),
    ("@deno-types=\"\"", ("\"\"", 12, 14), true),
];

/// The import at the start of a text: its specifier, its mode, and the rest of the text.
type Import = (Found, Option<TypeScriptTypesResolutionMode>, &'static str);

const DECLARATIONS: [(&str, Option<Import>); 4] = [
    (
        "@import *as test from'./a.ts'",
        Some((("./a.ts", 22, 28), None, "")),
    ),
    ("@import test from \"./a.ts'", None),
    (
        "@import v from 'test' with { type: 'other', 'resolution-mode': \"require\" }",
        Some((
            ("test", 16, 20),
            Some(TypeScriptTypesResolutionMode::Require),
            "",
        )),
    ),
    (
        "@import v from 'test' with x",
        Some((("test", 16, 20), None, "with x")),
    ),
];

const DYNAMIC_IMPORTS: [(&str, Option<Import>); 5] = [
    (
        "{ Test<import('testing')> }",
        Some((("testing", 15, 22), None, "")),
    ),
    ("{ * // … test }", None),
    (
        "{import(\"a\", { with: { type: \"test\", \"resolution-mode\": \"import\" } })}",
        Some((
            ("a", 9, 10),
            Some(TypeScriptTypesResolutionMode::Import),
            "",
        )),
    ),
    ("{import(\"a\", b)}", None),
    ("{ imported: import('./a') }", None),
];

pub fn read() -> Result<(), CaseError> {
    find_matches()?;
    find_types_of_deno()?;
    parse_imports()?;
    check_each(&[
        (is_reference(), "is_comment_triple_slash_reference"),
        (are_modes_named(), "modes"),
    ])
}

fn find_matches() -> Result<(), CaseError> {
    for (finder, text, expected) in &MATCHES {
        check(is_match(find(*finder, *text), *expected), *text)?;
    }
    Ok(())
}

fn find(finder: Finder, text: &str) -> Option<Match<'_>> {
    match finder {
        Finder::Path => find_path_reference(text),
        Finder::Types => find_types_reference(text),
        Finder::Mode => find_resolution_mode(text),
        Finder::JsxImportSource => find_jsx_import_source(text),
        Finder::JsxImportSourceTypes => find_jsx_import_source_types(text),
        Finder::SourceMap => find_source_mapping_url(text),
        Finder::SelfTypes => find_ts_self_types(text),
        Finder::TsTypes => find_ts_types(text),
    }
}

fn is_match(found: Option<Match<'_>>, expected: Option<Found>) -> bool {
    match (found, expected) {
        (Some(found), Some((text, start, end))) => {
            found.as_str() == text && found.range() == (start..end)
        }
        (None, None) => true,
        _ => false,
    }
}

fn find_types_of_deno() -> Result<(), CaseError> {
    for (text, (specifier, start, end), is_quoteless) in &DENO_TYPES {
        let is_found = matches!(find_deno_types(text), Some(found) if found.text == *specifier
            && found.range == (*start..*end)
            && found.is_quoteless == *is_quoteless);
        check(is_found, *text)?;
    }
    Ok(())
}

fn parse_imports() -> Result<(), CaseError> {
    for (text, expected) in &DECLARATIONS {
        check(is_import(parse_jsdoc_import_decl(text), *expected), *text)?;
    }
    for (text, expected) in &DYNAMIC_IMPORTS {
        check(
            is_import(parse_jsdoc_dynamic_import(text), *expected),
            *text,
        )?;
    }
    Ok(())
}

fn is_import(parsed: Result<(&str, JsDocImport<'_>), NoParse>, expected: Option<Import>) -> bool {
    match (parsed, expected) {
        (Ok((rest, import)), Some(((specifier, start, end), mode, expected_rest))) => {
            import.specifier == specifier
                && import.specifier_range == (start..end)
                && import.resolution_mode == mode
                && rest == expected_rest
        }
        (Err(NoParse), None) => true,
        _ => false,
    }
}

fn is_reference() -> bool {
    is_comment_triple_slash_reference("/ <reference path=\"./ref.d.ts\" />")
        && !is_comment_triple_slash_reference(" <reference path=\"./ref.d.ts\" />")
}

fn are_modes_named() -> bool {
    let mode = TypeScriptTypesResolutionMode::from_str("require");
    matches!(mode, Some(mode) if mode.as_deno_graph() == ResolutionMode::Require)
        && TypeScriptTypesResolutionMode::from_str("asdf").is_none()
        && MediaType::Dts.is_typed()
        && !MediaType::Jsx.is_typed()
}
