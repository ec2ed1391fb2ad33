//! Descriptors of dependencies, field by field.

use crate::program::documents::source_of;
use deno_graph_analysis::ast::module_info;
use deno_graph_analysis::dep::{self, analyze_program_dependencies};
use deno_graph_info::analysis::{
    DependencyDescriptor, DynamicArgument, DynamicDependencyKind, ImportAttributes, ModuleInfo,
    StaticDependencyKind,
};
use deno_graph_source::tree::{DependencyComment, ParsedSource};
use deno_graph_source::values::TryClone;
use std::alloc::{AllocError, Global};
use std::process::Abort;

/// An import of a type with an attribute, after a comment, and a call of `require`.
const DOCUMENT: &str = r#"{"mediaType":"TypeScript","program":{"body":[
    {"kind":"ImportDecl","range":[5,55],"typeOnly":true,"hasSpecifiers":true,"hasWith":true,
        "src":{"value":"a","range":[28,31]},"children":[
        {"kind":"Object","range":[37,54],"children":[
            {"kind":"KeyValue","range":[39,52],"key":{"ident":"type"},"children":[
                {"kind":"Str","range":[45,52],"value":"bytes"}]}]}]},
    {"kind":"Call","range":[56,68],"callee":"expr","args":[{"range":[64,67]}],"children":[
        {"kind":"Ident","range":[56,63],"value":"require"},
        {"kind":"Str","range":[64,67],"value":"b"}]}
],"range":[0,69]},"leading":[{"pos":5,"comments":[{"kind":"block","range":[0,4],"text":""}]}],
"source":"/**/ import type { T } from \"a\" with { type: \"bytes\" }; require(\"b\");",
"specifier":"file:///a.ts"}"#;

#[test]
fn dependencies_by_their_parts(rt: HostRuntime) {
    let source = source_of(&rt, DOCUMENT);
    let info = info_of(rt.alloc(), &source).expect(&rt, "memory");
    assert_parts(&rt, &info);
}

/// The information on a source. Hides the contract of `module_info`, which a caller's proof doesn't need.
fn info_of(alloc: Global, source: &ParsedSource) -> Result<ModuleInfo, AllocError> {
    module_info(alloc, source)
}

fn assert_parts(rt: &(impl AllocGlobal + Abort), info: &ModuleInfo) {
    assert!(rt; info.dependencies.first().is_some_and(is_the_import));
    assert!(rt; info.dependencies.last().is_some_and(is_the_call));
    for dependency in info.dependencies.iter() {
        let again = made_again(rt.alloc(), dependency).expect(rt, "memory");
        assert!(rt; again == *dependency);
    }
    let copy = info.try_clone(rt.alloc()).expect(rt, "memory");
    assert!(rt; copy == *info);
    assert!(rt; *info != ModuleInfo::new(rt.alloc()));
}

fn is_the_import(dependency: &DependencyDescriptor) -> bool {
    let attributes = dependency.import_attributes();
    dependency.as_dynamic().is_none()
        && matches!(dependency.as_static(), Some(found)
            if found.kind == StaticDependencyKind::ImportType
                && found.specifier.as_str() == "a"
                && !found.is_side_effect)
        && attributes.get("type") == Some("bytes")
        && attributes.get("with").is_none()
        && attributes.has_asset()
        && !attributes.is_none()
}

fn is_the_call(dependency: &DependencyDescriptor) -> bool {
    dependency.as_static().is_none()
        && matches!(dependency.as_dynamic(), Some(found)
            if found.kind == DynamicDependencyKind::Require
                && !found.argument.is_expr()
                && found.import_attributes == ImportAttributes::default())
        && DynamicArgument::default().is_expr()
}

/// The dependency, made again from a copy of the descriptor inside.
fn made_again(
    alloc: Global,
    dependency: &DependencyDescriptor,
) -> Result<DependencyDescriptor, AllocError> {
    match dependency {
        DependencyDescriptor::Static(found) => Ok(found.try_clone(alloc)?.into()),
        DependencyDescriptor::Dynamic(found) => Ok(found.try_clone(alloc)?.into()),
    }
}

#[test]
fn borrowed_dependencies_by_their_parts(rt: HostRuntime) {
    let source = source_of(&rt, DOCUMENT);
    assert_borrowed_parts(&rt, &source);
}

fn assert_borrowed_parts(rt: &(impl AllocGlobal + Abort), source: &ParsedSource) {
    let found = analyze_program_dependencies(rt.alloc(), source.program(), source.comments());
    let found = found.expect(rt, "memory");
    let leading = source.comments().get_leading(5).unwrap_or(&[]);
    assert_eq!(rt; leading.len(), 1);
    assert!(rt;
        found
            .first()
            .is_some_and(|first| is_the_borrowed_import(first, leading))
    );
    assert!(rt; found.last().is_some_and(is_the_borrowed_call));
    for dependency in found.iter() {
        let copy = dependency.try_clone(rt.alloc()).expect(rt, "memory");
        assert!(rt; copy == *dependency);
    }
}

fn is_the_borrowed_import(
    dependency: &dep::DependencyDescriptor<'_>,
    leading: &[DependencyComment],
) -> bool {
    match dependency {
        dep::DependencyDescriptor::Static(found) => {
            found.leading_comments == leading
                && found.specifier == "a"
                && (found.range.start, found.range.end) == (5, 55)
        }
        dep::DependencyDescriptor::Dynamic(_) => false,
    }
}

fn is_the_borrowed_call(dependency: &dep::DependencyDescriptor<'_>) -> bool {
    match dependency {
        dep::DependencyDescriptor::Static(_) => false,
        dep::DependencyDescriptor::Dynamic(found) => {
            found.leading_comments.is_empty()
                && found.argument == dep::DynamicArgument::String("b")
                && (found.range.start, found.range.end) == (56, 68)
        }
    }
}
