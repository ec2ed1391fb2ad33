//! Trees that are made in code.

use crate::source::copied::is_copied;
use deno_graph_source::text::{JsString, SourceRange};
use deno_graph_source::tree::{
    CommentKind, Comments, DependencyComment, ImportPhase, Kind, MediaType, Node, ParsedSource,
    Program, SourceFault, StrLit, source_fault,
};
use deno_graph_source::values::{Items, Text};
use std::process::Abort;
use std::rc::RcStr;
use url::Url;

const SOURCE: &str = "import \"./b.ts\";";

fn range(start: usize, end: usize) -> SourceRange {
    SourceRange { start, end }
}

/// Returns the program of `SOURCE`, with this range for the specifier.
fn side_effect_import(rt: &(impl AllocGlobal + Abort), literal: SourceRange) -> Program {
    let src = StrLit {
        value: JsString::from_str(rt.alloc(), "./b.ts").expect(rt, "memory"),
        range: literal,
    };
    let import = Node {
        range: range(0, 16),
        kind: Kind::ImportDecl {
            type_only: false,
            phase: ImportPhase::Evaluation,
            src,
            has_specifiers: false,
            has_with: false,
        },
        children: Items::new(rt.alloc()),
    };
    Program {
        range: range(0, 16),
        body: Items::from_item(rt.alloc(), import).expect(rt, "memory"),
        has_shebang: false,
    }
}

fn parsed(rt: &(impl AllocGlobal + Abort)) -> ParsedSource {
    ParsedSource::new(
        rt.alloc(),
        Url::parse(rt.alloc(), "file:///b.ts").expect(rt, "it is a URL"),
        RcStr::from_str(rt.alloc(), SOURCE).expect(rt, "memory"),
        MediaType::TypeScript,
        side_effect_import(rt, range(7, 15)),
        Comments::new(rt.alloc()),
        true,
    )
    .expect(rt, "the source is valid")
}

#[test]
fn a_parsed_source_has_its_parts(rt: HostRuntime) {
    assert_parts(&rt, &parsed(&rt));
}

fn assert_parts(rt: &impl Abort, source: &ParsedSource) {
    assert_eq!(rt; source.specifier().as_str(), "file:///b.ts");
    assert_eq!(rt; source.media_type(), MediaType::TypeScript);
    assert_eq!(rt; source.text().as_str(), SOURCE);
    assert_eq!(rt; source.text_info_lazy().text(), SOURCE);
    assert_eq!(rt; source.program().body.len(), 1);
    assert!(rt; source.comments().get_leading(0).is_none());
    assert!(rt; source.has_scope_analysis());
}

#[test]
fn a_parsed_source_is_copied(rt: HostRuntime) {
    let source = parsed(&rt);
    assert!(rt; is_copied(&rt, source.program()));
    assert!(rt; is_copied(&rt, &source));
}

/// Returns the fault of the program of `SOURCE` with a text, and with this range for the specifier.
fn fault_of_import(
    rt: &(impl AllocGlobal + Abort),
    text: &str,
    literal: SourceRange,
    comments: &Comments,
) -> Option<SourceFault> {
    let program = side_effect_import(rt, literal);
    source_fault(rt.alloc(), text, &program, comments).expect(rt, "memory")
}

#[test]
fn a_range_up_to_the_largest_offset(rt: HostRuntime) {
    let comments = Comments::new(rt.alloc());
    let found = fault_of_import(&rt, SOURCE, range(7, usize::MAX), &comments);
    assert_eq!(rt; found, Some(SourceFault::RangeOutside));
}

#[test]
fn comments_past_the_end_of_the_source(rt: HostRuntime) {
    let comments = many_filings(&rt);
    let found = fault_of_import(&rt, "/*a*/ /*      */", range(7, 15), &comments);
    assert_eq!(rt; found, None);
    let all = comments.iter_unstable(rt.alloc()).expect(&rt, "memory");
    assert_eq!(rt; all.len(), 2000);
}

/// Returns one comment, filed 1,000 times on each side, and also after the end of the source.
fn many_filings(rt: &(impl AllocGlobal + Abort)) -> Comments {
    let mut comments = Comments::new(rt.alloc());
    for _ in 0..1000 {
        comments
            .add_leading(usize::MAX, comment(rt))
            .expect(rt, "memory");
        comments.add_trailing(0, comment(rt)).expect(rt, "memory");
    }
    comments
}

/// Returns the comment of `/*a*/`.
fn comment(rt: &(impl AllocGlobal + Abort)) -> DependencyComment {
    DependencyComment {
        kind: CommentKind::Block,
        range: range(0, 5),
        text: Text::from_str(rt.alloc(), "a").expect(rt, "memory"),
    }
}
