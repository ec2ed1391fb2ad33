use crate::case_error::CaseError;
use crate::failed_allocations::sources::{U, info_of, table, url};
use deno_graph_info::analysis::ModuleInfo;
use deno_graph_source::text::{JsString, SourceRange, SourceTextInfo};
use deno_graph_source::tree::{
    CommentKind, Comments, DependencyComment, ImportPhase, Kind, MediaType, Node, ParsedSource,
    Program, StrLit,
};
use deno_graph_source::values::{Items, Text};
use example_table_parser::TableParser;
use std::alloc::{AllocError, Global};
use std::rc::RcStr;

pub const TEXT: &str = "/* é */ import \"a\";";

/// The values that the calls are made on. They are made before allocations fail.
#[derive(Drop)]
pub struct Made {
    /// The source of `TEXT`: a comment and an import.
    pub source: ParsedSource,
    pub info: ModuleInfo,
    /// A text of two characters. The second is a line feed.
    pub line: SourceTextInfo,
    pub strings: Strings,
    pub parser: TableParser,
}

/// Strings of UTF-16 units.
#[derive(Drop)]
pub struct Strings {
    /// A high surrogate alone.
    pub surrogate: JsString,
    /// A high surrogate and a low one, which join.
    pub pair: JsString,
    /// A thousand high surrogates.
    pub surrogates: JsString,
}

impl Made {
    pub fn new(alloc: Global) -> Result<Made, CaseError> {
        let line = SourceTextInfo::new(alloc, RcStr::from_str(alloc, "é\n")?)?;
        let strings = strings_of_units(alloc)?;
        let parser = table(alloc)?;
        let source = source(alloc)?;
        Ok(Made {
            info: info_of(alloc, &source)?,
            source,
            line,
            strings,
            parser,
        })
    }
}

fn strings_of_units(alloc: Global) -> Result<Strings, AllocError> {
    Ok(Strings {
        surrogate: JsString::from_units(alloc, &[0xd83d])?,
        pair: JsString::from_units(alloc, &[0xd83d, 0xde00])?,
        surrogates: JsString::from_units(alloc, &[0xd800; 1000])?,
    })
}

fn source(alloc: Global) -> Result<ParsedSource, CaseError> {
    Ok(ParsedSource::new(
        alloc,
        url(alloc, U)?,
        RcStr::from_str(alloc, TEXT)?,
        MediaType::TypeScript,
        program(alloc)?,
        comments(alloc)?,
        false,
    )?)
}

fn program(alloc: Global) -> Result<Program, AllocError> {
    let src = StrLit {
        value: JsString::from_str(alloc, "a")?,
        range: SourceRange { start: 16, end: 19 },
    };
    let mut body = Items::new(alloc);
    body.push(Node {
        range: SourceRange { start: 9, end: 20 },
        kind: Kind::ImportDecl {
            type_only: false,
            phase: ImportPhase::Evaluation,
            src,
            has_specifiers: false,
            has_with: false,
        },
        children: Items::new(alloc),
    })?;
    Ok(Program {
        range: SourceRange { start: 0, end: 20 },
        body,
        has_shebang: false,
    })
}

fn comments(alloc: Global) -> Result<Comments, AllocError> {
    let mut comments = Comments::new(alloc);
    let comment = DependencyComment {
        kind: CommentKind::Block,
        range: SourceRange { start: 0, end: 8 },
        text: Text::from_str(alloc, " é ")?,
    };
    comments.add_leading(9, comment)?;
    Ok(comments)
}
