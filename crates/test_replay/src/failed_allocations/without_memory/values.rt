//! Positions, strings, look-ups, accessors and constructors.

use crate::case_error::CaseError;
use crate::failed_allocations::outcome::{check, check_each};
use crate::failed_allocations::without_memory::made::{Made, Strings, TEXT};
use deno_graph_analysis::ast::{
    CapturingEsParser, CapturingModuleAnalyzer, DefaultParsedSourceStore, ParserModuleAnalyzer,
};
use deno_graph_analysis::dep::{self, Walk};
use deno_graph_info::analysis::{
    DependencyDescriptor, DynamicArgument, DynamicDependencyDescriptor, DynamicDependencyKind,
    ImportAttributes, ModuleInfo, StaticDependencyKind,
};
use deno_graph_source::text::{JsString, Position, PositionRange, SourceRange, SourceTextInfo};
use deno_graph_source::tree::{Comments, MediaType, ParsedSource, Program};
use deno_graph_source::values::TryClone;
use example_table_parser::TableParser;
use std::alloc::Global;

/// The boundaries of a text of one line: offset, line and character.
const BOUNDARIES: [(usize, usize, usize); 3] = [(0, 0, 0), (2, 0, 1), (3, 1, 0)];

/// Positions outside the text of one line.
const NOWHERE: [(usize, usize); 2] = [(0, 2), (usize::MAX, usize::MAX)];

/// The range of the specifier of the import.
const SPECIFIER: SourceRange = SourceRange { start: 16, end: 19 };

pub fn look_up(alloc: Global, made: &Made) -> Result<(), CaseError> {
    find_boundaries(&made.line)?;
    let source = &made.source;
    check_each(&[
        (is_range_found(source.text_info_lazy()), "ranges"),
        (are_positions_in_order(), "the order of positions"),
        (are_strings_found(&made.strings), "strings"),
        (are_parts_found(source), "parts of a source"),
        (is_copied(alloc, source), "a copy of a source"),
        (
            dependency_is_found(made.info.dependencies.first()),
            "dependencies",
        ),
        (is_at_start(alloc, source.program()), "Walk::new"),
        (has_comments(alloc, source.comments()), "Comments::new"),
        (are_borrowed_wrapped(), "From of a borrowed dependency"),
    ])
}

fn is_copied(alloc: Global, source: &ParsedSource) -> bool {
    match source.try_clone(alloc) {
        Ok(copy) => copy == *source,
        Err(_) => false,
    }
}

fn is_at_start(alloc: Global, program: &Program) -> bool {
    Walk::new(alloc, program).entered() == 0
}

fn has_comments(alloc: Global, comments: &Comments) -> bool {
    Comments::new(alloc) != *comments
}

fn find_boundaries(line: &SourceTextInfo) -> Result<(), CaseError> {
    for (pos, line_number, character) in &BOUNDARIES {
        let position = Position::new(*line_number, *character);
        check(is_boundary(line, *pos, position), "a boundary's position")?;
    }
    for (line_number, character) in &NOWHERE {
        let position = Position::new(*line_number, *character);
        check(
            position.as_source_pos(line).is_none(),
            "a position outside the text",
        )?;
    }
    Ok(())
}

/// Returns whether the offset is a boundary, and the offset and the position are converted into each other.
fn is_boundary(line: &SourceTextInfo, pos: usize, position: Position) -> bool {
    line.text().is_char_boundary(pos)
        && Position::from_source_pos(pos, line) == position
        && position.as_source_pos(line) == Some(pos)
}

fn is_range_found(info: &SourceTextInfo) -> bool {
    let (start, end) = (Position::new(0, 15), Position::new(0, 18));
    let positions = PositionRange { start, end };
    let text = info.text();
    text == TEXT
        && info.range_text(&SPECIFIER) == Some("\"a\"")
        && info
            .range_text(&SourceRange { start: 4, end: 19 })
            .is_none()
        && positions.as_source_range(info) == Some(SPECIFIER)
        && text.is_char_boundary(16)
        && text.is_char_boundary(19)
        && PositionRange::from_source_range(SPECIFIER, info) == positions
}

fn are_positions_in_order() -> bool {
    let (first, second, third) = (
        Position::zeroed(),
        Position::new(0, 18),
        Position::new(1, 7),
    );
    first == Position::new(0, 0)
        && first < second
        && second < third
        && third > first
        && PositionRange::zeroed().end == first
}

fn are_strings_found(strings: &Strings) -> bool {
    has_text(&strings.surrogate, None, "\u{fffd}")
        && has_text(&strings.pair, Some("\u{1f600}"), "\u{1f600}")
        && strings.surrogates.as_str().is_none()
        && strings.surrogates.to_str_lossy().len() == 3000
        && strings.surrogate != strings.pair
}

fn has_text(string: &JsString, text: Option<&str>, lossy: &str) -> bool {
    string.as_str() == text && string.to_str_lossy() == lossy && !string.is_empty()
}

fn are_parts_found(source: &ParsedSource) -> bool {
    let leading = source.comments().get_leading(9);
    matches!(leading, Some(comments) if comments.len() == 1)
        && source.comments().get_trailing(9).is_none()
        && source.specifier().as_str() == crate::failed_allocations::sources::U
        && source.text().as_str() == TEXT
        && source.media_type() == MediaType::TypeScript
        && !source.has_scope_analysis()
}

fn dependency_is_found(found: Option<&DependencyDescriptor>) -> bool {
    let Some(found) = found else {
        return false;
    };
    let attributes = found.import_attributes();
    matches!(found.as_static(), Some(import) if import.specifier.as_str() == "a" && import.is_side_effect)
        && found.as_dynamic().is_none()
        && attributes.is_none()
        && !attributes.has_asset()
        && attributes.get("type").is_none()
        && DynamicArgument::default().is_expr()
}

/// Returns whether `From` wraps a static and a dynamic dependency that borrow.
fn are_borrowed_wrapped() -> bool {
    let import = dep::DependencyDescriptor::from(dep::StaticDependencyDescriptor {
        kind: StaticDependencyKind::Import,
        leading_comments: &[],
        range: SPECIFIER,
        specifier: "a",
        specifier_range: SPECIFIER,
        is_side_effect: true,
        import_attributes: ImportAttributes::default(),
    });
    let call = dep::DependencyDescriptor::from(dep::DynamicDependencyDescriptor {
        kind: DynamicDependencyKind::Require,
        leading_comments: &[],
        range: SPECIFIER,
        argument: dep::DynamicArgument::String("a"),
        argument_range: SPECIFIER,
        import_attributes: ImportAttributes::default(),
    });
    matches!(&import, dep::DependencyDescriptor::Static(found) if found.specifier == "a")
        && matches!(&call, dep::DependencyDescriptor::Dynamic(found)
            if found.kind == DynamicDependencyKind::Require)
}

/// The calls that take their value, and the constructors.
pub fn take_apart(alloc: Global, made: Made) -> Result<(), CaseError> {
    let Made {
        source,
        info,
        parser,
        ..
    } = made;
    let is_marked = source.into_with_scope_analysis().has_scope_analysis();
    let is_new_another = ModuleInfo::new(alloc) != info;
    let is_wrapped = is_static_wrapped(info);
    make_of_parser(alloc, parser);
    check_each(&[
        (is_marked, "into_with_scope_analysis"),
        (is_new_another, "ModuleInfo::new"),
        (is_wrapped, "From of a static dependency"),
        (is_static_none(), "From of a dynamic dependency"),
    ])
}

/// Returns whether `From` wraps the last dependency, taken out of the info, as static.
fn is_static_wrapped(info: ModuleInfo) -> bool {
    let Some(DependencyDescriptor::Static(import)) = info.dependencies.into_vec().pop() else {
        return false;
    };
    let dependency = DependencyDescriptor::from(import);
    matches!(dependency.as_static(), Some(import) if import.specifier.as_str() == "a")
}

fn is_static_none() -> bool {
    let dependency = DependencyDescriptor::from(DynamicDependencyDescriptor {
        kind: DynamicDependencyKind::default(),
        types_specifier: None,
        argument: DynamicArgument::default(),
        argument_range: PositionRange::zeroed(),
        import_attributes: ImportAttributes::default(),
    });
    dependency.as_static().is_none()
}

fn make_of_parser(alloc: Global, mut parser: TableParser) {
    let mut store = DefaultParsedSourceStore::new(alloc);
    drop(CapturingEsParser::new(&mut parser, &mut store));
    drop(ParserModuleAnalyzer::new(&mut parser));
    let mut analyzer = CapturingModuleAnalyzer::new(parser, store);
    drop(analyzer.as_capturing_parser());
}
