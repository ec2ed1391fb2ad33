//! The nodes of a text as a flat list.

use deno_graph_base::text::SourceRange;
use deno_graph_source::tree::{Callee, ImportPhase};

/// The key of a property.
#[derive(Clone, Copy, Debug, PartialEq, Eq)]
pub enum KeyShape {
    /// A string literal at this range.
    Str(SourceRange),
    /// A name at this range.
    Ident(SourceRange),
    Other,
}

/// What a node is, with the ranges of its literals. Where `has_with` is true, the first child is the
/// object of a `with` clause.
#[derive(Clone, Copy, Debug, PartialEq, Eq)]
pub enum Shape {
    ImportDecl {
        type_only: bool,
        phase: ImportPhase,
        src: SourceRange,
        has_specifiers: bool,
        has_with: bool,
    },
    NamedExport {
        type_only: bool,
        src: Option<SourceRange>,
        has_with: bool,
    },
    ExportAll {
        type_only: bool,
        src: SourceRange,
        has_with: bool,
    },
    ExportOther,
    ImportEquals {
        type_only: bool,
        is_export: bool,
        external: Option<SourceRange>,
    },
    ImportType {
        arg: SourceRange,
        has_with: bool,
    },
    ModuleDecl {
        name: SourceRange,
    },
    /// A call of `import` or `require`, with the number of its arguments.
    Call {
        callee: Callee,
        args: usize,
    },
    /// A spread argument.
    Spread,
    Str,
    Template,
    /// A part of a template between its substitutions, without marks.
    Quasi,
    /// `left + right`
    Sum,
    Ident,
    Object,
    KeyValue(KeyShape),
    Await,
    ImportMeta,
    Other,
}

/// A node of the flat list, in which a node is after the nodes inside it.
#[derive(Clone, Copy, Debug, PartialEq, Eq)]
pub struct FlatNode {
    pub shape: Shape,
    /// Index of the first node inside this one, or its own index.
    pub first: usize,
    pub range: SourceRange,
}

impl Shape {
    /// Returns the number of a call's children that are its callee, zero of every other shape.
    pub fn callee_count(self) -> usize {
        match self {
            Shape::Call {
                callee: Callee::Expr,
                ..
            } => 1,
            _ => 0,
        }
    }

    /// Returns the number of a call's arguments, zero of every other shape.
    pub fn args(self) -> usize {
        match self {
            Shape::Call { args, .. } => args,
            _ => 0,
        }
    }
}
