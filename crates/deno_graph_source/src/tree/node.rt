ghost use Rattle.std.specs.Prelude.{◌≡◌};
ghost use Rattle.std.specs.Option.{option_copied};

use deno_graph_base::text::{JsString, SourceRange};
use deno_graph_base::values::{Items, Text, TryClone};
use std::alloc::{AllocError, Global};

/// A string literal: its value, and its range, which includes the quotes.
#[derive(Debug, PartialEq, Eq, Drop)]
pub struct StrLit {
    pub value: JsString,
    pub range: SourceRange,
}

impl StrLit {
    /// Returns the literal with this value, at this range, which includes the quotes.
    pub fn new(value: JsString, range: SourceRange) -> StrLit
        ensures { result ≡ record { value = value; range = range } }
    {
        StrLit { value, range }
    }
}

impl TryClone for StrLit {
    fn try_clone(&self, alloc: Global) -> Result<StrLit, AllocError> {
        Ok(StrLit {
            value: self.value.try_clone(alloc)?,
            range: self.range,
        })
    }
}

/// The phase of an import: `import`, `import source` or `import defer`.
#[derive(Clone, Copy, Debug, PartialEq, Eq)]
pub enum ImportPhase {
    Evaluation,
    Source,
    Defer,
}

/// The callee of a call.
#[derive(Clone, Copy, Debug, PartialEq, Eq)]
pub enum Callee {
    /// `import(..)`, `import.source(..)` or `import.defer(..)`.
    Import(ImportPhase),
    /// An expression, which is the first child of the call.
    Expr,
    /// `super(..)`.
    Super,
}

/// An argument of a call: whether it is spread, and its range, which includes the dots.
#[derive(Clone, Copy, Debug, PartialEq, Eq)]
pub struct Arg {
    pub spread: bool,
    pub range: SourceRange,
}

impl TryClone for Arg {
    fn try_clone(&self, _alloc: Global) -> Result<Arg, AllocError> {
        Ok(*self)
    }
}

/// The operator of a binary expression.
#[derive(Clone, Copy, Debug, PartialEq, Eq)]
pub enum BinaryOp {
    /// `+`
    Add,
    /// Every other operator.
    Other,
}

/// The key of a property.
#[derive(Debug, PartialEq, Eq, Drop)]
pub enum PropKey {
    Str(JsString),
    Ident(Text),
    /// A computed or a numeric key.
    Other,
}

impl TryClone for PropKey {
    fn try_clone(&self, alloc: Global) -> Result<PropKey, AllocError> {
        Ok(match self {
            PropKey::Str(value) => PropKey::Str(value.try_clone(alloc)?),
            PropKey::Ident(name) => PropKey::Ident(name.try_clone(alloc)?),
            PropKey::Other => PropKey::Other,
        })
    }
}

/// The kind of a node, with what the analysis reads of the node. If `has_with` is true, the first
/// child is the object literal of a `with` clause.
#[derive(Debug, PartialEq, Eq, Drop)]
pub enum Kind {
    /// An import declaration.
    ImportDecl {
        type_only: bool,
        phase: ImportPhase,
        src: StrLit,
        has_specifiers: bool,
        has_with: bool,
    },
    /// `export { .. }` with or without `from`, and `export * as name from`.
    NamedExport {
        type_only: bool,
        src: Option<StrLit>,
        has_with: bool,
    },
    /// `export * from`.
    ExportAll {
        type_only: bool,
        src: StrLit,
        has_with: bool,
    },
    /// `export` of a declaration, and `export default`.
    ExportOther,
    /// `import name = ..`. `external` is the literal of `require("..")`, if there is one.
    ImportEquals {
        type_only: bool,
        is_export: bool,
        external: Option<StrLit>,
    },
    /// TypeScript's type `import("..")`.
    ImportType {
        arg: StrLit,
        has_with: bool,
    },
    /// A module or namespace declaration. `name` is its name, if that is a string literal.
    ModuleDecl {
        name: Option<StrLit>,
    },
    /// A call that is neither optional nor `new`. Its first children are the callee, if that is an
    /// expression, and then the arguments, in order.
    Call {
        callee: Callee,
        args: Items<Arg>,
    },
    /// A string literal.
    Str(JsString),
    /// An untagged template, with its cooked quasis. Its children are its expressions.
    Template(Items<JsString>),
    /// A binary expression. Its children are the left and the right operand.
    Binary(BinaryOp),
    /// An identifier.
    Ident(Text),
    /// An object literal, also of a `with` clause. Its children are its properties.
    Object,
    /// A property `key: value`. Its last child is the value.
    KeyValue(PropKey),
    /// An await expression, a `for await` loop or an `await using` declaration.
    Await,
    /// A function, arrow, method, getter, setter or constructor.
    Function,
    /// `import.meta`.
    ImportMeta,
    /// Everything else.
    Other,
}

impl Kind {
    ghost use Rattle.deno_graph_source.specs.Node.{args_of, has_with, is_object, literal_of};

    /// Returns the string literal of this kind, if it has one: the specifier of an import or an
    /// export, or the name of a module.
    pub fn literal(&self) -> Option<&StrLit>
        ensures { option_copied result ≡ literal_of self.now }
    {
        match self {
            Kind::ImportDecl { src, .. } | Kind::ExportAll { src, .. } => Some(src),
            Kind::NamedExport { src, .. } => src.as_ref(),
            Kind::ImportEquals { external, .. } => external.as_ref(),
            Kind::ImportType { arg, .. } => Some(arg),
            Kind::ModuleDecl { name } => name.as_ref(),
            _ => None,
        }
    }

    /// Returns whether a node of this kind has a `with` clause as its first child.
    pub fn has_with(&self) -> bool
        ensures { result ≡ has_with self.now }
    {
        match self {
            Kind::ImportDecl { has_with, .. }
            | Kind::NamedExport { has_with, .. }
            | Kind::ExportAll { has_with, .. }
            | Kind::ImportType { has_with, .. } => *has_with,
            _ => false,
        }
    }

    /// Returns whether this is the kind of an object literal.
    pub fn is_object(&self) -> bool
        ensures { result ≡ is_object self.now }
    {
        matches!(self, Kind::Object)
    }

    /// Returns the arguments of a call, and no arguments for every other kind.
    pub fn args(&self) -> &[Arg]
        ensures { result.now ≡ args_of self.now }
    {
        match self {
            Kind::Call { args, .. } => args.as_slice(),
            _ => &[],
        }
    }
}

impl TryClone for Kind {
    fn try_clone(&self, alloc: Global) -> Result<Kind, AllocError> {
        Ok(match self {
            Kind::ImportDecl {
                type_only,
                phase,
                src,
                has_specifiers,
                has_with,
            } => Kind::ImportDecl {
                type_only: *type_only,
                phase: *phase,
                src: src.try_clone(alloc)?,
                has_specifiers: *has_specifiers,
                has_with: *has_with,
            },
            Kind::NamedExport {
                type_only,
                src,
                has_with,
            } => Kind::NamedExport {
                type_only: *type_only,
                src: src.try_clone(alloc)?,
                has_with: *has_with,
            },
            Kind::ExportAll {
                type_only,
                src,
                has_with,
            } => Kind::ExportAll {
                type_only: *type_only,
                src: src.try_clone(alloc)?,
                has_with: *has_with,
            },
            Kind::ExportOther => Kind::ExportOther,
            Kind::ImportEquals {
                type_only,
                is_export,
                external,
            } => Kind::ImportEquals {
                type_only: *type_only,
                is_export: *is_export,
                external: external.try_clone(alloc)?,
            },
            Kind::ImportType { arg, has_with } => Kind::ImportType {
                arg: arg.try_clone(alloc)?,
                has_with: *has_with,
            },
            Kind::ModuleDecl { name } => Kind::ModuleDecl {
                name: name.try_clone(alloc)?,
            },
            Kind::Call { callee, args } => Kind::Call {
                callee: *callee,
                args: args.try_clone(alloc)?,
            },
            Kind::Str(value) => Kind::Str(value.try_clone(alloc)?),
            Kind::Template(quasis) => Kind::Template(quasis.try_clone(alloc)?),
            Kind::Binary(op) => Kind::Binary(*op),
            Kind::Ident(name) => Kind::Ident(name.try_clone(alloc)?),
            Kind::Object => Kind::Object,
            Kind::KeyValue(key) => Kind::KeyValue(key.try_clone(alloc)?),
            Kind::Await => Kind::Await,
            Kind::Function => Kind::Function,
            Kind::ImportMeta => Kind::ImportMeta,
            Kind::Other => Kind::Other,
        })
    }
}

/// A node of a syntax tree.
#[derive(Debug, PartialEq, Eq, Drop)]
pub struct Node {
    pub range: SourceRange,
    pub kind: Kind,
    pub children: Items<Node>,
}

#[tactic(auto, unfolding(crate::specs::Node::kind_of, crate::specs::Node::range_of, crate::specs::Node::children_of))]
impl Node {
    ghost use Rattle.std.specs.Prelude.{[]};
    ghost use Rattle.deno_graph_source.specs.Node.{kind_of, range_of, children_of};

    /// Returns a node without children. Allocates nothing.
    pub fn new(alloc: Global, range: SourceRange, kind: Kind) -> Node
        ensures range { range_of result ≡ range }
        ensures kind { kind_of result ≡ kind }
        ensures children { children_of result ≡ [] }
    {
        Node::with_children(range, kind, Items::new(alloc))
    }

    /// Returns a node with these children, in the order of the text. Allocates nothing.
    pub fn with_children(range: SourceRange, kind: Kind, children: Items<Node>) -> Node
        ensures range { range_of result ≡ range }
        ensures kind { kind_of result ≡ kind }
        ensures children { children_of result ≡ children }
    {
        Node {
            range,
            kind,
            children,
        }
    }
}

impl TryClone for Node {
    fn try_clone(&self, alloc: Global) -> Result<Node, AllocError> {
        let mut children = Items::with_capacity(alloc, self.children.len())?;
        for child in self.children.as_slice() {
            children.push(child.try_clone(alloc)?)?;
        }
        Ok(Node {
            range: self.range,
            kind: self.kind.try_clone(alloc)?,
            children,
        })
    }
}

/// A parsed module or script.
#[derive(Debug, PartialEq, Eq, Drop)]
pub struct Program {
    pub range: SourceRange,
    pub body: Items<Node>,
    pub has_shebang: bool,
}

impl TryClone for Program {
    fn try_clone(&self, alloc: Global) -> Result<Program, AllocError> {
        Ok(Program {
            range: self.range,
            body: self.body.try_clone(alloc)?,
            has_shebang: self.has_shebang,
        })
    }
}
