//! The names of the members that a module document may have.

ghost use Rattle.std.specs.Prelude.{◌≡◌, map};
ghost use Rattle.modinfo_document.specs.Names.{names_of, names_of_node};

/// The kind of an object of a document.
#[derive(Clone, Copy, Debug)]
pub enum ObjectKind<'a> {
    Document,
    Program,
    /// An element of `leading` or `trailing`.
    CommentEntry,
    Comment,
    /// A string literal with a range.
    Literal,
    /// An argument of a call.
    Argument,
    /// A property's key.
    Key,
    /// A node of the kind of this name.
    Node(&'a str),
}

/// The names of the members that an object may have. A node of an unknown kind has those of every
/// node.
pub fn member_names(object: ObjectKind<'_>) -> &'static [&'static str]
    ensures { map (λ name. name.now) result.now ≡ names_of object.entry }
{
    match object {
        ObjectKind::Document => &[
            "specifier",
            "mediaType",
            "source",
            "program",
            "leading",
            "trailing",
        ],
        ObjectKind::Program => &["range", "body", "shebang"],
        ObjectKind::CommentEntry => &["pos", "comments"],
        ObjectKind::Comment => &["kind", "range", "text"],
        ObjectKind::Literal => &["value", "range"],
        ObjectKind::Argument => &["range", "spread"],
        ObjectKind::Key => &["str", "ident"],
        ObjectKind::Node(name) => member_names_of_node(name),
    }
}

#[tactic(auto, unfolding(crate::specs::Named::named))]
fn member_names_of_node(kind: &str) -> &'static [&'static str]
    ensures { map (λ name. name.now) result.now ≡ names_of_node kind.now }
{
    match kind {
        "ImportDecl" => &[
            "kind",
            "range",
            "children",
            "typeOnly",
            "phase",
            "src",
            "hasSpecifiers",
            "hasWith",
        ],
        "NamedExport" | "ExportAll" => {
            &["kind", "range", "children", "typeOnly", "src", "hasWith"]
        }
        "ImportEquals" => &[
            "kind", "range", "children", "typeOnly", "isExport", "external",
        ],
        "ImportType" => &["kind", "range", "children", "arg", "hasWith"],
        "ModuleDecl" => &["kind", "range", "children", "name"],
        "Call" => &["kind", "range", "children", "callee", "args"],
        "Str" | "Ident" => &["kind", "range", "children", "value"],
        "Template" => &["kind", "range", "children", "quasis"],
        "Binary" => &["kind", "range", "children", "op"],
        "KeyValue" => &["kind", "range", "children", "key"],
        _ => &["kind", "range", "children"],
    }
}
