//! The lists of names of which a string may have to be one.

ghost use Rattle.std.specs.Prelude.{◌≡◌, map};
ghost use Rattle.deno_graph_json.specs.Read.Names.{names_in};

/// A list of names.
#[derive(Clone, Copy, Debug, PartialEq, Eq)]
pub enum NameList {
    /// The resolution modes of types.
    ResolutionModes,
    /// The types of dependencies.
    DependencyTypes,
    /// The kinds of static dependencies.
    StaticKinds,
    /// The kinds of dynamic dependencies.
    DynamicKinds,
    /// The types of the parts of a template.
    PartTypes,
    /// The types of triple-slash references.
    ReferenceTypes,
    /// The media types.
    MediaTypes,
    /// The kinds of comments.
    CommentKinds,
    /// The kinds of nodes.
    Kinds,
    /// The phases of imports.
    Phases,
    /// The callees of calls.
    Callees,
    /// The binary operators.
    Operators,
    /// The units of offsets in a parser's tree.
    OffsetUnits,
    /// The types of the outermost node of a parser's tree.
    OutermostTypes,
    /// The types of the program in a parser's tree.
    ProgramTypes,
}

impl NameList {
    /// Returns the names.
    pub fn names(self) -> &'static [&'static str]
        ensures { map (λ name. name.now) result.now ≡ names_in self }
    {
        match self {
            NameList::ResolutionModes => RESOLUTION_MODES,
            NameList::DependencyTypes => DEPENDENCY_TYPES,
            NameList::StaticKinds => STATIC_KINDS,
            NameList::DynamicKinds => DYNAMIC_KINDS,
            NameList::PartTypes => PART_TYPES,
            NameList::ReferenceTypes => REFERENCE_TYPES,
            NameList::MediaTypes => MEDIA_TYPES,
            NameList::CommentKinds => COMMENT_KINDS,
            NameList::Kinds => KINDS,
            NameList::Phases => PHASES,
            NameList::Callees => CALLEES,
            NameList::Operators => OPERATORS,
            NameList::OffsetUnits => OFFSET_UNITS,
            NameList::OutermostTypes => OUTERMOST_TYPES,
            NameList::ProgramTypes => PROGRAM_TYPES,
        }
    }
}

const RESOLUTION_MODES: &[&str] = &["import", "require"];

const DEPENDENCY_TYPES: &[&str] = &["static", "dynamic"];

const STATIC_KINDS: &[&str] = &[
    "import",
    "importDefer",
    "importSource",
    "importType",
    "importEquals",
    "export",
    "exportType",
    "exportEquals",
    "maybeTsModuleAugmentation",
];

const DYNAMIC_KINDS: &[&str] = &["import", "importDefer", "importSource", "require"];

const PART_TYPES: &[&str] = &["string", "expr"];

const REFERENCE_TYPES: &[&str] = &["path", "types"];

const MEDIA_TYPES: &[&str] = &[
    "JavaScript",
    "Jsx",
    "Mjs",
    "Cjs",
    "TypeScript",
    "Mts",
    "Cts",
    "Dts",
    "Dmts",
    "Dcts",
    "Tsx",
    "Json",
    "Other",
];

const COMMENT_KINDS: &[&str] = &["line", "block"];

/// The kinds of nodes, by name.
pub const KINDS: &[&str] = &[
    "ImportDecl",
    "NamedExport",
    "ExportAll",
    "ExportOther",
    "ImportEquals",
    "ImportType",
    "ModuleDecl",
    "Call",
    "Str",
    "Template",
    "Binary",
    "Ident",
    "Object",
    "KeyValue",
    "Await",
    "Function",
    "ImportMeta",
    "Other",
];

const PHASES: &[&str] = &["evaluation", "source", "defer"];

const CALLEES: &[&str] = &["import", "importSource", "importDefer", "expr", "super"];

const OPERATORS: &[&str] = &["add", "other"];

const OFFSET_UNITS: &[&str] = &["utf16", "utf8"];

const OUTERMOST_TYPES: &[&str] = &["Program", "File"];

const PROGRAM_TYPES: &[&str] = &["Program"];
