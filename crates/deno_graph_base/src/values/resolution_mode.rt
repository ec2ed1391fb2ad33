//! Resolution modes: as by `require`, or as by `import`.

ghost use Rattle.std.specs.Prelude.{◌≡◌, ◌↔◌, Some, codes};

/// The mode in which a module graph resolves a module.
#[derive(Clone, Copy, Debug, PartialEq, Eq)]
pub enum ResolutionMode {
    Require,
    Import,
}

/// The mode in which the types of an import are resolved, as a `ModuleInfo` holds it.
#[derive(Clone, Copy, Debug, PartialEq, Eq)]
pub enum TypeScriptTypesResolutionMode {
    Require,
    Import,
}

impl TypeScriptTypesResolutionMode {
    ghost use Rattle.deno_graph_base.specs.ResolutionMode.{mode_named, graph_mode};

    /// Returns the mode of the name `import` or `require`, and `None` for any other text.
    pub fn from_str(text: &str) -> Option<Self>
        ensures import { (result ≡ Some TypeScriptTypesResolutionMode.Import)
            ↔ (text.now ≡ codes "import") }
        ensures require { (result ≡ Some TypeScriptTypesResolutionMode.Require)
            ↔ (text.now ≡ codes "require") }
        ensures named { result ≡ mode_named text.now }
    {
        match text {
            "import" => Some(Self::Import),
            "require" => Some(Self::Require),
            _ => None,
        }
    }

    /// Returns the mode of a module graph that has the same name.
    pub fn as_deno_graph(&self) -> ResolutionMode
        ensures { result ≡ graph_mode self.now }
    {
        match self {
            Self::Require => ResolutionMode::Require,
            Self::Import => ResolutionMode::Import,
        }
    }
}
