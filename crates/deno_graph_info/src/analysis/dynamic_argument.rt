ghost use Rattle.std.specs.Prelude.{◌≡◌};
ghost use Rattle.deno_graph_info.specs.DynamicDependency.{is_expr};
ghost use Rattle.deno_graph_info.specs.Json.DynamicArgument.{json_of_argument, reads_argument};

use crate::analysis::module_info::ModuleInfo;
use deno_graph_base::values::{Items, Text, TryClone};
use deno_graph_json::read::read_items;
use deno_graph_json::{Element, Expected, FromJson, JsonWriter, ReadError, ToJson, View};
use std::alloc::{AllocError, Global};

/// The first argument of a dynamic dependency, as far as it is known.
#[derive(Debug, PartialEq, Eq, Drop)]
pub enum DynamicArgument {
    /// A string, with U+FFFD for each lone surrogate.
    String(Text),
    /// A text in several parts, in order. Some parts may be unknown.
    Template(Items<DynamicTemplatePart>),
    /// An unknown expression.
    Expr,
}

impl DynamicArgument {
    /// Returns whether the argument is unknown.
    pub fn is_expr(&self) -> bool
        ensures { result ≡ is_expr self.now }
    {
        matches!(self, DynamicArgument::Expr)
    }
}

impl Default for DynamicArgument {
    ghost use Rattle.std.specs.Prelude.{◌≡◌};
    ghost use Rattle.deno_graph_info.specs.declared.analysis.dynamic_argument.DynamicArgument.TheVariants.{Expr};

    ghost is_default = { λ argument. argument ≡ Expr };

    fn default() -> DynamicArgument {
        DynamicArgument::Expr
    }
}

impl TryClone for DynamicArgument {
    fn try_clone(&self, alloc: Global) -> Result<DynamicArgument, AllocError> {
        match self {
            DynamicArgument::String(text) => Ok(DynamicArgument::String(text.try_clone(alloc)?)),
            DynamicArgument::Template(parts) => {
                Ok(DynamicArgument::Template(parts.try_clone(alloc)?))
            }
            DynamicArgument::Expr => Ok(DynamicArgument::Expr),
        }
    }
}

impl ToJson for DynamicArgument {
    ghost json = { json_of_argument };

    fn write(&self, out: &mut JsonWriter) -> Result<(), AllocError> {
        match self {
            DynamicArgument::String(text) => text.write(out),
            DynamicArgument::Template(parts) => parts.write(out),
            DynamicArgument::Expr => out.null(),
        }
    }
}

impl FromJson<ModuleInfo> for DynamicArgument {
    ghost reads = { reads_argument };

    #[tactic(auto, unfolding(crate::specs::Json::DynamicArgument::reads_argument))]
    fn from_json(alloc: Global, value: Element<'_>) -> Result<DynamicArgument, ReadError> {
        match value.view() {
            View::Null => Ok(DynamicArgument::Expr),
            View::String(text) => Ok(DynamicArgument::String(Text::from_str(alloc, text)?)),
            View::Array(values) => {
                let parts = read_items(alloc, values)?;
                Ok(DynamicArgument::Template(parts))
            }
            _ => Err(ReadError::expected(alloc, Expected::Argument)),
        }
    }
}

/// A part of a template.
#[derive(Debug, PartialEq, Eq, Drop)]
pub enum DynamicTemplatePart {
    /// A known text.
    String { value: Text },
    /// An unknown expression.
    Expr,
}

impl TryClone for DynamicTemplatePart {
    fn try_clone(&self, alloc: Global) -> Result<DynamicTemplatePart, AllocError> {
        match self {
            DynamicTemplatePart::String { value } => Ok(DynamicTemplatePart::String {
                value: value.try_clone(alloc)?,
            }),
            DynamicTemplatePart::Expr => Ok(DynamicTemplatePart::Expr),
        }
    }
}
