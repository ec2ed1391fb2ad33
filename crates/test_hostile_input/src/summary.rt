//! The information on a module as one line of text.

use deno_graph_analysis::dep;
use deno_graph_info::analysis::{
    DependencyDescriptor, DynamicArgument, DynamicTemplatePart, JsDocImportInfo, ModuleInfo,
};
use std::alloc::{AllocError, Global};

/// The dependencies and then the JSDoc imports of a module.
pub fn summary(alloc: Global, info: &ModuleInfo) -> Result<String, AllocError> {
    let mut runs = Runs::new(alloc);
    for dependency in info.dependencies.iter() {
        runs.push(dependency_summary(alloc, dependency)?)?;
    }
    for import in info.jsdoc_imports.iter() {
        runs.push(import_summary(alloc, import)?)?;
    }
    runs.line(alloc)
}

fn dependency_summary(
    alloc: Global,
    dependency: &DependencyDescriptor,
) -> Result<String, AllocError> {
    match dependency {
        DependencyDescriptor::Static(dependency) => {
            format!(in alloc; "{:?}", dependency.specifier.as_str())
        }
        DependencyDescriptor::Dynamic(dependency) => match &dependency.argument {
            DynamicArgument::String(text) => format!(in alloc; "{:?}", text.as_str()),
            DynamicArgument::Template(parts) => of_parts(alloc, parts.as_slice()),
            DynamicArgument::Expr => String::from_str(alloc, "an expression"),
        },
    }
}

fn of_parts(alloc: Global, parts: &[DynamicTemplatePart]) -> Result<String, AllocError> {
    let mut runs = Runs::new(alloc);
    for part in parts {
        runs.push(match part {
            DynamicTemplatePart::String { value } => format!(in alloc; "{:?}", value.as_str())?,
            DynamicTemplatePart::Expr => String::from_str(alloc, "an expression")?,
        })?;
    }
    format!(in alloc; "[{}]", runs.line(alloc)?)
}

/// An argument that borrows from the tree.
pub fn argument_summary(
    alloc: Global,
    argument: &dep::DynamicArgument<'_>,
) -> Result<String, AllocError> {
    match argument {
        dep::DynamicArgument::String(text) => format!(in alloc; "{text:?}"),
        dep::DynamicArgument::Template(parts) => of_borrowed_parts(alloc, parts.as_slice()),
        dep::DynamicArgument::Expr => String::from_str(alloc, "an expression"),
    }
}

fn of_borrowed_parts(
    alloc: Global,
    parts: &[dep::DynamicTemplatePart<'_>],
) -> Result<String, AllocError> {
    let mut runs = Runs::new(alloc);
    for part in parts {
        runs.push(match part {
            dep::DynamicTemplatePart::String(text) => format!(in alloc; "{text:?}")?,
            dep::DynamicTemplatePart::Expr => String::from_str(alloc, "an expression")?,
        })?;
    }
    format!(in alloc; "[{}]", runs.line(alloc)?)
}

fn import_summary(alloc: Global, import: &JsDocImportInfo) -> Result<String, AllocError> {
    let (start, end) = (import.specifier.range.start, import.specifier.range.end);
    format!(in alloc;
        "{:?} from {}:{} to {}:{}",
        import.specifier.text.as_str(),
        start.line,
        start.character,
        end.line,
        end.character
    )
}

/// Texts, each with the number of its repetitions.
#[derive(Drop)]
struct Runs {
    runs: Vec<(String, usize)>,
}

impl Runs {
    fn new(alloc: Global) -> Runs {
        Runs {
            runs: Vec::new(alloc),
        }
    }

    fn push(&mut self, text: String) -> Result<(), AllocError> {
        if !self.runs.last().is_some_and(|(last, _)| *last == text) {
            self.runs.push((text, 0))?;
        }
        if let Some((_, count)) = self.runs.last_mut() {
            *count = count.saturating_add(1);
        }
        Ok(())
    }

    fn line(&self, alloc: Global) -> Result<String, AllocError> {
        let mut line = String::new(alloc);
        for (text, count) in self.runs.iter() {
            if !line.is_empty() {
                line.push_str(", ")?;
            }
            line.push_str(format!(in alloc; "{count} x {text}")?.as_str())?;
        }
        Ok(line)
    }
}
