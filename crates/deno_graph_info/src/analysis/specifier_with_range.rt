use deno_graph_base::text::PositionRange;
use deno_graph_base::values::{Text, TryClone};
use std::alloc::{AllocError, Global};

/// A specifier, and its range in the source.
#[derive(Debug, PartialEq, Eq, Drop)]
pub struct SpecifierWithRange {
    pub text: Text,
    /// Lines and characters from zero, with the quotes if the specifier has any.
    pub range: PositionRange,
}

impl TryClone for SpecifierWithRange {
    fn try_clone(&self, alloc: Global) -> Result<SpecifierWithRange, AllocError> {
        Ok(SpecifierWithRange {
            text: self.text.try_clone(alloc)?,
            range: self.range,
        })
    }
}
