//! An import in a JSDoc comment, and the result of a scan.

ghost use Rattle.std.specs.Prelude.{◌≡◌, IfOk, map};
ghost use Rattle.deno_graph_jsdoc.specs.JsDocImport.{import_of};

use deno_graph_base::values::TypeScriptTypesResolutionMode;
use std::alloc::{AllocError, Global};
use std::ops::Range;

/// An import in a JSDoc comment.
#[derive(Clone, Debug, PartialEq, Eq, Drop)]
pub struct JsDocImport<'a> {
    /// The specifier: the text between the quotes.
    pub specifier: &'a str,
    /// The range of the specifier, without its quotes, in bytes from the start of the text that
    /// was read.
    pub specifier_range: Range<usize>,
    /// The value of the attribute `resolution-mode`, if there is one and it names a mode.
    pub resolution_mode: Option<TypeScriptTypesResolutionMode>,
}

impl<'a> JsDocImport<'a> {
    ghost use Rattle.std.specs.Prelude.{◌+◌, ◌<◌, ◌≤◌, ◌^◌};
    ghost use Rattle.deno_graph_jsdoc.specs.JsDocImport.{moved};

    /// Returns the import with its range moved by `by` bytes: the range in a text that has `by`
    /// more bytes before the import.
    pub fn moved(&self, by: usize) -> JsDocImport<'a>
        requires order { self.now.specifier_range.start ≤ self.now.specifier_range.end }
        requires fits { self.now.specifier_range.end + by < 2 ^ 64 }
        ensures { import_of result ≡ moved by (import_of self.now) }
    {
        JsDocImport {
            specifier: self.specifier,
            specifier_range: self.specifier_range.start + by..self.specifier_range.end + by,
            resolution_mode: self.resolution_mode,
        }
    }

    /// Returns an equal import that borrows the same specifier.
    fn copied(&self) -> JsDocImport<'a>
        ensures { import_of result ≡ import_of self.now }
    {
        JsDocImport {
            specifier: self.specifier,
            specifier_range: self.specifier_range.start..self.specifier_range.end,
            resolution_mode: self.resolution_mode,
        }
    }
}

/// The imports in the text of a comment, and the number of times that each parser was started.
#[derive(Debug, PartialEq, Eq, Drop)]
pub struct Scan<'a> {
    /// The imports by ascending start of their ranges, each once. The ranges are in bytes from the
    /// start of the text.
    pub imports: Vec<JsDocImport<'a>>,
    /// The number of starts of the parser of dynamic imports: one for each `import` that is the
    /// first after some `{`, with no `}` between.
    pub dynamic_starts: usize,
    /// The number of starts of the parser of declarations: one for each `@import`.
    pub decl_starts: usize,
}

impl<'a> Scan<'a> {
    /// Returns an equal scan that borrows the same specifiers.
    ///
    /// Fails if an allocation fails.
    pub fn try_clone(&self, alloc: Global) -> Result<Scan<'a>, AllocError>
        ensures imports { IfOk result (λ copy.
            map import_of copy.imports.items ≡ map import_of self.now.imports.items) }
        ensures dynamic_starts { IfOk result (λ copy.
            copy.dynamic_starts ≡ self.now.dynamic_starts) }
        ensures decl_starts { IfOk result (λ copy. copy.decl_starts ≡ self.now.decl_starts) }
    {
        Ok(Scan {
            imports: copied_imports(alloc, self.imports.as_slice())?,
            dynamic_starts: self.dynamic_starts,
            decl_starts: self.decl_starts,
        })
    }
}

/// Returns equal imports in a new list.
///
/// Fails if an allocation fails.
fn copied_imports<'a>(
    alloc: Global,
    imports: &[JsDocImport<'a>],
) -> Result<Vec<JsDocImport<'a>>, AllocError>
    ensures { IfOk result (λ copies. map import_of copies.items ≡ map import_of imports.now) }
{
    let mut copies = Vec::with_capacity(alloc, imports.len())?;
    for import in imports {
        copies.push(import.copied())?;
    }
    Ok(copies)
}

/// The error of the parsers: the text doesn't begin with an import.
#[derive(Clone, Copy, Debug, PartialEq, Eq)]
pub struct NoParse;
