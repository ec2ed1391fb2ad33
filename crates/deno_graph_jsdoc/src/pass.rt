//! The search for all imports in the text of a comment, in one pass.

ghost use Rattle.std.specs.Prelude.{◌≡◌, ◌+◌, ◌<◌, ◌≤◌, ◌^◌, ◌↔◌, IfOk, OnOk, OnErr, IsTrue, codes};
ghost use Rattle.std.specs.Prelude.{IfSome, MatchOption, map};
ghost use Rattle.std.specs.Str.{chars};
ghost use Rattle.deno_graph_jsdoc.specs.JsDocImport.{import_of, moved};
ghost use Rattle.deno_graph_jsdoc.specs.JsDocImports.{Ascend, AreImportsIn, HasFronts, EndsAtDynamicImport};
ghost use Rattle.deno_graph_jsdoc.specs.JsDocImports.{EndsAtDeclaration, occurrences};
ghost use Rattle.deno_graph_jsdoc.specs.internal.Pass.{EndsWithAt, GainsImport, LeavesOpen};

use crate::grammar::cached_lists::cached_lists;
use crate::grammar::cached_spaces::cached_spaces;
use crate::grammar::parts::unclosed_len;
use crate::grammar::{declaration, dynamic};
use crate::import::{JsDocImport, Scan};
use std::alloc::{AllocError, Global};

/// Returns all imports in `text`, the text of a comment: the dynamic imports that start at a `{`,
/// and the declarations that start at an `@import`.
///
/// Fails if an allocation fails.
pub fn scan<'a>(alloc: Global, text: &'a str) -> Result<Scan<'a>, AllocError>
    ensures imports { IfOk result
        (λ scan. AreImportsIn (chars text.now) (map import_of scan.imports.items)) }
    ensures dynamic { IfOk result
        (λ scan. HasFronts EndsAtDynamicImport (chars text.now) scan.dynamic_starts) }
    ensures dynamic_at_most { IfOk result
        (λ scan. scan.dynamic_starts ≤ occurrences (codes "import") (chars text.now)) }
    ensures declarations { IfOk result
        (λ scan. HasFronts EndsAtDeclaration (chars text.now) scan.decl_starts) }
{
    let unclosed = unclosed_len(text);
    let table = cached_lists(alloc, text)?;
    let lists = table.as_slice();
    let space_table = cached_spaces(alloc, text, lists)?;
    let spaces = space_table.as_slice();
    let mut cache = None;
    let mut imports = Vec::new(alloc);
    let mut dynamic_starts = 0;
    let mut decl_starts = 0;
    let mut rest = text;
    while let Some((before, after)) = rest.split_once("import") {
        let by = text.len() - after.len();
        if ends_with_at(before) {
            decl_starts += 1;
            let found = declaration::find_import(after, unclosed, lists, &mut cache);
            add(&mut imports, found, by)?;
        }
        if leaves_open(before) {
            dynamic_starts += 1;
            add(
                &mut imports,
                dynamic::find_import(after, unclosed, lists, spaces),
                by,
            )?;
        }
        rest = after;
    }
    Ok(Scan {
        imports,
        dynamic_starts,
        decl_starts,
    })
}

/// Moves the range of an import, if there is one, by `by` bytes, and inserts the import.
///
/// Fails if an allocation fails.
fn add<'a>(
    imports: &mut Vec<JsDocImport<'a>>,
    found: Option<JsDocImport<'a>>,
    by: usize,
) -> Result<(), AllocError>
    requires ascending { Ascend (map import_of imports.old.items) }
    requires order { IfSome found
        (λ import. import.specifier_range.start ≤ import.specifier_range.end) }
    requires fits { IfSome found (λ import. import.specifier_range.end + by < 2 ^ 64) }
    ensures { OnOk result (MatchOption found.entry (imports.new.items ≡ imports.old.items)
        (λ import. GainsImport (map import_of imports.old.items)
        (moved by (import_of import)) (map import_of imports.new.items))) }
{
    let Some(import) = found else {
        return Ok(());
    };
    insert(imports, import.moved(by))
}

/// Inserts an import into a list that ascends by the start of the range. Does nothing if the list
/// has an import with the same start.
///
/// Fails if an allocation fails; the list is then unchanged.
fn insert<'a>(imports: &mut Vec<JsDocImport<'a>>, import: JsDocImport<'a>) -> Result<(), AllocError>
    requires ascending { Ascend (map import_of imports.old.items) }
    ensures ok { OnOk result (GainsImport (map import_of imports.old.items)
        (import_of import.entry) (map import_of imports.new.items)) }
    ensures err { OnErr result (imports.new.items ≡ imports.old.items) }
{
    let start = import.specifier_range.start;
    let at = imports
        .as_slice()
        .partition_point(|other| other.specifier_range.start < start);
    if let Some(other) = imports.as_slice().get(at) {
        if other.specifier_range.start == start {
            return Ok(());
        }
    }
    imports.insert(at, import)?;
    Ok(())
}

/// Returns whether a text ends with `@`.
fn ends_with_at(text: &str) -> bool
    ensures { IsTrue result ↔ EndsWithAt (chars text.now) }
{
    text.ends_with('@')
}

/// Returns whether a text has a `{` with no `}` after it.
fn leaves_open(text: &str) -> bool
    ensures { IsTrue result ↔ LeavesOpen (chars text.now) }
{
    text.chars()
        .fold(false, |open, c| (open || c == '{') && c != '}')
}
