//! Laws of the imports in the text of a comment.

ghost use Rattle.std.specs.Prelude.{◌≡◌, ℕ, List};
ghost use Rattle.deno_graph_jsdoc.specs.JsDocImport.{Import};
ghost use Rattle.deno_graph_jsdoc.specs.JsDocImports.{AreImportsIn, IsImportIn};

/// Two imports in a text whose ranges start at the same offset are equal.
pub fn one_import_at_a_start()
    ensures { (text : List ℕ) (import other : Import)
        → IsImportIn text import → IsImportIn text other → import.start ≡ other.start → import ≡ other }
{}

/// Two lists of all imports in a text are equal.
pub fn one_list_of_imports()
    ensures { (text : List ℕ) (imports others : List Import)
        → AreImportsIn text imports → AreImportsIn text others → imports ≡ others }
{}

/// Every text has a list of all its imports.
pub fn a_list_of_imports()
    ensures { (text : List ℕ) → (imports : List Import) × AreImportsIn text imports }
{}
