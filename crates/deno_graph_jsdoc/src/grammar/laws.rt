//! Laws of the grammar: a text begins with at most one import of each form.

ghost use Rattle.std.specs.Prelude.{◌≡◌, ℕ, List};
ghost use Rattle.deno_graph_jsdoc.specs.JsDocImport.{Import, IsDeclaration, IsDynamicImport};

/// A text begins with at most one declaration, which has one specifier, range, mode and rest.
pub fn one_declaration()
    ensures { (input : List ℕ) (import other : Import) (rest after : List ℕ)
        → IsDeclaration input import rest → IsDeclaration input other after
        → (import ≡ other) × (rest ≡ after) }
{}

/// A text begins with at most one dynamic import, which has one specifier, range, mode and rest.
pub fn one_dynamic_import()
    ensures { (input : List ℕ) (import other : Import) (rest after : List ℕ)
        → IsDynamicImport input import rest → IsDynamicImport input other after
        → (import ≡ other) × (rest ≡ after) }
{}
