//! Laws of module documents, each as the contract of a function that does nothing.

ghost use Rattle.std.specs.Prelude.{◌≡◌, ℕ, List, Option};
ghost use Rattle.deno_graph_source.specs.ParsedSource.{ParsedModule};
ghost use Rattle.modinfo.specs.Answer.{IsModuleOf};
ghost use Rattle.modinfo_document.specs.Check.{IsInvalidIn, IsValidIn};
ghost use Rattle.modinfo_document.specs.Document.{Contents};
ghost use Rattle.serde_json.specs.Data.{Data};

/// A text has at most one module, whatever the form of the documents is.
pub fn each_text_has_one_module()
    ensures { (reads : Data → Option Contents) → (text : List ℕ) → (one other : ParsedModule)
        → IsModuleOf reads text one → IsModuleOf reads text other → one ≡ other }
{}

/// A text that is a valid document of a form has no error as one.
pub fn no_valid_text_has_a_fault()
    ensures { (reads : Data → Option Contents) → (text : List ℕ) → IsValidIn reads text
        → IsInvalidIn reads text → ⊥ }
{}
