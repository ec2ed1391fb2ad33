//! Laws of the imports in comments. These functions do nothing: a caller learns a law from the
//! contract.

ghost use Rattle.std.specs.Prelude.{◌≡◌, ◌↔◌, ℕ, Bool, List};
ghost use Rattle.std.specs.List.{All, Contains};
ghost use Rattle.std.specs.Str.{IsUtf8};
ghost use Rattle.deno_graph_jsdoc.specs.JsDocImport.{Import};
ghost use Rattle.deno_graph_module_info.specs.CommentImports.{AreApart, AreImports};
ghost use Rattle.deno_graph_module_info.specs.JsDocInfo.{IsJsDocList};
ghost use Rattle.deno_graph_info.specs.declared.analysis.js_doc_import_info.JsDocImportInfo.{JsDocImportInfo};
ghost use Rattle.deno_graph_source.specs.Source.{IsSpelled};
ghost use Rattle.deno_graph_source.specs.declared.tree.comments.DependencyComment.{DependencyComment};

/// Ensures that comments have a list of all their imports, if a text has the comments at their ranges
/// and unequal comments share no byte.
pub fn a_list_of_imports()
    ensures { (text : List ℕ) (comments : List DependencyComment)
        → All (IsSpelled text) comments → AreApart comments → All (λ comment. IsUtf8 comment.text) comments
        → (imports : List Import) × AreImports comments imports }
{}

/// Ensures that comments have at most one list of all their imports.
pub fn one_list_of_imports()
    ensures { (comments : List DependencyComment) (imports others : List Import)
        → AreImports comments imports → AreImports comments others → imports ≡ others }
{}

/// Ensures that two lists of the same comments, in any order and with any repetitions, have the same
/// infos of JSDoc imports.
pub fn same_comments_have_one_list()
    ensures also { (reads : Bool) (text : List ℕ) (xs ys : List DependencyComment)
        (infos : List JsDocImportInfo)
        → ((comment : DependencyComment) → Contains xs comment ↔ Contains ys comment)
        → IsJsDocList reads text xs infos → IsJsDocList reads text ys infos }
    ensures equal { (reads : Bool) (text : List ℕ) (xs ys : List DependencyComment)
        (infos others : List JsDocImportInfo)
        → ((comment : DependencyComment) → Contains xs comment ↔ Contains ys comment)
        → IsJsDocList reads text xs infos → IsJsDocList reads text ys others → infos ≡ others }
{}
