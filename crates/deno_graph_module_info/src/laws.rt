//! Laws of the `ModuleInfo` of a module. These functions do nothing: a caller learns a law from the
//! contract.

ghost use Rattle.std.specs.Prelude.{◌≡◌, All, List, ℕ};
ghost use Rattle.std.specs.Str.{IsUtf8};
ghost use Rattle.deno_graph_module_info.specs.InfoOfModule.{IsInfoOfSource};
ghost use Rattle.deno_graph_module_info.specs.ModuleInfo.{IsModuleInfo};
ghost use Rattle.deno_graph_info.specs.declared.analysis.module_info.ModuleInfo.{ModuleInfo};
ghost use Rattle.deno_graph_source.specs.Comments.{FiledComments, comments_of};
ghost use Rattle.deno_graph_source.specs.Source.{IsValid};
ghost use Rattle.deno_graph_source.specs.declared.tree.media_type.MediaType.{MediaType};
ghost use Rattle.deno_graph_source.specs.declared.tree.node.Program.{Program};

use deno_graph_pragmas::finders::laws::captures_are_unique;

/// Ensures that each valid source of each media type has a `ModuleInfo`, with exact ranges, and with
/// arguments that spell the texts of their expressions. The texts of comments must be UTF-8, as each
/// `Text` is.
pub fn each_source_has_info()
    ensures { (text : List ℕ) (media_type : MediaType) (program : Program) (comments : FiledComments)
        → IsValid text program comments
        → All (λ comment. IsUtf8 comment.text) (comments_of comments)
        → (info : ModuleInfo) × IsInfoOfSource text media_type program comments info }
{}

/// Ensures that a source has at most one `ModuleInfo`.
pub fn a_source_has_one_info()
    ensures { (text : List ℕ) (media_type : MediaType) (program : Program) (comments : FiledComments)
        (info other : ModuleInfo) → IsModuleInfo text media_type program comments info
        → IsModuleInfo text media_type program comments other → info ≡ other }
{
    captures_are_unique();
}
