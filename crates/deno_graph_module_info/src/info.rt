ghost use Rattle.std.specs.Prelude.{IfOk};
ghost use Rattle.deno_graph_source.specs.Source.{IsValid};
ghost use Rattle.deno_graph_module_info.specs.ModuleInfo.{HasExactRanges, IsModuleInfo};
ghost use Rattle.deno_graph_module_info.specs.SpelledDependencies.{SpellDependencies};

use crate::dependencies::analyze_dependencies;
use crate::head_pragmas::{
    analyze_jsx_import_source, analyze_jsx_import_source_types, analyze_ts_self_types,
};
use crate::head_tail::{head_comments, tail_comments};
use crate::jsdoc::analyze_jsdoc_imports;
use crate::references::analyze_ts_references;
use crate::script::is_script;
use crate::source_map::analyze_source_map_url;
use crate::spelled::SpelledComments;
use deno_graph_base::text::SourceTextInfo;
use deno_graph_info::analysis::ModuleInfo;
use deno_graph_source::tree::{Comments, MediaType, ParsedSource, Program};
use std::alloc::{AllocError, Global};

/// Analyzes a parsed module. Fails only if an allocation fails.
pub fn module_info(alloc: Global, source: &ParsedSource) -> Result<ModuleInfo, AllocError>
    ensures is { IfOk result (IsModuleInfo source.now.text source.now.media_type
        source.now.program source.now.comments) }

    // The range of each specifier that a comment names covers exactly that specifier, with its quotes
    // if it has any.
    ensures ranges { IfOk result (HasExactRanges source.now.text) }

    // Whatever texts the unknown parts have, each argument spells the text of its expression.
    ensures spells { IfOk result
        (λ info. SpellDependencies source.now.program.body info.dependencies) }
{
    module_info_from_program(
        alloc,
        source.media_type(),
        source.program(),
        source.text_info_lazy(),
        source.comments(),
    )
}

/// Analyzes a module from its parts, which must be those of a valid source, as the parts of a
/// `ParsedSource` are. Fails only if an allocation fails.
pub fn module_info_from_program(
    alloc: Global,
    media_type: MediaType,
    program: &Program,
    text_info: &SourceTextInfo,
    comments: &Comments,
) -> Result<ModuleInfo, AllocError>
    requires { IsValid text_info.now program.now comments.now }
    ensures is { IfOk result
        (IsModuleInfo text_info.now media_type program.now comments.now) }

    // The range of each specifier that a comment names covers exactly that specifier, with its quotes
    // if it has any.
    ensures ranges { IfOk result (HasExactRanges text_info.now) }

    // Whatever texts the unknown parts have, each argument spells the text of its expression.
    ensures spells { IfOk result (λ info. SpellDependencies program.now.body info.dependencies) }
{
    let head = SpelledComments {
        text_info,
        comments: head_comments(program, comments),
    };
    let tail = SpelledComments {
        text_info,
        comments: tail_comments(program, comments),
    };
    Ok(ModuleInfo {
        is_script: is_script(program),
        dependencies: analyze_dependencies(alloc, program, text_info, comments)?,
        ts_references: analyze_ts_references(alloc, head)?,
        self_types_specifier: analyze_ts_self_types(alloc, media_type, head)?,
        jsx_import_source: analyze_jsx_import_source(alloc, media_type, head)?,
        jsx_import_source_types: analyze_jsx_import_source_types(alloc, media_type, head)?,
        jsdoc_imports: analyze_jsdoc_imports(alloc, media_type, text_info, comments)?,
        source_map_url: analyze_source_map_url(alloc, tail)?,
    })
}
