ghost use Rattle.std.specs.Prelude.{◌≡◌, [], false, Some, None, IfOk, IfErr, string_bytes};
ghost use Rattle.serde_json.specs.View.{view};
ghost use Rattle.serde_json.specs.Written as Written;
ghost use Rattle.serde_json.specs.Written.{compact_text};
ghost use Rattle.deno_graph_info.specs.InfoFault.{IsInfoFault};
ghost use Rattle.deno_graph_info.specs.Json.ModuleInfo.{json_of_info, reads_info, IsHeldInfo};

use crate::analysis::fault::InfoFault;
use crate::analysis::js_doc_import_info::JsDocImportInfo;
use crate::analysis::type_script_reference::TypeScriptReference;
use crate::analysis::{DependencyDescriptor, SpecifierWithRange};
use deno_graph_base::values::{Items, TryClone};
use deno_graph_json::{FromJson, Tape, has_float, to_text, to_value};
use serde_json::Value;
use std::alloc::{AllocError, Global};

/// The result of analyzing a module.
#[derive(Debug, PartialEq, Eq, Drop)]
pub struct ModuleInfo {
    /// Whether the source is a script, CommonJS included: it has no import or export declaration, no
    /// `await` outside functions and no `import.meta`.
    pub is_script: bool,
    /// The dependencies, in the order of the tree. A call comes after those inside it.
    pub dependencies: Items<DependencyDescriptor>,
    /// The triple-slash references at the head of the module.
    pub ts_references: Items<TypeScriptReference>,
    /// The types of the module itself, named by `@ts-self-types`.
    pub self_types_specifier: Option<SpecifierWithRange>,
    /// The specifier that `@jsxImportSource` names.
    pub jsx_import_source: Option<SpecifierWithRange>,
    /// The specifier that `@jsxImportSourceTypes` names.
    pub jsx_import_source_types: Option<SpecifierWithRange>,
    /// The imports in JSDoc comments, in the order of the source.
    pub jsdoc_imports: Items<JsDocImportInfo>,
    /// The URL that `sourceMappingURL` names.
    pub source_map_url: Option<SpecifierWithRange>,
}

impl ModuleInfo {
    ghost use Rattle.deno_graph_info.specs.declared.analysis.module_info.ModuleInfo.{ModuleInfo};

    /// Returns an empty result of a module that is no script. Allocates nothing.
    pub fn new(alloc: Global) -> ModuleInfo
        ensures script { result.is_script ≡ false }
        ensures dependencies { result.dependencies ≡ [] }
        ensures ts_references { result.ts_references ≡ [] }
        ensures self_types_specifier { result.self_types_specifier ≡ None }
        ensures jsx_import_source { result.jsx_import_source ≡ None }
        ensures jsx_import_source_types { result.jsx_import_source_types ≡ None }
        ensures jsdoc_imports { result.jsdoc_imports ≡ [] }
        ensures source_map_url { result.source_map_url ≡ None }
    {
        ModuleInfo {
            is_script: false,
            dependencies: Items::new(alloc),
            ts_references: Items::new(alloc),
            self_types_specifier: None,
            jsx_import_source: None,
            jsx_import_source_types: None,
            jsdoc_imports: Items::new(alloc),
            source_map_url: None,
        }
    }

    /// Reads JSON. A missing member has its default, and unknown members are ignored.
    ///
    /// Returns `Float` if a number that isn't held as a whole number is anywhere in the value,
    /// `Shape` if the value can't be read, and `OutOfMemory` if an allocation fails.
    pub fn from_value(alloc: Global, value: &Value) -> Result<ModuleInfo, InfoFault>
        ensures ok { IfOk result (λ info. (Written.has_float (view value.now) ≡ false)
            × (reads_info (view value.now) ≡ Some info)) }
        ensures err { IfErr result (IsInfoFault (view value.now)) }
    {
        if has_float(value) {
            return Err(InfoFault::Float);
        }
        let tape = Tape::from_value(alloc, value)?;
        Ok(ModuleInfo::from_json(alloc, tape.root())?)
    }

    /// Returns the JSON, without members that have their default. `from_value` reads it back as an
    /// equal `ModuleInfo`. The only error is that an allocation fails.
    pub fn to_value(&self, alloc: Global) -> Result<Value, AllocError>
        ensures form { IfOk result (λ value. view value ≡ json_of_info self.now) }
        ensures read_back { IfOk result (λ value. reads_info (view value) ≡ Some self.now) }
        ensures no_float { IfOk result (λ value. Written.has_float (view value) ≡ false) }
    {
        to_value(alloc, self)
    }

    /// Returns the JSON as compact text, with the keys of each object ascending: the text that
    /// `Value::to_string` makes of `to_value`. The only error is that an allocation fails.
    pub fn to_json(&self, alloc: Global) -> Result<String, AllocError>
        ensures text { IfOk result (λ text. string_bytes text ≡ compact_text (json_of_info self.now)) }
    {
        to_text(alloc, self)
    }

    /// The law that the JSON of a `ModuleInfo` is read back as the same `ModuleInfo`. `IsHeldInfo`
    /// holds of each `ModuleInfo` that exists at run time. The call does nothing but make its
    /// contract known to the caller.
    pub fn law_of_json()
        ensures { (info : ModuleInfo) → IsHeldInfo info → reads_info (json_of_info info) ≡ Some info }
    {}
}

impl TryClone for ModuleInfo {
    fn try_clone(&self, alloc: Global) -> Result<ModuleInfo, AllocError> {
        Ok(ModuleInfo {
            is_script: self.is_script,
            dependencies: self.dependencies.try_clone(alloc)?,
            ts_references: self.ts_references.try_clone(alloc)?,
            self_types_specifier: self.self_types_specifier.try_clone(alloc)?,
            jsx_import_source: self.jsx_import_source.try_clone(alloc)?,
            jsx_import_source_types: self.jsx_import_source_types.try_clone(alloc)?,
            jsdoc_imports: self.jsdoc_imports.try_clone(alloc)?,
            source_map_url: self.source_map_url.try_clone(alloc)?,
        })
    }
}
