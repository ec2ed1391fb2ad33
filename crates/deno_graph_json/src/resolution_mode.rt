ghost use Rattle.std.specs.Prelude.{◌≡◌, IfErr};
ghost use Rattle.serde_json.specs.Data.{string};
ghost use Rattle.deno_graph_base.specs.ResolutionMode.{mode_named};
ghost use Rattle.deno_graph_json.specs.Read.Error.{Expects};
ghost use Rattle.deno_graph_json.specs.Read.Result.{IsReadResult};
ghost use Rattle.deno_graph_json.specs.declared.expected.Expected.TheVariants.{NameIn};
ghost use Rattle.deno_graph_json.specs.declared.names.NameList.TheVariants.{ResolutionModes};
ghost use Rattle.deno_graph_json.specs.Json.ResolutionMode.{json_of_mode, mode_name, reads_mode};

use crate::read::read_str;
use crate::{Element, Expected, FromJson, JsonWriter, NameList, ReadError, ToJson};
use deno_graph_base::values::TypeScriptTypesResolutionMode;
use std::alloc::{AllocError, Global};

impl ToJson for TypeScriptTypesResolutionMode {
    ghost json = { json_of_mode };

    fn write(&self, out: &mut JsonWriter) -> Result<(), AllocError> {
        out.string(name_of(*self))
    }
}

/// Returns the name of the mode in JSON.
fn name_of(mode: TypeScriptTypesResolutionMode) -> &'static str
    ensures { result.now ≡ mode_name mode }
{
    match mode {
        TypeScriptTypesResolutionMode::Require => "require",
        TypeScriptTypesResolutionMode::Import => "import",
    }
}

impl<Whole> FromJson<Whole> for TypeScriptTypesResolutionMode {
    ghost reads = { reads_mode };

    #[tactic(auto, using(crate::proofs::Reading::reading), unfolding(crate::specs::Json::ResolutionMode::reads_mode))]
    fn from_json(
        alloc: Global,
        value: Element<'_>,
    ) -> Result<TypeScriptTypesResolutionMode, ReadError> {
        let name = read_str(alloc, value)?;
        mode_named(alloc, name)
    }
}

/// Returns the mode with this name in JSON.
fn mode_named(alloc: Global, name: &str) -> Result<TypeScriptTypesResolutionMode, ReadError>
    ensures read { IsReadResult (string name.now) (mode_named name.now) result }
    ensures expected { IfErr result (Expects (NameIn ResolutionModes)) }
{
    match TypeScriptTypesResolutionMode::from_str(name) {
        Some(mode) => Ok(mode),
        None => Err(ReadError::expected(alloc, Expected::NameIn(NameList::ResolutionModes))),
    }
}
