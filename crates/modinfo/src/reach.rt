//! Documents of `reach`: a root, and the information on modules by their keys.

ghost use Rattle.std.specs.Prelude.{◌≡◌, ℕ, map, IfErr, IfOk, List, MatchResult, Some};
ghost use Rattle.std.specs.String.{string_bytes};
ghost use Rattle.serde_json.specs.Data.{Data, object, string};
ghost use Rattle.serde_json.specs.Find.{get};
ghost use Rattle.serde_json.specs.Written.{compact_text};
ghost use Rattle.deno_graph_base.specs.TextMap.{entries_of};
ghost use Rattle.deno_graph_json.specs.Data.{data_of, members_data};
ghost use Rattle.deno_graph_json.specs.Object.{array_of};
ghost use Rattle.deno_graph_json.specs.Read.Error.{Expects, IsIn, IsMismatch};
ghost use Rattle.deno_graph_json.specs.Read.Partial.{reads_map, reads_members};
ghost use Rattle.deno_graph_json.specs.declared.expected.Expected.{Expected};
ghost use Rattle.deno_graph_info.specs.InfoFault.{IsInfoFault};
ghost use Rattle.modinfo.specs.Answer.{IsNoReach};
ghost use Rattle.modinfo.specs.Reach.{Asks, IsFirstFault, IsQuestionFault, IsReachText, reads_stored};
ghost use Rattle.modinfo.specs.internal.Reach.{IsErrorIn, IsFloatRead, IsModulesFault, IsQuestionOf};

use crate::fault::Fault;
use deno_graph_info::analysis::{InfoFault, ModuleInfo};
use deno_graph_info::reach::reach;
use deno_graph_json::read::read_object;
use deno_graph_json::{
    Element, Expected, FromJson, Members, ObjectReader, ReadError, Tape, find_float, to_text,
};
use deno_graph_source::values::{Items, Text, TextMap};
use json::Scratch;
use std::alloc::{AllocError, AllocFailed, Global};
use std::collections::BTreeMap;

/// A document of `reach`.
#[derive(Drop)]
pub struct Question {
    pub infos: BTreeMap<String, ModuleInfo>,
    pub root: Text,
}

impl Question {
    /// The keys that the root reaches, as compact JSON. The only error is a failed allocation.
    pub fn answer(self, alloc: Global) -> Result<String, AllocError>
        ensures { (text : List ℕ) → IsQuestionOf text self
            → IfOk result (λ printed. IsReachText text (string_bytes printed)) }
    {
        let keys = reach(alloc, &self.infos, self.root.as_str())?;
        keys_text(alloc, keys)
    }
}

/// Reads a document. The error is `Json` if the text isn't JSON, a fault of its value, or `OutOfMemory`
/// if an allocation fails.
pub fn parse_question(alloc: Global, text: &str) -> Result<Question, Fault>
    ensures { MatchResult result (IsQuestionOf text.now) (IsNoReach text.now) }
{
    let mut scratch = Scratch::new(alloc);
    let tape = Tape::read(alloc, text, &mut scratch)?;
    Ok(read_question(alloc, tape.root())?)
}

/// Why a document can't be read: a fault, and the value that isn't as expected, or a failed allocation.
#[derive(Drop)]
pub struct QuestionError {
    pub fault: InfoFault,
    pub error: ReadError,
}

impl QuestionError {
    /// Adds the name of a member to the path of the error.
    fn in_member(self, alloc: Global, name: &str) -> QuestionError
        ensures fault { result.fault ≡ self.fault }
        ensures place { (object member : Data) → get name.now object ≡ Some member
            → IsIn member self.error → IsIn object result.error }
        ensures mismatch { IsMismatch result.error → IsMismatch self.error }
        ensures expected { (wanted : Expected) → Expects wanted self.error → Expects wanted result.error }
    {
        QuestionError {
            fault: self.fault,
            error: self.error.in_member(alloc, name),
        }
    }
}

impl From<ReadError> for QuestionError {
    ghost use Rattle.std.specs.Prelude.{◌≡◌};
    ghost use Rattle.modinfo.specs.internal.Reach.{shape_error};

    ghost from_gives = { λ error given. given ≡ shape_error error };

    fn from(error: ReadError) -> QuestionError {
        QuestionError {
            fault: InfoFault::Shape,
            error,
        }
    }
}

impl From<AllocError> for QuestionError {
    ghost use Rattle.std.specs.Prelude.{◌≡◌};
    ghost use Rattle.deno_graph_json.specs.declared.error.ReadError.TheVariants.{OutOfMemory};
    ghost use Rattle.modinfo.specs.internal.Reach.{shape_error};

    ghost from_gives = { λ _ given. given ≡ shape_error OutOfMemory };

    fn from(_error: AllocError) -> QuestionError {
        QuestionError::from(ReadError::OutOfMemory)
    }
}

impl<T: Drop> From<AllocFailed<T>> for QuestionError {
    ghost use Rattle.std.specs.Prelude.{◌≡◌};
    ghost use Rattle.deno_graph_json.specs.declared.error.ReadError.TheVariants.{OutOfMemory};
    ghost use Rattle.modinfo.specs.internal.Reach.{shape_error};

    ghost from_gives = { λ _ given. given ≡ shape_error OutOfMemory };

    fn from(_error: AllocFailed<T>) -> QuestionError {
        QuestionError::from(ReadError::OutOfMemory)
    }
}

/// Reads the value of a document: first the root, then the modules in the order of their keys. The error is
/// the first fault, with the value that isn't as expected, or `OutOfMemory` if an allocation fails.
pub fn read_question(alloc: Global, document: Element<'_>) -> Result<Question, QuestionError>
    ensures read { MatchResult result
        (λ question. Asks (data_of document.entry) (entries_of question.infos) question.root)
        (IsErrorIn (IsQuestionFault (data_of document.entry)) (data_of document.entry)) }
    ensures float { IfErr result (IsFloatRead (data_of document.entry)) }
{
    let object = ObjectReader::<Question>::new(alloc, document)?;
    let root = object.read("root")?;
    let Some(modules) = object.get("modules") else {
        return Err(QuestionError::from(ReadError::expected(alloc, Expected::Member("modules"))));
    };
    match read_modules(alloc, modules) {
        Ok(infos) => Ok(Question {
            infos: infos.into_map(),
            root,
        }),
        Err(error) => Err(error.in_member(alloc, "modules")),
    }
}

/// Reads the value of `modules`.
fn read_modules(alloc: Global, modules: Element<'_>) -> Result<TextMap<ModuleInfo>, QuestionError>
    ensures { MatchResult result
        (λ infos. reads_map reads_stored (data_of modules.entry) ≡ Some infos)
        (IsErrorIn (IsModulesFault (data_of modules.entry)) (data_of modules.entry)) }
{
    let members = read_object(alloc, modules)?;
    read_infos(alloc, members)
}

/// Reads the information on each module, in the order of the keys.
fn read_infos(alloc: Global, modules: Members<'_>) -> Result<TextMap<ModuleInfo>, QuestionError>
    ensures { MatchResult result
        (λ infos. reads_members reads_stored (members_data modules.entry) ≡ Some infos)
        (IsErrorIn (IsFirstFault (members_data modules.entry)) (object (members_data modules.entry))) }
{
    let found = modules.sorted(alloc)?;
    let mut infos = TextMap::new(alloc);
    for (key, value) in &found {
        match read_info(alloc, *value) {
            Ok(info) => drop(infos.insert(Text::from_str(alloc, key)?, info)?),
            Err(error) => return Err(error.in_member(alloc, key)),
        }
    }
    Ok(infos)
}

/// Reads the information on a module.
fn read_info(alloc: Global, value: Element<'_>) -> Result<ModuleInfo, QuestionError>
    ensures { MatchResult result (λ info. reads_stored (data_of value.entry) ≡ Some info)
        (IsErrorIn (IsInfoFault (data_of value.entry)) (data_of value.entry)) }
{
    if let Err(error) = find_float(alloc, value) {
        return Err(QuestionError {
            fault: InfoFault::Float,
            error,
        });
    }
    Ok(ModuleInfo::from_json(alloc, value)?)
}

/// The keys as an array in compact JSON.
fn keys_text(alloc: Global, keys: Vec<String>) -> Result<String, AllocError>
    ensures { IfOk result
        (λ text. string_bytes text ≡ compact_text (array_of string (map string_bytes keys.items))) }
{
    let mut texts = Items::new(alloc);
    for key in keys {
        texts.push(Text::from_string(key))?;
    }
    to_text(alloc, &texts)
}
