//! From a document to the answer.

ghost use Rattle.std.specs.Prelude.{◌≡◌, ℕ, IsUtf8, List, MatchResult, Option};
ghost use Rattle.std.specs.String.{string_bytes};
ghost use Rattle.deno_graph_source.specs.ParsedSource.{ParsedModule};
ghost use Rattle.deno_graph_module_info.specs.InfoOfModule.{IsInfoOfModule};
ghost use Rattle.serde_json.specs.Data.{Data};
ghost use Rattle.modinfo_document.specs.Document.{Contents, IsDocumentIn};
ghost use Rattle.modinfo.specs.Answer.{IsAnswerTo, IsDocumentFault, IsInfoText, IsModuleOf};
ghost use Rattle.modinfo.specs.Answer.{IsNoModule};
ghost use Rattle.modinfo.specs.internal.Request.{IsReadFrom, format_of};

use crate::convert::convert_text;
use crate::fault::Fault;
use crate::format::Format;
use crate::input::as_text;
use crate::reach::{Question, parse_question};
use crate::source::{SourceText, parse_source_text};
use deno_graph_info::analysis::ModuleInfo;
use deno_graph_module_info::module_info;
use deno_graph_source::tree::ParsedSource;
use modinfo_document::{Document, parse_document};
use modinfo_estree::parse_estree;
use std::alloc::Global;

/// A document that was read. Borrows none of the input, which can be dropped before the answer is made.
#[derive(Drop)]
pub enum Request {
    /// A module document, whose tree isn't checked yet.
    Module(Document),
    /// A module document that was read from the tree of a parser.
    Estree(Document),
    /// A source text, which isn't parsed yet.
    Source(SourceText),
    /// The converted information, of version 2, as compact JSON.
    Stored(String),
    /// A root, and the information on modules.
    Modules(Question),
}

impl Request {
    /// Reads a document of the format. The error is `Input` if the bytes aren't UTF-8, a fault of the
    /// document, or `OutOfMemory` if an allocation fails.
    pub fn read(alloc: Global, format: Format, document: &[u8]) -> Result<Request, Fault>
        ensures { MatchResult result
            (λ request. (format_of request ≡ format) × IsUtf8 document.now × IsReadFrom document.now request)
            (IsDocumentFault format document.now) }
    {
        let text = as_text(document)?;
        match format {
            Format::Module => Ok(Request::Module(parse_document(alloc, text)?)),
            Format::Estree => Ok(Request::Estree(parse_estree(alloc, text)?)),
            Format::Source => Ok(Request::Source(parse_source_text(alloc, text)?)),
            Format::Stored => Ok(Request::Stored(convert_text(alloc, text)?)),
            Format::Modules => Ok(Request::Modules(parse_question(alloc, text)?)),
        }
    }

    /// The answer to the document: compact JSON, without a line feed. The error is a fault of the
    /// document, or `OutOfMemory` if an allocation fails.
    pub fn answer(self, alloc: Global) -> Result<String, Fault>
        ensures { (document : List ℕ) → IsReadFrom document self → MatchResult result
            (λ text. IsAnswerTo (format_of self) document (string_bytes text))
            (IsDocumentFault (format_of self) document) }
    {
        match self {
            Request::Module(document) => analyze(alloc, document),
            Request::Estree(document) => analyze(alloc, document),
            Request::Source(text) => text.info_text(alloc),
            Request::Stored(text) => Ok(text),
            Request::Modules(question) => Ok(question.answer(alloc)?),
        }
    }
}

/// The information on the module of a document, as JSON.
fn analyze(alloc: Global, document: Document) -> Result<String, Fault>
    ensures { (reads : Data → Option Contents) → (text : List ℕ) → IsDocumentIn reads text document
        → MatchResult result (λ printed. IsInfoText reads text (string_bytes printed)) (IsNoModule reads text) }
{
    Ok(info_of(alloc, document)?.to_json(alloc)?)
}

/// The information on the module of a document. Drops the tree.
fn info_of(alloc: Global, document: Document) -> Result<ModuleInfo, Fault>
    ensures { (reads : Data → Option Contents) → (text : List ℕ) → IsDocumentIn reads text document
        → MatchResult result (λ info. (module_ : ParsedModule) × IsModuleOf reads text module_ × IsInfoOfModule module_ info)
        (IsNoModule reads text) }
{
    let source = source_of(alloc, document)?;
    Ok(module_info(alloc, &source)?)
}

/// The source of a document.
fn source_of(alloc: Global, document: Document) -> Result<ParsedSource, Fault>
    ensures { (reads : Data → Option Contents) → (text : List ℕ) → IsDocumentIn reads text document
        → MatchResult result (IsModuleOf reads text) (IsNoModule reads text) }
{
    Ok(document.into_source(alloc)?)
}
