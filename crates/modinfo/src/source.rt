//! Source texts: documents of `analyze --source`, and the information on a text.

ghost use Rattle.std.specs.Prelude.{◌≡◌, Err, IfOk, MatchResult, None, Ok, option_map, Some};
ghost use Rattle.std.specs.String.{string_bytes};
ghost use Rattle.url.specs.Parser.{parse_url};
ghost use Rattle.deno_graph_base.specs.Position.{HasPosition};
ghost use Rattle.deno_graph_base.specs.declared.text.position.Position.{Position};
ghost use Rattle.deno_graph_json.specs.Data.{data_of};
ghost use Rattle.deno_graph_json.specs.Read.Result.{IsReadResult};
ghost use Rattle.deno_graph_source.specs.declared.tree.parse_error.ParseDiagnostic.{ParseDiagnostic};
ghost use Rattle.modinfo.specs.Fault.{fault_of_document};
ghost use Rattle.modinfo_source.specs.declared.error.TextError.TheVariants.{Defect, Syntax};
ghost use Rattle.modinfo.specs.Source.{AreNoParts, HasParts, IsInfoOfText, IsNoInfoOfText, IsNoText, IsParsed, IsTextIn};
ghost use Rattle.modinfo.specs.Source.{is_media_type, media_type_at, reads_text};

use crate::fault::Fault;
use crate::input::as_text;
use deno_graph_json::{Element, ObjectReader, ReadError, Tape};
use deno_graph_module_info::module_info;
use deno_graph_source::tree::{MediaType, ParsedSource};
use deno_graph_source::values::Text;
use json::Scratch;
use modinfo_document::{Document, DocumentError};
use modinfo_source::{TextError, parse_module};
use std::alloc::Global;
use std::rc::RcStr;
use url::Url;

/// A source text. Its specifier may be no URL, and the text may have a syntax error.
#[derive(Debug, Drop)]
pub struct SourceText {
    pub specifier: Text,
    pub source: Text,
    /// `None` for the media type that the specifier has.
    pub media_type: Option<MediaType>,
}

/// Reads a document. Returns `Mismatch` with the path to the first value that isn't as expected, or
/// `OutOfMemory` if an allocation fails.
#[tactic(auto, using(deno_graph_json::proofs::Reading::reading), unfolding(crate::specs::Source::reads_text))]
pub fn read_source_text(alloc: Global, value: Element<'_>) -> Result<SourceText, ReadError>
    ensures { IsReadResult (data_of value.entry) (reads_text (data_of value.entry)) result }
{
    let object = ObjectReader::<Document>::new(alloc, value)?;
    let specifier = object.read("specifier")?;
    let source = object.read("source")?;
    let media_type = object.read_or("mediaType", None)?;
    Ok(SourceText {
        specifier,
        source,
        media_type,
    })
}

/// Reads a document from its text. `Json` if the text isn't JSON, nests deeper than 127 or has a number
/// too large for a float; `Tree` if the JSON has another form; `OutOfMemory` if an allocation fails.
pub fn parse_source_text(alloc: Global, text: &str) -> Result<SourceText, DocumentError>
    ensures { MatchResult result (IsTextIn text.now) (λ error. IsNoText text.now (fault_of_document error)) }
{
    let mut scratch = Scratch::new(alloc);
    let tape = Tape::read(alloc, text, &mut scratch)?;
    Ok(read_source_text(alloc, tape.root())?)
}

impl SourceText {
    /// The text with this specifier and the media type with this number, which is that of its variant
    /// from 1 on, or 0 for the media type of the specifier. `Input` if the text or the specifier isn't
    /// UTF-8, `Tree` if no media type has the number, `OutOfMemory` if an allocation fails.
    pub fn from_parts(
        alloc: Global,
        text: &[u8],
        specifier: &[u8],
        media_type: u8,
    ) -> Result<SourceText, Fault>
        ensures { MatchResult result (HasParts text.now specifier.now media_type)
            (AreNoParts text.now specifier.now media_type) }
    {
        let text = as_text(text)?;
        let specifier = as_text(specifier)?;
        let Some(media_type) = media_type_at(media_type) else {
            return Err(Fault::Tree);
        };
        Ok(SourceText {
            specifier: Text::from_str(alloc, specifier)?,
            source: Text::from_str(alloc, text)?,
            media_type,
        })
    }

    /// The information on the module of the text, as compact JSON. `Specifier` if the specifier is no
    /// URL, else `Syntax` if the text has a syntax error, `Defect` if what was read isn't the text's;
    /// `OutOfMemory` if an allocation fails.
    pub fn info_text(self, alloc: Global) -> Result<String, Fault>
        ensures { MatchResult result (λ text. IsInfoOfText self (string_bytes text)) (IsNoInfoOfText self) }
    {
        let source = source_of_text(alloc, self)?;
        Ok(module_info(alloc, &source)?.to_json(alloc)?)
    }

    /// Parses the specifier. `Specifier` if it is no URL, `OutOfMemory` if an allocation fails or the
    /// URL would take 4 GB.
    pub fn url(&self, alloc: Global) -> Result<Url, DocumentError>
        ensures { MatchResult result (λ url. parse_url None self.now.specifier ≡ Ok url)
            (λ error. IsNoInfoOfText self.now (fault_of_document error)) }
    {
        Ok(Url::parse(alloc, self.specifier.as_str())?)
    }

    /// The source that the parser makes of the text, whose specifier was parsed. `Syntax` if the text has a
    /// syntax error, and `Defect` if what was read isn't the text's, both with a position of the text;
    /// `OutOfMemory` if an allocation fails.
    pub fn into_source(self, alloc: Global, specifier: Url) -> Result<ParsedSource, TextError>
        ensures parsed { parse_url None self.specifier ≡ Ok specifier → IfOk result (IsParsed self) }
        ensures position { (diagnostic : ParseDiagnostic) → result ≡ Err (Syntax diagnostic)
            → HasPosition self.source diagnostic.position }
        ensures defect { (position : Position) → result ≡ Err (Defect position)
            → HasPosition self.source position }
    {
        let SourceText {
            source: text,
            media_type,
            ..
        } = self;
        let media_type = media_type.unwrap_or(MediaType::from_specifier(&specifier));
        let source = RcStr::from_str(alloc, text.as_str())?;
        drop(text);
        parse_module(alloc, specifier, source, media_type)
    }
}

/// The source of a text. `Specifier` if the specifier is no URL, else `Syntax` if the text has a syntax
/// error, `Defect` if what was read isn't the text's; `OutOfMemory` if an allocation fails.
fn source_of_text(alloc: Global, text: SourceText) -> Result<ParsedSource, Fault>
    ensures { MatchResult result (IsParsed text) (IsNoInfoOfText text) }
{
    let specifier = text.url(alloc)?;
    Ok(text.into_source(alloc, specifier)?)
}

/// Returns whether a number is that of a media type, or 0, for the media type of the specifier.
pub fn is_media_type(number: u8) -> bool
    ensures { result ≡ is_media_type number }
{
    media_type_at(number).is_some()
}

/// The media type with this number. `None` inside for that of the specifier.
#[tactic(auto, unfolding(crate::specs::Source::media_type_at))]
fn media_type_at(number: u8) -> Option<Option<MediaType>>
    ensures { result ≡ media_type_at number }
{
    match number {
        0 => Some(None),
        1 => Some(Some(MediaType::JavaScript)),
        2 => Some(Some(MediaType::Jsx)),
        3 => Some(Some(MediaType::Mjs)),
        4 => Some(Some(MediaType::Cjs)),
        5 => Some(Some(MediaType::TypeScript)),
        6 => Some(Some(MediaType::Mts)),
        7 => Some(Some(MediaType::Cts)),
        8 => Some(Some(MediaType::Dts)),
        9 => Some(Some(MediaType::Dmts)),
        10 => Some(Some(MediaType::Dcts)),
        11 => Some(Some(MediaType::Tsx)),
        12 => Some(Some(MediaType::Json)),
        13 => Some(Some(MediaType::Other)),
        _ => None,
    }
}
