//! Module documents.

ghost use Rattle.std.specs.Prelude.{◌≡◌, MatchResult, None, Ok};
ghost use Rattle.url.specs.Parser.{parse_url};
ghost use Rattle.deno_graph_json.specs.Data.{data_of};
ghost use Rattle.deno_graph_json.specs.ObjectReader.{readable, value_of};
ghost use Rattle.modinfo_document.specs.Document.{Has, IsDocumentOf, IsNoDocument, IsNoSource, IsNoUrl};
ghost use Rattle.modinfo_document.specs.Document.{IsSourceOf, reads_document};
ghost use Rattle.modinfo_document.specs.Result.{IsReadResultBy};
ghost use Rattle.modinfo_document.specs.internal.Document.{reads_tree};
ghost use Rattle.modinfo_document.specs.Comments.{HasTree};

use crate::comments::read_comments;
use crate::error::DocumentError;
use deno_graph_json::{Element, ObjectReader, ReadError, Tape};
use deno_graph_source::tree::{Comments, MediaType, ParsedSource, Program};
use deno_graph_source::values::Text;
use json::Scratch;
use std::alloc::Global;
use std::rc::RcStr;
use url::Url;

/// A module document. Its specifier may be no URL, and its tree and comments may not fit its source:
/// `into_source` checks them.
#[derive(Debug, Drop)]
pub struct Document {
    pub specifier: Text,
    pub media_type: MediaType,
    pub source: RcStr,
    pub program: Program,
    pub comments: Comments,
}

/// Reads a document. Returns `Mismatch` with the path to the first value that isn't as expected, or
/// `OutOfMemory` if an allocation fails.
pub fn read_document(alloc: Global, value: Element<'_>) -> Result<Document, ReadError>
    ensures { IsReadResultBy Has (data_of value.entry) (reads_document (data_of value.entry)) result }
{
    let object = ObjectReader::<Document>::new(alloc, value)?;
    let specifier = object.read("specifier")?;
    let media_type = object.read("mediaType")?;
    let text = object.read_str("source")?;
    let source = RcStr::from_str(alloc, text)?;
    let (comments, program) = read_tree(alloc, &object)?;
    Ok(Document {
        specifier,
        media_type,
        source,
        program,
        comments,
    })
}

/// Reads the comments and the program.
fn read_tree(
    alloc: Global,
    object: &ObjectReader<Document>,
) -> Result<(Comments, Program), ReadError>
    ensures { IsReadResultBy HasTree (value_of object.now) (reads_tree (readable object.now)) result }
{
    let comments = read_comments(alloc, object)?;
    let program = object.read("program")?;
    Ok((comments, program))
}

/// Reads a document from its text. `Json` if the text isn't JSON, nests deeper than 127 or has a
/// number too large for a float; `Tree` if the JSON has another form; `OutOfMemory` if an allocation
/// fails.
pub fn parse_document(alloc: Global, text: &str) -> Result<Document, DocumentError>
    ensures { MatchResult result (IsDocumentOf text.now) (IsNoDocument text.now) }
{
    let mut scratch = Scratch::new(alloc);
    let tape = Tape::read(alloc, text, &mut scratch)?;
    Ok(read_document(alloc, tape.root())?)
}

impl Document {
    /// Parses the specifier. `Specifier` if it is no URL, `OutOfMemory` if an allocation fails or the
    /// URL would take 4 GB.
    pub fn url(&self, alloc: Global) -> Result<Url, DocumentError>
        ensures { MatchResult result (λ url. parse_url None self.now.specifier ≡ Ok url)
            (IsNoUrl self.now) }
    {
        Ok(Url::parse(alloc, self.specifier.as_str())?)
    }

    /// The source, without scope analysis. `Specifier` if the specifier is no URL; else `Source` if the
    /// tree or the comments don't fit the source; `OutOfMemory` as for `url`.
    pub fn into_source(self, alloc: Global) -> Result<ParsedSource, DocumentError>
        ensures { MatchResult result (IsSourceOf self) (IsNoSource self) }
    {
        let Document {
            specifier,
            media_type,
            source,
            program,
            comments,
        } = self;
        let specifier = Url::parse(alloc, specifier.as_str())?;
        Ok(ParsedSource::new(
            alloc, specifier, source, media_type, program, comments, false,
        )?)
    }
}
