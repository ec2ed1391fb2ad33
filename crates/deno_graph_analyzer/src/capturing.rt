//! A parser and an analyzer that store what they parse, and parse no stored text again.

ghost use Rattle.std.specs.Prelude.{◌≡◌, ◌+◌, ◌≤◌, ◌⊎◌, ◌↔◌, IsTrue, Some, Err, IfSome, IfNone, IfOk, OnOk, OnErr};
ghost use Rattle.std.specs.Rc.{rc_str_bytes};
ghost use Rattle.deno_graph_analyzer.specs.Analysis.{IsAnalyzeResult};
ghost use Rattle.deno_graph_analyzer.specs.Captures.{Captures, IsSoundState, state};
ghost use Rattle.deno_graph_analyzer.specs.Capturing.{MatchesInput};
ghost use Rattle.deno_graph_analyzer.specs.CapturingEsParser.{borrowed_parser, borrowed_store, borrowed_state};
ghost use Rattle.deno_graph_analyzer.specs.CapturingModuleAnalyzer.{parser_of, store_of, analyzer_state};
ghost use Rattle.deno_graph_analyzer.specs.Commands.{input};
ghost use Rattle.deno_graph_analyzer.specs.Parsing.{IsParseResult, input_of_options, specifier_text};
ghost use Rattle.deno_graph_analyzer.specs.Runs.{Analyzes};
ghost use Rattle.deno_graph_analyzer.specs.Sources.{source_at, with_source, without_source, with_mark};
ghost use Rattle.deno_graph_analyzer.specs.internal.LookUp.{after_look_up_of};

use crate::analyzer::{AnalyzeError, ModuleAnalyzer, info_of};
use crate::parser::{EsParser, ParseError, ParseOptions};
use crate::store::ParsedSourceStore;
use deno_graph_base::values::TryClone;
use deno_graph_info::analysis::ModuleInfo;
use deno_graph_source::tree::{MediaType, ParsedSource};
use std::alloc::{AllocError, Global};
use std::rc::RcStr;
use url::Url;

/// Returns the stored source if it has the text and the media type of `options`. Otherwise calls the
/// parser, and stores its result under the specifier.
///
/// An error leaves the store unchanged, except that with the scope option the source under the
/// specifier may have its mark set, even if it has another text.
pub fn capture<P: EsParser, S: ParsedSourceStore>(
    alloc: Global,
    parser: &mut P,
    store: &mut S,
    options: ParseOptions<'_>,
) -> Result<ParsedSource, ParseError>
    ensures { Captures P.parses P.count P.is_sound P.may_return
        options.entry.scope_analysis (input_of_options options.entry)
        (state parser.old (S.sources store.old)) result
        (state parser.new (S.sources store.new)) }
{
    match matching(look_up(alloc, store, &options)?, &options) {
        Some(source) => Ok(source),
        None => parse_and_store(alloc, parser, store, options),
    }
}

/// Returns the source under the specifier. With the scope option, sets its mark first.
fn look_up<S: ParsedSourceStore>(
    alloc: Global,
    store: &mut S,
    options: &ParseOptions<'_>,
) -> Result<Option<ParsedSource>, AllocError>
    ensures found { IfOk result (λ found.
        found ≡ source_at (S.sources store.new) (input_of_options options.now).specifier) }
    ensures ok { OnOk result (S.sources store.new ≡ after_look_up_of options.now (S.sources store.old)) }
    ensures err { OnErr result (S.sources store.new ≡ S.sources store.old) }
{
    if options.scope_analysis {
        store.get_scope_analysis_parsed_source(alloc, options.specifier)
    } else {
        store.get_parsed_source(alloc, options.specifier)
    }
}

/// Returns the source if it has the text and the media type of `options`.
fn matching(found: Option<ParsedSource>, options: &ParseOptions<'_>) -> Option<ParsedSource>
    ensures stored { IfSome result (λ source.
        (found ≡ Some source) × MatchesInput (input_of_options options.now) source) }
    ensures absent { IfNone result (IfSome found (λ source. ¬ MatchesInput (input_of_options options.now) source)) }
{
    let source = found?;
    if matches_input(&source, options) {
        Some(source)
    } else {
        None
    }
}

fn matches_input(source: &ParsedSource, options: &ParseOptions<'_>) -> bool
    ensures { IsTrue result ↔ MatchesInput (input_of_options options.now) source.now }
{
    source.text().as_str() == options.source.as_str() && source.media_type() == options.media_type
}

/// Calls the parser, and stores its result.
fn parse_and_store<P: EsParser, S: ParsedSourceStore>(
    alloc: Global,
    parser: &mut P,
    store: &mut S,
    options: ParseOptions<'_>,
) -> Result<ParsedSource, ParseError>
    ensures outcome { P.is_sound parser.old
        → IsParseResult (P.parses parser.old) (input_of_options options.entry) result }
    ensures allowed { (result ≡ Err ParseError.OutOfMemory)
        ⊎ P.may_return parser.old (input_of_options options.entry) options.entry.scope_analysis result }
    ensures kept { IfOk result (λ source. S.sources store.new
        ≡ with_source (S.sources store.old) (input_of_options options.entry).specifier source) }
    ensures err { OnErr result (S.sources store.new ≡ S.sources store.old) }
    ensures function { P.parses parser.new ≡ P.parses parser.old }
    ensures counted { (P.count parser.old ≤ P.count parser.new)
        × (P.count parser.new ≤ P.count parser.old + 1) }
    ensures sound { P.is_sound parser.old → P.is_sound parser.new }
{
    let specifier = options.specifier.clone()?;
    let source = parser.parse_program(alloc, options)?;
    let copy = source.try_clone(alloc)?;
    drop(store.set_parsed_source(alloc, specifier, copy)?);
    Ok(source)
}

/// A parser over a parser and a store, which parses no stored text again.
#[derive(Drop)]
pub struct CapturingEsParser<'a, P: EsParser, S: ParsedSourceStore> {
    parser: &'a mut P,
    store: &'a mut S,
}

impl<'a, P: EsParser, S: ParsedSourceStore> CapturingEsParser<'a, P, S> {
    /// Returns a parser over `parser` and `store`. Allocates nothing.
    pub fn new(parser: &'a mut P, store: &'a mut S) -> CapturingEsParser<'a, P, S>
        ensures parser { (borrowed_parser result).now ≡ parser.old }
        ensures store { (borrowed_store result).now ≡ store.old }
        ensures same_parser { (borrowed_parser result).ghost_name ≡ parser.entry.ghost_name }
        ensures same_store { (borrowed_store result).ghost_name ≡ store.entry.ghost_name }
    {
        CapturingEsParser { parser, store }
    }
}

/// Has the outcomes of its parser. It is sound if its parser is sound and each source in its store is
/// an outcome of its parser.
impl<'a, P: EsParser, S: ParsedSourceStore> EsParser for CapturingEsParser<'a, P, S> {
    ghost parses = { λ it. P.parses (borrowed_parser it).now };

    ghost count = { λ it. P.count (borrowed_parser it).now };

    ghost is_sound = { λ it. IsSoundState P.parses P.is_sound (borrowed_state S.sources it) };

    /// Calls [`capture`].
    fn parse_program(
        &mut self,
        alloc: Global,
        options: ParseOptions<'_>,
    ) -> Result<ParsedSource, ParseError>
        ensures captures { Captures P.parses P.count P.is_sound P.may_return
            options.entry.scope_analysis (input_of_options options.entry)
            (borrowed_state S.sources self.old) result (borrowed_state S.sources self.new) }
        ensures same_parser { (borrowed_parser self.new).ghost_name
            ≡ (borrowed_parser self.old).ghost_name }
        ensures same_store { (borrowed_store self.new).ghost_name ≡ (borrowed_store self.old).ghost_name }
    {
        capture(alloc, self.parser, self.store, options)
    }
}

/// An analyzer that owns a parser and a store, and parses no stored text again.
#[derive(Drop)]
pub struct CapturingModuleAnalyzer<P: EsParser, S: ParsedSourceStore> {
    parser: P,
    store: S,
}

impl<P: EsParser, S: ParsedSourceStore> CapturingModuleAnalyzer<P, S> {
    /// Returns an analyzer with this parser and this store. Allocates nothing.
    pub fn new(parser: P, store: S) -> CapturingModuleAnalyzer<P, S>
        ensures parser { parser_of result ≡ parser }
        ensures store { store_of result ≡ store }
    {
        CapturingModuleAnalyzer { parser, store }
    }

    /// Returns a parser that borrows this analyzer's parser and store. Allocates nothing.
    pub fn as_capturing_parser(&mut self) -> CapturingEsParser<'_, P, S>
        ensures parser { (borrowed_parser result).now ≡ parser_of self.old }
        ensures store { (borrowed_store result).now ≡ store_of self.old }
    {
        CapturingEsParser::new(&mut self.parser, &mut self.store)
    }
}

/// Has the outcomes of its parser. It is sound if its parser is sound and each source in its store is
/// an outcome of its parser.
impl<P: EsParser, S: ParsedSourceStore> EsParser for CapturingModuleAnalyzer<P, S> {
    ghost parses = { λ it. P.parses (parser_of it) };

    ghost count = { λ it. P.count (parser_of it) };

    ghost is_sound = { λ it. IsSoundState P.parses P.is_sound (analyzer_state S.sources it) };

    /// Calls [`capture`].
    fn parse_program(
        &mut self,
        alloc: Global,
        options: ParseOptions<'_>,
    ) -> Result<ParsedSource, ParseError>
        ensures { Captures P.parses P.count P.is_sound P.may_return
            options.entry.scope_analysis (input_of_options options.entry)
            (analyzer_state S.sources self.old) result (analyzer_state S.sources self.new) }
    {
        capture(alloc, &mut self.parser, &mut self.store, options)
    }
}

impl<P: EsParser, S: ParsedSourceStore> ModuleAnalyzer for CapturingModuleAnalyzer<P, S> {
    ghost parses = { λ it. P.parses (parser_of it) };

    ghost is_sound = { λ it. IsSoundState P.parses P.is_sound (analyzer_state S.sources it) };

    /// Calls `parse_program` without the scope option, and returns the info of the parsed source. If
    /// the info is out of memory, the parsed source stays in the store.
    fn analyze_sync(
        &mut self,
        alloc: Global,
        specifier: &Url,
        source: RcStr,
        media_type: MediaType,
    ) -> Result<ModuleInfo, AnalyzeError>
        ensures analyzes { Analyzes P.parses P.count P.is_sound P.may_return
            (input specifier.now (rc_str_bytes source) media_type)
            (analyzer_state S.sources self.old) result (analyzer_state S.sources self.new) }
        ensures info { IsSoundState P.parses P.is_sound (analyzer_state S.sources self.old)
            → IsAnalyzeResult (P.parses (parser_of self.old))
            (input specifier.now (rc_str_bytes source) media_type) result }
    {
        let options = ParseOptions {
            specifier,
            source,
            media_type,
            scope_analysis: false,
        };
        info_of(alloc, self.parse_program(alloc, options))
    }
}

/// Passes each call on to its store.
impl<P: EsParser, S: ParsedSourceStore> ParsedSourceStore for CapturingModuleAnalyzer<P, S> {
    ghost sources = { λ it. S.sources (store_of it) };

    fn set_parsed_source(
        &mut self,
        alloc: Global,
        specifier: Url,
        source: ParsedSource,
    ) -> Result<Option<ParsedSource>, AllocError>
        ensures former { IfOk result (λ former.
            former ≡ source_at (S.sources (store_of self.old)) (specifier_text specifier)) }
        ensures ok { OnOk result (S.sources (store_of self.new)
            ≡ with_source (S.sources (store_of self.old)) (specifier_text specifier) source) }
        ensures err { OnErr result (S.sources (store_of self.new)
            ≡ S.sources (store_of self.old)) }
        ensures parser { parser_of self.new ≡ parser_of self.old }
    {
        self.store.set_parsed_source(alloc, specifier, source)
    }

    fn get_parsed_source(
        &self,
        alloc: Global,
        specifier: &Url,
    ) -> Result<Option<ParsedSource>, AllocError> {
        self.store.get_parsed_source(alloc, specifier)
    }

    fn remove_parsed_source(
        &mut self,
        alloc: Global,
        specifier: &Url,
    ) -> Result<Option<ParsedSource>, AllocError>
        ensures former { IfOk result (λ former.
            former ≡ source_at (S.sources (store_of self.old)) (specifier_text specifier.now)) }
        ensures ok { OnOk result (S.sources (store_of self.new)
            ≡ without_source (S.sources (store_of self.old)) (specifier_text specifier.now)) }
        ensures err { OnErr result (S.sources (store_of self.new)
            ≡ S.sources (store_of self.old)) }
        ensures parser { parser_of self.new ≡ parser_of self.old }
    {
        self.store.remove_parsed_source(alloc, specifier)
    }

    fn get_scope_analysis_parsed_source(
        &mut self,
        alloc: Global,
        specifier: &Url,
    ) -> Result<Option<ParsedSource>, AllocError>
        ensures found { IfOk result (λ found.
            found ≡ source_at (S.sources (store_of self.new)) (specifier_text specifier.now)) }
        ensures ok { OnOk result (S.sources (store_of self.new)
            ≡ with_mark (S.sources (store_of self.old)) (specifier_text specifier.now)) }
        ensures err { OnErr result (S.sources (store_of self.new)
            ≡ S.sources (store_of self.old)) }
        ensures parser { parser_of self.new ≡ parser_of self.old }
    {
        self.store
            .get_scope_analysis_parsed_source(alloc, specifier)
    }
}
