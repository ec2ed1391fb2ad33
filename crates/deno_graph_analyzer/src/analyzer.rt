//! The trait of module analyzers, and an analyzer over a parser.

ghost use Rattle.std.specs.Prelude.{◌≡◌, ◌+◌, ◌≤◌, false};
ghost use Rattle.deno_graph_analyzer.specs.Analysis.{IsAnalysisOf};
ghost use Rattle.deno_graph_analyzer.specs.ParserModuleAnalyzer.{borrowed_parser};

use crate::parser::{EsParser, ParseDiagnostic, ParseError, ParseOptions};
use deno_graph_base::values::TryClone;
use deno_graph_info::analysis::ModuleInfo;
use deno_graph_module_info::module_info;
use deno_graph_source::tree::{MediaType, ParsedSource};
use std::alloc::{AllocError, Global};
use std::rc::RcStr;
use url::Url;

/// An analyzer of modules. Each input has at most one outcome of parsing, as in a parser.
pub trait ModuleAnalyzer {
    ghost use Rattle.std.specs.Prelude.{◌≡◌};
    ghost use Rattle.std.specs.Rc.{rc_str_bytes};
    ghost use Rattle.deno_graph_analyzer.specs.Parsing.{ParseFunction};
    ghost use Rattle.deno_graph_analyzer.specs.Analysis.{IsAnalyzeResult};
    ghost use Rattle.deno_graph_analyzer.specs.Commands.{input};

    /// The outcome of parsing each input.
    ghost parses: { Self → ParseFunction };

    /// Whether the results of the analyzer follow from the outcomes of `parses`.
    ghost is_sound: { Self → Type 0 };

    /// Parses a text without scope analysis, and returns its `ModuleInfo`. Returns the parser's
    /// diagnostic if the text is no module, and `OutOfMemory` if an allocation fails.
    fn analyze_sync(
        &mut self,
        alloc: Global,
        specifier: &Url,
        source: RcStr,
        media_type: MediaType,
    ) -> Result<ModuleInfo, AnalyzeError>
        // A call changes no outcome.
        ensures function { parses self.new ≡ parses self.old }
        ensures sound { is_sound self.old → is_sound self.new }
        // A sound analyzer returns the info, or the diagnostic, of the outcome.
        ensures info { is_sound self.old → IsAnalyzeResult (parses self.old)
            (input specifier.now (rc_str_bytes source) media_type) result };
}

/// An error of an analyzer.
#[derive(Debug, PartialEq, Eq, Drop)]
pub enum AnalyzeError {
    /// The text is no module.
    Parse(ParseDiagnostic),
    /// An allocation failed.
    OutOfMemory,
}

impl TryClone for AnalyzeError {
    fn try_clone(&self, alloc: Global) -> Result<AnalyzeError, AllocError> {
        match self {
            AnalyzeError::Parse(diagnostic) => {
                Ok(AnalyzeError::Parse(diagnostic.try_clone(alloc)?))
            }
            AnalyzeError::OutOfMemory => Ok(AnalyzeError::OutOfMemory),
        }
    }
}

impl From<AllocError> for AnalyzeError {
    ghost use Rattle.deno_graph_analyzer.specs.declared.analyzer.AnalyzeError.TheVariants.{OutOfMemory};

    ghost from_gives = { λ error analyze_error. analyze_error ≡ OutOfMemory };

    fn from(_error: AllocError) -> AnalyzeError {
        AnalyzeError::OutOfMemory
    }
}

impl From<ParseError> for AnalyzeError {
    ghost use Rattle.deno_graph_analyzer.specs.AnalyzeError.{analyze_error_of};

    ghost from_gives = { λ error analyze_error. analyze_error ≡ analyze_error_of error };

    fn from(error: ParseError) -> AnalyzeError {
        match error {
            ParseError::Diagnostic(diagnostic) => AnalyzeError::Parse(diagnostic),
            ParseError::OutOfMemory => AnalyzeError::OutOfMemory,
        }
    }
}

/// An analyzer that calls a parser for each text.
#[derive(Drop)]
pub struct ParserModuleAnalyzer<'a, P: EsParser> {
    parser: &'a mut P,
}

impl<'a, P: EsParser> ParserModuleAnalyzer<'a, P> {
    /// Returns an analyzer over `parser`. Allocates nothing.
    pub fn new(parser: &'a mut P) -> ParserModuleAnalyzer<'a, P>
        ensures parser { (borrowed_parser result).now ≡ parser.old }
        ensures same_parser { (borrowed_parser result).ghost_name ≡ parser.entry.ghost_name }
    {
        ParserModuleAnalyzer { parser }
    }
}

impl<'a, P: EsParser> ModuleAnalyzer for ParserModuleAnalyzer<'a, P> {
    ghost use Rattle.std.specs.Rc.{rc_str_bytes};
    ghost use Rattle.deno_graph_analyzer.specs.Analysis.{IsAnalyzeResult, IsAnalysisOfSome};
    ghost use Rattle.deno_graph_analyzer.specs.Commands.{input};

    ghost parses = { λ it. P.parses (borrowed_parser it).now };

    ghost is_sound = { λ it. P.is_sound (borrowed_parser it).now };

    fn analyze_sync(
        &mut self,
        alloc: Global,
        specifier: &Url,
        source: RcStr,
        media_type: MediaType,
    ) -> Result<ModuleInfo, AnalyzeError>
        ensures same_parser { (borrowed_parser self.new).ghost_name
            ≡ (borrowed_parser self.old).ghost_name }
        ensures function { P.parses (borrowed_parser self.new).now
            ≡ P.parses (borrowed_parser self.old).now }
        ensures sound { P.is_sound (borrowed_parser self.old).now
            → P.is_sound (borrowed_parser self.new).now }
        ensures info { P.is_sound (borrowed_parser self.old).now
            → IsAnalyzeResult (P.parses (borrowed_parser self.old).now)
            (input specifier.now (rc_str_bytes source) media_type) result }
        // The parser's count rises by at most one.
        ensures counted { (P.count (borrowed_parser self.old).now ≤ P.count (borrowed_parser self.new).now)
            × (P.count (borrowed_parser self.new).now ≤ P.count (borrowed_parser self.old).now + 1) }
        // The parser is called without the scope option.
        ensures analysis { IsAnalysisOfSome (P.may_return (borrowed_parser self.old).now
            (input specifier.now (rc_str_bytes source) media_type) false) result }
    {
        let options = ParseOptions {
            specifier,
            source,
            media_type,
            scope_analysis: false,
        };
        info_of(alloc, self.parser.parse_program(alloc, options))
    }
}

/// Returns the info of a parsed source, or the parser's error.
pub(crate) fn info_of(
    alloc: Global,
    parsed: Result<ParsedSource, ParseError>,
) -> Result<ModuleInfo, AnalyzeError>
    ensures { IsAnalysisOf parsed result }
{
    match parsed {
        Ok(source) => Ok(module_info(alloc, &source)?),
        Err(error) => Err(AnalyzeError::from(error)),
    }
}
