//! The parser of `modinfo_parser` as one for analyzers, stores and runs.
#![tactic(auto)]

ghost use Rattle.std.specs.Prelude.{◌≡◌, None, IfOk};
ghost use Rattle.deno_graph_source.specs.MediaType.{is_typed};
ghost use Rattle.modinfo_source.specs.OfText.{IsOfText};
ghost use Rattle.modinfo_source.specs.Spelled.{IsSpelled};

use deno_graph_analyzer::parser::{EsParser, ParseOptions};
use deno_graph_source::tree::{ParseDiagnostic, ParseError, ParsedSource};
use deno_graph_source::values::Text;
use modinfo_source::{DEFECT, TextError, parse_module};
use std::alloc::{AllocError, Global};

/// A parser of JavaScript and TypeScript. A source that it returns has the text, the specifier and the media
/// type of the options; its tree and comments are the text's: nothing is invented, no dependency is lost, and
/// the literals have the values that the text spells. It is marked as analyzed for scopes exactly where the
/// options ask for that. That the tree is otherwise the parse of the text isn't promised, so the parser isn't
/// sound. A tree that isn't the text's, a defect of the parser, is a diagnostic that says so.
#[derive(Clone, Copy, Debug, PartialEq, Eq)]
pub struct SourceParser;

impl EsParser for SourceParser {
    ghost use Rattle.deno_graph_analyzer.specs.Parsing.{input_of};

    ghost parses = { λ _ _. None };

    ghost count = { λ _. 0 };

    ghost is_sound = { λ _. ⊥ };

    ghost may_return = { λ _ input scope_analysis outcome. IfOk outcome (λ source.
        (input_of source ≡ input) × (source.scope_analysis ≡ scope_analysis)
        × IsSpelled source.text source.program
        × IsOfText source.text (is_typed source.media_type) source.program source.comments) };

    fn parse_program(
        &mut self,
        alloc: Global,
        options: ParseOptions<'_>,
    ) -> Result<ParsedSource, ParseError> {
        let specifier = options.specifier.clone()?;
        let parsed = parse_module(alloc, specifier, options.source, options.media_type);
        let source = match parsed {
            Ok(source) => source,
            Err(error) => return Err(parse_error(alloc, error)?),
        };
        if options.scope_analysis {
            Ok(source.into_with_scope_analysis())
        } else {
            Ok(source)
        }
    }
}

/// Returns the error of a parser for a text without a source.
fn parse_error(alloc: Global, error: TextError) -> Result<ParseError, AllocError> {
    match error {
        TextError::Syntax(diagnostic) => Ok(ParseError::Diagnostic(diagnostic)),
        TextError::Defect(position) => Ok(ParseError::Diagnostic(ParseDiagnostic {
            message: Text::from_str(alloc, DEFECT)?,
            position,
        })),
        TextError::OutOfMemory => Ok(ParseError::OutOfMemory),
    }
}
