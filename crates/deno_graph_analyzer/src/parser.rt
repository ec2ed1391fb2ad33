//! The trait of parsers, with the options of a parse.

ghost use Rattle.std.specs.Prelude.{◌≡◌, IfOk};
ghost use Rattle.std.specs.Rc.{rc_str_bytes};

use deno_graph_source::tree::{MediaType, ParsedSource};
pub use deno_graph_source::tree::{ParseDiagnostic, ParseError};
use std::alloc::{AllocError, Global};
use std::rc::RcStr;
use url::Url;

/// A parser. A specifier, a text and a media type have at most one outcome, a tree with comments or
/// a diagnostic, however often they are parsed.
pub trait EsParser: Drop {
    ghost use Rattle.std.specs.Prelude.{◌≡◌, ℕ, ◌+◌, ◌≤◌, ⊤};
    ghost use Rattle.deno_graph_analyzer.specs.Parsing.{ParseFunction, ResultRelation, IsParseResult, input_of_options};

    /// The outcome of each input.
    ghost parses: { Self → ParseFunction };

    /// Number of calls so far. The number may stay at a greatest value, and is zero in a parser that
    /// doesn't count calls.
    ghost count: { Self → ℕ };

    /// Whether the parser returns the outcomes of `parses`. A plain parser is always sound. A parser
    /// that returns sources from a store is sound while the store has only such outcomes.
    ghost is_sound: { Self → Type 0 };

    /// The results that the parser may return for an input, with or without the scope option. By
    /// default any result.
    ghost may_return: { Self → ResultRelation } = { λ _ _ _ _. ⊤ };

    /// Parses a text. Returns a diagnostic if the text is no module, and `OutOfMemory` if an
    /// allocation fails.
    fn parse_program(
        &mut self,
        alloc: Global,
        options: ParseOptions<'_>,
    ) -> Result<ParsedSource, ParseError>
        // A call changes no outcome.
        ensures function { parses self.new ≡ parses self.old }
        // The count rises by at most one.
        ensures counted { (count self.old ≤ count self.new)
            × (count self.new ≤ count self.old + 1) }
        ensures sound { is_sound self.old → is_sound self.new }
        // A sound parser returns the outcome of the input.
        ensures outcome { is_sound self.old
            → IsParseResult (parses self.old) (input_of_options options.entry) result }
        ensures allowed { may_return self.old (input_of_options options.entry) options.entry.scope_analysis result };
}

/// The text that a parser has to parse, and how.
#[derive(Debug, PartialEq, Eq, Drop)]
pub struct ParseOptions<'a> {
    /// URL of the module.
    pub specifier: &'a Url,
    /// Text of the module.
    pub source: RcStr,
    /// Language of the text.
    pub media_type: MediaType,
    /// Whether to analyze the scopes of the module too. The option changes only the mark of the result.
    pub scope_analysis: bool,
}

impl<'a> ParseOptions<'a> {
    /// Returns equal options, which share the text. Returns an error if an allocation fails.
    pub fn try_clone(&self, _alloc: Global) -> Result<ParseOptions<'a>, AllocError>
        ensures specifier { IfOk result (λ copy. copy.specifier.now ≡ self.now.specifier.now) }
        ensures source { IfOk result (λ copy.
            rc_str_bytes copy.source ≡ rc_str_bytes self.now.source) }
        ensures media_type { IfOk result (λ copy. copy.media_type ≡ self.now.media_type) }
        ensures scope_analysis { IfOk result (λ copy.
            copy.scope_analysis ≡ self.now.scope_analysis) }
    {
        Ok(ParseOptions {
            specifier: self.specifier,
            source: self.source.clone()?,
            media_type: self.media_type,
            scope_analysis: self.scope_analysis,
        })
    }
}

/// Passes each call on to the parser in the box.
impl EsParser for Box<dyn EsParser> {
    ghost parses = { λ boxed. (EsParser-box boxed).parses boxed.value };

    ghost count = { λ boxed. (EsParser-box boxed).count boxed.value };

    ghost is_sound = { λ boxed. (EsParser-box boxed).is_sound boxed.value };

    ghost may_return = { λ boxed. (EsParser-box boxed).may_return boxed.value };

    fn parse_program(
        &mut self,
        alloc: Global,
        options: ParseOptions<'_>,
    ) -> Result<ParsedSource, ParseError> {
        (**self).parse_program(alloc, options)
    }
}
