//! A parser without a promise: no definition says which tree belongs to a text.

use crate::tree::import_program;
use deno_graph_analysis::ast::{EsParser, ParseDiagnostic, ParseError, ParseOptions};
use deno_graph_source::text::Position;
use deno_graph_source::tree::{Comments, ParsedSource, Program, SourceFault};
use deno_graph_source::values::Text;
use std::alloc::{AllocError, Global};

/// Parses `import "..";` and nothing else.
#[derive(Drop)]
pub struct ImportParser;

impl EsParser for ImportParser {
    ghost use Rattle.std.specs.Prelude.{None};

    ghost parses = { λ it input. None };

    ghost count = { λ it. 0 };

    ghost is_sound = { λ it. ⊥ };

    fn parse_program(
        &mut self,
        alloc: Global,
        options: ParseOptions<'_>,
    ) -> Result<ParsedSource, ParseError> {
        let Some(program) = parse(alloc, options.source.as_str())? else {
            return Err(ParseError::Diagnostic(diagnostic(alloc, "an import is expected")?));
        };
        let made = ParsedSource::new(
            alloc,
            options.specifier.clone()?,
            options.source,
            options.media_type,
            program,
            Comments::new(alloc),
            options.scope_analysis,
        );
        match made {
            Ok(source) => Ok(source),
            Err(SourceFault::OutOfMemory) => Err(ParseError::OutOfMemory),
            Err(fault) => {
                let name = format!(in alloc; "{fault}")?;
                Err(ParseError::Diagnostic(diagnostic(alloc, name.as_str())?))
            }
        }
    }
}

/// Returns the program of the text, or `None` for a syntax error. A real parser has its grammar here.
fn parse(alloc: Global, text: &str) -> Result<Option<Program>, AllocError> {
    let Some(rest) = text.strip_prefix("import \"") else {
        return Ok(None);
    };
    let Some(specifier) = rest.strip_suffix("\";") else {
        return Ok(None);
    };
    Ok(Some(import_program(alloc, specifier)?))
}

fn diagnostic(alloc: Global, message: &str) -> Result<ParseDiagnostic, AllocError> {
    Ok(ParseDiagnostic {
        message: Text::from_str(alloc, message)?,
        position: Position::zeroed(),
    })
}
