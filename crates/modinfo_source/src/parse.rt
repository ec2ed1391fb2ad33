//! From a source text to a `ParsedSource`.

ghost use Rattle.std.specs.Prelude.{◌≡◌, Err, IfOk, false, length};
ghost use Rattle.std.specs.Rc.{rc_str_bytes};
ghost use Rattle.std.specs.Str.{IsCharBoundary};
ghost use Rattle.deno_graph_base.specs.Position.{HasPosition};
ghost use Rattle.deno_graph_base.specs.declared.text.position.Position.{Position};
ghost use Rattle.deno_graph_source.specs.Source.{IsValid};
ghost use Rattle.deno_graph_source.specs.declared.tree.parse_error.ParseDiagnostic.{ParseDiagnostic};
ghost use Rattle.deno_graph_source.specs.MediaType.{is_typed};
ghost use Rattle.modinfo_source.specs.OfText.{IsOfText, start_of};
ghost use Rattle.modinfo_source.specs.Comments.{HasComments};
ghost use Rattle.modinfo_source.specs.Spelled.{IsSpelled};

use crate::comments::comments_of;
use crate::error::{TextError, TreeError};
use crate::tree::{body_of, parts_in};
use deno_graph_base::text::{Position, SourceRange, SourceTextInfo};
use deno_graph_base::values::Text;
use deno_graph_source::tree::{
    Comments, MediaType, Node, ParseDiagnostic, ParsedSource, Program, SourceFault,
};
use modinfo_imports::nodes::{claims_of, marks_of};
use modinfo_lexer::syntax_error::{ReadError, SyntaxError};
use modinfo_parser::{Syntax, read};
use std::alloc::{AllocError, Global};
use std::rc::RcStr;
use url::Url;

/// Parses the text of a module. The media type decides the grammar: JavaScript with JSX, TypeScript, or
/// TypeScript with JSX for `Tsx`. A text is read as a module, and where that fails as a script, unless its
/// media type is one of modules alone. `Syntax`, with a message and a position that counts lines and
/// characters from zero, if the text has a syntax error that makes its tree unclear, if it nests too deep,
/// or if the media type is `Json`; `Defect` if what the parser read isn't the text's.
pub fn parse_module(
    alloc: Global,
    specifier: Url,
    source: RcStr,
    media_type: MediaType,
) -> Result<ParsedSource, TextError>
    ensures specifier { IfOk result (λ parsed. parsed.specifier ≡ specifier) }
    ensures text { IfOk result (λ parsed. parsed.text ≡ rc_str_bytes source) }
    ensures media_type { IfOk result (λ parsed. parsed.media_type ≡ media_type) }
    ensures scope_analysis { IfOk result (λ parsed. parsed.scope_analysis ≡ false) }
    ensures valid { IfOk result (λ parsed. IsValid parsed.text parsed.program parsed.comments) }
    // Each string literal has the value that its slice of the text spells, by ECMA-262, and so has each part
    // of a template.
    ensures spelled { IfOk result (λ parsed. IsSpelled (rc_str_bytes source) parsed.program) }
    // The comments are exactly those of the text, with their texts, each filed by the one rule.
    ensures comments { IfOk result (λ parsed. HasComments (rc_str_bytes source) parsed.comments) }
    // The range of the program is the whole text.
    ensures range { IfOk result (λ parsed.
        parsed.program.range ≡ record { start = 0; end = length (rc_str_bytes source) }) }
    // Each node that may report a dependency begins at a word of the text and has whole literals of the text, and at
    // each word that a dependency begins with such a node begins, or the word is a name.
    ensures of_text { IfOk result (λ parsed.
        IsOfText (rc_str_bytes source) (is_typed media_type) parsed.program parsed.comments) }
    ensures position { (diagnostic : ParseDiagnostic) → result ≡ Err (TextError.Syntax diagnostic)
        → HasPosition (rc_str_bytes source) diagnostic.position }
    ensures defect { (position : Position) → result ≡ Err (TextError.Defect position)
        → HasPosition (rc_str_bytes source) position }
{
    let Parts { program, comments } = match parts_of(alloc, source.as_str(), media_type) {
        Ok(parts) => parts,
        Err(error) => return Err(text_error(alloc, source, error)?),
    };
    let copy = source.clone()?;
    match ParsedSource::new(
        alloc, specifier, source, media_type, program, comments, false,
    ) {
        Ok(parsed) => Ok(parsed),
        Err(SourceFault::OutOfMemory) => Err(TextError::OutOfMemory),
        Err(_) => Err(text_error(alloc, copy, TreeError::Defect(0))?),
    }
}

/// The tree and the comments of a text.
#[derive(Drop)]
struct Parts {
    program: Program,
    comments: Comments,
}

/// Returns the tree and the comments of a text.
#[tactic(auto, unfolding(deno_graph_source::specs::Node::nodes_of))]
fn parts_of(alloc: Global, text: &str, media_type: MediaType) -> Result<Parts, TreeError>
    ensures spelled { IfOk result (λ parts. IsSpelled text.now parts.program) }
    ensures comments { IfOk result (λ parts. HasComments text.now parts.comments) }
    ensures range { IfOk result (λ parts.
        parts.program.range ≡ record { start = 0; end = length text.now }) }
    ensures of_text { IfOk result (λ parts.
        IsOfText text.now (is_typed media_type) parts.program parts.comments) }
{
    let Syntax {
        nodes,
        choices,
        has_hashbang,
    } = read(alloc, text, media_type)?;
    let parts = parts_in(alloc, &nodes)?;
    let program = Program {
        range: SourceRange::new(0, text.len()),
        body: body_of(alloc, text, nodes, &parts)?,
        has_shebang: has_hashbang,
    };
    let claims = claims_of(alloc, text.as_bytes(), &program, &parts)?;
    let marks = marks_of(alloc, text.as_bytes(), &program)?;
    let comments = comments_of(
        alloc,
        text,
        media_type.is_typed(),
        &choices,
        &claims,
        &marks,
        start_of(program.body.as_slice()),
    )?;
    Ok(Parts { program, comments })
}

/// Returns where the first of some nodes begins, if there is one.
#[tactic(auto, unfolding(deno_graph_source::specs::Node::range_of))]
fn start_of(nodes: &[Node]) -> Option<usize>
    ensures { result ≡ start_of nodes.now }
{
    match nodes {
        [first, ..] => Some(first.range.start),
        [] => None,
    }
}

/// Returns the error of a text without a tree of its own.
fn text_error(alloc: Global, source: RcStr, error: TreeError) -> Result<TextError, AllocError>
    ensures position { IfOk result (λ text_error. (diagnostic : ParseDiagnostic)
        → text_error ≡ TextError.Syntax diagnostic → HasPosition (rc_str_bytes source) diagnostic.position) }
    ensures defect { IfOk result (λ text_error. (position : Position)
        → text_error ≡ TextError.Defect position → HasPosition (rc_str_bytes source) position) }
{
    match error {
        TreeError::Unread(ReadError::Syntax(SyntaxError { message, offset })) => {
            Ok(TextError::Syntax(ParseDiagnostic {
                message: Text::from_str(alloc, message)?,
                position: position_of(alloc, source, offset)?,
            }))
        }
        TreeError::Unread(ReadError::OutOfMemory) => Ok(TextError::OutOfMemory),
        TreeError::Defect(offset) => Ok(TextError::Defect(position_of(alloc, source, offset)?)),
    }
}

/// Returns the position of an offset of a text, that of the text's start if no character begins there.
fn position_of(alloc: Global, source: RcStr, offset: usize) -> Result<Position, AllocError>
    ensures { IfOk result (HasPosition (rc_str_bytes source)) }
{
    let text_info = SourceTextInfo::new(alloc, source)?;
    let boundary = boundary_at(text_info.text(), offset);
    Ok(Position::from_source_pos(boundary, &text_info))
}

/// Returns an offset of a text, or zero if no character begins there.
fn boundary_at(text: &str, offset: usize) -> usize
    ensures { IsCharBoundary text.now result }
{
    if text.is_char_boundary(offset) {
        offset
    } else {
        0
    }
}
