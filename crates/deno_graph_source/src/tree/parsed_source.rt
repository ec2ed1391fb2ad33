ghost use Rattle.std.specs.Prelude.{◌≡◌, ◌⊎◌, IfOk, IfErr, OnOk};
ghost use Rattle.std.specs.Rc.{rc_str_bytes};
ghost use Rattle.deno_graph_source.specs.ParsedSource.{marked};
ghost use Rattle.deno_graph_source.specs.Source.{IsValid, HasFault};

use crate::tree::check::check_source;
use crate::tree::comments::Comments;
use crate::tree::fault::SourceFault;
use crate::tree::media_type::MediaType;
use crate::tree::node::Program;
use deno_graph_base::text::SourceTextInfo;
use deno_graph_base::values::TryClone;
use std::alloc::{AllocError, Global};
use std::marker::Model;
use std::rc::{Rc, RcStr};
use url::Url;

/// The part of a source that all its copies share.
#[derive(Debug, PartialEq, Eq, Drop)]
struct SharedModule {
    specifier: Url,
    media_type: MediaType,
    text_info: SourceTextInfo,
    program: Program,
    comments: Comments,
}

/// A module with its tree and its comments. Every parsed source is valid: the tree and the comments
/// fit the text. Copies share everything but the mark of scope analysis.
#[derive(Debug, Drop)]
pub struct ParsedSource {
    module: Rc<SharedModule>,
    scope_analysis: bool,
}

impl Model for ParsedSource {
    ghost use Rattle.deno_graph_source.specs.ParsedSource.{ParsedModule};

    ghost Value = { ParsedModule };

    ghost use Rattle.std.specs.Coded.{codes};
    ghost use Rattle.deno_graph_source.specs.contracts.tree.node.Node as node;

    ghost coded = { Prim.hlevel (codes, node.the_row.coded) };

    ghost use Rattle.deno_graph_source.specs.Source.{IsValid};

    ghost view = { λ source. record {
      specifier = source.module.value.specifier;
      text = source.module.value.text_info;
      media_type = source.module.value.media_type;
      program = source.module.value.program;
      comments = source.module.value.comments;
      scope_analysis = source.scope_analysis;
    } };

    ghost invariant = { λ source. IsValid source.module.value.text_info
        source.module.value.program source.module.value.comments };
}

impl ParsedSource {
    /// Returns the source if it is valid, and else one of its faults. Fails with `OutOfMemory` if an
    /// allocation fails. If this fails, all arguments are dropped.
    pub fn new(
        alloc: Global,
        specifier: Url,
        text: RcStr,
        media_type: MediaType,
        program: Program,
        comments: Comments,
        scope_analysis: bool,
    ) -> Result<ParsedSource, SourceFault>
        ensures valid { OnOk result (IsValid (rc_str_bytes text) program comments) }
        ensures ok { IfOk result (λ source. source ≡ record {
          specifier = specifier;
          text = rc_str_bytes text;
          media_type = media_type;
          program = program;
          comments = comments;
          scope_analysis = scope_analysis;
        }) }
        ensures accepted { IsValid (rc_str_bytes text) program comments
            → IfErr result (λ fault. fault ≡ SourceFault.OutOfMemory) }
        ensures fault { IfErr result (λ fault.
            (fault ≡ SourceFault.OutOfMemory)
            ⊎ HasFault (rc_str_bytes text) program comments fault) }
    {
        check_source(alloc, text.as_str(), &program, &comments)?;
        let module = SharedModule {
            specifier,
            media_type,
            text_info: SourceTextInfo::new(alloc, text)?,
            program,
            comments,
        };
        Ok(ParsedSource {
            module: Rc::new(alloc, module)?,
            scope_analysis,
        })
    }

    /// Returns the URL of the module.
    pub fn specifier(&self) -> &Url
        ensures { result.now ≡ self.now.specifier }
    {
        &self.module.specifier
    }

    /// Returns the kind of file that the module is.
    pub fn media_type(&self) -> MediaType
        ensures { result ≡ self.now.media_type }
    {
        self.module.media_type
    }

    /// Returns the text of the module.
    pub fn text(&self) -> &RcStr
        ensures { rc_str_bytes result.now ≡ self.now.text }
    {
        self.module.text_info.rc_text()
    }

    /// Returns the text with its checkpoints, which `new` computed.
    pub fn text_info_lazy(&self) -> &SourceTextInfo
        ensures { result.now ≡ self.now.text }
    {
        &self.module.text_info
    }

    /// Returns the syntax tree of the module.
    pub fn program(&self) -> &Program
        ensures program { result.now ≡ self.now.program }
        ensures valid { IsValid self.now.text result.now self.now.comments }
    {
        &self.module.program
    }

    /// Returns the comments of the module.
    pub fn comments(&self) -> &Comments
        ensures comments { result.now ≡ self.now.comments }
        ensures valid { IsValid self.now.text self.now.program result.now }
    {
        &self.module.comments
    }

    /// Returns whether the source has the mark of scope analysis.
    pub fn has_scope_analysis(&self) -> bool
        ensures { result ≡ self.now.scope_analysis }
    {
        self.scope_analysis
    }

    /// Returns the source with the mark of scope analysis.
    pub fn into_with_scope_analysis(self) -> ParsedSource
        ensures { result ≡ marked self }
    {
        let ParsedSource { module, .. } = self;
        ParsedSource {
            module,
            scope_analysis: true,
        }
    }
}

impl TryClone for ParsedSource {
    /// Returns a copy that shares the tree and the comments with this source.
    fn try_clone(&self, _alloc: Global) -> Result<ParsedSource, AllocError> {
        Ok(ParsedSource {
            module: self.module.clone()?,
            scope_analysis: self.scope_analysis,
        })
    }
}

impl PartialEq for ParsedSource {
    ghost use Rattle.std.specs.Prelude.{◌&&◌};
    ghost use Rattle.std.specs.Cmp.{and_per, on_per, partial_equiv_from_equiv, bool_eq_equiv};
    ghost use Rattle.deno_graph_source.specs.SharedModule.{shared_of};
    ghost use Rattle.deno_graph_source.specs.contracts.tree.parsed_source.SharedModulePartialEq.TheImpl.Laws.{laws-law};

    ghost eq = { λ a b. ⟦<SharedModule as PartialEq>⟧.eq (shared_of a) (shared_of b)
        && ⟦<bool as PartialEq>⟧.eq a.scope_analysis b.scope_analysis };

    ghost laws = { and_per (on_per shared_of laws-law)
        (on_per (λ a. a.scope_analysis) (partial_equiv_from_equiv bool_eq_equiv)) };

    fn eq(&self, other: &ParsedSource) -> bool {
        self.module == other.module && self.scope_analysis == other.scope_analysis
    }
}

impl Eq for ParsedSource {
    ghost use Rattle.std.specs.Cmp.{and_equiv, on_equiv, bool_eq_equiv};
    ghost use Rattle.deno_graph_source.specs.SharedModule.{shared_of};
    ghost use Rattle.deno_graph_source.specs.contracts.tree.parsed_source.SharedModuleEq.TheImpl.Laws.{laws-law};

    ghost laws = { and_equiv (on_equiv shared_of laws-law)
        (on_equiv (λ a. a.scope_analysis) bool_eq_equiv) };
}
