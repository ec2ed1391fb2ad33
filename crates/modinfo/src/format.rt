//! The formats of documents: how a document of each format is answered and checked.

ghost use Rattle.std.specs.Prelude.{IfOk, MatchResult};
ghost use Rattle.std.specs.String.{string_bytes};
ghost use Rattle.modinfo.specs.Answer.{IsAnswerText, IsDocumentFault, IsReportOn};

use crate::check::{
    Report, check_document, check_estree, check_modules, check_source, check_stored,
    report_invalid_utf8,
};
use crate::fault::Fault;
use crate::request::Request;
use simdutf8::compat;
use std::alloc::{AllocError, Global};

/// The format of the documents that a command reads.
#[derive(Debug, Clone, Copy, PartialEq, Eq)]
pub enum Format {
    /// A module document. The answer is the `ModuleInfo`.
    Module,
    /// A document with the tree of a parser, as ESTree describes it. The answer is the `ModuleInfo`.
    Estree,
    /// A source text with its specifier. The answer is the `ModuleInfo`.
    Source,
    /// The stored information of one module, of version 1. The answer is the information of version 2.
    Stored,
    /// A root and the information on modules. The answer has the keys that the root reaches.
    Modules,
}

impl Format {
    /// The answer to a document: compact JSON, without a line feed. The error is a fault of the
    /// document, or `OutOfMemory` if an allocation fails.
    pub fn answer_text(self, alloc: Global, document: &[u8]) -> Result<String, Fault>
        ensures { MatchResult result (λ text. IsAnswerText self document.now (string_bytes text))
            (IsDocumentFault self document.now) }
    {
        Request::read(alloc, self, document)?.answer(alloc)
    }

    /// Like `answer_text`. Drops the input before the tree is checked, to halve the peak memory.
    pub fn answer_bytes(self, alloc: Global, input: Vec<u8>) -> Result<String, Fault>
        ensures { MatchResult result (λ text. IsAnswerText self input.items (string_bytes text))
            (IsDocumentFault self input.items) }
    {
        let request = Request::read(alloc, self, input.as_slice())?;
        drop(input);
        request.answer(alloc)
    }

    /// Checks a document of this format. The only error is a failed allocation.
    pub fn check(self, alloc: Global, document: &[u8]) -> Result<Report, AllocError>
        ensures { IfOk result (IsReportOn self document.now) }
    {
        let text = match compat::from_utf8(document) {
            Ok(text) => text,
            Err(error) => return report_invalid_utf8(alloc, document, error.valid_up_to()),
        };
        match self {
            Format::Module => check_document(alloc, text),
            Format::Estree => check_estree(alloc, text),
            Format::Source => check_source(alloc, text),
            Format::Stored => check_stored(alloc, text),
            Format::Modules => check_modules(alloc, text),
        }
    }
}
