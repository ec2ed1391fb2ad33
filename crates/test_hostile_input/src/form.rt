//! The forms of documents that are analyzed.

/// A form of documents: a module document, or a document with the tree of a parser.
#[derive(Clone, Copy)]
pub enum Form {
    Module,
    Estree,
}

const ANALYZE: &[&str] = &["analyze"];

const ANALYZE_ESTREE: &[&str] = &["analyze", "--estree"];

const LINES: &[&str] = &["analyze", "--lines"];

const LINES_ESTREE: &[&str] = &["analyze", "--estree", "--lines"];

const CHECK: &[&str] = &["check"];

const CHECK_ESTREE: &[&str] = &["check", "--estree"];

impl Form {
    /// The file with the documents to change.
    pub fn file(self) -> &'static str {
        match self {
            Form::Module => "documents.txt",
            Form::Estree => "estree.txt",
        }
    }

    /// The words that analyze a document.
    pub fn analyze(self) -> &'static [&'static str] {
        match self {
            Form::Module => ANALYZE,
            Form::Estree => ANALYZE_ESTREE,
        }
    }

    /// The words that analyze a document per line.
    pub fn lines(self) -> &'static [&'static str] {
        match self {
            Form::Module => LINES,
            Form::Estree => LINES_ESTREE,
        }
    }

    /// The words that check a document.
    pub fn check(self) -> &'static [&'static str] {
        match self {
            Form::Module => CHECK,
            Form::Estree => CHECK_ESTREE,
        }
    }
}
