//! Warnings about the values of a document.

ghost use Rattle.std.specs.Prelude.{◌≡◌, ◌↔◌, IfOk, IsTrue, OnErr, OnOk};
ghost use Rattle.modinfo_document.specs.Report.{Adds, AreSame, HasNone, HasOnly};
ghost use Rattle.modinfo_document.specs.ReportText.{value_words, warning_words};

use std::alloc::{AllocError, Global};

/// The number of warnings that are kept for a document.
pub(super) const MAX_KEPT: usize = 100;

/// A probable mistake in a module document.
#[derive(Debug, Clone, Copy, PartialEq, Eq)]
pub enum ValueWarning {
    /// A member that nothing reads.
    UnreadMember,
    /// A position beyond the source, where no comment is looked for.
    PositionBeyond,
    /// A position inside a character, where no comment is looked for.
    PositionInside,
    /// A node whose range isn't inside the range of its parent.
    RangeOutside,
    /// A node whose range starts before the range of its previous sibling.
    RangeEarlier,
}

impl ValueWarning {
    /// The warning in words.
    fn words(self) -> &'static str
        ensures { result.now ≡ value_words self }
    {
        match self {
            ValueWarning::UnreadMember => "nothing reads a member of this name here",
            ValueWarning::PositionBeyond => {
                "no comment is looked for here: the position is beyond the source"
            }
            ValueWarning::PositionInside => {
                "no comment is looked for here: the position is inside a character"
            }
            ValueWarning::RangeOutside => "the range isn't inside that of the node above",
            ValueWarning::RangeEarlier => {
                "the range starts before that of the child in front of it"
            }
        }
    }
}

/// The kinds of warnings.
#[derive(Debug, Clone, Copy, PartialEq, Eq)]
pub enum WarningKind {
    /// A value of a module document.
    Value(ValueWarning),
    /// A string literal whose value the source doesn't spell at the literal's range.
    UnspelledLiteral,
    /// The root of a document of `reach`, which is no module's key.
    UnknownRoot,
}

impl WarningKind {
    /// The warning in words.
    pub fn words(self) -> &'static str
        ensures { result.now ≡ warning_words self }
    {
        match self {
            WarningKind::Value(value) => value.words(),
            WarningKind::UnspelledLiteral => {
                "the source doesn't spell this value at the literal's range"
            }
            WarningKind::UnknownRoot => "no module has this key, so the answer is []",
        }
    }
}

/// A warning about a value that the author of the document may not have meant.
#[derive(Debug, PartialEq, Eq, Drop)]
pub struct Warning {
    /// The JSON Pointer of the value.
    pub pointer: String,
    /// The kind of the warning.
    pub kind: WarningKind,
}

/// The warnings about a document: those about string literals after all others, each in the order of reading.
#[derive(Debug, PartialEq, Eq, Drop)]
pub struct Warnings {
    /// The first 100 warnings.
    pub kept: Vec<Warning>,
    /// The number of other warnings.
    pub more: usize,
}

impl Warnings {
    /// No warnings. Allocates nothing.
    pub fn new(alloc: Global) -> Warnings
        ensures { HasNone result }
    {
        Warnings {
            kept: Vec::new(alloc),
            more: 0,
        }
    }

    /// One warning. The only error is a failed allocation.
    pub fn of_one(alloc: Global, warning: Warning) -> Result<Warnings, AllocError>
        ensures { IfOk result (HasOnly warning) }
    {
        let mut warnings = Warnings::new(alloc);
        warnings.kept.push(warning)?;
        Ok(warnings)
    }

    /// Returns whether there are no warnings.
    pub fn is_empty(&self) -> bool
        ensures { IsTrue result ↔ HasNone self.now }
    {
        self.kept.is_empty() && self.more == 0
    }

    /// Adds a warning: counts it if 100 are kept, else keeps it. The only error is a failed allocation.
    pub fn push(&mut self, warning: Warning) -> Result<(), AllocError>
        ensures adds { OnOk result (Adds warning self.old self.new) }
        ensures err { OnErr result (AreSame self.old self.new) }
    {
        if self.kept.len() >= MAX_KEPT {
            self.more = self.more.saturating_add(1);
            return Ok(());
        }
        Ok(self.kept.push(warning)?)
    }
}
