//! Checking the documents of each command.

mod conversion;
mod encoding;
mod modules;
mod source;
mod stored;

pub use encoding::report_invalid_utf8;
pub use modinfo_document::check_document;
pub use modinfo_document::report::{
    FaultReport, Report, TextPlace, ValueWarning, Warning, WarningKind, Warnings,
};
pub use modinfo_estree::check_estree;
pub use modules::check_modules;
pub use source::{check_source, check_text};
pub use stored::check_stored;
