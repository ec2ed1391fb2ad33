ghost use Rattle.std.specs.Prelude.{◌≡◌};
ghost use Rattle.modinfo_document.specs.Error.{error_name};

use deno_graph_json::{Mismatch, ReadError, TapeError};
use deno_graph_source::tree::SourceFault;
use std::alloc::{AllocError, AllocFailed};
use std::error::Error;
use std::fmt;
use url::ParseError;

/// Why a text isn't a module document, or a document has no source. Displayed by its name.
#[derive(Debug, PartialEq, Eq, Drop)]
pub enum DocumentError {
    /// The text isn't JSON, nests deeper than 127 or has a number too large for a float. The offset,
    /// in bytes, is that of `TapeError::Json`.
    Json { offset: usize },
    /// A value in the JSON isn't what is expected there.
    Tree(Mismatch),
    /// The specifier isn't a URL.
    Specifier,
    /// The tree or the comments don't fit the source.
    Source(SourceFault),
    /// An allocation failed, or the specifier is a URL of 4 GB.
    OutOfMemory,
}

impl DocumentError {
    /// The name of the fault that the program prints.
    pub fn name(&self) -> &'static str
        ensures { result.now ≡ error_name self.now }
    {
        match self {
            DocumentError::Json { .. } => "Json",
            DocumentError::Tree(_) => "Tree",
            DocumentError::Specifier => "Specifier",
            DocumentError::Source(fault) => fault.name(),
            DocumentError::OutOfMemory => "OutOfMemory",
        }
    }
}

impl fmt::Display for DocumentError {
    ghost use Rattle.std.specs.Prelude.{Some};
    ghost use Rattle.modinfo_document.specs.Error.{error_name};

    ghost output = { λ error. Some (error_name error) };

    fn fmt<W: fmt::Write>(&self, f: &mut fmt::Formatter<W>) -> fmt::Result {
        f.write_str(self.name())
    }
}

impl Error for DocumentError {}

impl From<AllocError> for DocumentError {
    ghost use Rattle.std.specs.Prelude.{◌≡◌};
    ghost use Rattle.modinfo_document.specs.declared.error.DocumentError.TheVariants.{OutOfMemory};

    ghost from_gives = { λ _ e. e ≡ OutOfMemory };

    fn from(_error: AllocError) -> DocumentError {
        DocumentError::OutOfMemory
    }
}

impl<T: Drop> From<AllocFailed<T>> for DocumentError {
    ghost use Rattle.std.specs.Prelude.{◌≡◌};
    ghost use Rattle.modinfo_document.specs.declared.error.DocumentError.TheVariants.{OutOfMemory};

    ghost from_gives = { λ _ e. e ≡ OutOfMemory };

    fn from(_error: AllocFailed<T>) -> DocumentError {
        DocumentError::OutOfMemory
    }
}

impl From<TapeError> for DocumentError {
    ghost use Rattle.std.specs.Prelude.{◌≡◌};
    ghost use Rattle.modinfo_document.specs.Error.{of_tape};

    ghost from_gives = { λ fault e. e ≡ of_tape fault };

    fn from(fault: TapeError) -> DocumentError {
        match fault {
            TapeError::Json { offset } => DocumentError::Json { offset },
            TapeError::OutOfMemory => DocumentError::OutOfMemory,
        }
    }
}

impl From<ReadError> for DocumentError {
    ghost use Rattle.std.specs.Prelude.{◌≡◌};
    ghost use Rattle.modinfo_document.specs.Error.{of_read};

    ghost from_gives = { λ error e. e ≡ of_read error };

    fn from(error: ReadError) -> DocumentError {
        match error {
            ReadError::Mismatch(mismatch) => DocumentError::Tree(mismatch),
            ReadError::OutOfMemory => DocumentError::OutOfMemory,
        }
    }
}

impl From<ParseError> for DocumentError {
    ghost use Rattle.std.specs.Prelude.{◌≡◌};
    ghost use Rattle.modinfo_document.specs.Error.{of_url};

    ghost from_gives = { λ error e. e ≡ of_url error };

    fn from(error: ParseError) -> DocumentError {
        match error {
            ParseError::OutOfMemory | ParseError::Overflow => DocumentError::OutOfMemory,
            _ => DocumentError::Specifier,
        }
    }
}

impl From<SourceFault> for DocumentError {
    ghost use Rattle.std.specs.Prelude.{◌≡◌};
    ghost use Rattle.modinfo_document.specs.Error.{of_source};

    ghost from_gives = { λ fault e. e ≡ of_source fault };

    fn from(fault: SourceFault) -> DocumentError {
        match fault {
            SourceFault::OutOfMemory => DocumentError::OutOfMemory,
            fault => DocumentError::Source(fault),
        }
    }
}
