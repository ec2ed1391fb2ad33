use deno_graph_analysis::ast::ParseError;
use deno_graph_info::analysis::InfoFault;
use deno_graph_json::{ReadError, TapeError};
use deno_graph_source::tree::SourceFault;
use modinfo::document::DocumentError;
use std::alloc::{AllocError, AllocFailed};
use std::io::{self, ErrorKind};
use thiserror::Error;

/// Why a test case wasn't run, or what is wrong after a call.
#[derive(Debug, Drop, Error)]
pub enum CaseError {
    /// An allocation failed.
    #[error("OutOfMemory")]
    OutOfMemory,
    /// A file can't be read, or the output can't be written.
    #[error("a file can't be read or written")]
    File,
    /// The test case is invalid: the reason, in words.
    #[error("{0}")]
    Invalid(&'static str),
    /// A result or a state is wrong. The message says how.
    #[error("{0}")]
    Unexpected(&'static str),
}

impl CaseError {
    /// The exit status of the program.
    pub fn status(&self) -> u8 {
        match self {
            CaseError::Unexpected(_) => 1,
            CaseError::File | CaseError::Invalid(_) => 2,
            CaseError::OutOfMemory => 3,
        }
    }
}

impl From<AllocError> for CaseError {
    fn from(_error: AllocError) -> CaseError {
        CaseError::OutOfMemory
    }
}

impl<T: Drop> From<AllocFailed<T>> for CaseError {
    fn from(_error: AllocFailed<T>) -> CaseError {
        CaseError::OutOfMemory
    }
}

impl From<io::Error> for CaseError {
    fn from(error: io::Error) -> CaseError {
        if error.kind() == ErrorKind::OutOfMemory {
            CaseError::OutOfMemory
        } else {
            CaseError::File
        }
    }
}

impl From<serde_json::Error> for CaseError {
    fn from(error: serde_json::Error) -> CaseError {
        if error.is_memory() {
            CaseError::OutOfMemory
        } else {
            CaseError::Invalid("its input is no JSON")
        }
    }
}

impl From<TapeError> for CaseError {
    fn from(fault: TapeError) -> CaseError {
        match fault {
            TapeError::Json { .. } => CaseError::Invalid("its input is no JSON"),
            TapeError::OutOfMemory => CaseError::OutOfMemory,
        }
    }
}

impl From<ReadError> for CaseError {
    fn from(error: ReadError) -> CaseError {
        match error {
            ReadError::Mismatch(_) => CaseError::Invalid("its input can't be read"),
            ReadError::OutOfMemory => CaseError::OutOfMemory,
        }
    }
}

impl From<DocumentError> for CaseError {
    fn from(fault: DocumentError) -> CaseError {
        match fault {
            DocumentError::OutOfMemory => CaseError::OutOfMemory,
            _ => CaseError::Invalid("its input is no module document with a source"),
        }
    }
}

impl From<SourceFault> for CaseError {
    fn from(fault: SourceFault) -> CaseError {
        match fault {
            SourceFault::OutOfMemory => CaseError::OutOfMemory,
            _ => CaseError::Invalid("its document has a fault"),
        }
    }
}

impl From<InfoFault> for CaseError {
    fn from(fault: InfoFault) -> CaseError {
        match fault {
            InfoFault::OutOfMemory => CaseError::OutOfMemory,
            _ => CaseError::Invalid("an information of it can't be read"),
        }
    }
}

impl From<url::ParseError> for CaseError {
    fn from(error: url::ParseError) -> CaseError {
        match error {
            url::ParseError::OutOfMemory => CaseError::OutOfMemory,
            _ => CaseError::Unexpected("a specifier is no URL"),
        }
    }
}

impl From<ParseError> for CaseError {
    fn from(error: ParseError) -> CaseError {
        match error {
            ParseError::OutOfMemory => CaseError::OutOfMemory,
            ParseError::Diagnostic(_) => CaseError::Unexpected("a text is not parsed"),
        }
    }
}
