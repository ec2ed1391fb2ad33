ghost use Rattle.std.specs.Prelude.{◌≡◌, ◌↔◌};
ghost use Rattle.std.specs.IoError.{error_kind};
ghost use Rattle.std.specs.declared.io.ErrorKind.TheVariants.{BrokenPipe};
ghost use Rattle.modinfo.specs.Fault.{IsWriteFault, is_closed, name_of_fault};

use crate::reach::QuestionError;
use deno_graph_info::analysis::{ConvertFault, InfoFault};
use deno_graph_json::{ReadError, TapeError};
use deno_graph_source::tree::SourceFault;
use modinfo_document::DocumentError;
use modinfo_source::TextError;
use std::alloc::{AllocError, AllocFailed};
use std::error::Error;
use std::io::ErrorKind;
use std::{fmt, io};

/// Why the program printed no answer. Displayed by its name; `Source`, `Convert` and `Info` by the name
/// of the fault inside.
#[derive(Debug, PartialEq, Eq, Drop)]
pub enum Fault {
    /// A read failed, or the input isn't UTF-8.
    Input,
    /// The input isn't JSON, nests deeper than 127 or has a number too large for a float.
    Json,
    /// The JSON isn't a module document.
    Tree,
    /// The specifier isn't a URL.
    Specifier,
    /// The source text has a syntax error.
    Syntax,
    /// What the parser read isn't the source text's: a defect of the program, to be reported.
    Defect,
    /// The tree or the comments don't fit the source.
    Source(SourceFault),
    /// The stored information can't be converted.
    Convert(ConvertFault),
    /// The JSON isn't a document of `reach`, or a module in it isn't the JSON of a `ModuleInfo`.
    Info(InfoFault),
    /// A write failed.
    Output,
    /// A write failed because the reader of the output ended. The fault's name is `Output`, and the program
    /// ends without a message.
    Closed,
    /// An allocation failed.
    OutOfMemory,
}

impl Fault {
    /// The printed name of the fault.
    pub fn name(&self) -> &'static str
        ensures { result.now ≡ name_of_fault self.now }
    {
        match self {
            Fault::Input => "Input",
            Fault::Json => "Json",
            Fault::Tree => "Tree",
            Fault::Specifier => "Specifier",
            Fault::Syntax => "Syntax",
            Fault::Defect => "Defect",
            Fault::Source(fault) => fault.name(),
            Fault::Convert(fault) => fault.name(),
            Fault::Info(fault) => fault.name(),
            Fault::Output | Fault::Closed => "Output",
            Fault::OutOfMemory => "OutOfMemory",
        }
    }

    /// The fault of a failed write.
    pub fn of_write(error: &io::Error) -> Fault
        ensures write { IsWriteFault result }
        ensures closed { result ≡ Fault.Closed ↔ error_kind error.now ≡ BrokenPipe }
    {
        if error.kind() == ErrorKind::BrokenPipe {
            Fault::Closed
        } else {
            Fault::Output
        }
    }

    /// Returns whether the reader of the output ended.
    pub fn is_closed(&self) -> bool
        ensures { result ≡ is_closed self.now }
    {
        matches!(self, Fault::Closed)
    }
}

impl fmt::Display for Fault {
    ghost use Rattle.std.specs.Prelude.{Some};
    ghost use Rattle.modinfo.specs.Fault.{name_of_fault};

    ghost output = { λ fault. Some (name_of_fault fault) };

    fn fmt<W: fmt::Write>(&self, f: &mut fmt::Formatter<W>) -> fmt::Result {
        f.write_str(self.name())
    }
}

impl Error for Fault {}

impl From<AllocError> for Fault {
    ghost use Rattle.std.specs.Prelude.{◌≡◌};
    ghost use Rattle.modinfo.specs.declared.fault.Fault.TheVariants.{OutOfMemory};

    ghost from_gives = { λ error fault. fault ≡ OutOfMemory };

    fn from(_error: AllocError) -> Fault {
        Fault::OutOfMemory
    }
}

impl<T: Drop> From<AllocFailed<T>> for Fault {
    ghost use Rattle.std.specs.Prelude.{◌≡◌};
    ghost use Rattle.modinfo.specs.declared.fault.Fault.TheVariants.{OutOfMemory};

    ghost from_gives = { λ error fault. fault ≡ OutOfMemory };

    fn from(_error: AllocFailed<T>) -> Fault {
        Fault::OutOfMemory
    }
}

impl From<DocumentError> for Fault {
    ghost use Rattle.std.specs.Prelude.{◌≡◌};
    ghost use Rattle.modinfo.specs.Fault.{fault_of_document};

    ghost from_gives = { λ document_error fault. fault ≡ fault_of_document document_error };

    fn from(fault: DocumentError) -> Fault {
        match fault {
            DocumentError::Json { .. } => Fault::Json,
            DocumentError::Tree(mismatch) => {
                drop(mismatch);
                Fault::Tree
            }
            DocumentError::Specifier => Fault::Specifier,
            DocumentError::Source(fault) => Fault::Source(fault),
            DocumentError::OutOfMemory => Fault::OutOfMemory,
        }
    }
}

impl From<TextError> for Fault {
    ghost use Rattle.std.specs.Prelude.{◌≡◌};
    ghost use Rattle.modinfo.specs.Fault.{fault_of_text};

    ghost from_gives = { λ text_error fault. fault ≡ fault_of_text text_error };

    fn from(error: TextError) -> Fault {
        match error {
            TextError::Syntax(diagnostic) => {
                drop(diagnostic);
                Fault::Syntax
            }
            TextError::Defect(_) => Fault::Defect,
            TextError::OutOfMemory => Fault::OutOfMemory,
        }
    }
}

impl From<ConvertFault> for Fault {
    ghost use Rattle.std.specs.Prelude.{◌≡◌};
    ghost use Rattle.modinfo.specs.Fault.{fault_of_conversion};

    ghost from_gives = { λ convert_fault fault. fault ≡ fault_of_conversion convert_fault };

    fn from(fault: ConvertFault) -> Fault {
        match fault {
            ConvertFault::OutOfMemory => Fault::OutOfMemory,
            fault => Fault::Convert(fault),
        }
    }
}

impl From<QuestionError> for Fault {
    ghost use Rattle.std.specs.Prelude.{◌≡◌};
    ghost use Rattle.modinfo.specs.Fault.{fault_of_question};

    ghost from_gives = { λ error fault. fault ≡ fault_of_question error };

    fn from(error: QuestionError) -> Fault {
        match error.error {
            ReadError::Mismatch(_) => Fault::Info(error.fault),
            ReadError::OutOfMemory => Fault::OutOfMemory,
        }
    }
}

impl From<TapeError> for Fault {
    ghost use Rattle.std.specs.Prelude.{◌≡◌};
    ghost use Rattle.modinfo.specs.Fault.{fault_of_tape};

    ghost from_gives = { λ tape_fault fault. fault ≡ fault_of_tape tape_fault };

    fn from(fault: TapeError) -> Fault {
        match fault {
            TapeError::Json { .. } => Fault::Json,
            TapeError::OutOfMemory => Fault::OutOfMemory,
        }
    }
}
