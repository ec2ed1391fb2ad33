ghost use Rattle.std.specs.Prelude.{◌≡◌};
ghost use Rattle.deno_graph_info.specs.FaultName.{info_fault_name};

use deno_graph_json::ReadError;
use std::alloc::AllocError;
use std::error::Error;
use std::fmt;

/// Why a `ModuleInfo` can't be read. Displayed by its name.
#[derive(Debug, PartialEq, Eq, Drop)]
pub enum InfoFault {
    /// The value has no float, and isn't the JSON of a `ModuleInfo`.
    Shape,
    /// The value has a number that isn't held as a whole number.
    Float,
    OutOfMemory,
}

impl InfoFault {
    /// Returns the printed name of the fault.
    pub fn name(&self) -> &'static str
        ensures { result.now ≡ info_fault_name self.now }
    {
        match self {
            InfoFault::Shape => "Shape",
            InfoFault::Float => "Float",
            InfoFault::OutOfMemory => "OutOfMemory",
        }
    }
}

impl fmt::Display for InfoFault {
    ghost use Rattle.std.specs.Prelude.{Some};
    ghost use Rattle.deno_graph_info.specs.FaultName.{info_fault_name};

    ghost output = { λ fault. Some (info_fault_name fault) };

    fn fmt<W: fmt::Write>(&self, f: &mut fmt::Formatter<W>) -> fmt::Result {
        f.write_str(self.name())
    }
}

impl Error for InfoFault {}

impl From<ReadError> for InfoFault {
    ghost use Rattle.std.specs.Prelude.{◌≡◌};
    ghost use Rattle.deno_graph_info.specs.InfoFault.{fault_of};

    ghost from_gives = { λ error fault. fault ≡ fault_of error };

    fn from(error: ReadError) -> InfoFault {
        match error {
            ReadError::Mismatch(_) => InfoFault::Shape,
            ReadError::OutOfMemory => InfoFault::OutOfMemory,
        }
    }
}

impl From<AllocError> for InfoFault {
    ghost use Rattle.std.specs.Prelude.{◌≡◌};
    ghost use Rattle.deno_graph_info.specs.declared.analysis.fault.InfoFault.TheVariants.{OutOfMemory};

    ghost from_gives = { λ _ fault. fault ≡ OutOfMemory };

    fn from(_error: AllocError) -> InfoFault {
        InfoFault::OutOfMemory
    }
}
