ghost use Rattle.std.specs.Prelude.{◌≡◌};
ghost use Rattle.deno_graph_info.specs.FaultName.{convert_fault_name};

use std::alloc::{AllocError, AllocFailed};
use std::error::Error;
use std::fmt;

/// Why a value can't be converted. Displayed by its name.
#[derive(Debug, PartialEq, Eq, Drop)]
pub enum ConvertFault {
    /// The column at which a types specifier ends is above the largest `usize`.
    ColumnOverflow,
    /// The value has a number that isn't held as a whole number.
    Float,
    OutOfMemory,
}

impl ConvertFault {
    /// Returns the printed name of the fault.
    pub fn name(&self) -> &'static str
        ensures { result.now ≡ convert_fault_name self.now }
    {
        match self {
            ConvertFault::ColumnOverflow => "ColumnOverflow",
            ConvertFault::Float => "Float",
            ConvertFault::OutOfMemory => "OutOfMemory",
        }
    }
}

impl fmt::Display for ConvertFault {
    ghost use Rattle.std.specs.Prelude.{Some};
    ghost use Rattle.deno_graph_info.specs.FaultName.{convert_fault_name};

    ghost output = { λ fault. Some (convert_fault_name fault) };

    fn fmt<W: fmt::Write>(&self, f: &mut fmt::Formatter<W>) -> fmt::Result {
        f.write_str(self.name())
    }
}

impl Error for ConvertFault {}

impl From<AllocError> for ConvertFault {
    ghost use Rattle.std.specs.Prelude.{◌≡◌};
    ghost use Rattle.deno_graph_info.specs.declared.conversion.fault.ConvertFault.TheVariants.{OutOfMemory};

    ghost from_gives = { λ error fault. fault ≡ OutOfMemory };

    fn from(_error: AllocError) -> ConvertFault {
        ConvertFault::OutOfMemory
    }
}

impl<T: Drop> From<AllocFailed<T>> for ConvertFault {
    ghost use Rattle.std.specs.Prelude.{◌≡◌};
    ghost use Rattle.deno_graph_info.specs.declared.conversion.fault.ConvertFault.TheVariants.{OutOfMemory};

    ghost from_gives = { λ error fault. fault ≡ OutOfMemory };

    fn from(_error: AllocFailed<T>) -> ConvertFault {
        ConvertFault::OutOfMemory
    }
}
