use std::alloc::{AllocError, AllocFailed};

/// Why a text can't be read.
#[derive(Clone, Copy, Debug, PartialEq, Eq)]
pub enum TapeError {
    /// The text isn't one JSON value, nests deeper than 127, or has a number too large for a float.
    /// `offset` is the byte offset of the token that can't be there, or the length of a text that ends
    /// too early. The offset is tested, not proved.
    Json { offset: usize },
    /// An allocation failed.
    OutOfMemory,
}

impl From<AllocError> for TapeError {
    ghost use Rattle.std.specs.Prelude.{◌≡◌};
    ghost use Rattle.deno_graph_json.specs.declared.flat.error.TapeError.TheVariants.{OutOfMemory};

    ghost from_gives = { λ _ fault. fault ≡ OutOfMemory };

    fn from(_error: AllocError) -> TapeError {
        TapeError::OutOfMemory
    }
}

impl<T: Drop> From<AllocFailed<T>> for TapeError {
    ghost use Rattle.std.specs.Prelude.{◌≡◌};
    ghost use Rattle.deno_graph_json.specs.declared.flat.error.TapeError.TheVariants.{OutOfMemory};

    ghost from_gives = { λ _ fault. fault ≡ OutOfMemory };

    fn from(_error: AllocFailed<T>) -> TapeError {
        TapeError::OutOfMemory
    }
}
