ghost use Rattle.std.specs.Prelude.{◌≡◌, [], Some};
ghost use Rattle.serde_json.specs.Data.{Data};
ghost use Rattle.serde_json.specs.Find.{at, get};
ghost use Rattle.deno_graph_json.specs.Read.Error.{Expects, IsIn, IsMismatch, mismatch, step_into};
ghost use Rattle.deno_graph_json.specs.declared.expected.Expected.{Expected};

use crate::expected::Expected;
use deno_graph_base::values::{Items, Text};
use std::alloc::{AllocError, AllocFailed, Global};

/// Why a value can't be read.
#[derive(Drop)]
pub enum ReadError {
    /// A value isn't what was expected.
    Mismatch(Mismatch),
    /// An allocation failed.
    OutOfMemory,
}

/// A value that isn't what was expected, and the path to it from the value that is read.
#[derive(Debug, PartialEq, Eq, Drop)]
pub struct Mismatch {
    /// The steps to the value, from the inside out: the last step is the first to take.
    pub path: Items<Step>,
    pub expected: Expected,
}

/// A step from a JSON array or object to one of its values.
#[derive(Debug, PartialEq, Eq, Drop)]
pub enum Step {
    /// To the item with this index, counted from zero.
    Item(usize),
    /// To the member with this name.
    Member(Text),
}

impl ReadError {
    /// Returns the error of the whole value. Allocates nothing.
    pub fn expected(alloc: Global, expected: Expected) -> ReadError
        ensures { result ≡ mismatch [] expected }
    {
        ReadError::Mismatch(Mismatch {
            path: Items::new(alloc),
            expected,
        })
    }

    /// Turns the error of a member into the error of the object: adds the step to the member `name`.
    /// Returns `OutOfMemory` if an allocation fails.
    pub fn in_member(self, alloc: Global, name: &str) -> ReadError
        ensures place { (object member : Data) → get name.now object ≡ Some member
            → IsIn member self → IsIn object result }
        ensures mismatch { IsMismatch result → IsMismatch self }
        ensures expected { (wanted : Expected) → Expects wanted self → Expects wanted result }
    {
        match Text::from_str(alloc, name) {
            Ok(name) => self.in_step(Step::Member(name)),
            Err(_) => ReadError::OutOfMemory,
        }
    }

    /// Turns the error of an item into the error of the array: adds the step to the item with this
    /// index. Returns `OutOfMemory` if an allocation fails.
    pub fn in_item(self, number: usize) -> ReadError
        ensures place { (array item : Data) → at number array ≡ Some item
            → IsIn item self → IsIn array result }
        ensures mismatch { IsMismatch result → IsMismatch self }
        ensures expected { (wanted : Expected) → Expects wanted self → Expects wanted result }
    {
        self.in_step(Step::Item(number))
    }

    /// Adds a step around the path.
    fn in_step(self, step: Step) -> ReadError
        ensures place { (outer inner : Data) → step_into step outer ≡ Some inner
            → IsIn inner self → IsIn outer result }
        ensures mismatch { IsMismatch result → IsMismatch self }
        ensures expected { (wanted : Expected) → Expects wanted self → Expects wanted result }
    {
        match self {
            ReadError::Mismatch(Mismatch { path, expected }) => {
                let mut path = path;
                match path.push(step) {
                    Ok(()) => ReadError::Mismatch(Mismatch { path, expected }),
                    Err(_) => ReadError::OutOfMemory,
                }
            }
            ReadError::OutOfMemory => ReadError::OutOfMemory,
        }
    }
}

impl From<AllocError> for ReadError {
    ghost use Rattle.std.specs.Prelude.{◌≡◌};
    ghost use Rattle.deno_graph_json.specs.declared.error.ReadError.TheVariants.{OutOfMemory};

    ghost from_gives = { λ _ error. error ≡ OutOfMemory };

    fn from(_error: AllocError) -> ReadError {
        ReadError::OutOfMemory
    }
}

impl<T: Drop> From<AllocFailed<T>> for ReadError {
    ghost use Rattle.std.specs.Prelude.{◌≡◌};
    ghost use Rattle.deno_graph_json.specs.declared.error.ReadError.TheVariants.{OutOfMemory};

    ghost from_gives = { λ _ error. error ≡ OutOfMemory };

    fn from(_error: AllocFailed<T>) -> ReadError {
        ReadError::OutOfMemory
    }
}
