use crate::case_error::CaseError;

/// How a call ended. The state after the call has been checked.
#[derive(Clone, Copy, PartialEq, Eq)]
pub enum Outcome {
    /// The call returned a result.
    Returned,
    /// The call returned out of memory.
    OutOfMemory,
    /// The call returned a result while each allocation would have failed.
    ReturnedWithoutMemory,
}

impl Outcome {
    pub fn as_str(self) -> &'static str {
        match self {
            Outcome::Returned => "returned",
            Outcome::OutOfMemory => "out of memory",
            Outcome::ReturnedWithoutMemory => "returned without memory",
        }
    }

    /// Returns this outcome, or the message as an error if `holds` is false.
    pub fn provided(self, holds: bool, message: &'static str) -> Result<Outcome, CaseError> {
        check(holds, message)?;
        Ok(self)
    }
}

/// Returns the message as an error if `holds` is false.
pub fn check(holds: bool, message: &'static str) -> Result<(), CaseError> {
    if holds {
        Ok(())
    } else {
        Err(CaseError::Unexpected(message))
    }
}

/// Returns the first message whose condition is false as an error.
pub fn check_each(checks: &[(bool, &'static str)]) -> Result<(), CaseError> {
    for (holds, message) in checks {
        check(*holds, *message)?;
    }
    Ok(())
}
