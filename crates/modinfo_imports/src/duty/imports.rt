//! What an import asks of the tokens after its first word, up to the specifier.

ghost use Rattle.std.specs.Prelude.{◌≡◌, Bool};
ghost use Rattle.modinfo_imports.specs.Duties.{
  after_name,
  after_names,
  after_phase,
  after_start,
  after_type,
  met_by,
};
ghost use Rattle.modinfo_imports.specs.declared.duty.Duty.TheVariants.{Names, Start};

use crate::duty::{Duty, Name, Phase, Sight, is_byte, is_name, only};

/// Returns what the next token must be between `import`, at which a node begins, and the specifier.
pub fn after_names(is_next: bool, is_named: bool, sight: Sight) -> Option<Duty>
    ensures { result ≡ after_names is_next is_named sight }
{
    match sight {
        Sight::String if is_next => None,
        Sight::Word(Name::From) => Some(names_duty(true, is_named || is_next)),
        _ if is_name(sight) || is_byte(b"*", sight) => Some(names_duty(false, true)),
        _ if is_byte(b"{,}", sight) => Some(names_duty(false, is_named || is_next)),
        _ if is_byte(b"=", sight) => Some(Duty::NoCall),
        _ => Some(Duty::Nothing),
    }
}

/// Returns the duty `Names`.
fn names_duty(is_before_specifier: bool, is_named: bool) -> Duty
    ensures { result ≡ Names is_before_specifier is_named }
{
    Duty::Names {
        is_before_specifier,
        is_named,
    }
}

/// Returns what the next token must be after `import`, at which a node begins, and a token.
#[tactic(auto, unfolding(crate::specs::Duties::met_by))]
pub fn met_start(phase: Phase, sight: Sight) -> Option<Duty>
    ensures { (is_after is_typed : Bool) → result ≡ met_by (Start phase) sight is_after is_typed }
{
    match (phase, sight) {
        (Phase::Plain, _) => after_start(sight),
        (Phase::Types, Sight::Word(Name::Type)) => Some(Duty::Phase),
        (Phase::Source, Sight::Word(Name::Source)) => Some(Duty::Phase),
        (Phase::Defer, Sight::Word(Name::Defer)) => Some(Duty::Phase),
        _ => None,
    }
}

/// Returns what the next token must be after `import` without a phase, at which a node begins, and a token.
fn after_start(sight: Sight) -> Option<Duty>
    ensures { result ≡ after_start sight }
{
    match sight {
        Sight::String => None,
        Sight::Word(Name::Type) => Some(Duty::TypeWord),
        Sight::Word(_) => Some(Duty::Name),
        _ => after_names(false, false, sight),
    }
}

/// Returns what the next token must be after `import type` without a phase, and a token.
pub fn after_type(sight: Sight) -> Option<Duty>
    ensures { result ≡ after_type sight }
{
    match sight {
        Sight::Word(Name::From) => Some(Duty::TypeFrom),
        Sight::Word(_) => Some(Duty::Alias),
        _ => after_names(false, true, sight),
    }
}

/// Returns what the next token must be after `import name` and a token.
pub fn after_name(sight: Sight) -> Option<Duty>
    ensures { result ≡ after_name sight }
{
    match sight {
        Sight::Word(Name::From) => Some(names_duty(true, true)),
        _ if is_byte(b",=", sight) => after_names(false, true, sight),
        _ => None,
    }
}

/// Returns what the next token must be after `import type`, `import source` or `import defer`, and a token.
pub fn after_phase(sight: Sight) -> Option<Duty>
    ensures { result ≡ after_phase sight }
{
    match sight {
        Sight::Word(_) => Some(names_duty(false, true)),
        _ => only(
            is_byte(b"{*", sight),
            names_duty(false, is_byte(b"*", sight)),
        ),
    }
}
