//! What follows the specifier of a declaration: its attributes.

ghost use Rattle.std.specs.Prelude.{◌≡◌, Bool};
ghost use Rattle.modinfo_imports.specs.Duties.{
  after_specifier,
  attributed,
  met_by,
  specified,
  takes_specifier,
};
ghost use Rattle.modinfo_imports.specs.declared.duty.Duty.TheVariants.{Comma};

use crate::duty::{Duty, Name, Phase, Sight, is_byte, is_name, only};

/// Returns whether a specifier of the tree meets a duty, that of a declaration that names something or not.
pub fn takes_specifier(has_names: bool, duty: Duty) -> bool
    ensures { result ≡ takes_specifier has_names duty }
{
    match duty {
        Duty::Start {
            phase: Phase::Plain,
        } => !has_names,
        Duty::Names {
            is_before_specifier: true,
            is_named,
        } => if has_names { is_named } else { !is_named },
        Duty::TypeFrom => has_names,
        Duty::From | Duty::Module => true,
        _ => false,
    }
}

/// Returns what the next token must be after the specifier that begins at an offset and meets a duty.
pub fn specified(at: usize, has_with: bool, duty: Duty) -> Duty
    ensures { result ≡ specified at has_with duty }
{
    match duty {
        Duty::Module => Duty::Nothing,
        _ => Duty::Specifier { at, has_with },
    }
}

/// Returns what the next token must be after a specifier that begins at an offset, and a token.
pub fn after_specifier(
    at: usize,
    has_with: bool,
    sight: Sight,
    is_after_line_end: bool,
) -> Option<Duty>
    ensures { result ≡ after_specifier at has_with sight is_after_line_end }
{
    match (sight, is_after_line_end) {
        (Sight::Word(Name::With), _) | (Sight::Word(Name::Assert), false) => {
            only(has_with, Duty::With { at })
        }
        _ => only(!has_with, Duty::Nothing),
    }
}

/// Returns what the next token must be after a token that is a key or a value of attributes in the tree: the
/// attributes of the specifier that begins at one offset, the value that begins at another.
pub fn attributed(specifier: usize, value: usize, duty: Duty, sight: Sight) -> Option<Duty>
    ensures { result ≡ attributed specifier value duty sight }
{
    match duty {
        Duty::Key { at } => only(
            is_name(sight) && at == specifier,
            Duty::Colon {
                at: specifier,
                value,
            },
        ),
        Duty::Value {
            at,
            value: expected,
        } => only(
            at == specifier && expected == value,
            Duty::Comma { at: specifier },
        ),
        _ => None,
    }
}

/// Returns what the next token must be after the value of an attribute and a token.
#[tactic(auto, unfolding(crate::specs::Duties::met_by))]
pub fn met_comma(at: usize, sight: Sight) -> Option<Duty>
    ensures { (is_after is_typed : Bool) → result ≡ met_by (Comma at) sight is_after is_typed }
{
    if is_byte(b",", sight) {
        Some(Duty::Key { at })
    } else {
        only(is_byte(b"}", sight), Duty::Nothing)
    }
}
