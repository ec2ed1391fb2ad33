//! What the words `export` and `module` ask of the tokens after them.

ghost use Rattle.std.specs.Prelude.{◌≡◌, Bool};
ghost use Rattle.modinfo_imports.specs.Duties.{after_export, met_by};
ghost use Rattle.modinfo_imports.specs.declared.duty.Duty.TheVariants.{
  Export,
  ExportAlone,
  ExportEnd,
  ExportNames,
  ExportStar,
  Module,
};

use crate::duty::{Duty, Name, Sight, is_byte, is_name, only};

/// Returns what the next token must be after a word `export` and a token.
#[tactic(auto, unfolding(crate::specs::Duties::met_by))]
pub fn met_export(
    may_be_member: bool,
    is_claimed: bool,
    is_of_types: bool,
    sight: Sight,
    is_after_line_end: bool,
) -> Option<Duty>
    ensures { (is_typed : Bool)
        → result ≡ met_by (Export may_be_member is_claimed is_of_types) sight is_after_line_end is_typed }
{
    match sight {
        Sight::Word(_) if may_be_member && is_after_line_end => Some(Duty::Nothing),
        Sight::Word(Name::Type) => Some(Duty::Export {
            may_be_member: false,
            is_claimed: is_claimed && is_of_types,
            is_of_types: false,
        }),
        Sight::Byte(byte) => after_export(
            is_claimed && !is_of_types,
            may_be_member && is_after_line_end,
            byte,
        ),
        _ => Some(Duty::Nothing),
    }
}

/// Returns what the next token must be after a word `export` and a byte of punctuation.
fn after_export(is_claimed: bool, may_end: bool, byte: u8) -> Option<Duty>
    ensures { result ≡ after_export is_claimed may_end byte }
{
    if byte == b'{' {
        only(is_claimed, Duty::ExportNames)
    } else if byte == b'*' && !may_end {
        only(is_claimed, Duty::ExportStar)
    } else {
        Some(Duty::Nothing)
    }
}

/// Returns what the next token must be after `export {` and more tokens.
#[tactic(auto, unfolding(crate::specs::Duties::met_by))]
pub fn met_export_names(sight: Sight) -> Option<Duty>
    ensures { (is_after is_typed : Bool) → result ≡ met_by ExportNames sight is_after is_typed }
{
    if is_byte(b"}", sight) {
        Some(Duty::ExportEnd)
    } else {
        only(is_name(sight) || is_byte(b",", sight), Duty::ExportNames)
    }
}

/// Returns what the next token must be after `export *` and a token.
#[tactic(auto, unfolding(crate::specs::Duties::met_by))]
pub fn met_export_star(sight: Sight) -> Option<Duty>
    ensures { (is_after is_typed : Bool) → result ≡ met_by ExportStar sight is_after is_typed }
{
    match sight {
        Sight::Word(Name::From) => Some(Duty::From),
        Sight::Word(Name::As) => Some(Duty::ExportAs),
        _ => None,
    }
}

/// Returns what the next token must be after the names of an export and a token.
#[tactic(auto, unfolding(crate::specs::Duties::met_by))]
pub fn met_export_end(sight: Sight) -> Option<Duty>
    ensures { (is_after is_typed : Bool) → result ≡ met_by ExportEnd sight is_after is_typed }
{
    match sight {
        Sight::Word(Name::From) => Some(Duty::From),
        _ => Some(Duty::Nothing),
    }
}

/// Returns what the next token must be after an `export` at which no node begins, and a token.
#[tactic(auto, unfolding(crate::specs::Duties::met_by))]
pub fn met_export_alone(sight: Sight) -> Option<Duty>
    ensures { (is_after is_typed : Bool) → result ≡ met_by ExportAlone sight is_after is_typed }
{
    match sight {
        Sight::Word(Name::As) => Some(Duty::Nothing),
        _ => only(is_byte(b"=", sight), Duty::Nothing),
    }
}

/// Returns what the next token must be after `module` and a token.
#[tactic(auto, unfolding(crate::specs::Duties::met_by))]
pub fn met_module(sight: Sight, is_after_line_end: bool) -> Option<Duty>
    ensures { (is_typed : Bool) → result ≡ met_by Module sight is_after_line_end is_typed }
{
    match sight {
        Sight::String if !is_after_line_end => None,
        _ => Some(Duty::Nothing),
    }
}
