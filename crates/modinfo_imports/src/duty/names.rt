//! What the word `import`, at which no node begins, asks of the tokens after it.

ghost use Rattle.std.specs.Prelude.{◌≡◌, Bool};
ghost use Rattle.modinfo_imports.specs.Duties.{after_import, met_by};
ghost use Rattle.modinfo_imports.specs.declared.duty.Duty.TheVariants.{Import, Parameters, Parenthesis};

use crate::duty::{Duty, Name, Sight, is_byte, is_one_of, only};

/// Returns what the next token must be after a word `import` and a token.
#[tactic(auto, unfolding(crate::specs::Duties::met_by))]
pub fn met_import(
    in_braces: bool,
    may_be_method: bool,
    sight: Sight,
    is_after_line_end: bool,
) -> Option<Duty>
    ensures { (is_typed : Bool) → result ≡ met_by (Import in_braces may_be_method) sight is_after_line_end
        is_typed }
{
    match sight {
        Sight::Word(_) | Sight::String if in_braces && is_after_line_end => Some(Duty::Nothing),
        Sight::Word(Name::As) => Some(Duty::As),
        Sight::Byte(byte) => after_import(may_be_method, in_braces && is_after_line_end, byte),
        _ => None,
    }
}

/// Returns what the next token must be after a word `import` and a byte of punctuation.
fn after_import(may_be_method: bool, may_end: bool, byte: u8) -> Option<Duty>
    ensures { result ≡ after_import may_be_method may_end byte }
{
    if byte == b'(' {
        only(may_be_method, Duty::Parenthesis)
    } else {
        only(
            may_end && byte == b'*' || !is_one_of(b"*{.", byte),
            Duty::Nothing,
        )
    }
}

/// Returns what the next token must be after `import (` and a token.
#[tactic(auto, unfolding(crate::specs::Duties::met_by))]
pub fn met_parenthesis(sight: Sight) -> Option<Duty>
    ensures { (is_after is_typed : Bool) → result ≡ met_by Parenthesis sight is_after is_typed }
{
    match sight {
        Sight::Word(_) => Some(Duty::Nothing),
        _ => only(is_byte(b"){[@.", sight), Duty::Nothing),
    }
}

/// Returns what the next token must be after the parameters of a method and a token.
#[tactic(auto, unfolding(crate::specs::Duties::met_by))]
pub fn met_parameters(sight: Sight, is_after_line_end: bool, is_typed: bool) -> Option<Duty>
    ensures { result ≡ met_by Parameters sight is_after_line_end is_typed }
{
    only(
        is_byte(b"{:", sight) || is_typed && (is_after_line_end || is_byte(b";,}", sight)),
        Duty::Nothing,
    )
}
