//! What the word `require`, at which no call begins, asks of the tokens after it.

ghost use Rattle.std.specs.Prelude.{◌≡◌, Bool};
ghost use Rattle.modinfo_imports.specs.Duties.{after_require, met_by};
ghost use Rattle.modinfo_imports.specs.declared.duty.Duty.TheVariants.{
  NoCall,
  NoParenthesis,
  Require,
  TypeEnd,
  TypeName,
};

use crate::duty::{Duty, Name, Sight, is_byte, is_name, only};

/// Returns what the next token must be after a word `require` and a token.
#[tactic(auto, unfolding(crate::specs::Duties::met_by))]
pub fn met_require(
    may_be_method: bool,
    sight: Sight,
    is_after_line_end: bool,
    is_typed: bool,
) -> Option<Duty>
    ensures { result ≡ met_by (Require may_be_method) sight is_after_line_end is_typed }
{
    match sight {
        Sight::Byte(byte) => after_require(may_be_method, is_after_line_end, is_typed, byte),
        _ => Some(Duty::Nothing),
    }
}

/// Returns what the next token must be after a word `require` and a byte of punctuation.
fn after_require(
    may_be_method: bool,
    is_after_line_end: bool,
    is_typed: bool,
    byte: u8,
) -> Option<Duty>
    ensures { result ≡ after_require may_be_method is_after_line_end is_typed byte }
{
    if byte == b'(' {
        if may_be_method {
            Some(Duty::Parenthesis)
        } else {
            only(is_after_line_end, Duty::Nothing)
        }
    } else if byte == b'<' && is_typed && !(may_be_method || is_after_line_end) {
        Some(Duty::TypeName)
    } else {
        Some(Duty::Nothing)
    }
}

/// Returns what the next token must be after `require <` and a token.
#[tactic(auto, unfolding(crate::specs::Duties::met_by))]
pub fn met_type(sight: Sight) -> Option<Duty>
    ensures { (is_after is_typed : Bool) → result ≡ met_by TypeName sight is_after is_typed }
{
    match sight {
        Sight::Word(Name::Operator) => Some(Duty::Nothing),
        _ if is_name(sight) => Some(Duty::TypeEnd),
        _ => Some(Duty::Nothing),
    }
}

/// Returns what the next token must be after a type in `require <` and a token.
#[tactic(auto, unfolding(crate::specs::Duties::met_by))]
pub fn met_type_end(sight: Sight) -> Option<Duty>
    ensures { (is_after is_typed : Bool) → result ≡ met_by TypeEnd sight is_after is_typed }
{
    if is_byte(b",|&", sight) {
        Some(Duty::TypeName)
    } else if is_byte(b">", sight) {
        Some(Duty::NoParenthesis)
    } else {
        Some(Duty::Nothing)
    }
}

/// Returns what the next token must be after `require <type>` and a token.
#[tactic(auto, unfolding(crate::specs::Duties::met_by))]
pub fn met_no_parenthesis(sight: Sight, is_after_line_end: bool) -> Option<Duty>
    ensures { (is_typed : Bool) → result ≡ met_by NoParenthesis sight is_after_line_end is_typed }
{
    only(is_after_line_end || !is_byte(b"(", sight), Duty::Nothing)
}

/// Returns what the next token must be after `new` or `function` and a token.
#[tactic(auto, unfolding(crate::specs::Duties::met_by))]
pub fn met_no_call(sight: Sight) -> Option<Duty>
    ensures { (is_after is_typed : Bool) → result ≡ met_by NoCall sight is_after is_typed }
{
    if is_byte(b"*", sight) {
        Some(Duty::NoCall)
    } else {
        Some(Duty::Nothing)
    }
}
