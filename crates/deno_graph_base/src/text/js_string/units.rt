//! Reads code points from UTF-16 units, and adds code points to a text with lone surrogates.

ghost use Rattle.std.specs.Prelude.{◌≡◌, [], ◌∷◌, ◌++◌, ◌<◌, OnOk, IfSome, MatchOption, length, encode_utf8, if◌then◌else◌};
ghost use Rattle.std.specs.Char.Utf16.{is_high_surrogate, is_low_surrogate};
ghost use Rattle.std.specs.String.{string_bytes};
ghost use Rattle.deno_graph_base.specs.JsString.{points_of_units, is_surrogate, lossy_char};

use std::alloc::AllocError;

fn is_high_surrogate(unit: u32) -> bool
    ensures { result ≡ is_high_surrogate unit }
{
    0xD800 <= unit && unit < 0xDC00
}

fn is_low_surrogate(unit: u32) -> bool
    ensures { result ≡ is_low_surrogate unit }
{
    0xDC00 <= unit && unit < 0xE000
}

/// Returns the first code point of `units` and the units after it, or `None` if there are no units.
pub(super) fn first_point(units: &[u16]) -> Option<(u32, &[u16])>
    ensures point { MatchOption result (units.now ≡ [])
        (λ r. points_of_units units.now ≡ r.0 ∷ points_of_units r.1.now) }
    ensures bound { IfSome result (λ r. r.0 < 0x11_0000) }
    ensures shorter { IfSome result (λ r. length r.1.now < length units.now) }
{
    let (first, rest) = units.split_first()?;
    let high = u32::from(*first);
    let Some((second, after)) = rest.split_first() else {
        return Some((high, rest));
    };
    let low = u32::from(*second);
    if is_high_surrogate(high) && is_low_surrogate(low) {
        return Some((0x1_0000 + (high - 0xD800) * 0x400 + (low - 0xDC00), after));
    }
    Some((high, rest))
}

/// Adds a code point at the end of a text with lone surrogates. Fails only if an allocation fails.
pub(super) fn push_point(
    text: &mut String,
    lone: &mut Vec<(usize, u16)>,
    point: u32,
) -> Result<(), AllocError>
    requires { point < 0x11_0000 }
    ensures text { OnOk result
        (string_bytes text.new ≡ string_bytes text.old ++ encode_utf8 (lossy_char point)) }
    ensures lone { OnOk result (lone.new.items ≡ lone.old.items
        ++ (if is_surrogate point then (length (string_bytes text.old), point) ∷ [] else [])) }
{
    match char::from_u32(point) {
        Some(character) => text.push(character)?,
        None => {
            lone.push((text.len(), point as u16))?;
            text.push(char::REPLACEMENT_CHARACTER)?;
        }
    }
    Ok(())
}
