ghost use Rattle.std.specs.Prelude.{◌≡◌, IfSome};
ghost use Rattle.std.specs.Str.Parse.{digits_value, IsNumeral};

/// Digits that always fit into a `u64`.
const FEW: usize = 9;

/// Parses up to nine decimal digits. Returns `None` for an empty or longer text and for any other
/// character. Faster than `fast_float`, which handles the rest.
#[inline(always)]
pub fn short_whole(digits: &[u8]) -> Option<u64>
    ensures numeral { IfSome result (λ _. IsNumeral 10 digits.now) }
    ensures value { IfSome result (λ whole. whole ≡ digits_value 10 digits.now) }
{
    if digits.is_empty() || digits.len() > FEW {
        return None;
    }
    let mut whole = 0u64;
    for &byte in digits {
        if !byte.is_ascii_digit() {
            return None;
        }
        whole = whole * 10 + u64::from(byte - b'0');
    }
    Some(whole)
}
