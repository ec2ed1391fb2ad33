//! Laws of the conversion. The calls do nothing but make their contracts known to the caller.

ghost use Rattle.std.specs.Prelude.{◌≡◌, ◌⊎◌};
ghost use Rattle.serde_json.specs.Data.{Data};
ghost use Rattle.deno_graph_info.specs.Conversion.{IsConverted, Overflows};

use deno_graph_pragmas::finders::laws::captures_are_unique;

/// The law that converting a converted value changes nothing.
pub fn conversion_is_done_once()
    ensures { (value after : Data) → IsConverted value after → IsConverted after after }
{}

/// The law that a value is converted to exactly one value, unless a column overflows.
pub fn conversion_has_one_outcome()
    ensures some { (value : Data) → ((after : Data) × IsConverted value after) ⊎ Overflows value }
    ensures one { (value after other : Data)
        → IsConverted value after → IsConverted value other → after ≡ other }
    ensures none { (value after : Data) → IsConverted value after → ¬ Overflows value }
{
    captures_are_unique();
}
