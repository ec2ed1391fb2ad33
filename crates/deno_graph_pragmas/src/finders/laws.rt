//! Laws of the parts that the finders return. The functions do nothing: their contracts hold for
//! every text.

ghost use Rattle.std.specs.Prelude.{◌⊎◌, ℕ, List};
ghost use Rattle.deno_graph_pragmas.specs.Finders.{EachFinder, attribute, quoted_pragma};
ghost use Rattle.deno_graph_pragmas.specs.Split.{HasOnePart, HasSplit, IsCaptured, Pattern, TextPart};
ghost use Rattle.deno_graph_pragmas.specs.Split.{IsInQuotes, StartDetermines};

/// The part that a finder returns is the only one, and the start of a split determines the part.
pub fn captures_are_unique()
    ensures starts { EachFinder StartDetermines }
    ensures parts { EachFinder HasOnePart }
{}

/// Every text has a part that the pattern captures, or no split by the pattern.
pub fn each_text_has_a_part_or_no_split()
    ensures { (pattern : Pattern) (text : List ℕ)
        → ((part : TextPart) × IsCaptured pattern text part) ⊎ ¬ HasSplit pattern text }
{}

/// A part that is captured between quotes has a quote directly before it and one directly after it.
pub fn quotes_stand_around(text: &str)
    ensures attributes { (name : List ℕ) (part : TextPart)
        → IsCaptured (attribute name) text.now part → IsInQuotes text.now part }
    ensures pragmas { (name : List ℕ) (part : TextPart)
        → IsCaptured (quoted_pragma name) text.now part → IsInQuotes text.now part }
{}
