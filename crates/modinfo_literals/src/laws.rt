//! Laws of what literals spell.

ghost use Rattle.std.specs.Prelude.{◌≡◌, ◌↔◌, ℕ, List, IsTrue};
ghost use Rattle.modinfo_literals.specs.Literal.{Spells, SpellsCooked};
ghost use Rattle.modinfo_literals.specs.Value.{is_spelled};

/// Ensures that a string literal has at most one value, and that a part of a template has at most one
/// cooked value. This call does nothing: a caller learns the laws from the contract.
pub fn literals_have_one_value()
    ensures string { (slice value other : List ℕ) → Spells slice value → Spells slice other
        → value ≡ other }
    ensures cooked { (slice value other : List ℕ) → SpellsCooked slice value
        → SpellsCooked slice other → value ≡ other }
{}

/// Ensures that the test whether a text is a string literal with a value agrees with the definition. This
/// call does nothing: a caller learns the law from the contract.
pub fn spelling_is_decided()
    ensures { (slice value : List ℕ) → IsTrue (is_spelled slice value) ↔ Spells slice value }
{}
