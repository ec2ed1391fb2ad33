//! Tests of words.

ghost use Rattle.std.specs.Prelude.{◌≡◌, map};
ghost use Rattle.modinfo.specs.Words.{are_among, are_distinct, is_among};

/// Returns whether a word is among words.
pub fn is_among(word: &str, words: &[&str]) -> bool
    ensures { result ≡ is_among word.now (map (λ word. word.now) words.now) }
{
    words.contains(&word)
}

/// Returns whether each of the first words is among the others.
pub fn are_among(words: &[&str], others: &[&str]) -> bool
    ensures { result ≡ are_among (map (λ word. word.now) words.now) (map (λ word. word.now) others.now) }
{
    let mut rest = words;
    'words: while let [word, after @ ..] = rest {
        if !is_among(word, others) {
            return false;
        }
        rest = after;
    }
    true
}

/// Returns whether no word occurs twice.
pub fn are_distinct(words: &[&str]) -> bool
    ensures { result ≡ are_distinct (map (λ word. word.now) words.now) }
{
    let mut rest = words;
    'words: while let [word, after @ ..] = rest {
        if is_among(word, after) {
            return false;
        }
        rest = after;
    }
    true
}
