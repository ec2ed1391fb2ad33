//! What a word says of what may follow.

ghost use Rattle.std.specs.Prelude.{◌≡◌, length};
ghost use Rattle.modinfo_pieces.specs.WordClasses.{class_after, class_of};

use crate::place::Before;

/// Returns what a word is after a token.
#[inline(always)]
#[tactic(auto, unfolding(crate::specs::WordClasses::class_after))]
pub fn class_after(before: Before, word: &[u8]) -> Before
    ensures { result ≡ class_after before word.now }
{
    match before {
        Before::Dot => Before::Value,
        Before::Head if word == b"await".as_slice() => Before::Head,
        _ => class_of(word),
    }
}

/// Returns what a word is, if no dot is before the word.
#[inline(always)]
#[tactic(auto, using(crate::proofs::WordLengths::class_of_other))]
fn class_of(word: &[u8]) -> Before
    ensures { result ≡ class_of word.now }
{
    match word.len() {
        2 => class_of_two(word),
        3 => class_of_three(word),
        4 => class_of_four(word),
        5 => class_of_five(word),
        6 => class_of_six(word),
        7 => class_of_seven(word),
        10 => class_of_ten(word),
        _ => Before::Value,
    }
}

#[tactic(auto, using(crate::proofs::WordLengths::class_of_two))]
fn class_of_two(word: &[u8]) -> Before
    ensures { length word.now ≡ 2 → result ≡ class_of word.now }
{
    if word == b"if".as_slice() {
        Before::Head
    } else if word == b"in".as_slice() || word == b"of".as_slice() || word == b"do".as_slice() {
        Before::Free
    } else {
        Before::Value
    }
}

#[tactic(auto, using(crate::proofs::WordLengths::class_of_three))]
fn class_of_three(word: &[u8]) -> Before
    ensures { length word.now ≡ 3 → result ≡ class_of word.now }
{
    if word == b"for".as_slice() {
        Before::Head
    } else if word == b"new".as_slice() {
        Before::Free
    } else {
        Before::Value
    }
}

#[tactic(auto, using(crate::proofs::WordLengths::class_of_four))]
fn class_of_four(word: &[u8]) -> Before
    ensures { length word.now ≡ 4 → result ≡ class_of word.now }
{
    if word == b"with".as_slice() {
        Before::Head
    } else if word == b"else".as_slice()
        || word == b"case".as_slice()
        || word == b"void".as_slice()
    {
        Before::Free
    } else {
        Before::Value
    }
}

#[tactic(auto, using(crate::proofs::WordLengths::class_of_five))]
fn class_of_five(word: &[u8]) -> Before
    ensures { length word.now ≡ 5 → result ≡ class_of word.now }
{
    if word == b"while".as_slice() {
        Before::Head
    } else if word == b"throw".as_slice()
        || word == b"await".as_slice()
        || word == b"yield".as_slice()
    {
        Before::Free
    } else {
        Before::Value
    }
}

#[tactic(auto, using(crate::proofs::WordLengths::class_of_six))]
fn class_of_six(word: &[u8]) -> Before
    ensures { length word.now ≡ 6 → result ≡ class_of word.now }
{
    if word == b"return".as_slice()
        || word == b"typeof".as_slice()
        || word == b"delete".as_slice()
    {
        Before::Free
    } else {
        Before::Value
    }
}

#[tactic(auto, using(crate::proofs::WordLengths::class_of_seven))]
fn class_of_seven(word: &[u8]) -> Before
    ensures { length word.now ≡ 7 → result ≡ class_of word.now }
{
    if word == b"extends".as_slice() || word == b"default".as_slice() {
        Before::Free
    } else {
        Before::Value
    }
}

#[tactic(auto, using(crate::proofs::WordLengths::class_of_ten))]
fn class_of_ten(word: &[u8]) -> Before
    ensures { length word.now ≡ 10 → result ≡ class_of word.now }
{
    if word == b"instanceof".as_slice() {
        Before::Free
    } else {
        Before::Value
    }
}
