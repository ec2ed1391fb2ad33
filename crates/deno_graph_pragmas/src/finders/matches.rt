//! The results of the finders.

ghost use Rattle.std.specs.Prelude.{◌≡◌, ◌+◌, ◌-◌, ◌≤◌, length};
ghost use Rattle.deno_graph_pragmas.specs.Match.{match_part_of, pragma_part_of};

use std::ops::Range;

/// A part of a text, as a finder returns it.
#[derive(Clone, Copy, Debug, PartialEq, Eq)]
pub struct Match<'a> {
    text: &'a str,
    start: usize,
    end: usize,
}

impl<'a> Match<'a> {
    /// Returns the part `found`, which is at the start of `rest`. `input` ends with `rest`.
    pub(super) fn at_start_of(rest: &str, input: &str, found: &'a str) -> Match<'a>
        requires rest { length rest.now ≤ length input.now }
        requires found { length found.now ≤ length rest.now }
        ensures text { (match_part_of result).text ≡ found.now }
        ensures start { (match_part_of result).start ≡ length input.now - length rest.now }
        ensures end { (match_part_of result).end ≡ (match_part_of result).start + length found.now }
    {
        let start = input.len() - rest.len();
        Match {
            text: found,
            start,
            end: start + found.len(),
        }
    }

    /// Returns the text of the part.
    pub fn as_str(&self) -> &'a str
        ensures { result.now ≡ (match_part_of self.now).text }
    {
        self.text
    }

    /// Returns the range of the part, in bytes from the start of the text.
    pub fn range(&self) -> Range<usize>
        ensures start { result.start ≡ (match_part_of self.now).start }
        ensures end { result.end ≡ (match_part_of self.now).end }
    {
        self.start..self.end
    }
}

/// The specifier of the types of an imported module, as a `@deno-types` pragma names it.
#[derive(Debug, PartialEq, Eq, Drop)]
pub struct DenoTypesPragmaMatch<'a> {
    /// The specifier, without quotes.
    pub text: &'a str,
    /// The range of the specifier, without quotes, in bytes from the start of the text.
    pub range: Range<usize>,
    /// Whether the specifier has no quotes around it.
    pub is_quoteless: bool,
}

impl<'a> DenoTypesPragmaMatch<'a> {
    /// Makes the result of a finder from a part of a text.
    pub(super) fn new(found: Match<'a>, is_quoteless: bool) -> DenoTypesPragmaMatch<'a>
        ensures part { pragma_part_of result ≡ match_part_of found.entry }
        ensures quoteless { result.is_quoteless ≡ is_quoteless }
    {
        DenoTypesPragmaMatch {
            text: found.as_str(),
            range: found.range(),
            is_quoteless,
        }
    }
}
