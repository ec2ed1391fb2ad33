ghost use Rattle.std.specs.Prelude.{◌≤◌, ℕ, length};
ghost use Rattle.modinfo_document.specs.Report.{IsPlaceIn};

use deno_graph_source::text::Position;

/// A boundary of a text: its position, and the number of bytes before it.
#[derive(Debug, Clone, Copy, PartialEq, Eq)]
pub struct TextPlace {
    pub position: Position,
    pub offset: usize,
}

impl TextPlace {
    /// Returns the place at an offset, in bytes; the end of the text if the offset is after the end or
    /// inside a character.
    pub fn new(text: &str, offset: usize) -> TextPlace
        ensures inside { IsPlaceIn text.now result }
        ensures reached { (least : ℕ) → least ≤ offset → least ≤ length text.now → least ≤ result.offset }
    {
        let before = text.get(..offset).unwrap_or(text);
        let mut line = 0usize;
        let mut character = 0usize;
        for next in before.chars() {
            if next == '\n' {
                line = line.saturating_add(1);
                character = 0;
            } else {
                character = character.saturating_add(1);
            }
        }
        TextPlace {
            position: Position::new(line, character),
            offset: before.len(),
        }
    }
}
