//! Text and strings of JSX.

ghost use Rattle.modinfo_pieces.specs.Jsx.{jsx_string_step, text_step};
ghost use Rattle.modinfo_pieces.specs.Literals.{quote_close};
ghost use Rattle.modinfo_pieces.specs.Steps.{Closes, Ends};

/// Returns the end of the text of JSX from an offset on: the offset of the next `{` or `<`, or the text's
/// end.
pub fn jsx_text_end(text: &[u8], from: usize) -> usize
    ensures { Ends (text_step text.now) from result }
{
    let mut at = from;
    'bytes: while at < text.len() && text[at] != b'{' && text[at] != b'<' {
        at += 1;
    }
    at
}

/// Returns the offset after the quote that ends a string in JSX, or `None` if the text ends before. The
/// string's first character is at `from`.
pub fn jsx_string_end(text: &[u8], from: usize, quote: u8) -> Option<usize>
    ensures { Closes (jsx_string_step quote text.now) from (quote_close quote text.now) result }
{
    let mut at = from;
    'bytes: while at < text.len() {
        if text[at] == quote {
            return Some(at + 1);
        }
        at += 1;
    }
    None
}
