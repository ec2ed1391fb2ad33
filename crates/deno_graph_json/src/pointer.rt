//! JSON Pointers (RFC 6901): the path to a value, as text.

ghost use Rattle.std.specs.Prelude.{◌≡◌, ◌++◌, ◌∷◌, OnOk};
ghost use Rattle.std.specs.String.{string_bytes};
ghost use Rattle.deno_graph_json.specs.Pointer.{escaped, part_of_token, part_text, slash};

use std::alloc::AllocError;

/// A reference token of a JSON Pointer: a step from an array or object to one of its values.
#[derive(Clone, Copy)]
pub enum ReferenceToken<'a> {
    /// To the item with this index, counted from zero.
    Index(usize),
    /// To the member with this name.
    Name(&'a str),
}

/// Appends a step to a JSON Pointer: `/` and an index, or `/` and a name with `~` as `~0` and `/` as
/// `~1`.
pub fn push_token(pointer: &mut String, step: ReferenceToken<'_>) -> Result<(), AllocError>
    ensures { OnOk result (string_bytes pointer.new
        ≡ string_bytes pointer.old ++ part_text (part_of_token step.entry)) }
{
    match step {
        ReferenceToken::Index(index) => write!(pointer, "/{index}"),
        ReferenceToken::Name(name) => push_name(pointer, name),
    }
}

/// Pushes `/` and a name with `~` as `~0` and `/` as `~1`.
fn push_name(pointer: &mut String, name: &str) -> Result<(), AllocError>
    ensures { OnOk result (string_bytes pointer.new ≡ string_bytes pointer.old
        ++ slash ∷ escaped name.now) }
{
    pointer.push('/')?;
    for letter in name.chars() {
        match letter {
            '~' => pointer.push_str("~0")?,
            '/' => pointer.push_str("~1")?,
            _ => pointer.push(letter)?,
        }
    }
    Ok(())
}
