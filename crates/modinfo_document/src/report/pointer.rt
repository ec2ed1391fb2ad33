//! Paths as JSON Pointers.

ghost use Rattle.std.specs.Prelude.{◌≡◌, ◌++◌, IfOk, OnOk, flat_map};
ghost use Rattle.std.specs.String.{string_bytes};
ghost use Rattle.deno_graph_json.specs.Pointer.{part_of_token};
ghost use Rattle.modinfo_document.specs.Pointer.{part_of, pointer_text, token_text};

use deno_graph_json::{ReferenceToken, Step, push_token};
use deno_graph_source::values::Items;
use std::alloc::{AllocError, Global};

/// The JSON Pointer (RFC 6901) of a path, whose first step is the innermost. The only error is a
/// failed allocation.
pub fn pointer_of(alloc: Global, path: &Items<Step>) -> Result<String, AllocError>
    ensures { IfOk result (λ pointer. string_bytes pointer ≡ pointer_text path.now) }
{
    let mut pointer = String::new(alloc);
    push_path(&mut pointer, path.as_slice())?;
    Ok(pointer)
}

/// Appends the pointer of a path.
fn push_path(pointer: &mut String, path: &[Step]) -> Result<(), AllocError>
    ensures { OnOk result (string_bytes pointer.new ≡ string_bytes pointer.old ++ pointer_text path.now) }
{
    match path.split_first() {
        None => Ok(()),
        Some((step, around)) => {
            push_path(pointer, around)?;
            push_token(pointer, pointer_step(step))
        }
    }
}

/// A step as a reference token.
fn pointer_step(step: &Step) -> ReferenceToken<'_>
    ensures { part_of_token result ≡ part_of step.now }
{
    match step {
        Step::Item(number) => ReferenceToken::Index(*number),
        Step::Member(name) => ReferenceToken::Name(name.as_str()),
    }
}

/// The JSON Pointer of a path, whose first token is the outermost. The only error is a failed
/// allocation.
pub fn pointer_to(alloc: Global, tokens: &[ReferenceToken<'_>]) -> Result<String, AllocError>
    ensures { IfOk result (λ pointer. string_bytes pointer ≡ flat_map token_text tokens.now) }
{
    let mut pointer = String::new(alloc);
    for token in tokens {
        push_token(&mut pointer, *token)?;
    }
    Ok(pointer)
}
