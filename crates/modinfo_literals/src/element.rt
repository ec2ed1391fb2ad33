//! Reads the elements of literals.

ghost use Rattle.std.specs.Prelude.{◌≡◌, ◌==◌, ◌&&◌, ◌<◌, ◌++◌, Some, None, IfOk, IfSome, OnOk};
ghost use Rattle.std.specs.Str.{chars};
ghost use Rattle.modinfo_literals.specs.Escape.{begins_with};
ghost use Rattle.modinfo_literals.specs.Literal.{units_of};
ghost use Rattle.modinfo_literals.specs.internal.Read.{IsStep, HasCodePoint, AreUnits, first_step};
ghost use Rattle.modinfo_literals.specs.internal.Step.{string_step, template_step};

use crate::escape::{string_escape, template_escape};
use crate::text::{after_carriage_return, begins_with, split_first};
use std::alloc::{AllocError, Global};

/// A form of literal.
#[derive(Clone, Copy)]
pub(crate) enum Form {
    /// A string literal with this quote.
    StringWith(char),
    /// A part of a template.
    Template,
}

/// A piece of a literal that was read.
#[derive(Clone, Copy)]
pub(crate) struct Piece<'a> {
    /// The code point that the piece stands for, or `None` if the piece stands for nothing.
    pub(crate) point: Option<u32>,
    /// The text after the piece.
    pub(crate) rest: &'a str,
}

/// The UTF-16 units of a literal, and the text where no further element begins.
#[derive(Drop)]
pub(crate) struct Units<'a> {
    pub(crate) units: Vec<u16>,
    pub(crate) end: &'a str,
}

/// Reads the first element of a string literal's text after the first quote.
fn string_element(text: &str, quote: char) -> Option<Piece<'_>>
    ensures step { IsStep result (string_step quote (chars text.now)) }
    ensures code_point { HasCodePoint result }
{
    let (first, rest) = split_first(text)?;
    if first == '\\' {
        return string_escape(rest);
    }
    if first == quote || first == '\n' || first == '\r' {
        return None;
    }
    Some(Piece {
        point: Some(u32::from(first)),
        rest,
    })
}

/// Returns whether `first`, before `rest`, is the `$` of `${`.
fn opens_substitution(first: char, rest: &str) -> bool
    ensures { result ≡ (first == 36 && begins_with (λ c. c == 123) (chars rest.now)) }
{
    first == '$' && begins_with(rest, '{')
}

/// Reads the first element of a template's part.
fn template_element(text: &str) -> Option<Piece<'_>>
    ensures step { IsStep result (template_step (chars text.now)) }
    ensures code_point { HasCodePoint result }
{
    let (first, rest) = split_first(text)?;
    match first {
        '\\' => template_escape(rest),
        '`' => None,
        '\r' => Some(Piece {
            point: Some(10),
            rest: after_carriage_return(rest),
        }),
        _ if opens_substitution(first, rest) => None,
        _ => Some(Piece {
            point: Some(u32::from(first)),
            rest,
        }),
    }
}

/// Reads the first element of a literal.
fn first_element(form: Form, text: &str) -> Option<Piece<'_>>
    ensures step { IsStep result (first_step form (chars text.now)) }
    ensures code_point { HasCodePoint result }
{
    match form {
        Form::StringWith(quote) => string_element(text, quote),
        Form::Template => template_element(text),
    }
}

/// Adds the UTF-16 units of a code point, if there is one.
fn push_units(units: &mut Vec<u16>, point: Option<u32>) -> Result<(), AllocError>
    requires { IfSome point (λ p. p < 0x11_0000) }
    ensures { OnOk result (units.new.items ≡ units.old.items ++ units_of point) }
{
    let Some(point) = point else {
        return Ok(());
    };
    if point < 0x1_0000 {
        units.push(point as u16)?;
    } else {
        units.push((0xD800 + (point - 0x1_0000) / 0x400) as u16)?;
        units.push((0xDC00 + (point - 0x1_0000) % 0x400) as u16)?;
    }
    Ok(())
}

/// Reads all elements from the start of a text.
pub(crate) fn read_units(alloc: Global, form: Form, text: &str) -> Result<Units<'_>, AllocError>
    ensures { IfOk result (λ r. AreUnits form (chars text.now) (chars r.end.now) r.units.items) }
{
    let mut units = Vec::new(alloc);
    let mut end = text;
    while let Some(piece) = first_element(form, end) {
        push_units(&mut units, piece.point)?;
        end = piece.rest;
    }
    Ok(Units { units, end })
}
