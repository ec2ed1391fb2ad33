ghost use Rattle.std.specs.Prelude.{◌≡◌, [], ◌↔◌, IsTrue, IsSome, IfSome, IfOk, nat_eq, encode_utf8_all};
ghost use Rattle.std.specs.Char.Escape.{encode_utf16};
ghost use Rattle.std.specs.List.{flat_map};
ghost use Rattle.std.specs.Option.{option_copied};
ghost use Rattle.std.specs.Str.{chars};
ghost use Rattle.std.specs.Cmp.{partial_equiv_from_equiv};
ghost use Rattle.std.specs.Cmp.Lexicographic.{pointwise, nat_list_eq_equiv};
ghost use Rattle.deno_graph_base.specs.JsString.{lossy_text, points_of_units, readable_text, IsPaired, IsReadable};

mod units;

use self::units::{first_point, push_point};
use crate::values::TryClone;
use std::alloc::{AllocError, Global};
use std::marker::Model;

/// A JavaScript string: a list of code points, some of which may be lone surrogates.
///
/// A high surrogate is never directly before a low one, since the two are one code point.
#[derive(Debug, Drop)]
pub struct JsString {
    // The code points as UTF-8, with U+FFFD for each surrogate.
    text: String,
    // The surrogates, each after the offset of its U+FFFD in `text`, in bytes.
    lone: Vec<(usize, u16)>,
}

impl Model for JsString {
    ghost use Rattle.std.specs.Prelude.{List, ℕ};
    ghost use Rattle.std.specs.Coded.{coded_list, coded_ℕ};
    ghost use Rattle.std.specs.String.{string_bytes};
    ghost use Rattle.deno_graph_base.specs.internal.StoredString.{points_of, IsStored};

    ghost Value = { List ℕ };

    ghost coded = { coded_list coded_ℕ };

    ghost view = { λ s. points_of (string_bytes s.text) s.lone.items };

    ghost invariant = { λ s. IsStored (string_bytes s.text) s.lone.items };
}

impl JsString {
    /// Returns the string with the characters of `text`. Fails only if an allocation fails.
    pub fn from_str(alloc: Global, text: &str) -> Result<JsString, AllocError>
        ensures { IfOk result (λ made. made ≡ chars text.now) }
    {
        Ok(JsString {
            text: String::from_str(alloc, text)?,
            lone: Vec::new(alloc),
        })
    }

    /// Returns the string with the code points of UTF-16 `units`. A high surrogate directly before a
    /// low one forms one code point with it, and every other surrogate is a lone one. Fails only if
    /// an allocation fails.
    pub fn from_units(alloc: Global, units: &[u16]) -> Result<JsString, AllocError>
        ensures points { IfOk result (λ made. made ≡ points_of_units units.now) }
        ensures same_units { IfOk result (λ made. flat_map encode_utf16 made ≡ units.now) }
    {
        let mut text = String::with_capacity(alloc, units.len())?;
        let mut lone = Vec::new(alloc);
        let mut rest = units;
        while let Some((point, after)) = first_point(rest) {
            push_point(&mut text, &mut lone, point)?;
            rest = after;
        }
        Ok(JsString { text, lone })
    }

    /// Returns the string as UTF-8, or `None` if it has a lone surrogate.
    pub fn as_str(&self) -> Option<&str>
        ensures readable { IsSome result ↔ IsReadable self.now }
        ensures text { IfSome result (λ t. t.now ≡ encode_utf8_all self.now) }
        ensures lossy { IfSome result (λ t. t.now ≡ lossy_text self.now) }
        ensures value { option_copied result ≡ readable_text self.now }
    {
        if self.lone.is_empty() {
            Some(self.text.as_str())
        } else {
            None
        }
    }

    /// Returns the string as UTF-8, with U+FFFD for each lone surrogate.
    pub fn to_str_lossy(&self) -> &str
        ensures { result.now ≡ lossy_text self.now }
    {
        self.text.as_str()
    }

    /// Returns whether the string has no code points.
    pub fn is_empty(&self) -> bool
        ensures { IsTrue result ↔ (self.now ≡ []) }
    {
        self.text.is_empty()
    }

    /// Ensures that no high surrogate is directly before a low one. This call does nothing: a caller
    /// learns the law of its string from the contract.
    pub fn law_of_pairs(&self)
        ensures { IsPaired self.now }
    {
        let _text = &self.text;
    }
}

impl TryClone for JsString {
    fn try_clone(&self, alloc: Global) -> Result<JsString, AllocError> {
        Ok(JsString {
            text: String::from_str(alloc, self.text.as_str())?,
            lone: self.lone.as_slice().to_vec(alloc)?,
        })
    }
}

impl PartialEq for JsString {
    ghost eq = { pointwise nat_eq };

    ghost laws = { partial_equiv_from_equiv nat_list_eq_equiv };

    fn eq(&self, other: &JsString) -> bool {
        self.text.as_str() == other.text.as_str() && self.lone.as_slice() == other.lone.as_slice()
    }
}

impl Eq for JsString {
    ghost laws = { nat_list_eq_equiv };
}
