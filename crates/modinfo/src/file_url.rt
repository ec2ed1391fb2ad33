//! The URL of a file.

ghost use Rattle.std.specs.Prelude.{◌≡◌, ◌++◌, IfOk, MatchResult, None, Ok, OnOk};
ghost use Rattle.std.specs.List.{flat_map};
ghost use Rattle.std.specs.String.{string_bytes};
ghost use Rattle.url.specs.Parser.{parse_url};
ghost use Rattle.modinfo.specs.Fault.{fault_of_document};
ghost use Rattle.modinfo.specs.FileUrl.{IsNoUrl, encoded_byte, file_text, is_absolute};

use crate::fault::Fault;
use modinfo_document::DocumentError;
use percent_encoding::{AsciiSet, NON_ALPHANUMERIC, ascii_set, utf8_percent_encode};
use std::alloc::{AllocError, Global};
use url::Url;

/// The characters of ASCII that have no place in the path of a URL, or another meaning there (RFC 3986, section
/// 3.3): all but letters, digits and these.
const ENCODED: AsciiSet = ascii_set!(
    NON_ALPHANUMERIC
        .remove(b'/')
        .remove(b'-')
        .remove(b'.')
        .remove(b'_')
        .remove(b'~')
        .remove(b'!')
        .remove(b'$')
        .remove(b'&')
        .remove(b'\'')
        .remove(b'(')
        .remove(b')')
        .remove(b'*')
        .remove(b'+')
        .remove(b',')
        .remove(b';')
        .remove(b'=')
        .remove(b':')
        .remove(b'@')
);

/// The `file:` URL of a path. A relative path begins in the folder, whose path has no slash at its end.
/// `OutOfMemory` if an allocation fails, `Specifier` if the text is no URL.
pub fn file_url(alloc: Global, folder: &str, path: &str) -> Result<Url, Fault>
    ensures { MatchResult result (λ url. parse_url None (file_text folder.now path.now) ≡ Ok url)
        (IsNoUrl (file_text folder.now path.now)) }
{
    let text = url_text(alloc, folder, path)?;
    Ok(parse(alloc, text.as_str())?)
}

/// The text of the URL. The only error is a failed allocation.
fn url_text(alloc: Global, folder: &str, path: &str) -> Result<String, AllocError>
    ensures { IfOk result (λ text. string_bytes text ≡ file_text folder.now path.now) }
{
    let mut text = String::from_str(alloc, "file://")?;
    if !is_absolute(path) {
        push_encoded(&mut text, folder)?;
        text.push_str("/")?;
    }
    push_encoded(&mut text, path)?;
    Ok(text)
}

/// Appends a path, percent-encoded. The only error is a failed allocation.
fn push_encoded(text: &mut String, path: &str) -> Result<(), AllocError>
    ensures { OnOk result
        (string_bytes text.new ≡ string_bytes text.old ++ flat_map encoded_byte path.now) }
{
    utf8_percent_encode(path, ENCODED).append_to(text)
}

/// Returns whether a path begins with a slash.
pub(crate) fn is_absolute(path: &str) -> bool
    ensures { result ≡ is_absolute path.now }
{
    matches!(path.as_bytes(), [b'/', ..])
}

fn parse(alloc: Global, text: &str) -> Result<Url, DocumentError>
    ensures { MatchResult result (λ url. parse_url None text.now ≡ Ok url)
        (λ error. IsNoUrl text.now (fault_of_document error)) }
{
    Ok(Url::parse(alloc, text)?)
}
