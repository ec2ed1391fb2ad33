//! The line of a file.

ghost use Rattle.std.specs.Prelude.{◌≡◌, ◌++◌, ℕ, IfOk, List, MatchResult, Option};
ghost use Rattle.std.specs.String.{string_bytes};
ghost use Rattle.serde_json.specs.Written.{compact_text};
ghost use Rattle.url.specs.Parts.{Parts, serialize};
ghost use Rattle.deno_graph_json.specs.Json.Position.{json_of_position};
ghost use Rattle.modinfo.specs.Files.{IsInfoOfFile, IsSpecifierOf, IsUrlOf, PrintsFile};
ghost use Rattle.modinfo.specs.Files.{file_fault_line, info_line, json_text, position_text};

use crate::fault::Fault;
use deno_graph_info::analysis::ModuleInfo;
use deno_graph_json::to_text;
use deno_graph_source::text::Position;
use deno_graph_source::values::Text;
use modinfo_source::{DEFECT, TextError};
use std::alloc::{AllocError, AllocFailed, Global};
use std::io;
use std::io::ErrorKind;

/// Why a file has no information.
#[derive(Drop)]
pub(super) struct FileFault {
    fault: Fault,
    message: Message,
    /// Line and character of a syntax error or a defect, counted from zero.
    position: Option<Position>,
}

/// What is wrong, in words.
#[derive(Drop)]
enum Message {
    Fixed(&'static str),
    OfParser(Text),
}

impl Message {
    fn as_str(&self) -> &str {
        match self {
            Message::Fixed(text) => text,
            Message::OfParser(text) => text.as_str(),
        }
    }
}

impl FileFault {
    pub(super) fn input(message: &'static str) -> FileFault {
        FileFault {
            fault: Fault::Input,
            message: Message::Fixed(message),
            position: None,
        }
    }

    pub(super) fn out_of_memory() -> FileFault {
        FileFault {
            fault: Fault::OutOfMemory,
            message: Message::Fixed("an allocation failed"),
            position: None,
        }
    }
}

impl From<AllocError> for FileFault {
    fn from(_error: AllocError) -> FileFault {
        FileFault::out_of_memory()
    }
}

impl<T: Drop> From<AllocFailed<T>> for FileFault {
    fn from(_error: AllocFailed<T>) -> FileFault {
        FileFault::out_of_memory()
    }
}

impl From<io::Error> for FileFault {
    fn from(error: io::Error) -> FileFault {
        match error.kind() {
            ErrorKind::OutOfMemory => FileFault::out_of_memory(),
            ErrorKind::NotFound => FileFault::input("no such file"),
            ErrorKind::PermissionDenied => FileFault::input("permission denied"),
            ErrorKind::InvalidFilename => FileFault::input(
                "a path that isn't UTF-8, or is too long",
            ),
            _ => FileFault::input("the file can't be read"),
        }
    }
}

impl From<Fault> for FileFault {
    fn from(fault: Fault) -> FileFault {
        match fault {
            Fault::OutOfMemory => FileFault::out_of_memory(),
            _ => FileFault::input("the file can't be read"),
        }
    }
}

impl From<TextError> for FileFault {
    fn from(error: TextError) -> FileFault {
        match error {
            TextError::Syntax(diagnostic) => FileFault {
                fault: Fault::Syntax,
                message: Message::OfParser(diagnostic.message),
                position: Some(diagnostic.position),
            },
            TextError::Defect(position) => FileFault {
                fault: Fault::Defect,
                message: Message::Fixed(DEFECT),
                position: Some(position),
            },
            TextError::OutOfMemory => FileFault::out_of_memory(),
        }
    }
}

/// Appends the line of a file, or that with the fault `OutOfMemory` where an allocation fails. Returns whether
/// the file has information. The only fault is `OutOfMemory`, which appends nothing.
pub(super) fn put_line(
    alloc: Global,
    specifier: &str,
    found: Result<ModuleInfo, FileFault>,
    waiting: &mut Vec<u8>,
) -> Result<bool, Fault>
    ensures { (folder : Option (List ℕ)) → (name : List ℕ)
        → IfOk found (λ info. (url : Parts) × IsUrlOf folder name url × IsInfoOfFile url info
        × (specifier.now ≡ serialize url))
        → IsSpecifierOf folder name specifier.now
        → MatchResult result (λ passes. (printed : List ℕ) × PrintsFile folder name passes printed
        × (waiting.new.items ≡ waiting.old.items ++ printed))
        (λ _. waiting.new.items ≡ waiting.old.items) }
{
    match put_found(alloc, specifier, found, waiting) {
        Ok(has_info) => Ok(has_info),
        Err(_) => {
            put_fault(alloc, specifier, &FileFault::out_of_memory(), waiting)?;
            Ok(false)
        }
    }
}

/// Appends the line of a file, or nothing if an allocation fails. Returns whether the file has information.
fn put_found(
    alloc: Global,
    specifier: &str,
    found: Result<ModuleInfo, FileFault>,
    waiting: &mut Vec<u8>,
) -> Result<bool, AllocError>
    ensures { (folder : Option (List ℕ)) → (name : List ℕ)
        → IfOk found (λ info. (url : Parts) × IsUrlOf folder name url × IsInfoOfFile url info
        × (specifier.now ≡ serialize url))
        → IsSpecifierOf folder name specifier.now
        → MatchResult result (λ passes. (printed : List ℕ) × PrintsFile folder name passes printed
        × (waiting.new.items ≡ waiting.old.items ++ printed))
        (λ _. waiting.new.items ≡ waiting.old.items) }
{
    match found {
        Ok(info) => {
            put_info(alloc, specifier, info, waiting)?;
            Ok(true)
        }
        Err(fault) => {
            put_fault(alloc, specifier, &fault, waiting)?;
            Ok(false)
        }
    }
}

/// Appends the line of a file with information, or nothing if an allocation fails.
fn put_info(
    alloc: Global,
    specifier: &str,
    info: ModuleInfo,
    waiting: &mut Vec<u8>,
) -> Result<(), AllocError>
    ensures { MatchResult result
        (λ _. waiting.new.items ≡ waiting.old.items ++ info_line specifier.now info)
        (λ _. waiting.new.items ≡ waiting.old.items) }
{
    let line = info_line(alloc, specifier, &info)?;
    drop(info);
    Ok(waiting.extend_from_slice(line.as_bytes())?)
}

/// Appends the line of a file with a fault, or nothing if an allocation fails.
fn put_fault(
    alloc: Global,
    specifier: &str,
    fault: &FileFault,
    waiting: &mut Vec<u8>,
) -> Result<(), AllocError>
    ensures { MatchResult result
        (λ _. (message : List ℕ) × (waiting.new.items ≡ waiting.old.items
        ++ file_fault_line specifier.now fault.now.fault message fault.now.position))
        (λ _. waiting.new.items ≡ waiting.old.items) }
{
    let FileFault {
        fault,
        message,
        position,
    } = fault;
    let line = fault_line(alloc, specifier, fault, message.as_str(), *position)?;
    Ok(waiting.extend_from_slice(line.as_bytes())?)
}

/// The line of a file with information: JSON and a line feed.
fn info_line(alloc: Global, specifier: &str, info: &ModuleInfo) -> Result<String, AllocError>
    ensures { IfOk result (λ line. string_bytes line ≡ info_line specifier.now info.now) }
{
    let specifier = json_text(alloc, specifier)?;
    let info = to_text(alloc, info)?;
    let mut line = String::from_str(alloc, "{\"specifier\":")?;
    line.push_str(specifier.as_str())?;
    line.push_str(",\"info\":")?;
    line.push_str(info.as_str())?;
    line.push_str("}\n")?;
    Ok(line)
}

/// The line of a file with a fault: JSON and a line feed.
fn fault_line(
    alloc: Global,
    specifier: &str,
    fault: &Fault,
    message: &str,
    position: Option<Position>,
) -> Result<String, AllocError>
    ensures { IfOk result (λ line.
        string_bytes line ≡ file_fault_line specifier.now fault.now message.now position) }
{
    let specifier = json_text(alloc, specifier)?;
    let message = json_text(alloc, message)?;
    let position = position_text(alloc, position)?;
    let mut line = String::from_str(alloc, "{\"specifier\":")?;
    line.push_str(specifier.as_str())?;
    line.push_str(",\"fault\":{\"name\":\"")?;
    line.push_str(fault.name())?;
    line.push_str("\",\"message\":")?;
    line.push_str(message.as_str())?;
    line.push_str(position.as_str())?;
    line.push_str("}}\n")?;
    Ok(line)
}

/// The member `position` with a comma before it, or nothing.
fn position_text(alloc: Global, position: Option<Position>) -> Result<String, AllocError>
    ensures { IfOk result (λ text. string_bytes text ≡ position_text position) }
{
    match position {
        Some(position) => {
            let position = to_text(alloc, &position)?;
            let mut text = String::from_str(alloc, ",\"position\":")?;
            text.push_str(position.as_str())?;
            Ok(text)
        }
        None => Ok(String::new(alloc)),
    }
}

/// A text as a JSON string.
fn json_text(alloc: Global, text: &str) -> Result<String, AllocError>
    ensures { IfOk result (λ json. string_bytes json ≡ json_text text.now) }
{
    to_text(alloc, &Text::from_str(alloc, text)?)
}
