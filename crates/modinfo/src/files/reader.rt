//! Reading of regular files.

use crate::files::line::FileFault;
use crate::input::CHUNK;
use std::alloc::Global;
use std::fs::{self, OpenFile};
use std::io::{ErrorKind, Read};
use std::os::unix::fs::MetadataExt;
use std::rt::Files;

/// The most bytes of a file.
const LIMIT: u64 = 64 << 20;

/// Reads files, and keeps on which devices the system makes up files as they are read. Such a file counts as
/// regular, but a read of it may never return.
#[derive(Drop)]
pub(super) struct FileReader {
    proc_device: Option<u64>,
    sys_device: Option<u64>,
    /// The device of a file that was found outside of /proc and /sys. The paths of other files there aren't
    /// looked up, which takes a call of the system for each of their steps.
    other_device: Option<u64>,
}

impl FileReader {
    pub(super) fn new<R: Files + AllocGlobal>(rt: &R) -> FileReader {
        FileReader {
            proc_device: device_of(rt, "/proc"),
            sys_device: device_of(rt, "/sys"),
            other_device: None,
        }
    }

    /// Reads a regular file of at most `LIMIT` bytes. Asks what the path leads to, opens it, and asks again
    /// what was opened, since another file may get the path in between.
    pub(super) fn read<R: Files + AllocGlobal>(
        &mut self,
        rt: &R,
        name: &str,
    ) -> Result<Vec<u8>, FileFault> {
        let found = fs::metadata(rt, name)?;
        check_kind(&found)?;
        if self.is_of_system(rt, name, &found)? {
            return Err(FileFault::input("in /proc or /sys"));
        }
        let file = fs::open(rt, name)?;
        let opened = file.metadata()?;
        check_kind(&opened)?;
        let bytes = read_to_end(rt.alloc(), &mut file.take(LIMIT + 1), opened.len())?;
        if bytes.len() as u64 > LIMIT {
            return Err(FileFault::input("larger than 64 MiB"));
        }
        Ok(bytes)
    }

    /// Returns whether the system makes up a file as it is read: whether it is on the device of /proc or
    /// /sys, or its path without links is in one of them.
    fn is_of_system<R: Files + AllocGlobal>(
        &mut self,
        rt: &R,
        name: &str,
        found: &fs::Metadata,
    ) -> Result<bool, FileFault> {
        let device = Some(found.dev());
        if device == self.other_device {
            return Ok(false);
        }
        if device == self.proc_device || device == self.sys_device {
            return Ok(true);
        }
        let path = fs::canonicalize(rt, name)?;
        if path.as_str().starts_with("/proc/") || path.as_str().starts_with("/sys/") {
            return Ok(true);
        }
        self.other_device = device;
        Ok(false)
    }
}

/// Returns the device of a folder, or `None` if it can't be looked up.
fn device_of<R: Files + AllocGlobal>(rt: &R, folder: &str) -> Option<u64> {
    match fs::metadata(rt, folder) {
        Ok(found) => Some(found.dev()),
        Err(_) => None,
    }
}

/// Returns an error unless a file is regular and not too large.
fn check_kind(found: &fs::Metadata) -> Result<(), FileFault> {
    if found.is_dir() {
        return Err(FileFault::input(
            "a folder: name its files, which git ls-files lists, or use the package for node",
        ));
    }
    if !found.is_file() {
        return Err(FileFault::input("no regular file"));
    }
    if found.len() > LIMIT {
        return Err(FileFault::input("larger than 64 MiB"));
    }
    Ok(())
}

/// Reads to the end of what has about `expected` bytes, in place, so that no byte is copied.
fn read_to_end<R: Read>(alloc: Global, input: &mut R, expected: u64) -> Result<Vec<u8>, FileFault> {
    let size = expected.min(LIMIT) as usize;
    let mut bytes = vec![in alloc; 0u8; size + 1]?;
    let mut filled = 0usize;
    for _ in 0..u64::MAX {
        if filled >= bytes.len() {
            bytes.resize(filled.saturating_mul(2).max(CHUNK), 0)?;
        }
        match input.read(&mut bytes[filled..]) {
            Ok(0) => break,
            Ok(count) => filled += count,
            Err(error) if error.kind() == ErrorKind::Interrupted => {}
            Err(error) => return Err(FileFault::from(error)),
        }
    }
    bytes.truncate(filled);
    Ok(bytes)
}
