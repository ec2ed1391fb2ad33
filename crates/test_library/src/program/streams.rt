//! Readers and writers that fail, at each of their calls in turn.

use std::io::{Error, ErrorKind, Read, Result, Write};

const DOCUMENT: &str =
    r#"{"mediaType":"TypeScript","program":{"body":[{"kind":"ImportDecl","range":[0,16],"src":{"range":[7,15],"value":"./b.ts"}}],"range":[0,16]},"source":"import \"./b.ts\";","specifier":"file:///b.ts"}"#;

const PRINTED: &str =
    "{\"dependencies\":[{\"kind\":\"import\",\"sideEffect\":true,\"specifier\":\"./b.ts\",\"specifierRange\":[[0,7],[0,15]],\"type\":\"static\"}]}\n";

/// Returns its bytes one at a time. One read fails, by its number from zero.
#[derive(Drop)]
struct FailingReader<'a> {
    bytes: &'a [u8],
    reads_before: usize,
    kind: ErrorKind,
}

impl Read for FailingReader<'_> {
    fn read(&mut self, buf: &mut [u8]) -> Result<usize> {
        if self.reads_before == 0 {
            self.reads_before = usize::MAX;
            return Err(Error::from(self.kind));
        }
        self.reads_before -= 1;
        let Some((first, rest)) = self.bytes.split_first() else {
            return Ok(0);
        };
        let Some(place) = buf.first_mut() else {
            return Ok(0);
        };
        *place = *first;
        self.bytes = rest;
        Ok(1)
    }
}

/// Keeps this number of bytes, one per write, and then fails with an error of this kind.
#[derive(Drop)]
struct FailingWriter {
    kept: Vec<u8>,
    room: usize,
    kind: ErrorKind,
}

impl Write for FailingWriter {
    fn write(&mut self, buf: &[u8]) -> Result<usize> {
        if self.kept.len() >= self.room {
            return Err(Error::from(self.kind));
        }
        let Some(first) = buf.first() else {
            return Ok(0);
        };
        self.kept.push(*first)?;
        Ok(1)
    }

    fn flush(&mut self) -> Result<()> {
        if self.kept.len() >= self.room {
            return Err(Error::from(self.kind));
        }
        Ok(())
    }
}

#[test]
fn a_failed_read_prints_nothing(rt: HostRuntime) {
    let bytes = DOCUMENT.as_bytes();
    for reads_before in 0..=bytes.len() {
        for kind in [ErrorKind::UnexpectedEof, ErrorKind::Interrupted] {
            let mut reader = FailingReader {
                bytes,
                reads_before,
                kind,
            };
            let mut output = Vec::new(rt.alloc());
            let mut errors = Vec::new(rt.alloc());
            let status = modinfo::serve(
                rt.alloc(),
                &["analyze"],
                &mut reader,
                &mut output,
                &mut errors,
            );
            // A read that was interrupted is tried again.
            if kind == ErrorKind::Interrupted {
                assert_eq!(rt; status, 0);
                assert_eq!(rt; output.as_slice(), PRINTED.as_bytes());
                assert!(rt; errors.is_empty());
            } else {
                assert_eq!(rt; status, 1);
                assert!(rt; output.is_empty());
                assert_eq!(rt; errors.as_slice(), b"modinfo: Input\n".as_slice());
            }
        }
    }
}

#[test]
fn a_failed_write_leaves_a_beginning(rt: HostRuntime) {
    let whole = PRINTED.as_bytes();
    // A reader of the output that ends is no message.
    for (kind, message) in [
        (ErrorKind::StorageFull, "modinfo: Output\n"),
        (ErrorKind::BrokenPipe, ""),
    ] {
        for room in 0..=whole.len() {
            let mut output = FailingWriter {
                kept: Vec::new(rt.alloc()),
                room,
                kind,
            };
            let mut errors = Vec::new(rt.alloc());
            let mut input = DOCUMENT.as_bytes();
            let status = modinfo::serve(
                rt.alloc(),
                &["analyze"],
                &mut input,
                &mut output,
                &mut errors,
            );
            assert_eq!(rt; status, 1);
            assert!(rt; whole.starts_with(output.kept.as_slice()));
            assert_eq!(rt; output.kept.len(), room);
            assert_eq!(rt; errors.as_slice(), message.as_bytes());
        }
    }
}

/// The printed text for wrong arguments.
const USAGE: &str = "modinfo: usage: modinfo analyze, modinfo convert or modinfo reach\n";

#[test]
fn a_failed_write_to_errors_is_passed_over(rt: HostRuntime) {
    for (word, status, whole) in [("analyze", 1, "modinfo: Json\n"), ("parse", 2, USAGE)] {
        for room in 0..=whole.len() {
            let mut errors = FailingWriter {
                kept: Vec::new(rt.alloc()),
                room,
                kind: ErrorKind::StorageFull,
            };
            let mut output = Vec::new(rt.alloc());
            let mut input = b"".as_slice();
            let answered = modinfo::serve(
                rt.alloc(),
                &[word],
                &mut input,
                &mut output,
                &mut errors,
            );
            assert_eq!(rt; answered, status);
            assert!(rt; output.is_empty());
            assert!(rt; whole.as_bytes().starts_with(errors.kept.as_slice()));
            assert_eq!(rt; errors.kept.len(), room);
        }
    }
}
