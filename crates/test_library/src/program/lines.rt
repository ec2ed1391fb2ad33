//! Runs with `--lines`: each answer is printed before further input is needed, and failures end the
//! run.

use std::alloc::Global;
use std::cell::Cell;
use std::io::{Error, ErrorKind, Read, Result, Write};
use std::rc::Rc;

/// A document, a line with another JSON value, an empty line, and a last line without a line feed.
const INPUT: &str =
    "{\"mediaType\":\"JavaScript\",\"program\":{\"body\":[],\"range\":[0,0]},\"source\":\"\",\"specifier\":\"file:///a.js\"}\n{}\n\n[";

const PRINTED: &str =
    "{\"answer\":{\"script\":true}}\n{\"fault\":\"Tree\"}\n{\"fault\":\"Json\"}\n{\"fault\":\"Json\"}\n";

/// Returns two texts, each in one read or more, and then fails or ends.
#[derive(Drop)]
struct Pieces<'a> {
    first: &'a [u8],
    second: &'a [u8],
    fails: bool,
}

impl Read for Pieces<'_> {
    fn read(&mut self, buf: &mut [u8]) -> Result<usize> {
        if !self.first.is_empty() {
            return self.first.read(buf);
        }
        if self.fails {
            return Err(Error::from(ErrorKind::UnexpectedEof));
        }
        self.second.read(buf)
    }
}

/// Returns each line after the answer to the line before was flushed, and fails otherwise.
#[derive(Drop)]
struct Partner<'a> {
    lines: &'a [&'a str],
    given: usize,
    answered: Rc<Cell<usize>>,
}

impl Read for Partner<'_> {
    fn read(&mut self, buf: &mut [u8]) -> Result<usize> {
        if self.answered.get() != self.given {
            return Err(Error::from(ErrorKind::WouldBlock));
        }
        let Some(line) = self.lines.get(self.given) else {
            return Ok(0);
        };
        self.given = self.given.saturating_add(1);
        let mut bytes = line.as_bytes();
        bytes.read(buf)
    }
}

fn count_lines(bytes: &[u8]) -> usize {
    bytes.iter().filter(|byte| **byte == b'\n').count()
}

/// Counts the lines that were flushed.
#[derive(Drop)]
struct Answered {
    written: usize,
    answered: Rc<Cell<usize>>,
}

impl Write for Answered {
    fn write(&mut self, buf: &[u8]) -> Result<usize> {
        self.written = self.written.saturating_add(count_lines(buf));
        Ok(buf.len())
    }

    fn flush(&mut self) -> Result<()> {
        self.answered.set(self.written);
        Ok(())
    }
}

fn serve_lines<R: Read + Drop>(alloc: Global, mut input: R) -> (u8, Vec<u8>, Vec<u8>) {
    let mut output = Vec::new(alloc);
    let mut errors = Vec::new(alloc);
    let words = ["analyze", "--lines"];
    let status = modinfo::serve(alloc, &words, &mut input, &mut output, &mut errors);
    (status, output, errors)
}

#[test]
fn lines_that_are_cut_anywhere_are_answered_alike(rt: HostRuntime) {
    let bytes = INPUT.as_bytes();
    for cut in 0..=bytes.len() {
        let (first, second) = bytes.split_at(cut);
        let input = Pieces {
            first,
            second,
            fails: false,
        };
        let (status, output, errors) = serve_lines(rt.alloc(), input);
        assert_eq!(rt; status, 0);
        assert_eq!(rt; output.as_slice(), PRINTED.as_bytes());
        assert!(rt; errors.is_empty());
    }
}

#[test]
fn a_read_that_fails_ends_the_run_after_the_earlier_answers(rt: HostRuntime) {
    let bytes = INPUT.as_bytes();
    for cut in 0..=bytes.len() {
        let (first, second) = bytes.split_at(cut);
        let input = Pieces {
            first,
            second,
            fails: true,
        };
        let (status, output, errors) = serve_lines(rt.alloc(), input);
        assert_eq!(rt; status, 1);
        assert!(rt; PRINTED.as_bytes().starts_with(output.as_slice()));
        assert_eq!(rt; count_lines(output.as_slice()), count_lines(first));
        assert_eq!(rt; errors.as_slice(), b"modinfo: Input\n".as_slice());
    }
}

#[test]
fn a_partner_that_waits_for_each_answer_gets_it(rt: HostRuntime) {
    let answered = Rc::new(rt.alloc(), Cell::new(0)).expect(&rt, "memory");
    let lines = ["{}\n", "[]\n", "\n"];
    let mut input = Partner {
        lines: &lines,
        given: 0,
        answered: answered.clone().expect(&rt, "a count that fits"),
    };
    let mut output = Answered {
        written: 0,
        answered: answered.clone().expect(&rt, "a count that fits"),
    };
    let mut errors = Vec::new(rt.alloc());
    let words = ["analyze", "--lines"];
    let status = modinfo::serve(rt.alloc(), &words, &mut input, &mut output, &mut errors);
    assert_eq!(rt; status, 0);
    assert_eq!(rt; answered.get(), 3);
    assert!(rt; errors.is_empty());
}
