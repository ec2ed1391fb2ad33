//! One run over all documents, one per line.

use crate::breaking::broken_by;
use crate::form::Form;
use std::alloc::Global;
use std::io::{Read, Result};

/// A reader of the documents of the seeds, each with a line feed. Omits documents that contain one.
#[derive(Drop)]
pub struct Documents<'a> {
    alloc: Global,
    whole: &'a [&'a str],
    seed: u64,
    count: u64,
    /// The current document, and the number of bytes that were read.
    line: Vec<u8>,
    read: usize,
}

impl<'a> Documents<'a> {
    pub fn new(alloc: Global, whole: &'a [&'a str], count: u64) -> Documents<'a> {
        Documents {
            alloc,
            whole,
            seed: 0,
            count,
            line: Vec::new(alloc),
            read: 0,
        }
    }

    fn rest(&self) -> &[u8] {
        self.line.get(self.read..).unwrap_or(&[])
    }

    /// Moves to the next document without a line feed, if there is one.
    fn advance(&mut self) -> Result<()> {
        self.line.clear();
        self.read = 0;
        for seed in self.seed..self.count {
            self.seed = seed.saturating_add(1);
            let mut line = broken_by(self.alloc, seed, self.whole)?;
            if !line.contains(&b'\n') {
                line.push(b'\n')?;
                self.line = line;
                return Ok(());
            }
        }
        Ok(())
    }
}

impl Read for Documents<'_> {
    fn read(&mut self, buf: &mut [u8]) -> Result<usize> {
        if self.rest().is_empty() {
            self.advance()?;
        }
        let mut rest = self.rest();
        let count = rest.read(buf)?;
        self.read = self.read.saturating_add(count);
        Ok(count)
    }
}

/// The output of one run over all documents, if its status is 0 and its error output is empty.
pub fn printed(alloc: Global, form: Form, mut documents: Documents<'_>) -> Option<Vec<u8>> {
    let mut output = Vec::new(alloc);
    let mut errors = Vec::new(alloc);
    let words = form.lines();
    let status = modinfo::serve(alloc, words, &mut documents, &mut output, &mut errors);
    (status == 0 && errors.is_empty()).then_some(output)
}
