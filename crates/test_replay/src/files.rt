//! Files of test cases.

use crate::case_error::CaseError;
use std::alloc::Global;
use std::fs;
use std::rt::Files;

/// A file of test cases.
#[derive(Drop)]
pub struct CaseFile {
    pub name: String,
    text: String,
}

/// A test case in its file: its name, and its other lines, each a word and the rest.
#[derive(Drop)]
pub struct Block<'a> {
    pub name: &'a str,
    pub lines: Vec<(&'a str, &'a str)>,
}

/// Reads the files `*.rows` of the current folder, in the order of their names.
pub fn case_files<R>(rt: &R) -> Result<Vec<CaseFile>, CaseError>
where
    R: Files + AllocGlobal + Clone + Drop,
{
    let mut files = Vec::new(rt.alloc());
    for name in case_file_names(rt)? {
        let text = fs::read_to_string(rt, name.as_str())?;
        files.push(CaseFile { name, text })?;
    }
    Ok(files)
}

fn case_file_names<R>(rt: &R) -> Result<Vec<String>, CaseError>
where
    R: Files + AllocGlobal + Clone + Drop,
{
    let mut names = Vec::new(rt.alloc());
    for entry in fs::read_dir(rt, ".")? {
        push_name(rt.alloc(), &mut names, entry?.file_name())?;
    }
    names.sort_unstable();
    Ok(names)
}

fn push_name(alloc: Global, names: &mut Vec<String>, name: &str) -> Result<(), CaseError> {
    if name.ends_with(".rows") {
        names.push(String::from_str(alloc, name)?)?;
    }
    Ok(())
}

impl CaseFile {
    /// The test cases of the file. Ignores comments, which start with `#`, and empty lines.
    pub fn blocks(&self, alloc: Global) -> Result<Vec<Block<'_>>, CaseError> {
        let mut blocks = Vec::new(alloc);
        for line in self.text.lines() {
            if !line.is_empty() && !line.starts_with('#') {
                push_line(alloc, &mut blocks, line)?;
            }
        }
        Ok(blocks)
    }
}

fn push_line<'a>(
    alloc: Global,
    blocks: &mut Vec<Block<'a>>,
    line: &'a str,
) -> Result<(), CaseError> {
    let (word, rest) = line.split_once(' ').unwrap_or((line, ""));
    if word == "row" {
        let lines = Vec::new(alloc);
        blocks.push(Block { name: rest, lines })?;
        return Ok(());
    }
    match blocks.last_mut() {
        Some(block) => Ok(block.lines.push((word, rest))?),
        None => Err(CaseError::Invalid("a line is before the first test case")),
    }
}
