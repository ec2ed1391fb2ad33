//! Running all test cases, or one.

use crate::calls::answer_of;
use crate::case::Case;
use crate::case_error::CaseError;
use crate::files::{Block, CaseFile};
use std::collections::BTreeSet;
use std::rt::Files;

/// Runs all test cases. Prints those with another answer than expected, and the number of test cases in
/// each file. Returns whether all answers are as expected.
pub fn replay_all<R>(rt: &R, files: &[CaseFile]) -> Result<bool, CaseError>
where
    R: Files + AllocGlobal + Print,
{
    let mut names = BTreeSet::new(rt.alloc());
    let mut is_well = true;
    let mut count = 0usize;
    for file in files {
        let (cases, are_well) = replay_file(rt, &mut names, file)?;
        is_well &= are_well;
        count = count.saturating_add(cases);
    }
    println!(rt; "{count} rows")?;
    Ok(is_well)
}

/// Runs the test cases of a file. Returns their number, and whether all have different names and the
/// expected answers.
fn replay_file<'a, R>(
    rt: &R,
    names: &mut BTreeSet<&'a str>,
    file: &'a CaseFile,
) -> Result<(usize, bool), CaseError>
where
    R: Files + AllocGlobal + Print,
{
    let blocks = file.blocks(rt.alloc())?;
    let are_well = replay_blocks(rt, names, blocks.as_slice())?;
    println!(rt; "{}: {} rows", file.name, blocks.len())?;
    Ok((blocks.len(), are_well))
}

fn replay_blocks<'a, R>(
    rt: &R,
    names: &mut BTreeSet<&'a str>,
    blocks: &[Block<'a>],
) -> Result<bool, CaseError>
where
    R: Files + AllocGlobal + Print,
{
    let mut are_well = true;
    for block in blocks {
        if !names.insert(block.name)? {
            println!(rt; "test case {} is there twice", block.name)?;
            are_well = false;
        }
        are_well &= is_replayed(rt, block)?;
    }
    Ok(are_well)
}

/// Runs a test case. Returns whether its answer is as expected; else prints both answers.
fn is_replayed<R>(rt: &R, block: &Block<'_>) -> Result<bool, CaseError>
where
    R: Files + AllocGlobal + Print,
{
    let case = Case::read(rt, block)?;
    let answer = answer_of(rt.alloc(), case.words.as_slice(), case.input.as_slice());
    is_expected(rt, block.name, case.expected.as_str(), &answer)
}

fn is_expected<R: Print>(
    rt: &R,
    name: &str,
    expected: &str,
    answer: &Result<String, CaseError>,
) -> Result<bool, CaseError> {
    match answer {
        Ok(answer) => {
            let is_same = answer.as_str() == expected;
            if !is_same {
                print!(rt; "test case {name} has to return\n{expected}and returns\n{answer}")?;
            }
            Ok(is_same)
        }
        Err(CaseError::OutOfMemory) => Err(CaseError::OutOfMemory),
        Err(fault) => {
            println!(rt; "test case {name} can't be run: {fault}")?;
            Ok(false)
        }
    }
}

/// Runs the test case of this name, and prints its answer. Returns whether the answer is as expected.
pub fn replay_one<R>(rt: &R, files: &[CaseFile], name: &str) -> Result<bool, CaseError>
where
    R: Files + AllocGlobal + Print,
{
    for file in files {
        let blocks = file.blocks(rt.alloc())?;
        if let Some(block) = blocks.iter().find(|block| block.name == name) {
            return print_answer(rt, block);
        }
    }
    Err(CaseError::Invalid("no test case has this name"))
}

fn print_answer<R>(rt: &R, block: &Block<'_>) -> Result<bool, CaseError>
where
    R: Files + AllocGlobal + Print,
{
    let case = Case::read(rt, block)?;
    let answer = answer_of(rt.alloc(), case.words.as_slice(), case.input.as_slice())?;
    print!(rt; "{answer}")?;
    Ok(answer == case.expected)
}
