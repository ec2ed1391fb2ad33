use crate::answer::push_line;
use crate::case_error::CaseError;
use crate::files::Block;
use std::alloc::Global;
use std::fs;
use std::rt::Files;

/// A test case: the words of the call, the input, and the lines of the expected answer.
#[derive(Drop)]
pub struct Case<'a> {
    pub words: Vec<&'a str>,
    pub input: Vec<u8>,
    pub expected: String,
    has_input: bool,
}

impl<'a> Case<'a> {
    /// Reads the test case of a block, and the files that it names.
    pub fn read<R: Files + AllocGlobal>(rt: &R, block: &Block<'a>) -> Result<Case<'a>, CaseError> {
        let mut case = Case {
            words: Vec::new(rt.alloc()),
            input: Vec::new(rt.alloc()),
            expected: String::new(rt.alloc()),
            has_input: false,
        };
        for (word, rest) in block.lines.iter() {
            case.read_line(rt, word, rest)?;
        }
        Ok(case)
    }

    fn read_line<R>(&mut self, rt: &R, word: &'a str, rest: &'a str) -> Result<(), CaseError>
    where
        R: Files + AllocGlobal,
    {
        match word {
            "call" => self.read_call(rest),
            "input" => self.read_input(rest),
            "input-from" => self.read_input_from(rt, rest),
            "bytes" => self.read_hexadecimal(rt.alloc(), rest),
            "status" => self.read_status(rest),
            "output" | "errors" | "report" | "answer" => self.read_answer(word, rest),
            "output-from" => self.read_lines_from(rt, "output", rest),
            "answer-from" => self.read_lines_from(rt, "answer", rest),
            _ => Err(CaseError::Invalid("a line of it begins with no word of a test case")),
        }
    }

    fn read_call(&mut self, words: &'a str) -> Result<(), CaseError> {
        for word in words.split_whitespace() {
            self.words.push(word)?;
        }
        match self.words.first() {
            Some(name) if matches!(*name, "serve" | "both" | "beginnings") => self.read_status("0"),
            _ => Ok(()),
        }
    }

    /// Replaces the expected answer by the status of a run of the program, which is its first line.
    fn read_status(&mut self, status: &str) -> Result<(), CaseError> {
        self.expected.clear();
        self.read_answer("status", status)
    }

    fn read_answer(&mut self, word: &str, rest: &str) -> Result<(), CaseError> {
        Ok(push_line(&mut self.expected, word, rest)?)
    }

    /// Appends a line to the input.
    fn read_input(&mut self, line: &str) -> Result<(), CaseError> {
        if self.has_input {
            self.input.push(b'\n')?;
        }
        self.read_bytes(line.as_bytes())
    }

    fn read_bytes(&mut self, bytes: &[u8]) -> Result<(), CaseError> {
        self.has_input = true;
        Ok(self.input.extend_from_slice(bytes)?)
    }

    fn read_input_from<R>(&mut self, rt: &R, name: &str) -> Result<(), CaseError>
    where
        R: Files + AllocGlobal,
    {
        let bytes = fs::read(rt, name)?;
        self.read_bytes(bytes.as_slice())
    }

    fn read_hexadecimal(&mut self, alloc: Global, text: &str) -> Result<(), CaseError> {
        let bytes = bytes_of(alloc, text)?;
        self.read_bytes(bytes.as_slice())
    }

    fn read_lines_from<R>(&mut self, rt: &R, word: &str, name: &str) -> Result<(), CaseError>
    where
        R: Files + AllocGlobal,
    {
        let text = fs::read_to_string(rt, name)?;
        for line in text.lines() {
            self.read_answer(word, line)?;
        }
        Ok(())
    }
}

/// The bytes of hexadecimal numbers with spaces between them.
fn bytes_of(alloc: Global, text: &str) -> Result<Vec<u8>, CaseError> {
    let mut bytes = Vec::new(alloc);
    for word in text.split_whitespace() {
        match u8::from_str_radix(word, 16) {
            Ok(byte) => bytes.push(byte)?,
            Err(_) => return Err(CaseError::Invalid("its bytes are not in hexadecimal")),
        }
    }
    Ok(bytes)
}
