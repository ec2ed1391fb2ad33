ghost use Rattle.std.specs.Prelude.{◌≡◌, ◌≢◌, ◌==◌, ◌<◌, ◌≤◌, ◌+◌, ◌++◌, ◌∷◌, [], true, false, ℕ};
ghost use Rattle.std.specs.Prelude.{length, map, vec_len, slice_index, IfOk, OnOk, OnErr, IsTrue, Err, option_map};
ghost use Rattle.json.specs.Print.{IsNumber, IsPrintableOrBad};
ghost use Rattle.json.specs.Reads.{token_of};
ghost use Rattle.json.specs.Token.{begin_array, begin_object};
ghost use Rattle.serde_json.specs.Read.{number_of, number_from, float_of};
ghost use Rattle.deno_graph_json.specs.Flat.{plain, number, number_node, number_fits};
ghost use Rattle.deno_graph_json.specs.internal.Parsing.{IsPut, NoneAhead};
ghost use Rattle.deno_graph_json.specs.Flat.{IsFlatText, IsUnreadable};
ghost use Rattle.deno_graph_json.specs.declared.flat.error.TapeError.TheVariants.{Json};

use crate::FlatNode;
use crate::flat::digits::short_whole;
use crate::flat::error::TapeError;
use fast_float::Numeral;
use json::{Reader, Scratch, Token};
use std::alloc::Global;

/// The deepest nesting of arrays and objects that is read.
const MAX_DEPTH: usize = 127;

/// Reads the nodes of a text. Returns the errors of `Tape::read`.
pub fn read<'a>(
    alloc: Global,
    text: &'a str,
    scratch: &'a mut Scratch,
) -> Result<Vec<FlatNode<'a>>, TapeError>
    ensures flat { IfOk result (λ nodes. IsFlatText text.now nodes.items) }
    ensures unreadable { (offset : ℕ) → result ≡ Err (Json offset) → IsUnreadable text.now }
{
    let mut parser = Parser {
        reader: Reader::new(text, scratch)?,
        nodes: Vec::new(alloc),
        offset: 0,
    };
    parser.root()?;
    parser.finish(text)
}

/// Returns the byte offset of what follows the value of the text. The reader stops at `offset`, which
/// may be after a comma that follows the value.
fn offset_after_value(text: &str, offset: usize) -> usize {
    let passed = text.as_bytes().get(..offset).unwrap_or(&[]);
    match passed.iter().rposition(|byte| !byte.is_ascii_whitespace()) {
        Some(last) if passed[last] == b',' => last,
        _ => offset,
    }
}

/// Reads a text token by token and collects the nodes.
#[derive(Drop)]
struct Parser<'a> {
    reader: Reader<'a>,
    nodes: Vec<FlatNode<'a>>,
    /// Byte offset of the last token.
    offset: usize,
}

impl<'a> Parser<'a> {
    /// Reads the value of the text.
    fn root(&mut self) -> Result<(), TapeError>
        ensures put { OnOk result (IsPut 127 self.old.reader self.new.reader
            self.old.nodes.items self.new.nodes.items) }
        ensures none { (offset : ℕ) → result ≡ Err (Json offset) → NoneAhead 127 self.old.reader }
    {
        let first = self.token()?;
        self.value(first, MAX_DEPTH)
    }

    /// Reads the next token, and keeps its offset.
    #[inline(always)]
    fn token(&mut self) -> Result<Token<'a>, TapeError>
        ensures shorter { OnOk result (length self.new.reader < length self.old.reader) }
        ensures same { self.new.nodes ≡ self.old.nodes }
        ensures token { IfOk result (λ token. self.old.reader ≡ token_of token ∷ self.new.reader) }
        ensures good { IfOk result (λ token. IsPrintableOrBad (token_of token)) }
        ensures end { OnErr result (self.old.reader ≡ []) }
    {
        let offset = self.reader.offset();
        self.offset = offset;
        self.reader.next().ok_or(TapeError::Json { offset })
    }

    /// Reads the rest of the value that begins with the token `first`. In the value, arrays and
    /// objects may nest to `depth`.
    #[cycle(read)]
    #[inline(always)]
    fn value(&mut self, first: Token<'a>, depth: usize) -> Result<(), TapeError>
        requires { IsPrintableOrBad (token_of first) }
        ensures put { OnOk result (IsPut depth (token_of first.entry ∷ self.old.reader) self.new.reader
            self.old.nodes.items self.new.nodes.items) }
        ensures none { (offset : ℕ) → result ≡ Err (Json offset)
            → NoneAhead depth (token_of first.entry ∷ self.old.reader) }
        ensures shorter { OnOk result (length self.new.reader ≤ length self.old.reader) }
    {
        let offset = self.offset;
        match first {
            Token::String(text) => Ok(self.nodes.push(FlatNode::String(text))?),
            Token::Number(digits) => self.number(digits),
            Token::Bool(value) => Ok(self.nodes.push(FlatNode::Bool(value))?),
            Token::Null => Ok(self.nodes.push(FlatNode::Null)?),
            Token::BeginArray if depth > 0 => self.array(depth - 1),
            Token::BeginObject if depth > 0 => self.object(depth - 1),
            Token::BeginArray | Token::BeginObject => Err(TapeError::Json { offset }),
            Token::EndArray | Token::EndObject | Token::Key(_) | Token::Bad => {
                Err(TapeError::Json { offset })
            }
        }
    }

    /// Pushes the node of a number.
    #[inline(always)]
    fn number(&mut self, digits: &str) -> Result<(), TapeError>
        requires { IsNumber digits.now }
        ensures nodes { OnOk result (map plain self.new.nodes.items
            ≡ map plain self.old.nodes.items ++ number_node digits.now ∷ []) }
        ensures fits { OnOk result (IsTrue (number_fits digits.now)) }
        ensures large { (offset : ℕ) → result ≡ Err (Json offset) → number_fits digits.now ≡ false }
        ensures reader { self.new.reader ≡ self.old.reader }
    {
        match short_whole(digits.as_bytes()) {
            Some(whole) => Ok(self.nodes.push(FlatNode::Whole(whole))?),
            None => {
                let offset = self.offset;
                let node = parse_number(digits).ok_or(TapeError::Json { offset })?;
                Ok(self.nodes.push(node)?)
            }
        }
    }

    /// Reads the rest of an array, after the bracket that opens it.
    #[cycle(read)]
    #[inline(never)]
    fn array(&mut self, depth: usize) -> Result<(), TapeError>
        ensures put { OnOk result (IsPut (depth + 1) (begin_array ∷ self.old.reader)
            self.new.reader self.old.nodes.items self.new.nodes.items) }
        ensures none { (offset : ℕ) → result ≡ Err (Json offset)
            → NoneAhead (depth + 1) (begin_array ∷ self.old.reader) }
        ensures shorter { OnOk result (length self.new.reader ≤ length self.old.reader) }
    {
        let at = self.nodes.len();
        self.nodes.push(FlatNode::Array {
            elements: 0,
            nodes: 0,
        })?;
        let mut elements = 0usize;
        'elements: loop {
            match self.token()? {
                Token::EndArray => break,
                first => self.value(first, depth)?,
            }
            elements = elements.saturating_add(1);
        }
        let nodes = self.nodes.len() - at - 1;
        self.nodes[at] = FlatNode::Array { elements, nodes };
        Ok(())
    }

    /// Reads the rest of an object, after the brace that opens it.
    #[cycle(read)]
    #[inline(never)]
    fn object(&mut self, depth: usize) -> Result<(), TapeError>
        ensures put { OnOk result (IsPut (depth + 1) (begin_object ∷ self.old.reader)
            self.new.reader self.old.nodes.items self.new.nodes.items) }
        ensures none { (offset : ℕ) → result ≡ Err (Json offset)
            → NoneAhead (depth + 1) (begin_object ∷ self.old.reader) }
        ensures shorter { OnOk result (length self.new.reader ≤ length self.old.reader) }
    {
        let at = self.nodes.len();
        self.nodes.push(FlatNode::Object { nodes: 0 })?;
        'members: loop {
            match self.token()? {
                Token::Key(name) => self.nodes.push(FlatNode::Key(name))?,
                Token::EndObject => break,
                _ => {
                    return Err(TapeError::Json {
                        offset: self.offset,
                    });
                }
            }
            let first = self.token()?;
            self.value(first, depth)?;
        }
        let nodes = self.nodes.len() - at - 1;
        self.nodes[at] = FlatNode::Object { nodes };
        Ok(())
    }

    /// Returns the nodes. Returns `Json` if anything follows the value of the text.
    fn finish(self, text: &str) -> Result<Vec<FlatNode<'a>>, TapeError>
        ensures nodes { IfOk result (λ nodes. nodes ≡ self.entry.nodes) }
        ensures end { OnOk result (self.entry.reader ≡ []) }
        ensures more { OnErr result (self.entry.reader ≢ []) }
    {
        let Parser {
            mut reader,
            nodes,
            offset: _,
        } = self;
        let offset = reader.offset();
        match reader.next() {
            None => Ok(nodes),
            Some(_) => Err(TapeError::Json {
                offset: offset_after_value(text, offset),
            }),
        }
    }
}

/// Parses a number of JSON. `None` if it is too large for a float.
#[inline(never)]
fn parse_number<'a>(text: &str) -> Option<FlatNode<'a>>
    ensures { option_map plain result ≡ option_map number (number_of text.now) }
{
    let bytes = text.as_bytes();
    if has_minus(bytes) {
        negative(&Numeral::scan(&bytes[1..]))
    } else {
        unsigned(&Numeral::scan(bytes))
    }
}

/// Returns whether the text begins with a minus sign.
#[inline(always)]
fn has_minus(bytes: &[u8]) -> bool
    ensures value { result ≡ (slice_index bytes.now 0 == 45) }
    ensures some { IsTrue result → 0 < length bytes.now }
{
    !bytes.is_empty() && bytes[0] == b'-'
}

/// Returns the node of a number without a sign. `None` if it is too large for a float.
fn unsigned<'a>(numeral: &Numeral<'_>) -> Option<FlatNode<'a>>
    ensures { option_map plain result ≡ option_map number (number_from false numeral.now) }
{
    match numeral.to_u64() {
        Some(whole) => Some(FlatNode::Whole(whole)),
        None => float(false, numeral),
    }
}

/// Returns the node of a number after its minus sign. `None` if it is too large for a float.
fn negative<'a>(numeral: &Numeral<'_>) -> Option<FlatNode<'a>>
    ensures { option_map plain result ≡ option_map number (number_from true numeral.now) }
{
    match numeral.to_i64(true) {
        Some(number) if number < 0 => Some(FlatNode::Negative(number)),
        _ => float(true, numeral),
    }
}

/// Returns the node of the nearest float. `None` if it isn't finite.
fn float<'a>(is_negative: bool, numeral: &Numeral<'_>) -> Option<FlatNode<'a>>
    ensures { option_map plain result ≡ option_map number (float_of is_negative numeral.now) }
{
    let number = numeral.to_float::<f64>(is_negative);
    number.is_finite().then_some(FlatNode::Float(number))
}
