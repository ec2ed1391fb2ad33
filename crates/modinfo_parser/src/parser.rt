use crate::language::Language;
use crate::shape::{FlatNode, Shape};
use crate::syntax::Syntax;
use deno_graph_base::text::SourceRange;
use modinfo_lexer::lexer::{Lexer, Mark};
use modinfo_lexer::syntax_error::ReadError;
use modinfo_lexer::token::{Token, TokenKind};
use std::alloc::Global;

/// The message of the error of a text that nests too deep.
const TOO_DEEP: &str = "the text nests too deep";

/// The message of the error of a text that could be read in two ways at too many places inside one another.
const TOO_MANY_TRIES: &str =
    "the text nests too deep in arrow functions or type arguments that could be something else";

/// The largest number of tries inside one another. A try that fails is read again.
const MAX_TRIES: usize = 32;

/// The depth from which on a try that gets too deep is one that failed. Where less is left, other ways to
/// read the text nest too deep as well.
const DEPTH_OF_TRIES: usize = 200;

/// The result of a function of the grammar.
pub(crate) type Parsed<T> = Result<T, ReadError>;

/// What is around the current token, as far as the grammar depends on it.
#[derive(Clone, Copy, Debug, PartialEq, Eq)]
pub(crate) struct Context {
    /// Whether the text is inside a function.
    pub(crate) is_function: bool,
    /// Whether `await` is an operator.
    pub(crate) is_async: bool,
    /// Whether `yield` is an operator.
    pub(crate) is_generator: bool,
    /// Whether `in` is an operator, as it isn't in the head of a `for` loop.
    pub(crate) allows_in: bool,
    /// Whether the text is between the `?` and the `:` of a conditional.
    pub(crate) is_in_conditional: bool,
    /// Whether a type may be a conditional type.
    pub(crate) allows_conditional_type: bool,
    /// Whether the nodes of literals, sums and objects are kept, as in the arguments of `import`.
    pub(crate) keeps_values: bool,
}

impl Context {
    /// Returns the context at the start of a text.
    pub(crate) fn of_text(language: Language) -> Context {
        Context {
            is_function: false,
            is_async: !language.is_script,
            is_generator: false,
            allows_in: true,
            is_in_conditional: false,
            allows_conditional_type: true,
            keeps_values: false,
        }
    }

    /// Returns the context in a function.
    pub(crate) fn in_function(self, is_async: bool, is_generator: bool) -> Context {
        Context {
            is_function: true,
            is_async,
            is_generator,
            allows_in: self.allows_in,
            is_in_conditional: self.is_in_conditional,
            allows_conditional_type: true,
            keeps_values: false,
        }
    }

    /// Returns the context in brackets of any kind, which keeps what the function around them has.
    pub(crate) fn in_brackets(self) -> Context {
        Context {
            is_function: self.is_function,
            is_async: self.is_async,
            is_generator: self.is_generator,
            allows_in: true,
            is_in_conditional: false,
            allows_conditional_type: true,
            keeps_values: false,
        }
    }
}

/// What is known of an expression that was read.
#[derive(Clone, Copy, Debug, PartialEq, Eq)]
pub(crate) enum Form {
    /// A name.
    Identifier,
    /// The name `require`, or a name with an escape, which may be `require`.
    Require,
    String,
    Template,
    /// `left + right`, whose operands are nodes.
    Sum,
    Array,
    Object,
    /// `target = value`, where the target may be a pattern.
    Assigned,
    /// An arrow function, after which no operator may follow.
    Arrow,
    /// Operands with operators, which nothing can be assigned to.
    Operation,
    Other,
}

impl Form {
    /// Returns whether the expression may be an element of a pattern, if what is in it may.
    pub(crate) fn may_be_pattern(self) -> bool {
        matches!(
            self,
            Form::Identifier | Form::Require | Form::Array | Form::Object | Form::Assigned
        )
    }

    /// Returns whether an assignment operator may follow the expression.
    pub(crate) fn may_be_target(self) -> bool {
        !matches!(self, Form::Sum | Form::Arrow | Form::Operation)
    }
}

/// An operand that was read.
#[derive(Clone, Copy)]
pub(crate) struct Operand {
    pub(crate) form: Form,
    /// Index of the first node of the operand.
    pub(crate) first: usize,
    /// Offset of the operand's first byte.
    pub(crate) start: usize,
    /// Offset after the operand's last byte.
    pub(crate) end: usize,
}

impl Operand {
    /// Returns the operand with another form.
    pub(crate) fn with_form(self, form: Form) -> Operand {
        Operand {
            form,
            first: self.first,
            start: self.start,
            end: self.end,
        }
    }
}

/// A state of the parser, to which it can go back.
#[derive(Clone, Copy)]
pub(crate) struct State {
    lexer: Mark,
    nodes: usize,
    context: Context,
    no_pattern: usize,
    no_parameter: usize,
}

/// Reads a text by the grammar of its language, and collects the nodes that the analysis reads.
#[derive(Drop)]
pub(crate) struct Parser<'a> {
    pub(crate) lexer: Lexer<'a>,
    pub(crate) language: Language,
    pub(crate) context: Context,
    pub(crate) nodes: Vec<FlatNode>,
    /// A number that no loop over the text's tokens reaches.
    pub(crate) turns: usize,
    /// Whether the `:` of the conditional around the current token and what follows the `:` were read with
    /// the expression between `?` and `:`.
    pub(crate) has_read_conditional: bool,
    /// Offset after the start of the last element that no pattern may have, or zero.
    pub(crate) no_pattern: usize,
    /// Offset after the start of the last `await` or `yield` of the function around the current token, or
    /// zero. No parameter may have one.
    pub(crate) no_parameter: usize,
    /// The number of tries around the current token.
    tries: usize,
    /// Offsets at which a try to read an arrow function or type arguments has failed, ascending.
    failed: Vec<usize>,
}

impl<'a> Parser<'a> {
    /// Returns a parser at the first token of a text.
    pub(crate) fn new(alloc: Global, text: &'a str, language: Language) -> Parsed<Parser<'a>> {
        Ok(Parser {
            lexer: Lexer::new(alloc, text, language.is_script)?,
            language,
            context: Context::of_text(language),
            nodes: Vec::new(alloc),
            turns: text.len().saturating_add(2),
            has_read_conditional: false,
            no_pattern: 0,
            no_parameter: 0,
            tries: 0,
            failed: Vec::new(alloc),
        })
    }

    /// Returns the nodes and the choices of the text that was read.
    pub(crate) fn into_syntax(self) -> Syntax {
        let Parser { lexer, nodes, .. } = self;
        let has_hashbang = lexer.has_hashbang();
        Syntax {
            nodes,
            choices: lexer.into_choices(),
            has_hashbang,
        }
    }

    /// Returns the current token.
    #[inline(always)]
    pub(crate) fn token(&self) -> Token {
        self.lexer.token()
    }

    /// Returns the kind of the current token.
    #[inline(always)]
    pub(crate) fn kind(&self) -> TokenKind {
        self.lexer.token().kind
    }

    /// Returns the start of the current token, in bytes.
    #[inline(always)]
    pub(crate) fn start(&self) -> usize {
        self.lexer.token().start
    }

    /// Returns whether the current token has a kind.
    #[inline(always)]
    pub(crate) fn at(&self, kind: TokenKind) -> bool {
        self.lexer.token().kind == kind
    }

    /// Returns whether the current token has a kind, and no line ends before it.
    #[inline(always)]
    pub(crate) fn at_on_line(&self, kind: TokenKind) -> bool {
        self.at(kind) && !self.lexer.token().is_after_line_end
    }

    /// Goes on to the next token.
    #[inline(always)]
    pub(crate) fn next(&mut self) -> Parsed<()> {
        self.lexer.next()
    }

    /// Goes on if the current token has a kind. Returns whether it has.
    #[inline(always)]
    pub(crate) fn eat(&mut self, kind: TokenKind) -> Parsed<bool> {
        let is_there = self.at(kind);
        if is_there {
            self.next()?;
        }
        Ok(is_there)
    }

    /// Goes on if the current token has a kind, else returns an error with this message.
    #[inline(always)]
    pub(crate) fn expect(&mut self, kind: TokenKind, message: &'static str) -> Parsed<()> {
        if self.at(kind) {
            self.next()
        } else {
            Err(self.error(message))
        }
    }

    /// Returns the token after the current one.
    pub(crate) fn peek(&mut self) -> Parsed<Token> {
        let mark = self.lexer.mark();
        let result = self.lexer.next();
        let token = self.lexer.token();
        self.lexer.reset(mark);
        result?;
        Ok(token)
    }

    /// Goes on after the end of a statement: a `;`, or a place where one is inserted.
    pub(crate) fn semicolon(&mut self) -> Parsed<()> {
        if self.eat(TokenKind::Semicolon)? {
            return Ok(());
        }
        let token = self.token();
        let is_inserted = token.is_after_line_end
            || matches!(token.kind, TokenKind::BraceClose | TokenKind::EndOfText);
        if is_inserted {
            Ok(())
        } else {
            Err(self.error("expected `;` after the statement"))
        }
    }

    /// Returns an error at the current token.
    #[cold]
    pub(crate) fn error(&self, message: &'static str) -> ReadError {
        ReadError::syntax(message, self.start())
    }

    /// Returns the error of a text that nests too deep.
    #[cold]
    pub(crate) fn too_deep(&self) -> ReadError {
        ReadError::syntax(TOO_DEEP, self.start())
    }

    /// Returns the error of an `await` or a `yield` in parameters.
    #[cold]
    pub(crate) fn error_in_parameters(&self) -> ReadError {
        ReadError::syntax(
            "`await` and `yield` can't be in parameters",
            self.no_parameter.saturating_sub(1),
        )
    }

    /// Keeps that an element which begins at an offset can't be in a pattern.
    #[inline(always)]
    pub(crate) fn keep_no_pattern(&mut self, start: usize) {
        self.no_pattern = start.saturating_add(1);
    }

    /// Adds a node around the nodes from the index `first` on, from an offset to the end of the last
    /// token.
    pub(crate) fn push(&mut self, shape: Shape, first: usize, start: usize) -> Parsed<()> {
        let end = self.lexer.previous_end();
        Ok(
            self.nodes.push(FlatNode {
                shape,
                first,
                range: SourceRange::new(start, end),
            })?,
        )
    }

    /// Adds the node of an expression around the nodes from the index `first` on.
    pub(crate) fn push_value(&mut self, form: Form, first: usize, start: usize) -> Parsed<()> {
        let shape = match form {
            Form::String => Shape::Str,
            Form::Template => Shape::Template,
            Form::Sum => Shape::Sum,
            Form::Object => Shape::Object,
            _ => Shape::Other,
        };
        self.push(shape, first, start)
    }

    /// Returns the current state.
    pub(crate) fn state(&self) -> State {
        State {
            lexer: self.lexer.mark(),
            nodes: self.nodes.len(),
            context: self.context,
            no_pattern: self.no_pattern,
            no_parameter: self.no_parameter,
        }
    }

    /// Goes back to a state.
    pub(crate) fn reset(&mut self, state: State) {
        self.lexer.reset(state.lexer);
        self.nodes.truncate(state.nodes);
        self.context = state.context;
        self.no_pattern = state.no_pattern;
        self.no_parameter = state.no_parameter;
        self.has_read_conditional = false;
    }

    /// Returns an error in a script of JavaScript, which has no imports, no exports and no `import.meta`.
    pub(crate) fn expect_module(&self) -> Parsed<()> {
        if self.language.is_script && !self.language.is_typescript {
            Err(self.error("expected a module around imports and exports"))
        } else {
            Ok(())
        }
    }

    /// Returns whether a try at the current token has failed before.
    pub(crate) fn has_failed(&self) -> bool {
        self.failed.binary_search(&self.start()).is_ok()
    }

    /// Begins a try at the current token. Returns the state to which the try goes back if it fails.
    pub(crate) fn begin_try(&mut self) -> Parsed<State> {
        if self.tries >= MAX_TRIES {
            return Err(self.error(TOO_MANY_TRIES));
        }
        self.tries = self.tries.saturating_add(1);
        Ok(self.state())
    }

    /// Ends a try that began in a state, with `depth` left. If it returned false or a syntax error, goes
    /// back to that state and keeps that the try fails there. Returns whether it succeeded.
    pub(crate) fn end_try(
        &mut self,
        depth: usize,
        state: State,
        tried: Parsed<bool>,
    ) -> Parsed<bool> {
        self.tries = self.tries.saturating_sub(1);
        match tried {
            Ok(true) => Ok(true),
            Err(ReadError::OutOfMemory) => Err(ReadError::OutOfMemory),
            Err(ReadError::Syntax(error)) if is_limit(error.message, depth) => {
                Err(ReadError::Syntax(error))
            }
            Ok(false) | Err(ReadError::Syntax(_)) => {
                self.reset(state);
                let at = self.start();
                self.keep_failed(at)?;
                Ok(false)
            }
        }
    }

    /// Keeps that a try at the token at an offset has failed.
    pub(crate) fn keep_failed(&mut self, at: usize) -> Parsed<()> {
        match self.failed.binary_search(&at) {
            Ok(_) => Ok(()),
            Err(index) => Ok(self.failed.insert(index, at)?),
        }
    }
}

/// Returns whether an error in a try, which began with `depth` left, is that of a limit beyond which the text
/// isn't tried another way.
pub(crate) fn is_limit(message: &str, depth: usize) -> bool {
    message == TOO_MANY_TRIES || message == TOO_DEEP && depth < DEPTH_OF_TRIES
}
