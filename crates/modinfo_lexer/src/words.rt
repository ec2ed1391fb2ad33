//! The words with a meaning of their own.

use crate::token::TokenKind;

/// Returns the kind of a name without escapes.
#[inline(always)]
pub fn kind_of_word(word: &[u8]) -> TokenKind {
    match word.len() {
        2 => of_two(word),
        3 => of_three(word),
        4 => of_four(word),
        5 => of_five(word),
        6 => of_six(word),
        7 => of_seven(word),
        8 => of_eight(word),
        9 => of_nine(word),
        10 => of_ten(word),
        _ => TokenKind::Identifier,
    }
}

fn of_two(word: &[u8]) -> TokenKind {
    match word {
        b"as" => TokenKind::As,
        b"do" => TokenKind::Do,
        b"if" => TokenKind::If,
        b"in" => TokenKind::In,
        b"is" => TokenKind::Is,
        b"of" => TokenKind::Of,
        _ => TokenKind::Identifier,
    }
}

fn of_three(word: &[u8]) -> TokenKind {
    match word {
        b"for" => TokenKind::For,
        b"get" => TokenKind::Get,
        b"let" => TokenKind::Let,
        b"new" => TokenKind::New,
        b"out" => TokenKind::Out,
        b"set" => TokenKind::Set,
        b"try" => TokenKind::Try,
        b"var" => TokenKind::Var,
        _ => TokenKind::Identifier,
    }
}

fn of_four(word: &[u8]) -> TokenKind {
    match word {
        b"case" => TokenKind::Case,
        b"else" => TokenKind::Else,
        b"enum" => TokenKind::Enum,
        b"from" => TokenKind::From,
        b"meta" => TokenKind::Meta,
        b"null" => TokenKind::Null,
        b"this" => TokenKind::This,
        b"true" => TokenKind::True,
        b"type" => TokenKind::Type,
        b"void" => TokenKind::Void,
        b"with" => TokenKind::With,
        _ => TokenKind::Identifier,
    }
}

fn of_five(word: &[u8]) -> TokenKind {
    match word {
        b"async" => TokenKind::Async,
        b"await" => TokenKind::Await,
        b"break" => TokenKind::Break,
        b"catch" => TokenKind::Catch,
        b"class" => TokenKind::Class,
        b"const" => TokenKind::Const,
        b"defer" => TokenKind::Defer,
        b"false" => TokenKind::False,
        b"infer" => TokenKind::Infer,
        b"keyof" => TokenKind::Keyof,
        b"super" => TokenKind::Super,
        b"throw" => TokenKind::Throw,
        b"using" => TokenKind::Using,
        b"while" => TokenKind::While,
        b"yield" => TokenKind::Yield,
        _ => TokenKind::Identifier,
    }
}

fn of_six(word: &[u8]) -> TokenKind {
    match word {
        b"assert" => TokenKind::Assert,
        b"delete" => TokenKind::Delete,
        b"export" => TokenKind::Export,
        b"global" => TokenKind::Global,
        b"import" => TokenKind::Import,
        b"module" => TokenKind::Module,
        b"public" => TokenKind::Public,
        b"return" => TokenKind::Return,
        b"source" => TokenKind::Source,
        b"static" => TokenKind::Static,
        b"switch" => TokenKind::Switch,
        b"target" => TokenKind::Target,
        b"typeof" => TokenKind::Typeof,
        b"unique" => TokenKind::Unique,
        _ => TokenKind::Identifier,
    }
}

fn of_seven(word: &[u8]) -> TokenKind {
    match word {
        b"asserts" => TokenKind::Asserts,
        b"declare" => TokenKind::Declare,
        b"default" => TokenKind::Default,
        b"extends" => TokenKind::Extends,
        b"finally" => TokenKind::Finally,
        b"package" => TokenKind::Package,
        b"private" => TokenKind::Private,
        b"require" => TokenKind::Require,
        _ => TokenKind::Identifier,
    }
}

fn of_eight(word: &[u8]) -> TokenKind {
    match word {
        b"abstract" => TokenKind::Abstract,
        b"accessor" => TokenKind::Accessor,
        b"continue" => TokenKind::Continue,
        b"debugger" => TokenKind::Debugger,
        b"function" => TokenKind::Function,
        b"override" => TokenKind::Override,
        b"readonly" => TokenKind::Readonly,
        _ => TokenKind::Identifier,
    }
}

fn of_nine(word: &[u8]) -> TokenKind {
    match word {
        b"interface" => TokenKind::Interface,
        b"namespace" => TokenKind::Namespace,
        b"protected" => TokenKind::Protected,
        b"satisfies" => TokenKind::Satisfies,
        _ => TokenKind::Identifier,
    }
}

fn of_ten(word: &[u8]) -> TokenKind {
    match word {
        b"implements" => TokenKind::Implements,
        b"instanceof" => TokenKind::Instanceof,
        _ => TokenKind::Identifier,
    }
}
