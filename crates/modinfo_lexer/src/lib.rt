//! The tokens of a JavaScript or TypeScript text, by the lexical grammar of
//! ECMAScript (<https://tc39.es/ecma262/#sec-ecmascript-language-lexical-grammar>).
#![tactic(auto)]

pub mod characters;
pub mod classes;
pub mod lexer;
pub mod scan;
pub mod syntax_error;
pub mod token;
pub mod words;
