//! The grammar of ECMAScript (<https://tc39.es/ecma262/>), of JSX (<https://facebook.github.io/jsx/>) and of
//! TypeScript. Each function reads what its name says from the current token on, and leaves the token after
//! it current. `depth` is how much deeper the text may nest.

mod arguments;
mod arrows;
mod bindings;
mod classes;
mod declarations;
mod exports;
mod expressions;
mod functions;
mod import_calls;
mod imports;
mod jsx;
mod loops;
mod members;
mod modifiers;
mod names;
mod objects;
mod parentheses;
mod primary;
mod program;
mod specifiers;
mod statements;
mod subscripts;
mod sums;
mod templates;
mod type_arguments;
mod type_members;
mod type_names;
mod types;
mod typescript;
