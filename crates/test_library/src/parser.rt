//! Tests of parsers, stores and capturing analyzers. In `out_of_memory` a parser or a store returns an
//! error.

mod boxed;
mod capturing;
mod commands;
mod copies;
mod failing;
mod out_of_memory;
mod recording;
mod source_parser;
mod sources;
