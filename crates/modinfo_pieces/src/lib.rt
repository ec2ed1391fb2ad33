//! The pieces of a text, side by side: white space, comments, words, strings, parts of templates, regular
//! expressions, text and strings of JSX, and single bytes of punctuation. And where its comments are filed.
#![tactic(auto)]

pub mod befores;
pub mod bytes;
pub mod choice;
pub mod classes;
pub mod ends;
pub mod filed;
pub mod filing;
pub mod kinds;
pub mod openings;
pub mod piece;
pub mod place;
pub mod places;
pub mod scan;
pub mod trails;
pub mod word_classes;
