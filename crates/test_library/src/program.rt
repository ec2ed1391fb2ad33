//! Tests of the analysis and of the program: descriptors field by field, a walk step by step, readers
//! and writers that fail, and faults by the errors of the libraries.

mod descriptors;
mod documents;
mod faults;
mod lines;
mod members;
mod steps;
mod streams;
