//! The name of each fault of the program, from each error of a library.

use deno_graph_info::analysis::{ConvertFault, InfoFault};
use deno_graph_json::{Expected, Mismatch, TapeError};
use deno_graph_source::tree::SourceFault;
use deno_graph_source::values::Items;
use modinfo::Fault;
use modinfo::document::DocumentError;
use std::alloc::{AllocError, AllocFailed};
use std::process::Abort;

fn assert_names(rt: &(impl AllocGlobal + Abort), faults: &[(Fault, &str)]) {
    for (fault, name) in faults {
        let printed = format!(in rt.alloc(); "{fault}").expect(rt, "memory");
        assert_eq!(rt; printed.as_str(), *name);
    }
}

#[test]
fn faults_of_a_document(rt: HostRuntime) {
    let mismatch = Mismatch {
        path: Items::new(rt.alloc()),
        expected: Expected::Object,
    };
    assert_names(
        &rt,
        &[
            (Fault::from(DocumentError::Json { offset: 0 }), "Json"),
            (Fault::from(DocumentError::Tree(mismatch)), "Tree"),
            (Fault::from(DocumentError::Specifier), "Specifier"),
            (Fault::from(DocumentError::OutOfMemory), "OutOfMemory"),
        ],
    );
}

#[test]
fn faults_of_a_source(rt: HostRuntime) {
    let faults = [
        (SourceFault::RangeReversed, "RangeReversed"),
        (SourceFault::RangeOutside, "RangeOutside"),
        (SourceFault::RangeOffBoundary, "RangeOffBoundary"),
        (SourceFault::CommentText, "CommentText"),
        (SourceFault::CommentsOverlap, "CommentsOverlap"),
        (SourceFault::Shape, "Shape"),
        (SourceFault::OutOfMemory, "OutOfMemory"),
    ];
    for (fault, name) in faults {
        assert_names(&rt, &[(Fault::from(DocumentError::from(fault)), name)]);
    }
}

#[test]
fn faults_of_stored_information(rt: HostRuntime) {
    assert_names(
        &rt,
        &[
            (Fault::from(ConvertFault::ColumnOverflow), "ColumnOverflow"),
            (Fault::from(ConvertFault::Float), "Float"),
            (Fault::from(ConvertFault::OutOfMemory), "OutOfMemory"),
            (Fault::Info(InfoFault::Shape), "Shape"),
            (Fault::Info(InfoFault::Float), "Float"),
        ],
    );
}

#[test]
fn faults_of_json_and_of_memory(rt: HostRuntime) {
    assert_names(
        &rt,
        &[
            (Fault::from(TapeError::Json { offset: 0 }), "Json"),
            (Fault::from(TapeError::OutOfMemory), "OutOfMemory"),
            (Fault::from(AllocError), "OutOfMemory"),
            (Fault::from(AllocFailed { value: 1u8 }), "OutOfMemory"),
        ],
    );
}
