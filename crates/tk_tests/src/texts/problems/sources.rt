//! Problem texts from sources that fail.

use crate::given::expect;
use crate::texts::problems::read_both_ways::{fault, read_dripping};
use std::alloc::Global;
use tk_text::{TextFault, TextKind};

const TEXT: &[u8] =
    b"NAME : p\nTYPE : TSP\nDIMENSION : 3\nEDGE_WEIGHT_TYPE : EUC_2D\nNODE_COORD_SECTION\n1 0 0\n2 3 0\n3 0 4\nEOF\n";

/// Whether a text has this fault, or none, if it is read byte by byte from a source that fails after its last byte.
fn is_read_so(alloc: Global, text: &[u8], wanted: Option<TextFault>) -> bool {
    read_dripping(alloc, text, true).err() == wanted
}

/// Whether the fault of a text is the failure of its source, if it is read like that.
fn is_failed_read(alloc: Global, text: &[u8]) -> bool {
    match read_dripping(alloc, text, true).err() {
        Some(fault) => fault.kind == TextKind::Read,
        None => false,
    }
}

/// A source is not read past the bytes that decide the answer.
#[test]
fn failing_sources(rt: HostRuntime) {
    let a = rt.alloc();
    for end in 0..TEXT.len() {
        expect(&rt, is_failed_read(a, &TEXT[..end]));
    }
    expect(&rt, is_read_so(a, TEXT, None));
    expect(&rt, is_read_so(a, &TEXT[..100], fault(9, TextKind::Read)));
    expect(
        &rt,
        is_read_so(a, b"FOO\n", fault(1, TextKind::UnknownKeyword)),
    );
    expect(&rt, is_read_so(a, b"FOO", fault(1, TextKind::Read)));
}
