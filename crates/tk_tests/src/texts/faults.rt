//! The messages of faults.

use crate::given::expect;
use std::alloc::Global;
use std::process::Abort;
use tk_text::{Keyword, TextFault, TextKind};

/// Checks that a fault of each kind on line 7 has the message next to the kind.
fn expect_messages(rt: &impl Abort, alloc: Global, rows: &[(TextKind, &str)]) {
    for (kind, message) in rows {
        let fault = TextFault {
            line: 7,
            kind: *kind,
        };
        let reported = format!(in alloc; "{fault}").expect(rt, "memory for a line");
        expect(rt, reported.as_str() == *message);
    }
}

#[test]
fn tells_the_line_the_number_the_name_and_the_values(rt: HostRuntime) {
    expect_messages(
        &rt,
        rt.alloc(),
        &[
            (TextKind::UnknownKeyword, "7: 1 UnknownKeyword"),
            (
                TextKind::Missing(Keyword::Capacity),
                "7: 3 Missing CAPACITY",
            ),
            (TextKind::Unsupported, "7: 4 Unsupported"),
            (TextKind::NotSymmetric(1, 2), "7: 8 NotSymmetric 1 2"),
            (
                TextKind::DemandOverCapacity(2),
                "7: 12 DemandOverCapacity 2",
            ),
            (TextKind::NoMemory, "7: 15 NoMemory"),
        ],
    );
}
