//! Integers and decimals.

use crate::given::expect;
use std::process::Abort;
use tk_text::{TextKind, decimal, integer};

/// Checks that each text is read as this integer, or as none.
fn expect_integers(rt: &impl Abort, rows: &[(&[u8], Option<i64>)]) {
    for (text, want) in rows {
        expect(rt, integer(text) == *want);
    }
}

/// Checks that each text is read as this decimal, in units of 10^-9, or has this fault.
fn expect_decimals(rt: &impl Abort, rows: &[(&[u8], Result<i64, TextKind>)]) {
    for (text, want) in rows {
        expect(rt, text.len() <= 64);
        expect(rt, decimal(text) == *want);
    }
}

/// Integers, and texts that are not integers.
#[test]
fn whole_numbers(rt: HostRuntime) {
    expect_integers(
        &rt,
        &[
            (b"0", Some(0)),
            (b"+7", Some(7)),
            (b"-1", Some(-1)),
            (b"-0", Some(0)),
            (b"007", Some(7)),
            (b"999999999999999999", Some(999999999999999999)),
            (b"-999999999999999999", Some(-999999999999999999)),
            (b"+000000000000000001", Some(1)),
            (b"", None),
            (b"-", None),
            (b"+", None),
            (b"--1", None),
            (b"1000000000000000000", None),
            (b"0000000000000000001", None),
            (b"1.0", None),
            (b"12a", None),
            (b"1/", None),
            (b"1:", None),
        ],
    );
}

/// Decimals with and without a fraction, digits that are dropped, and exponents.
#[test]
fn decimals(rt: HostRuntime) {
    expect_decimals(
        &rt,
        &[
            (b"565", Ok(565_000_000_000)),
            (b"-12.5", Ok(-12_500_000_000)),
            (b"+.5", Ok(500_000_000)),
            (b".5", Ok(500_000_000)),
            (b"5.", Ok(5_000_000_000)),
            (b"000000000000000000001", Ok(1_000_000_000)),
            (
                b"0000000000000000000000000000000000000000000000000000000000000001",
                Ok(1_000_000_000),
            ),
            (b"1000000000", Ok(1_000_000_000_000_000_000)),
            (b"-1000000000.0000000009", Ok(-1_000_000_000_000_000_000)),
            (b"0.0000000019", Ok(1)),
            (b"-0.0000000019", Ok(-1)),
            (b"-0.0000000001", Ok(0)),
            (b"1e-999", Ok(0)),
            (b"1.0e+01", Ok(10_000_000_000)),
            (b"1.23456E4", Ok(12_345_600_000_000)),
            (b"12345e-3", Ok(12_345_000_000)),
            (b"12345e-013", Ok(1)),
            (b"0e999", Ok(0)),
            (b"1e9", Ok(1_000_000_000_000_000_000)),
            (
                b".0000000000000000000000000001e+37",
                Ok(1_000_000_000_000_000_000),
            ),
        ],
    );
}

/// Decimals beyond the limit, and texts that are not decimals.
#[test]
fn no_decimals(rt: HostRuntime) {
    expect_decimals(
        &rt,
        &[
            (b"1e10", Err(TextKind::OutOfLimit)),
            (b"-1e999", Err(TextKind::OutOfLimit)),
            (b"1000000000.000000001", Err(TextKind::OutOfLimit)),
            (
                b"99999999999999999999999999999999",
                Err(TextKind::OutOfLimit),
            ),
            (b"", Err(TextKind::BadNumber)),
            (b".", Err(TextKind::BadNumber)),
            (b"-", Err(TextKind::BadNumber)),
            (b"+-1", Err(TextKind::BadNumber)),
            (b"1.2.3", Err(TextKind::BadNumber)),
            (b"1e", Err(TextKind::BadNumber)),
            (b"1e+", Err(TextKind::BadNumber)),
            (b"1e1000", Err(TextKind::BadNumber)),
            (b"e1", Err(TextKind::BadNumber)),
            (b"1f", Err(TextKind::BadNumber)),
        ],
    );
}
