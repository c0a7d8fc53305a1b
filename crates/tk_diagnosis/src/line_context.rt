//! The line of a fault, and its diagnosis.
use crate::sentence::Sentence;
use std::alloc::Global;
use tk_kinds::{Kind, line_at};

/// A line of a file, which is read as a file of this kind.
#[derive(Clone, Copy)]
pub struct LineContext<'a> {
    pub alloc: Global,
    pub kind: Kind,
    pub text: &'a [u8],
    pub number: u64,
    pub line: &'a [u8],
}

impl<'a> LineContext<'a> {
    /// The line with this number. It is empty if the file has no such line.
    pub fn new(alloc: Global, kind: Kind, text: &'a [u8], number: u64) -> LineContext<'a> {
        LineContext {
            alloc,
            kind,
            text,
            number,
            line: line_at(text, number).unwrap_or(b"".as_slice()),
        }
    }
}

/// The diagnosis of a fault: what was expected at its line, what was found there, and what to do. Without a remedy, the
/// table of faults says what to do.
#[derive(Clone, Copy)]
pub struct Diagnosis {
    pub wanted: Sentence,
    pub read: Sentence,
    pub remedy: Option<Sentence>,
    /// Another line that is related to the fault.
    pub other: Option<u64>,
}

impl Diagnosis {
    /// A diagnosis without a remedy.
    pub fn new(wanted: Sentence, read: Sentence) -> Diagnosis {
        Diagnosis {
            wanted,
            read,
            remedy: None,
            other: None,
        }
    }

    /// A diagnosis whose expectation and remedy have no values.
    pub fn advised(wanted: &'static str, read: Sentence, remedy: &'static str) -> Diagnosis {
        Diagnosis {
            wanted: Sentence::of(wanted),
            read,
            remedy: Some(Sentence::of(remedy)),
            other: None,
        }
    }

    /// The diagnosis with this remedy.
    pub fn with(self, remedy: Sentence) -> Diagnosis {
        Diagnosis {
            remedy: Some(remedy),
            ..self
        }
    }

    /// The diagnosis with this remedy, which has no values.
    pub fn advice(self, remedy: &'static str) -> Diagnosis {
        self.with(Sentence::of(remedy))
    }
}
