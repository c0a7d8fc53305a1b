//! Explains texts in memory.
ghost use Rattle.std.specs.Prelude.{◌≡◌, ◌≢◌, ◌≤◌, ◌<◌, IfOk, IsUtf8};
ghost use Rattle.std.specs.String.{string_len};
ghost use Rattle.tk_explain.specs.Answers.{fault_of};
ghost use Rattle.tk_for_c.specs.Explained.{IsExplained, explained, text_kind};
ghost use Rattle.tk_for_c.specs.Outcomes.{with_status};

use crate::answer::{Answer, NO_MEMORY, REFUSED, number, number_of_params};
use crate::hand_out::hand_out;
use std::alloc::{AllocError, Global};
use std::str;
use tk_diagnosis::FileFault;
use tk_explain::{FilePage, file_page, line_page};
use tk_kinds::Kind;

/// The number of a kind of text.
fn number_of(kind: Kind) -> u32
    ensures { result ≡ text_kind kind }
{
    match kind {
        Kind::Problem => 1,
        Kind::Tour => 2,
        Kind::Solution => 3,
        Kind::Parameters => 4,
    }
}

/// The explanation of a text or, if the number is not 0, of one of its lines.
fn page_of(alloc: Global, name: &str, text: &[u8], line: u64) -> Result<FilePage, AllocError>
    ensures fault { IfOk result (λ page. page.fault ≡ fault_of page.kind text.now) }
    ensures words { IfOk result (λ page. 0 < string_len page.text) }
{
    if line == 0 {
        file_page(alloc, name, text)
    } else {
        line_page(alloc, name, text, line)
    }
}

/// The result for a text of this kind with this fault, which is explained in `needed` bytes.
fn answer_of(kind: Kind, fault: Option<FileFault>, needed: usize) -> Answer
    ensures { result ≡ explained kind fault needed }
{
    let text = number_of(kind);
    match fault {
        None => Answer {
            text,
            ..Answer::ended(0, needed)
        },
        Some(FileFault::Text(fault)) => Answer {
            text,
            line: fault.line,
            kind: number(&fault.kind),
            ..Answer::ended(1, needed)
        },
        Some(FileFault::Parameters(fault)) => Answer {
            text,
            line: fault.line,
            kind: number_of_params(&fault.kind),
            ..Answer::ended(1, needed)
        },
    }
}

/// Explains a text, or one of its lines if `line` is not 0, as the program explains a file of this name: `out` gets the
/// explanation. `text` is the kind of the text: 1 for a problem, 2 for a tour, 3 for a solution and 4 for parameters.
/// The status is 1 if the text has a fault. If the name is not UTF-8, the status is 2.
pub fn tourkit_explain(alloc: Global, text: &[u8], name: &[u8], line: u64, out: &mut [u8]) -> Answer
    ensures given { result.status ≤ 1 → IsExplained text.now out.old out.new result }
    ensures known { result.status ≤ 3 }
    ensures failed { 2 ≤ result.status → result ≡ with_status result.status 0 }
    ensures kept { 2 ≤ result.status → out.new ≡ out.old }
    ensures justified { result.status ≡ 2 → IsUtf8 name.now → ⊥ }
    ensures name { result.status ≢ 2 → IsUtf8 name.now }
{
    let Ok(name) = str::from_utf8(name) else {
        return Answer::ended(REFUSED, 0);
    };
    match page_of(alloc, name, text, line) {
        Ok(page) => answer_of(page.kind, page.fault, hand_out(page.text.as_bytes(), out)),
        Err(_) => Answer::ended(NO_MEMORY, 0),
    }
}
