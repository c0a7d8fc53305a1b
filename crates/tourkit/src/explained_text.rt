//! The text of a file that is explained: the whole file, or the part that determines the explanation.
use std::alloc::{AllocError, Global};
use std::io::Read;
use tk_console::input::Input;
use tk_kinds::{Kind, kind_of, last_line};
use tk_lists::{read_solution, read_tour};
use tk_params::{ParamKind, read_params};
use tk_problem::TEXT_LIMIT;
use tk_problem_text::read_problem;
use tk_words::{FromRead, TextFault, TextKind};

/// After this many bytes, and each time that their number has doubled, reading continues only if the explanation
/// depends on further bytes.
const FIRST_LOOK: usize = 1 << 24;

/// All kinds of files.
const KINDS: [Kind; 4] = [Kind::Problem, Kind::Tour, Kind::Solution, Kind::Parameters];

/// Why a file was not read.
#[derive(Drop)]
pub enum ReadFailure {
    /// Reading failed after these bytes.
    Failed(Vec<u8>),
    /// Memory ran out.
    NoMemory,
}

impl From<AllocError> for ReadFailure {
    fn from(_: AllocError) -> ReadFailure {
        ReadFailure::NoMemory
    }
}

/// Reads a file to explain it or one of its lines: up to its end, just beyond the limit of a text, or until no further
/// bytes can change the explanation.
///
/// # Errors
/// `ReadFailure`, as it says.
pub fn read_explained(
    alloc: Global,
    name: &str,
    line: Option<u64>,
    input: &mut Input,
) -> Result<Vec<u8>, ReadFailure> {
    let mut text = Vec::new(alloc);
    let mut buf = [0; 8192];
    let mut look = FIRST_LOOK;
    for _ in 0..u64::MAX {
        let piece = match input.read(&mut buf) {
            Ok(count) => &buf[..count],
            Err(_) => return Err(ReadFailure::Failed(text)),
        };
        if piece.is_empty() || text.len() as u64 > TEXT_LIMIT {
            return Ok(text);
        }
        text.extend_from_slice(piece)?;
        if text.len() >= look {
            if is_decided(alloc, name, line, &text)? {
                return Ok(text);
            }
            look = look.saturating_mul(2);
        }
    }
    Ok(text)
}

/// Whether no further bytes can change the explanation of a file, or of one of its lines. For a line, the readers of
/// all kinds of files must have stopped, and the line must be complete, or the last line longer than half of the bytes.
fn is_decided(
    alloc: Global,
    name: &str,
    line: Option<u64>,
    text: &[u8],
) -> Result<bool, AllocError> {
    let Some(number) = line else {
        return stops_within(alloc, kind_of(text, name), text);
    };
    for kind in KINDS.iter() {
        if !stops_within(alloc, *kind, text)? {
            return Ok(false);
        }
    }
    Ok(number < last_line(text) || !text[text.len() / 2..].contains(&b'\n'))
}

/// Whether the reader of a kind of file stops before the end of a text. If so, it returns the same for every text that
/// begins with this one.
fn stops_within(alloc: Global, kind: Kind, text: &[u8]) -> Result<bool, AllocError> {
    let mut source = FromRead::new(text);
    let had_memory = match kind {
        Kind::Problem => has_memory(read_problem(alloc, &mut source)),
        Kind::Tour => has_memory(read_tour(alloc, &mut source)),
        Kind::Solution => has_memory(read_solution(alloc, &mut source)),
        Kind::Parameters => match read_params(alloc, &mut source) {
            Err(fault) => fault.kind != ParamKind::NoMemory,
            Ok(_) => true,
        },
    };
    if had_memory {
        Ok(!source.inner.is_empty())
    } else {
        Err(AllocError)
    }
}

/// Whether a reader had enough memory.
fn has_memory<T: Drop>(read: Result<T, TextFault>) -> bool {
    match read {
        Err(fault) => fault.kind != TextKind::NoMemory,
        Ok(_) => true,
    }
}
