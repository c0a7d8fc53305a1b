//! The names of nodes, from a CSV file.
ghost use Rattle.std.specs.Prelude.{◌≤◌, IfOk, length};
ghost use Rattle.tk_problem.specs.declared.limits.TheConstants.{CITY_LIMIT};

use crate::input::{Input, open};
use crate::refusal::{Reason, Refusal};
use csv::{ByteRecord, Error, ErrorKind, Reader, ReaderBuilder, Trim};
use std::alloc::{AllocError, Global};
use std::fmt;
use std::io::Read;
use tk_picture::{NAME_LIMIT, NodeName};
use tk_problem::CITY_LIMIT;

/// The column with the names.
const COLUMN: &[u8] = b"name";

/// A file of names has fewer bytes than this.
const LIMIT: u64 = 100_000_000;

/// Why a file of names is rejected.
#[derive(Clone, Copy)]
pub enum NamesFault {
    /// A read failed.
    Read,
    /// The first row has no field `name`.
    NoColumn,
    /// The name of this node has more than 1,024 bytes.
    LongName(u64),
    /// There are more than 100,000 names, or the file is too long.
    TooLong,
    /// There is not one name for each of this many nodes.
    WrongCount(u32),
    /// Memory ran out.
    NoMemory,
}

impl fmt::Display for NamesFault {
    fn fmt<W: fmt::Write>(&self, f: &mut fmt::Formatter<W>) -> fmt::Result {
        match self {
            NamesFault::Read => f.write_str("cannot be read"),
            NamesFault::NoColumn => f.write_str("the first row has no column 'name'"),
            NamesFault::LongName(node) => write!(f, "the name of node {node} is too long"),
            NamesFault::TooLong => f.write_str("too many names"),
            NamesFault::WrongCount(nodes) => {
                write!(
                    f,
                    "the problem has {nodes} nodes, which is not the number of names"
                )
            }
            NamesFault::NoMemory => f.write_str("out of memory"),
        }
    }
}

impl From<AllocError> for NamesFault {
    fn from(_: AllocError) -> NamesFault {
        NamesFault::NoMemory
    }
}

impl From<Error> for NamesFault {
    fn from(error: Error) -> NamesFault {
        match error.kind() {
            ErrorKind::OutOfMemory => NamesFault::NoMemory,
            _ => NamesFault::Read,
        }
    }
}

/// The names in the column `name` of a CSV file, whose first row names the columns. A row without this column has an
/// empty name.
///
/// # Errors
/// Why there are no names.
pub fn names_in<'a>(rt: &HostRuntime, file: &'a str) -> Result<Vec<NodeName>, Refusal<'a>>
    ensures few { IfOk result (λ names. length names.items ≤ CITY_LIMIT) }
{
    let input = open(rt, file)?;
    match read_names(rt.alloc(), input) {
        Ok(names) => Ok(names),
        Err(NamesFault::NoMemory) => Err(Reason::NoMemory.alone()),
        Err(fault) => Err(Reason::Names(fault).about(file)),
    }
}

/// Reads the names.
fn read_names(alloc: Global, input: Input) -> Result<Vec<NodeName>, NamesFault>
    ensures few { IfOk result (λ names. length names.items ≤ CITY_LIMIT) }
{
    let mut rows = ReaderBuilder::new()
        .has_headers(false)
        .flexible(true)
        .trim(Trim::All)
        .from_reader(alloc, input.take(LIMIT));
    let names = names_below(alloc, &mut rows)?;
    if rows.get_ref().limit() == 0 || names.len() > CITY_LIMIT as usize {
        return Err(NamesFault::TooLong);
    }
    Ok(names)
}

/// The names of at most one node more than a problem can have, from the rows below the first.
fn names_below<R: Read>(alloc: Global, rows: &mut Reader<R>) -> Result<Vec<NodeName>, NamesFault> {
    let mut row = ByteRecord::new(alloc);
    rows.read_byte_record(&mut row)?;
    let column = column_in(&row)?;
    let mut names = Vec::new(alloc);
    for node in 1..=CITY_LIMIT as u64 + 1 {
        if !rows.read_byte_record(&mut row)? {
            break;
        }
        if names.push(name_in(alloc, &row, column, node)?).is_err() {
            return Err(NamesFault::NoMemory);
        }
    }
    Ok(names)
}

/// The index of the column with the names.
fn column_in(row: &ByteRecord) -> Result<usize, NamesFault> {
    for index in 0..row.len() {
        if row.get(index) == Some(COLUMN) {
            return Ok(index);
        }
    }
    Err(NamesFault::NoColumn)
}

/// The name of a node, in its row.
fn name_in(
    alloc: Global,
    row: &ByteRecord,
    column: usize,
    node: u64,
) -> Result<NodeName, NamesFault> {
    let bytes = row.get(column).unwrap_or(b"");
    if bytes.len() > NAME_LIMIT {
        return Err(NamesFault::LongName(node));
    }
    let mut text = Vec::new(alloc);
    text.extend_from_slice(bytes)?;
    Ok(NodeName { text })
}
