//! Files that are not texts that tourkit can read, whatever their contents.
ghost use Rattle.std.specs.Prelude.{◌≡◌};
ghost use Rattle.tk_kinds.specs.Foreign.{foreign_of};
ghost use Rattle.tk_kinds.specs.Wrappings as Files;

use crate::foreign::{Foreign, foreign_of};

/// Why a file is not a text that can be read.
#[derive(Clone, Copy)]
pub enum Wrapping {
    /// Compressed by gzip.
    Gzip,
    /// UTF-16, recognized by its byte order mark.
    Utf16,
    /// A byte order mark before a text in UTF-8.
    Mark,
    /// NUL bytes, which no text contains.
    Binary,
    /// The format of another program.
    Foreign(Foreign),
}

/// Why a file is not a text that can be read, if the line with this number shows it: the first line by its first bytes,
/// any line by a NUL byte, and the first two lines by the format of another program.
pub fn wrapping_of(text: &[u8], number: u64, line: &[u8]) -> Option<Wrapping>
    ensures { result ≡ Files.wrapping_of text.now number line.now }
{
    if number == 1 {
        if let Some(wrapping) = begun_by(text) {
            return Some(wrapping);
        }
    }
    if line.contains(&0) {
        return Some(Wrapping::Binary);
    }
    if number <= 2 {
        return in_foreign(text);
    }
    None
}

/// Why a file is not a text that can be read, if its first bytes show it.
fn begun_by(text: &[u8]) -> Option<Wrapping>
    ensures { result ≡ Files.begun_by text.now }
{
    if text.starts_with(b"\x1f\x8b") {
        Some(Wrapping::Gzip)
    } else if text.starts_with(b"\xef\xbb\xbf") {
        Some(Wrapping::Mark)
    } else if text.starts_with(b"\xff\xfe") || text.starts_with(b"\xfe\xff") {
        Some(Wrapping::Utf16)
    } else {
        None
    }
}

/// The format of another program, if a file has one.
fn in_foreign(text: &[u8]) -> Option<Wrapping>
    ensures { result ≡ Files.in_foreign (foreign_of text.now) }
{
    match foreign_of(text) {
        Some(foreign) => Some(Wrapping::Foreign(foreign)),
        None => None,
    }
}
