//! Bytes of a file, as an explanation shows them.
use std::fmt;

/// Maximum number of bytes of a line that are shown.
const LINE_WIDTH: usize = 76;

/// Maximum number of bytes of a word that are shown.
const WORD_WIDTH: usize = 40;

/// A line without blanks at its end, which is shown up to `LINE_WIDTH` bytes.
#[derive(Clone, Copy)]
pub struct ShownLine<'a> {
    line: &'a [u8],
}

/// A line as it is shown.
pub fn shown_line(line: &[u8]) -> ShownLine<'_> {
    ShownLine {
        line: line.trim_ascii_end(),
    }
}

impl fmt::Display for ShownLine<'_> {
    fn fmt<W: fmt::Write>(&self, f: &mut fmt::Formatter<W>) -> fmt::Result {
        write_cut(f, self.line, LINE_WIDTH)
    }
}

/// The first bytes of a word or a value of a file: as many as are shown, and one more if there are more. It is a copy,
/// so a sentence does not borrow the file.
#[derive(Clone, Copy)]
pub struct ShownWord {
    bytes: [u8; WORD_WIDTH + 1],
    length: usize,
}

impl ShownWord {
    /// A word as it is shown.
    pub fn of(word: &[u8]) -> ShownWord {
        let mut bytes = [0; WORD_WIDTH + 1];
        let mut length = 0;
        for byte in word {
            let Some(place) = bytes.get_mut(length) else {
                break;
            };
            *place = *byte;
            length = length.saturating_add(1);
        }
        ShownWord { bytes, length }
    }
}

impl fmt::Display for ShownWord {
    fn fmt<W: fmt::Write>(&self, f: &mut fmt::Formatter<W>) -> fmt::Result {
        let word = self.bytes.get(..self.length).unwrap_or(&self.bytes);
        write_cut(f, word, WORD_WIDTH)
    }
}

/// Writes at most this many bytes, with two dots after them if there are more.
fn write_cut<W: fmt::Write>(f: &mut fmt::Formatter<W>, bytes: &[u8], width: usize) -> fmt::Result {
    let shown = bytes.get(..width).unwrap_or(bytes);
    for byte in shown {
        write_byte(f, *byte)?;
    }
    if shown.len() < bytes.len() {
        f.write_str("..")?;
    }
    Ok(())
}

/// Writes a byte: a printable ASCII character as it is, a tab as a blank, and any other byte as its number.
fn write_byte<W: fmt::Write>(f: &mut fmt::Formatter<W>, byte: u8) -> fmt::Result {
    if byte == b' ' || byte == b'\t' {
        f.write_char(' ')
    } else if byte.is_ascii_graphic() {
        f.write_char(char::from(byte))
    } else {
        write!(f, "\\x{byte:02x}")
    }
}
