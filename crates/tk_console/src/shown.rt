//! File names as messages show them.
use std::fmt;
use std::io::IsTerminal;

/// A file name in a message of one line.
#[derive(Clone, Copy)]
pub struct ShownName<'a> {
    name: &'a str,
    on_terminal: bool,
}

/// A name as standard error shows it. On a terminal, all control characters are escaped, since they could change its
/// title or its colours; otherwise only line feeds and carriage returns. An escape is `\x` and two hexadecimal digits
/// for each byte.
pub fn shown_name<'a>(rt: &HostRuntime, name: &'a str) -> ShownName<'a> {
    ShownName {
        name,
        on_terminal: rt.stderr().is_terminal(),
    }
}

/// A name as standard output shows it, with escapes by the same rules.
pub fn shown_on_output<'a>(rt: &HostRuntime, name: &'a str) -> ShownName<'a> {
    ShownName {
        name,
        on_terminal: rt.stdout().is_terminal(),
    }
}

impl fmt::Display for ShownName<'_> {
    fn fmt<W: fmt::Write>(&self, f: &mut fmt::Formatter<W>) -> fmt::Result {
        for character in self.name.chars() {
            if is_escaped(character, self.on_terminal) {
                write_bytes(f, character)?;
            } else {
                f.write_char(character)?;
            }
        }
        Ok(())
    }
}

/// Whether a character is escaped.
fn is_escaped(character: char, on_terminal: bool) -> bool {
    match character {
        '\n' | '\r' => true,
        _ => on_terminal && character.is_control(),
    }
}

/// Writes the escapes of the bytes of a character.
fn write_bytes<W: fmt::Write>(f: &mut fmt::Formatter<W>, character: char) -> fmt::Result {
    for byte in character.encode_utf8(&mut [0; 4]).bytes() {
        write!(f, "\\x{byte:02x}")?;
    }
    Ok(())
}
