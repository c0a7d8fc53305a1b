//! Writes names of problems in XML and HTML texts.
ghost use Rattle.std.specs.Prelude.{◌≡◌, flat_map};
ghost use Rattle.std.specs.Str.{chars};
ghost use Rattle.tk_writers.specs.Pens.{Puts};
ghost use Rattle.tk_picture.specs.Names.{is_plain, shown_byte, shown_name, shown_unmarked};

use tk_writers::{Pen, Sink};

/// Whether a character of a name is written as it is. It must not be a control character or a bidirectional control
/// (U+202A to U+202E, U+2066 to U+2069), and XML must allow it.
fn is_plain(c: char) -> bool
    ensures { result ≡ is_plain c }
{
    matches!(
        c,
        ' '..='~'
            | '\u{a0}'..='\u{2029}'
            | '\u{202f}'..='\u{2065}'
            | '\u{206a}'..='\u{fffd}'
            | '\u{10000}'..
    )
}

/// Writes a character that is not one of the four of markup, or `?` if it is not plain.
fn put_unmarked<W: Sink>(pen: &mut Pen<'_, W>, c: char)
    ensures { Puts W.Sink pen.old pen.new (shown_unmarked c) }
{
    if is_plain(c) {
        pen.put(c.encode_utf8(&mut [0; 4]).as_bytes());
    } else {
        pen.put(b"?");
    }
}

/// Writes a character of a name: the four of markup as references, and those that are not plain as `?`.
fn put_char<W: Sink>(pen: &mut Pen<'_, W>, c: char)
    ensures { Puts W.Sink pen.old pen.new (shown_byte c) }
{
    match c {
        '&' => pen.put(b"&amp;"),
        '<' => pen.put(b"&lt;"),
        '>' => pen.put(b"&gt;"),
        '"' => pen.put(b"&quot;"),
        _ => put_unmarked(pen, c),
    }
}

/// Writes a text, character by character.
fn put_text<W: Sink>(pen: &mut Pen<'_, W>, text: &str)
    ensures { Puts W.Sink pen.old pen.new (flat_map shown_byte (chars text.now)) }
{
    for c in text.chars() {
        put_char(pen, c);
    }
}

/// Writes a name. Each sequence of bytes that is not UTF-8 is written as U+FFFD.
pub(crate) fn put_name<W: Sink>(pen: &mut Pen<'_, W>, name: &[u8])
    ensures { Puts W.Sink pen.old pen.new (shown_name name.now) }
{
    for chunk in name.utf8_chunks() {
        put_text(pen, chunk.valid());
        if !chunk.invalid().is_empty() {
            pen.put("\u{fffd}".as_bytes());
        }
    }
}
