//! Writes the names of the nodes of a page, as lines for its script.
ghost use Rattle.tk_writers.specs.Pens.{Puts};
ghost use Rattle.tk_picture.specs.PageText.{name_lines, names_block};

use crate::name::put_name;
use crate::node_names::{NodeName, NodeNames};
use tk_writers::{Pen, Sink};

/// Writes each name as a line.
fn put_name_lines<W: Sink>(pen: &mut Pen<'_, W>, names: &[NodeName])
    ensures { Puts W.Sink pen.old pen.new (name_lines names.now) }
{
    for name in names {
        put_name(pen, &name.text);
        pen.put(b"\n");
    }
}

/// Writes the names of a page, if it has some.
pub(crate) fn put_names<W: Sink>(pen: &mut Pen<'_, W>, names: &NodeNames<'_>)
    ensures { Puts W.Sink pen.old pen.new (names_block names.now.list.now) }
{
    if names.list.is_empty() {
        return;
    }
    pen.put(b"<pre id=\"names\" hidden>\n");
    put_name_lines(pen, names.list);
    pen.put(b"</pre>\n");
}
