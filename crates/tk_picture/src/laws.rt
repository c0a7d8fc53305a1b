//! Laws of the texts that are written, as contracts of functions that do nothing.
ghost use Rattle.std.specs.Prelude.{All};
ghost use Rattle.tk_picture.specs.Names.{IsNoMarkup, shown_name};

/// A law: no byte of a name, as pictures and pages show it, can begin or end a tag or end an attribute. Therefore, a
/// name stays text.
pub fn names_stay_text(name: &[u8])
    ensures { All IsNoMarkup (shown_name name.now) }
{}
