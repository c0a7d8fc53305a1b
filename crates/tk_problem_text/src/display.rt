//! The display data of a problem that have been read.
ghost use Rattle.std.specs.Prelude.{◌≡◌, ◌*◌, ℕ, List, length};
ghost use Rattle.tk_words.specs.Lex.{Token};
ghost use Rattle.tk_problem_text.specs.Reader.Coordinates.{HasPlaces, Placing};
ghost use Rattle.tk_problem_text.specs.Sections.Rows.{row_places};
ghost use Rattle.tk_problem_text.specs.declared.display.Display.TheVariants as displays;

use crate::sections::coordinates::Coordinates;
use tk_problem::Points;

/// What has been read of the display data of a problem.
#[derive(Drop)]
pub enum Display {
    /// Nothing: there is no such section, or its values are ignored.
    Unread,
    /// The section that is being read.
    Open(Coordinates),
    /// The coordinates of all nodes.
    Read(Points),
}

impl Display {
    /// The coordinates of the section that was being read, after its last token.
    pub fn closed(self) -> Display
        ensures { (section : Placing) (n : ℕ) (toks : List Token) → self ≡ displays.Open section
            → HasPlaces n section toks → length toks ≡ 3 * n → result ≡ displays.Read (row_places n toks) }
    {
        match self {
            Display::Open(section) => Display::Read(section.into_places()),
            other => other,
        }
    }
}
