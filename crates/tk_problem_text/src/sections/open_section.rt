//! The section of a problem that is being read.
ghost use Rattle.std.specs.Prelude.{◌≡◌, ◌≤◌, ◌-◌, ◌==◌, true, false, length, if◌then◌else◌, OnErr};
ghost use Rattle.tk_words.specs.Entry.{is_keyword};
ghost use Rattle.tk_problem_text.specs.Reader.OpenSections.{IsCounted, IsCutShort, MayEnd, RefusesOpen, TakesOpen};

use crate::sections::coordinates::Coordinates;
use crate::sections::demands::Demands;
use crate::sections::depot::Depot;
use crate::sections::explicit_weights::ExplicitWeights;
use tk_lines::Taken;
use tk_words::{Lexeme, TextKind};

/// The section that is being read.
#[derive(Drop)]
pub enum OpenSection {
    /// No section.
    Nothing,
    /// NODE_COORD_SECTION.
    Places(Coordinates),
    /// EDGE_WEIGHT_SECTION.
    Explicit(ExplicitWeights),
    /// DEMAND_SECTION.
    Loads(Demands),
    /// DEPOT_SECTION.
    Home(Depot),
    /// DISPLAY_DATA_SECTION, with the number of tokens that are still to come.
    Display(u32),
}

impl OpenSection {
    /// Takes a token. If there is an error, nothing changes.
    ///
    /// # Errors
    /// The fault of the token in this section.
    #[inline(always)]
    pub fn take(&mut self, token: &Lexeme) -> Result<Taken, TextKind>
        requires { length token.now ≤ 64 }
        ensures ok { TakesOpen token.now self.old self.new result }
        ensures err { RefusesOpen token.now self.old result }
        ensures kept { OnErr result (self.new ≡ self.old) }
    {
        if let OpenSection::Home(section) = self {
            return section.take(token);
        }
        if token.keyword().is_some() {
            return Err(TextKind::Truncated);
        }
        self.take_number(token)
    }

    /// Takes a token that is not a keyword, in a section with a fixed number of tokens.
    #[inline(always)]
    fn take_number(&mut self, token: &Lexeme) -> Result<Taken, TextKind>
        requires { length token.now ≤ 64 }
        ensures ok { IsCounted self.old → is_keyword token.now ≡ false → TakesOpen token.now self.old self.new result }
        ensures err { IsCounted self.old → is_keyword token.now ≡ false → RefusesOpen token.now self.old result }
        ensures kept { OnErr result (self.new ≡ self.old) }
    {
        match self {
            OpenSection::Nothing | OpenSection::Home(_) => Ok(Taken::More),
            OpenSection::Places(section) => section.take(token),
            OpenSection::Explicit(section) => section.take(token),
            OpenSection::Loads(section) => section.take(token),
            OpenSection::Display(left) => Ok(count(left)),
        }
    }

    /// Whether the text is allowed to end after the tokens that were taken, which is so only after a depot.
    pub fn may_end(&self) -> bool
        ensures yes { result ≡ true → MayEnd self.now }
        ensures no { result ≡ false → IsCutShort self.now }
    {
        match self {
            OpenSection::Home(section) => section.node.is_some(),
            _ => false,
        }
    }
}

/// Counts a token down, and returns whether it was the last one.
fn count(left: &mut u32) -> Taken
    ensures last { result ≡ (if left.new == 0 then Taken.Last else Taken.More) }
    ensures fewer { left.new ≡ left.old - 1 }
{
    *left = left.saturating_sub(1);
    if *left == 0 {
        return Taken::Last;
    }
    Taken::More
}
