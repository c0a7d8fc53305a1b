//! Reads the coordinates of a problem, token by token.
ghost use Rattle.std.specs.Prelude.{◌≡◌, ◌*◌, ◌<◌, ◌≤◌, ℕ, List, [], length, IfOk, IfErr};
ghost use Rattle.std.specs.Prelude.{OnErr};
ghost use Rattle.tk_words.specs.Lex.{Token};
ghost use Rattle.tk_problem_text.specs.Sections.Rows.{place_tests, row_places};
ghost use Rattle.tk_problem_text.specs.Reader.FixedTokens.{RefusesFixed, TakesFixed};

use crate::sections::nodes::Nodes;
use std::alloc::Global;
use std::marker::Model;
use tk_lines::Taken;
use tk_problem::{Point, Points};
use tk_words::{Lexeme, TextKind};

/// The meaning of the next token in a row of coordinates.
#[derive(Clone, Copy)]
enum Wanted {
    Node,
    X { index: usize },
    Y { index: usize, x: i64 },
}

/// NODE_COORD_SECTION: a row with a node, x and y for each of n nodes.
#[derive(Drop)]
pub struct Coordinates {
    places: Points,
    nodes: Nodes,
    wanted: Wanted,
}

impl Model for Coordinates {
    ghost use Rattle.tk_problem_text.specs.Reader.Coordinates.{Placing, IsPlacing};

    ghost Value = { Placing };

    ghost view = { λ s. record { places = s.places; nodes = s.nodes; wanted = s.wanted } };

    ghost invariant = { λ s. IsPlacing s.places s.nodes s.wanted };
}

impl Coordinates {
    ghost use Rattle.tk_problem_text.specs.Reader.Coordinates.{HasPlaces};

    /// The section of n nodes, before its first token.
    ///
    /// # Errors
    /// `NoMemory` if memory runs out.
    pub fn new(alloc: Global, n: u32) -> Result<Self, TextKind>
        ensures ok { IfOk result (λ s. HasPlaces n s []) }
        ensures err { IfErr result (λ k. k ≡ TextKind.NoMemory) }
    {
        match Points::at_origin(alloc, n as usize) {
            Ok(places) => Ok(Coordinates {
                places,
                nodes: Nodes::new(alloc, n)?,
                wanted: Wanted::Node,
            }),
            Err(_) => Err(TextKind::NoMemory),
        }
    }

    /// Takes a token. If there is an error, nothing changes.
    pub fn take(&mut self, token: &Lexeme) -> Result<Taken, TextKind>
        requires { length token.now ≤ 64 }
        ensures ok { (n : ℕ) → TakesFixed (HasPlaces n) (place_tests n) (3 * n) token.now self.old self.new result }
        ensures err { (n : ℕ) → RefusesFixed (HasPlaces n) (place_tests n) token.now self.old result }
        ensures kept { OnErr result (self.new ≡ self.old) }
    {
        match self.wanted {
            Wanted::Node => {
                let index = self.nodes.name(token)?;
                self.wanted = Wanted::X { index };
            }
            Wanted::X { index } => {
                let x = token.decimal()?;
                self.wanted = Wanted::Y { index, x };
            }
            Wanted::Y { index, x } => {
                let y = token.decimal()?;
                if self.places.set(index, Point { x, y }).is_err() {
                    return Err(TextKind::NoMemory);
                }
                self.wanted = Wanted::Node;
                if self.nodes.are_all() {
                    return Ok(Taken::Last);
                }
            }
        }
        Ok(Taken::More)
    }

    /// The coordinates of the nodes, in the order of their numbers.
    pub fn into_places(self) -> Points
        ensures { (n : ℕ) (toks : List Token) → HasPlaces n self toks → length toks ≡ 3 * n
            → result ≡ row_places n toks }
    {
        self.places
    }
}
