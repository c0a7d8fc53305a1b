//! Reads the depot of a problem, token by token.
ghost use Rattle.std.specs.Prelude.{◌≡◌, ◌≤◌, ℕ, [], ◌∷◌, length, None, IfOk, IfErr, OnOk, OnErr};
ghost use Rattle.tk_problem_text.specs.Sections.DepotList.{depot_tests};
ghost use Rattle.tk_problem_text.specs.Reader.DepotTaken.{HasDepot, DepotTakes, DepotRefuses};
ghost use Rattle.tk_words.specs.Entry.{IsNumber};
ghost use Rattle.tk_problem_text.specs.Sections.FixedSections.{all_tests};
ghost use Rattle.tk_lines.specs.Reader.Handlers.{whole, IsReportedWord};
ghost use Rattle.tk_words.specs.Lex.{Token};
ghost use Rattle.tk_lines.specs.Pieces.{first_at};
ghost use Rattle.tk_problem_text.specs.Reader.DepotTaken.{RefusesDepot, TakesDepot};

use tk_lines::Taken;
use tk_words::{Entry, Lexeme, TextKind, limited};

/// DEPOT_SECTION: one node, then -1 or the end of the text.
#[derive(Clone, Copy)]
pub struct Depot {
    pub size: u32,
    pub node: Option<u32>,
}

impl Depot {
    /// The section of a problem with n nodes, before its first token.
    pub fn new(n: u32) -> Self
        ensures { HasDepot n result [] }
    {
        Depot {
            size: n,
            node: None,
        }
    }

    /// Takes a token. `BadDepot` if a number is not a node of the problem, or not the only one; `Truncated` for a
    /// keyword where a number is expected; `BadNumber` for any other token. If there is an error, nothing changes.
    pub fn take(&mut self, token: &Lexeme) -> Result<Taken, TextKind>
        requires { length token.now ≤ 64 }
        ensures ok { TakesDepot token.now self.old self.new result }
        ensures err { RefusesDepot token.now self.old result }
        ensures kept { OnErr result (self.new ≡ self.old) }
    {
        match self.node {
            None => {
                let node = first_node(token, self.size)?;
                self.node = Some(node);
                Ok(Taken::More)
            }
            Some(_) => behind_node(token),
        }
    }
}

/// The node that the first token names.
fn first_node(token: &Lexeme, size: u32) -> Result<u32, TextKind>
    ensures node { IfOk result (IsNumber 1 size token.now) }
    ensures ok { (line : ℕ) → OnOk result (first_at line (all_tests (depot_tests size) [] (whole token.now line))
        ≡ None) }
    ensures err { (line : ℕ) → IfErr result (IsReportedWord (DepotRefuses size [] (whole token.now line))) }
{
    match token.entry() {
        Entry::Number(number) => match limited(number, 1, size) {
            Some(node) => Ok(node),
            None => Err(TextKind::BadDepot),
        },
        Entry::Eof | Entry::Word => Err(TextKind::Truncated),
        Entry::Other => Err(TextKind::BadNumber),
    }
}

/// The effect of a token after the node.
fn behind_node(token: &Lexeme) -> Result<Taken, TextKind>
    ensures ok { (n : ℕ) (depot : Depot) (node : Token) (line : ℕ)
        → IfOk result (DepotTakes n depot depot (node ∷ []) (whole token.now line)) }
    ensures err { (n : ℕ) (node : Token) (line : ℕ)
        → IfErr result (IsReportedWord (DepotRefuses n (node ∷ []) (whole token.now line))) }
{
    match token.entry() {
        Entry::Number(number) => {
            if number == -1 {
                return Ok(Taken::Ending);
            }
            Err(TextKind::BadDepot)
        }
        Entry::Eof => Ok(Taken::Eof),
        Entry::Word => Err(TextKind::Truncated),
        Entry::Other => Err(TextKind::BadNumber),
    }
}
