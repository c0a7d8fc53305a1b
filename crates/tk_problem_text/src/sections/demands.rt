//! Reads the demands of a problem, token by token.
ghost use Rattle.std.specs.Prelude.{◌≡◌, ◌*◌, ◌<◌, ℕ, List, [], length, None, Some, IfOk, IfErr, OnErr};
ghost use Rattle.tk_words.specs.Lex.{Token};
ghost use Rattle.tk_problem_text.specs.Sections.Rows.{demand_tests, demands_of};
ghost use Rattle.tk_problem_text.specs.Reader.FixedTokens.{TakesFixed};
ghost use Rattle.tk_problem_text.specs.Reader.Demands.{RefusesDemand};

use crate::sections::nodes::Nodes;
use crate::sections::within::number_of;
use std::alloc::Global;
use std::marker::Model;
use tk_lines::Taken;
use tk_problem::CAPACITY_LIMIT;
use tk_words::{Lexeme, TextKind};

/// DEMAND_SECTION: a row with a node and its demand for each of n nodes.
#[derive(Drop)]
pub struct Demands {
    loads: Vec<u32>,
    nodes: Nodes,
    node: Option<usize>,
}

impl Model for Demands {
    ghost use Rattle.tk_problem_text.specs.Reader.Demands.{Loading, IsLoading};

    ghost Value = { Loading };

    ghost view = { λ s. record { loads = s.loads.items; nodes = s.nodes; node = s.node } };

    ghost invariant = { λ s. IsLoading s.loads.items s.nodes s.node };
}

impl Demands {
    ghost use Rattle.tk_problem_text.specs.Reader.Demands.{HasDemands};

    /// The section of n nodes, before its first token.
    ///
    /// # Errors
    /// `NoMemory` if memory runs out.
    pub fn new(alloc: Global, n: u32) -> Result<Self, TextKind>
        ensures ok { IfOk result (λ s. HasDemands n s []) }
        ensures err { IfErr result (λ k. k ≡ TextKind.NoMemory) }
    {
        match vec![in alloc; 0; n as usize] {
            Ok(loads) => Ok(Demands {
                loads,
                nodes: Nodes::new(alloc, n)?,
                node: None,
            }),
            Err(_) => Err(TextKind::NoMemory),
        }
    }

    /// Takes a token. If there is an error, nothing changes.
    pub fn take(&mut self, token: &Lexeme) -> Result<Taken, TextKind>
        ensures ok { (n : ℕ) → TakesFixed (HasDemands n) (demand_tests n) (2 * n) token.now self.old self.new result }
        ensures err { RefusesDemand token.now self.old result }
        ensures kept { OnErr result (self.new ≡ self.old) }
    {
        match self.node {
            None => {
                let index = self.nodes.name(token)?;
                self.node = Some(index);
            }
            Some(index) => {
                let load = number_of(token, 0, CAPACITY_LIMIT)?;
                self.loads[index] = load;
                self.node = None;
                if self.nodes.are_all() {
                    return Ok(Taken::Last);
                }
            }
        }
        Ok(Taken::More)
    }

    /// The demands of the nodes, in the order of their numbers.
    pub fn into_loads(self) -> Vec<u32>
        ensures { (n : ℕ) (toks : List Token) → HasDemands n self toks → length toks ≡ 2 * n
            → result.items ≡ demands_of n toks }
    {
        self.loads
    }
}
