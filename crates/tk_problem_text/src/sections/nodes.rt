//! The nodes that a section names, each once.
ghost use Rattle.std.specs.Prelude.{◌≡◌, ◌<◌, ◌==◌, ℕ, suc, pos, List, [], Some, IfOk, OnErr, IfErr};
ghost use Rattle.std.specs.Prelude.{length};
ghost use Rattle.tk_lines.specs.Reader.Handlers.{whole};
ghost use Rattle.tk_words.specs.Lex as Lex;
ghost use Rattle.tk_problem_text.specs.Reader.Nodes.{HasNamed};
ghost use Rattle.tk_lines.specs.Pieces.{first_at, Fault};
ghost use Rattle.tk_problem_text.specs.Sections.Rows.{node_tests};
ghost use Rattle.tk_problem_text.specs.Reader.Nodes.{NamesNode, RefusesNode};

use std::alloc::Global;
use std::marker::Model;
use tk_words::{Lexeme, TextKind};

/// Which of the nodes 1 to n have been named.
#[derive(Drop)]
pub struct Nodes {
    named: Vec<bool>,
    left: u32,
}

impl Model for Nodes {
    ghost use Rattle.tk_problem_text.specs.Reader.Nodes.{Named};

    ghost Value = { Named };

    ghost view = { λ s. record { flags = s.named.items; left = s.left } };
}

impl Nodes {
    /// None of n nodes has been named.
    ///
    /// # Errors
    /// `NoMemory` if memory runs out.
    pub fn new(alloc: Global, n: u32) -> Result<Self, TextKind>
        ensures ok { IfOk result (λ s. HasNamed n s []) }
        ensures err { IfErr result (λ k. k ≡ TextKind.NoMemory) }
    {
        match vec![in alloc; false; n as usize] {
            Ok(named) => Ok(Nodes { named, left: n }),
            Err(_) => Err(TextKind::NoMemory),
        }
    }

    /// Names a node, and returns its index, counted from 0. `BadNumber` if the token is not an integer, `BadNode` if it
    /// is not a node or has been named before.
    pub fn name(&mut self, token: &Lexeme) -> Result<usize, TextKind>
        ensures index { IfOk result (λ index. index < length self.old.flags) }
        ensures flags { length self.new.flags ≡ length self.old.flags }
        ensures ok { NamesNode token.now self.old self.new result }
        ensures err { RefusesNode token.now self.old result }
        ensures kept { OnErr result (self.new ≡ self.old) }
    {
        let index = node_of(token, self.named.len())?;
        if self.named[index] {
            return Err(TextKind::BadNode);
        }
        self.named[index] = true;
        self.left = self.left.saturating_sub(1);
        Ok(index)
    }

    /// Whether all nodes have been named.
    pub fn are_all(&self) -> bool
        ensures { result ≡ (self.now.left == 0) }
    {
        self.left == 0
    }
}

/// The index of a node from 1 to `count`, counted from 0. `BadNumber` if the token is not an integer, `BadNode` if it
/// is another number.
fn node_of(token: &Lexeme, count: usize) -> Result<usize, TextKind>
    ensures index { IfOk result (λ index. index < count) }
    ensures ok { IfOk result (λ index. Lex.integer token.now ≡ Some (pos (suc index))) }
    ensures err { IfErr result (λ k. (nodes : List ℕ) (line : ℕ)
        → first_at line (node_tests count nodes (whole token.now line)) ≡ Some (Fault line k)) }
{
    let Some(number) = token.integer() else {
        return Err(TextKind::BadNumber);
    };
    if number < 1 || number as usize > count {
        return Err(TextKind::BadNode);
    }
    Ok(number as usize - 1)
}
