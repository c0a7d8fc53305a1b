//! The contents of a solution text, line by line.
ghost use Rattle.std.specs.Prelude.{◌≡◌, ◌≤◌, ◌+◌, true, false, List, [], length, Some, IfOk};
ghost use Rattle.std.specs.Prelude.{IfErr};
ghost use Rattle.tk_words.specs.declared.fault.TextKind.TheVariants as kinds;
ghost use Rattle.tk_lists.specs.Solution.{SolutionLine, has_cost};
ghost use Rattle.tk_lists.specs.Reader.SolutionReader.{Keeps, IsRoute};
ghost use Rattle.tk_lists.specs.Reader.SolutionSteps.{KeepsRoute, RefusesCost, RefusesCostLine, RefusesCustomer};
ghost use Rattle.tk_lists.specs.Reader.SolutionSteps.{RefusesOther, RefusesRoute, TakesCost, TakesCustomer};

use crate::texts::SolText;
use std::alloc::Global;
use std::mem;
use tk_problem::{ENTRY_LIMIT, ROUTE_LIMIT};
use tk_words::{TextKind, integer, limited};

/// The routes and the cost that have been read, and the route of the current line.
#[derive(Drop)]
pub struct SolutionHandler {
    pub alloc: Global,
    pub routes: Vec<Vec<u32>>,
    pub route: Vec<u32>,
    pub customers: usize,
    pub priced: bool,
    pub cost: i64,
}

impl SolutionHandler {
    /// No line has been read.
    pub fn new(alloc: Global) -> Self
        ensures { Keeps result [] [] }
    {
        SolutionHandler {
            alloc,
            routes: Vec::new(alloc),
            route: Vec::new(alloc),
            customers: 0,
            priced: false,
            cost: 0,
        }
    }

    /// Checks that a Route line is allowed here.
    ///
    /// # Errors
    /// `TrailingData` after the cost, `OutOfLimit` after 100,000 routes.
    pub fn begin_route(&self) -> Result<(), TextKind>
        ensures ok { (before : List SolutionLine) → Keeps self.now before [] → IfOk result (λ _. IsRoute before []) }
        ensures err { RefusesRoute self.now result }
    {
        if self.priced {
            return Err(TextKind::TrailingData);
        }
        if self.routes.len() >= ROUTE_LIMIT {
            return Err(TextKind::OutOfLimit);
        }
        Ok(())
    }

    /// Takes a customer of the route.
    ///
    /// # Errors
    /// `BadNumber` if the token is not an integer; `OutOfLimit` if it does not fit into 32 bits, or follows 1,000,000
    /// customers; `NoMemory` if memory runs out.
    pub fn take_customer(&mut self, bytes: &[u8]) -> Result<(), TextKind>
        requires { length bytes.now ≤ 64 }
        ensures ok { TakesCustomer bytes.now self.old self.new result }
        ensures err { RefusesCustomer bytes.now self.old result }
    {
        let Some(number) = integer(bytes) else {
            return Err(TextKind::BadNumber);
        };
        let Some(customer) = limited(number, 0, u32::MAX) else {
            return Err(TextKind::OutOfLimit);
        };
        if self.customers >= ENTRY_LIMIT {
            return Err(TextKind::OutOfLimit);
        }
        match self.route.push(customer) {
            Ok(()) => {
                self.customers += 1;
                Ok(())
            }
            Err(_) => Err(TextKind::NoMemory),
        }
    }

    /// Stores the route of the current line.
    ///
    /// # Errors
    /// `NoMemory` if memory runs out.
    pub fn end_route(&mut self) -> Result<(), TextKind>
        ensures ok { KeepsRoute self.old self.new result }
        ensures err { IfErr result (λ k. k ≡ kinds.NoMemory) }
    {
        let route = mem::replace(&mut self.route, Vec::new(self.alloc));
        match self.routes.push(route) {
            Ok(()) => {}
            Err(_) => return Err(TextKind::NoMemory),
        }
        Ok(())
    }

    /// Checks that a Cost line is allowed here.
    ///
    /// # Errors
    /// `TrailingData` after the cost.
    pub fn begin_cost(&self) -> Result<(), TextKind>
        ensures ok { (before : List SolutionLine) → Keeps self.now before []
            → IfOk result (λ _. has_cost before ≡ false) }
        ensures err { RefusesCostLine self.now result }
    {
        if self.priced {
            return Err(TextKind::TrailingData);
        }
        Ok(())
    }

    /// Takes the cost.
    ///
    /// # Errors
    /// `BadNumber` if the token is not an integer, `OutOfLimit` if the number is negative.
    pub fn take_cost(&mut self, bytes: &[u8]) -> Result<(), TextKind>
        requires { length bytes.now ≤ 64 }
        ensures ok { TakesCost bytes.now self.old self.new result }
        ensures err { RefusesCost bytes.now self.old result }
    {
        let Some(number) = integer(bytes) else {
            return Err(TextKind::BadNumber);
        };
        if number < 0 {
            return Err(TextKind::OutOfLimit);
        }
        self.priced = true;
        self.cost = number;
        Ok(())
    }

    /// Checks that a line with another word is allowed here.
    ///
    /// # Errors
    /// `UnknownKeyword` before the cost.
    pub fn skip(&self) -> Result<(), TextKind>
        ensures ok { (before : List SolutionLine) → Keeps self.now before []
            → IfOk result (λ _. has_cost before ≡ true) }
        ensures err { RefusesOther self.now result }
    {
        if self.priced {
            return Ok(());
        }
        Err(TextKind::UnknownKeyword)
    }

    /// The routes and the cost.
    pub fn into_solution(self) -> SolText
        ensures routes { result.routes ≡ self.routes }
        ensures cost { result.cost ≡ self.cost }
    {
        let cost = self.cost;
        SolText {
            routes: self.routes,
            cost,
        }
    }
}
