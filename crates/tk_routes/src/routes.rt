//! The routes of a CVRP.
ghost use Rattle.std.specs.Prelude.{◌≡◌, map};
ghost use Rattle.tk_routes.specs.Cvrps.{instance_of};
ghost use Rattle.tk_routes.specs.Routes.{AreRoutes};

use crate::cvrp::Cvrp;

/// Routes of a CVRP: each customer is on exactly one of them, none of them is empty, and no load exceeds the capacity.
#[derive(Drop)]
pub struct Routes<'a> {
    pub(crate) cvrp: Cvrp<'a>,
    pub(crate) lists: Vec<Vec<u32>>,
    ghost valid: { AreRoutes (instance_of cvrp) (map (λ r. r.items) lists.items) },
}

impl Routes<'_> {
    ghost use Rattle.tk_routes.specs.RouteLists.{routes_of};

    /// The routes as they are now, each as the list of its customers.
    pub fn lists(&self) -> &[Vec<u32>]
        ensures { map (λ r. r.items) result.now ≡ routes_of self.now }
    {
        &self.lists
    }

    /// The routes, each as the list of its customers.
    pub fn into_lists(self) -> Vec<Vec<u32>>
        ensures { map (λ r. r.items) result.items ≡ routes_of self.entry }
    {
        self.lists
    }
}
