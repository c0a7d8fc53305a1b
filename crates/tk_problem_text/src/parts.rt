//! The headers and sections of a problem that have been read.
ghost use Rattle.std.specs.Prelude.{◌≡◌, ◌≤◌, ◌<◌, ◌-◌, ◌^◌, ℕ, List, [], Some, None, IfOk, IfSome};
ghost use Rattle.std.specs.Prelude.{length, slice_index, unwrap_or};
ghost use Rattle.tk_lines.specs.Pieces.{Piece};
ghost use Rattle.tk_lines.specs.Reader.Handlers.{IsReportedWord};
ghost use Rattle.tk_problem_text.specs.Problem.{problem_header, problem_end, first_kind, weights_ends, routing_ends_of};
ghost use Rattle.tk_problem_text.specs.Problem.{over_capacity};
ghost use Rattle.tk_problem_text.specs.Reader.Parts.{MakesWeights, MakesRouting, weights_in};
ghost use Rattle.tk_problem_text.specs.ProblemOf.{weights_are, routing_is};
ghost use Rattle.tk_problem_text.specs.Reader.Parts.{routing_in};
ghost use Rattle.tk_problem.specs.Shape.{WeightsFit, RoutingFits};
ghost use Rattle.tk_lines.specs.Reader.HandlerSteps.{RefusesHeader, TakesHeader};
ghost use Rattle.tk_problem_text.specs.Reader.Parts.{KeepsDemand, KeepsDepot, KeepsLower, KeepsPlaces, NotesDisplay};

use crate::display::Display;
use crate::header_values::{ProblemType, WeightType};
use crate::headers::Headers;
use crate::placed_problem::{GivenPlaces, PlacedProblem, PlacesOrigin};
use std::alloc::{AllocError, Global};
use tk_lines::ValueScanner;
use tk_problem::{Points, Problem, Routing, Weights};
use tk_words::{Keyword, TextKind};

/// The headers and sections of a problem that have been read.
#[derive(Drop)]
pub struct Parts {
    pub headers: Headers,
    pub places: Option<Points>,
    pub lower: Option<Vec<u32>>,
    pub demand: Option<Vec<u32>>,
    pub depot: Option<u32>,
    pub has_display: bool,
}

impl Parts {
    ghost use Rattle.std.specs.Prelude.{true, false};
    ghost use Rattle.tk_problem.specs.declared.weights.Weights.TheVariants as weights;
    ghost use Rattle.tk_problem_text.specs.Reader.Parts.{HasParts, IsWhole, problem_in};
    ghost use Rattle.tk_problem_text.specs.ProblemOf.{problem_is};
    ghost use Rattle.tk_problem_text.specs.Placed.{placed_is};
    ghost use Rattle.tk_problem_text.specs.Reader.PlacedHandler.{AreEnough, places_in};

    /// No header and no section has been read.
    ///
    /// # Errors
    /// `AllocError` if memory runs out.
    pub fn new(alloc: Global) -> Result<Self, AllocError>
        ensures { IfOk result (λ p. HasParts p []) }
    {
        Ok(Parts {
            headers: Headers::new(alloc)?,
            places: None,
            lower: None,
            demand: None,
            depot: None,
            has_display: false,
        })
    }

    /// Takes a header.
    ///
    /// # Errors
    /// Those of `Headers::take`.
    pub fn take_header(
        &mut self,
        alloc: Global,
        word: Keyword,
        value: &ValueScanner,
    ) -> Result<(), TextKind>
        ensures ok { TakesHeader HasParts problem_header word value.now self.old self.new result }
        ensures err { RefusesHeader HasParts problem_header word value.now self.old result }
    {
        self.headers.take(alloc, word, value)
    }

    /// Stores the coordinates of NODE_COORD_SECTION.
    pub fn keep_places(&mut self, places: Points)
        ensures { KeepsPlaces places self.old self.new }
    {
        self.places = Some(places);
    }

    /// Stores the lower triangle of EDGE_WEIGHT_SECTION.
    pub fn keep_lower(&mut self, lower: Vec<u32>)
        ensures { KeepsLower lower self.old self.new }
    {
        self.lower = Some(lower);
    }

    /// Stores the demands of DEMAND_SECTION.
    pub fn keep_demand(&mut self, demand: Vec<u32>)
        ensures { KeepsDemand demand self.old self.new }
    {
        self.demand = Some(demand);
    }

    /// Stores the node of DEPOT_SECTION.
    pub fn keep_depot(&mut self, depot: u32)
        ensures { KeepsDepot depot self.old self.new }
    {
        self.depot = Some(depot);
    }

    /// Notes that DISPLAY_DATA_SECTION has been read.
    pub fn note_display(&mut self)
        ensures { NotesDisplay self.old self.new }
    {
        self.has_display = true;
    }

    /// The fault at the end of the text, if there is one.
    pub fn end(&self) -> Option<TextKind>
        ensures fault { (ps : List Piece) → HasParts self.now ps
            → IfSome result (IsReportedWord (λ k. problem_end ps ≡ Some k)) }
        ensures none { (ps : List Piece) → HasParts self.now ps → result ≡ None → problem_end ps ≡ None }
    {
        if self.headers.problem_type.is_none() {
            return Some(TextKind::Missing(Keyword::Type));
        }
        if self.headers.dimension.is_none() {
            return Some(TextKind::Missing(Keyword::Dimension));
        }
        match self.weights_end() {
            Some(kind) => Some(kind),
            None => self.routing_end(),
        }
    }

    /// The problem that complete parts describe.
    pub fn into_problem(self) -> Problem
        requires { IsWhole self }
        ensures { problem_is result ≡ problem_in self }
    {
        let Parts {
            headers,
            places,
            lower,
            demand,
            depot,
            has_display: _,
        } = self;
        let weights = weights_from(headers.weight_type, places, lower);
        let routing = routing_from(headers.problem_type, headers.capacity, demand, depot);
        Problem {
            name: headers.name,
            n: headers.dimension.unwrap(),
            weights,
            routing,
        }
    }

    /// The problem that complete parts describe, with the places of its cities.
    pub fn into_placed(self, display: Display) -> PlacedProblem
        requires whole { IsWhole self }
        requires enough { AreEnough (unwrap_or self.headers.dimension 0)
            (places_in self.headers.weight_type self.places display) }
        ensures { placed_is result ≡ record {
          problem = problem_in self;
          places = places_in self.headers.weight_type self.places display;
        } }
    {
        let mut parts = self;
        let places = parts.take_places(display);
        PlacedProblem {
            problem: parts.into_problem(),
            places,
        }
    }

    /// Takes the places of the cities out of the parts, if the weights are explicit.
    fn take_places(&mut self, display: Display) -> Option<GivenPlaces>
        requires { IsWhole self.old }
        ensures places { result ≡ places_in self.old.headers.weight_type self.old.places display }
        ensures whole { IsWhole self.new }
        ensures same { problem_in self.new ≡ problem_in self.old }
    {
        let Some(WeightType::Explicit) = self.headers.weight_type else {
            return None;
        };
        let nodes = self.places.take();
        if let Display::Read(points) = display {
            return Some(GivenPlaces {
                origin: PlacesOrigin::DisplayData,
                points,
            });
        }
        Some(GivenPlaces {
            origin: PlacesOrigin::NodeCoordinates,
            points: nodes?,
        })
    }

    /// The fault of the weights at the end of the text, if there is one.
    fn weights_end(&self) -> Option<TextKind>
        ensures fault { (ps : List Piece) → HasParts self.now ps
            → IfSome result (IsReportedWord (λ k. first_kind (weights_ends ps) ≡ Some k)) }
        ensures none { (ps : List Piece) → HasParts self.now ps → result ≡ None → first_kind (weights_ends ps) ≡ None }
    {
        match self.headers.weight_type {
            None => Some(TextKind::Missing(Keyword::EdgeWeightType)),
            Some(WeightType::Explicit) => {
                if self.lower.is_some() {
                    None
                } else {
                    Some(TextKind::Missing(Keyword::EdgeWeightSection))
                }
            }
            Some(WeightType::Plane(_)) => {
                if self.places.is_some() {
                    None
                } else {
                    Some(TextKind::Missing(Keyword::NodeCoordSection))
                }
            }
        }
    }

    /// The fault of the routing at the end of the text, if there is one; `None` for a TSP.
    fn routing_end(&self) -> Option<TextKind>
        ensures fault { (ps : List Piece) → HasParts self.now ps
            → IfSome result (IsReportedWord (λ k. first_kind (routing_ends_of ps) ≡ Some k)) }
        ensures none { (ps : List Piece) → HasParts self.now ps → result ≡ None
            → first_kind (routing_ends_of ps) ≡ None }
    {
        match self.headers.problem_type {
            Some(ProblemType::Cvrp) => {}
            _ => return None,
        }
        let Some(capacity) = self.headers.capacity else {
            return Some(TextKind::Missing(Keyword::Capacity));
        };
        let Some(demand) = &self.demand else {
            return Some(TextKind::Missing(Keyword::DemandSection));
        };
        let Some(depot) = self.depot else {
            return Some(TextKind::Missing(Keyword::DepotSection));
        };
        if demand_at(demand, depot) != 0 {
            return Some(TextKind::BadDepot);
        }
        match first_over(demand, capacity) {
            Some(node) => Some(TextKind::DemandOverCapacity(node)),
            None => None,
        }
    }
}

/// The weights of n cities.
fn weights_from(
    weight_type: Option<WeightType>,
    places: Option<Points>,
    lower: Option<Vec<u32>>,
) -> Weights
    requires { (n : ℕ) × MakesWeights n weight_type places lower }
    ensures is { weights_are result ≡ weights_in weight_type places lower }
    ensures fit { (n : ℕ) → MakesWeights n weight_type places lower → WeightsFit n result }
{
    match weight_type {
        Some(WeightType::Plane(kind)) => Weights::Points(kind, places.unwrap()),
        _ => Weights::Lower(lower.unwrap()),
    }
}

/// The routing of n nodes; `None` for a TSP.
fn routing_from(
    problem_type: Option<ProblemType>,
    capacity: Option<u32>,
    demand: Option<Vec<u32>>,
    depot: Option<u32>,
) -> Option<Routing>
    requires { (n : ℕ) × MakesRouting n problem_type capacity demand depot }
    ensures is { routing_is result ≡ routing_in problem_type capacity demand depot }
    ensures fit { (n : ℕ) → MakesRouting n problem_type capacity demand depot → RoutingFits n result }
{
    match problem_type {
        Some(ProblemType::Cvrp) => Some(Routing {
            capacity: capacity.unwrap(),
            demand: demand.unwrap(),
            depot: depot.unwrap(),
        }),
        _ => None,
    }
}

/// The demand of a node; 0 if there is no such node.
fn demand_at(demand: &[u32], node: u32) -> u32
    ensures { 1 ≤ node → result ≡ slice_index demand.now (node - 1) }
{
    let index = node as usize;
    if index == 0 || index > demand.len() {
        return 0;
    }
    demand[index - 1]
}

/// The first node whose demand is greater than the capacity of a vehicle.
fn first_over(demand: &[u32], capacity: u32) -> Option<u32>
    ensures some { length demand.now < 2 ^ 32
        → IfSome result (λ node. first_kind (over_capacity capacity 1 demand.now)
        ≡ Some (TextKind.DemandOverCapacity node)) }
    ensures none { length demand.now < 2 ^ 32 → result ≡ None
        → first_kind (over_capacity capacity 1 demand.now) ≡ None }
{
    let mut node: u32 = 0;
    for load in demand {
        node = node.saturating_add(1);
        if *load > capacity {
            return Some(node);
        }
    }
    None
}
