//! What is known of the problem of a text in memory.
ghost use Rattle.std.specs.Prelude.{◌≡◌, ◌≤◌, IfOk, IfErr};
ghost use Rattle.tk_for_c.specs.Answers.{IsRightRefusal, IsStop, NeverClashes, NoFault, NoRefusal, fits_any};
ghost use Rattle.tk_for_c.specs.InfoStruct.{IsInfoOf, IsInfoWritten, area_in, distances_number, info_struct};
ghost use Rattle.tk_for_c.specs.InfoStruct.{routing_in};
ghost use Rattle.tk_for_c.specs.Outcomes.{with_status};
ghost use Rattle.tk_for_c.specs.Points.{kind_number};
ghost use Rattle.tk_for_c.specs.Texts.{IsSomeText};

use crate::answer::{Answer, stopped};
use crate::hand_out::hand_out;
use std::alloc::Global;
use tk_engines::{Area, DistanceInfo, Fault, ProblemInfo, RoutingInfo, info_outcome};
use tk_text::{FromRead, PlaneKind};

/// What is known of a problem, apart from its name.
#[derive(Clone, Copy)]
#[repr(C)]
pub struct Info {
    /// The number of cities, or of nodes of a CVRP: the depot and the customers.
    pub dimension: u32,
    /// The distance type: 0 for EUC_2D, 1 for CEIL_2D, 2 for MAN_2D, 3 for MAX_2D, 4 for ATT, and 5 for EXPLICIT.
    pub distances: u32,
    /// The node of the depot; 0 for a TSP.
    pub depot: u32,
    /// The maximum load of a vehicle; 0 for a TSP.
    pub capacity: u32,
    /// The sum of the demands; 0 for a TSP.
    pub demand: u64,
    /// A lower bound on the number of vehicles; 0 for a TSP.
    pub vehicles: u64,
    /// The least x, in units of 10^-9; 0 without coordinates, as all bounds.
    pub left: i64,
    /// The greatest x.
    pub right: i64,
    /// The least y.
    pub bottom: i64,
    /// The greatest y.
    pub top: i64,
    /// Whether the problem is a CVRP.
    pub is_cvrp: bool,
    /// Whether there are coordinates, and all are whole numbers.
    pub is_whole: bool,
}

/// The number of a distance type.
fn number_of(kind: PlaneKind) -> u32
    ensures { result ≡ kind_number kind }
{
    match kind {
        PlaneKind::Euc2d => 0,
        PlaneKind::Ceil2d => 1,
        PlaneKind::Man2d => 2,
        PlaneKind::Max2d => 3,
        PlaneKind::Att => 4,
    }
}

/// The number of the distance type of a problem.
fn number_of_distances(distances: DistanceInfo) -> u32
    ensures { result ≡ distances_number distances }
{
    match distances {
        DistanceInfo::Plane(kind, _) => number_of(kind),
        DistanceInfo::Explicit => 5,
    }
}

/// The coordinates of a problem. Without coordinates, all bounds are 0.
fn area_of(distances: DistanceInfo) -> Area
    ensures { result ≡ area_in distances }
{
    match distances {
        DistanceInfo::Plane(_, area) => area,
        DistanceInfo::Explicit => Area {
            whole: false,
            left: 0,
            right: 0,
            bottom: 0,
            top: 0,
        },
    }
}

/// The routing data of a problem. For a TSP, all numbers are 0.
fn routing_of(routing: Option<RoutingInfo>) -> RoutingInfo
    ensures { result ≡ routing_in routing }
{
    match routing {
        Some(routing) => routing,
        None => RoutingInfo {
            capacity: 0,
            depot: 0,
            demand: 0,
            vehicles: 0,
        },
    }
}

impl Info {
    /// What is known of a problem, as a struct for C.
    fn of(known: &ProblemInfo) -> Info
        ensures { result ≡ info_struct known.now }
    {
        let area = area_of(known.distances);
        let routing = routing_of(known.routing);
        Info {
            dimension: known.dimension,
            distances: number_of_distances(known.distances),
            depot: routing.depot,
            capacity: routing.capacity,
            demand: routing.demand,
            vehicles: routing.vehicles,
            left: area.left,
            right: area.right,
            bottom: area.bottom,
            top: area.top,
            is_cvrp: known.routing.is_some(),
            is_whole: area.whole,
        }
    }
}

/// What is known of the problem of a text.
fn info_of(alloc: Global, problem: &[u8]) -> Result<ProblemInfo, Fault>
    ensures ok { IfOk result (IsInfoOf problem.now) }
    ensures err { IfErr result (IsStop fits_any NeverClashes NoFault NoFault problem.now) }
{
    let mut problem = FromRead::new(problem);
    match info_outcome(alloc, &mut problem) {
        Ok(known) => Ok(known),
        Err(fault) => Err(fault),
    }
}

/// Finds out what is known of a problem: `info` gets the numbers, and `out` the name. If the text is rejected, `out`
/// gets the message.
pub fn tourkit_info(alloc: Global, problem: &[u8], info: &mut Info, out: &mut [u8]) -> Answer
    ensures given { result.status ≤ 1 → IsInfoWritten problem.now info.new out.old out.new result }
    ensures known { result.status ≤ 3 }
    ensures refused { result.status ≡ 2
        → IsRightRefusal fits_any NeverClashes NoRefusal 1 problem.now result }
    ensures memory { result.status ≡ 3 → result ≡ with_status 3 result.needed }
    ensures message { 2 ≤ result.status → IsSomeText out.old out.new result }
    ensures kept { 2 ≤ result.status → info.new ≡ info.old }
{
    match info_of(alloc, problem) {
        Ok(known) => {
            *info = Info::of(&known);
            Answer::ended(0, hand_out(&known.name, out))
        }
        Err(fault) => stopped(alloc, 1, &fault, out),
    }
}
