//! Values that are written to memory, and read back from there.
ghost use Rattle.std.specs.Prelude.{◌≡◌, ◌⊎◌, map, pos, ◌≤ℤ◌, IfOk, IfErr};
ghost use Rattle.std.specs.Int.RustNames.{unsigned_abs};
ghost use Rattle.tk_text.specs.ReadBack.{IsSolution, IsTourText};
ghost use Rattle.tk_text.specs.declared.TextKind.TheVariants as kinds;

use crate::given::expect;
use crate::texts::solutions::is_solution;
use crate::texts::tours::is_list;
use std::alloc::Global;
use std::process::Abort;
use tk_text::{
    FromRead, SolText, TextFault, ToWrite, TourText, WriteFault, read_solution, read_tour,
    write_solution, write_tour,
};

/// Writes a tour to memory, and reads it back. It has the same cities, unless memory runs out or a read fails.
fn tour_again(
    alloc: Global,
    name: &[u8],
    length: i64,
    cities: &[u32],
) -> Result<Result<TourText, TextFault>, WriteFault>
    requires { pos 0 ≤ℤ length }
    ensures same { IsTourText name.now (unsigned_abs length) cities.now
        → IfOk result (λ answer. IfOk answer (λ tour. tour.cities.items ≡ cities.now)) }
    ensures refused { IsTourText name.now (unsigned_abs length) cities.now
        → IfOk result (λ answer. IfErr answer (λ f. (f.kind ≡ kinds.NoMemory) ⊎ (f.kind ≡ kinds.Read))) }
{
    let mut sink = ToWrite::new(Vec::new(alloc));
    write_tour(&mut sink, name, length, cities)?;
    let mut source = FromRead::new(sink.inner.as_slice());
    Ok(read_tour(alloc, &mut source))
}

/// Like `tour_again`, for routes and their cost.
fn solution_again(
    alloc: Global,
    routes: &[Vec<u32>],
    cost: i64,
) -> Result<Result<SolText, TextFault>, WriteFault>
    requires { pos 0 ≤ℤ cost }
    ensures same { IsSolution (map (λ r. r.items) routes.now) (unsigned_abs cost)
        → IfOk result (λ answer. IfOk answer (λ solution. (map (λ r. r.items) solution.routes.items
        ≡ map (λ r. r.items) routes.now) × (solution.cost ≡ cost))) }
    ensures refused { IsSolution (map (λ r. r.items) routes.now) (unsigned_abs cost)
        → IfOk result (λ answer. IfErr answer (λ f. (f.kind ≡ kinds.NoMemory) ⊎ (f.kind ≡ kinds.Read))) }
{
    let mut sink = ToWrite::new(Vec::new(alloc));
    write_solution(&mut sink, routes, cost)?;
    let mut source = FromRead::new(sink.inner.as_slice());
    Ok(read_solution(alloc, &mut source))
}

#[test]
fn a_tour_is_read_back(rt: HostRuntime) -> Result<(), WriteFault> {
    let answer = tour_again(rt.alloc(), b"p", 40, &[1, 3, 2, 4])?;
    expect(&rt, is_list(answer, &[1, 3, 2, 4]));
    Ok(())
}

/// The routes 1 2 and 3 4.
pub fn two_routes(rt: &impl Abort, alloc: Global) -> Vec<Vec<u32>> {
    let first = vec![in alloc; 1, 2].expect(rt, "memory for a route");
    let second = vec![in alloc; 3, 4].expect(rt, "memory for a route");
    vec![in alloc; first, second].expect(rt, "memory for two routes")
}

#[test]
fn a_solution_is_read_back(rt: HostRuntime) -> Result<(), WriteFault> {
    let routes = two_routes(&rt, rt.alloc());
    let answer = solution_again(rt.alloc(), &routes, 44)?;
    expect(&rt, is_solution(answer, &[&[1, 2], &[3, 4]], 44));
    Ok(())
}
