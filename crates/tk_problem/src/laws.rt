//! Laws of problems, as contracts of functions that do nothing.
ghost use Rattle.std.specs.Prelude.{◌≡◌};
ghost use Rattle.tk_problem.specs.declared.limits.TheConstants.{CANDIDATE_LIMIT, CAPACITY_LIMIT, CITY_LIMIT};
ghost use Rattle.tk_problem.specs.declared.limits.TheConstants.{COORDINATE_LIMIT, DISTANCE_LIMIT, ENTRY_LIMIT};
ghost use Rattle.tk_problem.specs.declared.limits.TheConstants.{ROUTE_LIMIT, TABLE_LIMIT, TEXT_LIMIT};

/// A law: the limits have these values.
pub fn limits_are_these_numbers()
    ensures city { CITY_LIMIT ≡ 100000 }
    ensures table { TABLE_LIMIT ≡ 5000 }
    ensures coordinate { COORDINATE_LIMIT ≡ 1000000000 }
    ensures distance { DISTANCE_LIMIT ≡ 4000000000 }
    ensures capacity { CAPACITY_LIMIT ≡ 2000000000 }
    ensures candidate { CANDIDATE_LIMIT ≡ 100 }
    ensures route { ROUTE_LIMIT ≡ 100000 }
    ensures entry { ENTRY_LIMIT ≡ 1000000 }
    ensures text { TEXT_LIMIT ≡ 1073741824 }
{}
