//! The limits of problems and texts, to which sources and definitions refer by name. docs/ARCHITECTURE.md lists what
//! else must change with a limit: bounds that are computed from it, documents and tests.

/// Maximum number of cities of a problem.
pub const CITY_LIMIT: u32 = 100_000;

/// Maximum number of nodes of a problem with explicit weights or demands, and of cities of a printed distance matrix.
pub const TABLE_LIMIT: u32 = 5_000;

/// Maximum magnitude of a coordinate, in ones, and of a coordinate of a `WholePoint`, in its unit.
pub const COORDINATE_LIMIT: u64 = 1_000_000_000;

/// Maximum explicit weight. No two points are farther apart.
pub const DISTANCE_LIMIT: u32 = 4_000_000_000;

/// Maximum capacity of a vehicle.
pub const CAPACITY_LIMIT: u32 = 2_000_000_000;

/// Maximum length of a near list.
pub const CANDIDATE_LIMIT: u32 = 100;

/// Maximum number of routes of a solution.
pub const ROUTE_LIMIT: usize = 100_000;

/// Maximum number of cities in a tour text, and of customers in a solution.
pub const ENTRY_LIMIT: usize = 1_000_000;

/// Maximum number of bytes of a problem, a tour or a solution.
pub const TEXT_LIMIT: u64 = 1_073_741_824;
