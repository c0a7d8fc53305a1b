//! Names in messages of what specifies a search.
use tk_params::Key;

/// A key of a parameter file, or an argument, an option or a stream of the command line.
#[derive(Clone, Copy)]
pub enum Named {
    Key(Key),
    Problem,
    Output,
    Log,
    InitialTour,
    InitialSolution,
    Construction,
    Vehicles,
    WithinRoutes,
    StandardOutput,
    StandardError,
}

impl Named {
    /// The name.
    pub fn word(self) -> &'static str {
        match self {
            Named::Key(key) => key.word(),
            Named::Problem => "PROBLEM",
            Named::Output => "--output",
            Named::Log => "--log",
            Named::InitialTour => "--initial-tour",
            Named::InitialSolution => "--initial-solution",
            Named::Construction => "--construction",
            Named::Vehicles => "--vehicles",
            Named::WithinRoutes => "--within-routes",
            Named::StandardOutput => "standard output",
            Named::StandardError => "standard error",
        }
    }
}
