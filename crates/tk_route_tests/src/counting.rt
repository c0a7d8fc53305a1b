//! An observer that counts what it is shown.
ghost use Rattle.std.specs.Prelude.{⊤};

use tk_route_search::{RouteProgress, RouteRun, RouteWatch};

/// The trials and first descents, those that found better routes, and the runs.
#[derive(Drop)]
pub struct Counts {
    pub trials: u32,
    pub better: u32,
    pub runs: u32,
}

impl RouteWatch for Counts {
    ghost shows = { λ _ _ _. ⊤ };

    fn begin(&mut self, _name: &[u8]) {}

    fn trial(&mut self, _progress: &RouteProgress, better: Option<&[Vec<u32>]>) {
        self.trials = self.trials.saturating_add(1);
        self.better = self.better.saturating_add(u32::from(better.is_some()));
    }

    fn end_run(&mut self, _run: u32, _report: &RouteRun) {
        self.runs = self.runs.saturating_add(1);
    }

    fn goes_on(&mut self) -> bool {
        true
    }
}
