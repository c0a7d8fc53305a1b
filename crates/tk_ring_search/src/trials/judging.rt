//! What becomes of the result of a trial: record-to-record travel.
ghost use Rattle.std.specs.Prelude.{◌≡◌, ◌≤◌, ◌+◌, pos, ◌≤ℤ◌, unsigned_abs};
ghost use Rattle.tk_ring_search.specs.Judging.{IsJudged, cost_after, limit_of, slack_of};
ghost use Rattle.tk_ring_search.specs.Totals.{is_better, is_copied, is_kicked};

/// What became of the result of a trial.
#[derive(Clone, Copy)]
pub enum Outcome {
    /// There was no kick, and nothing changed.
    Idle,
    /// It is shorter than the best ring, and became the best and the current ring.
    Better,
    /// It is not longer than the best ring by more than the slack, and became the current ring.
    Kept,
    /// It is longer than that, and was undone.
    Undone,
    /// It is longer than that, and the best ring became the current ring, since the previous one is now also longer
    /// than that, or the trial made more flips than the journal has room for.
    Restored,
}

impl Outcome {
    /// Whether the trial began with a kick.
    pub(crate) fn is_kicked(self) -> bool
        ensures { result ≡ is_kicked self }
    {
        !matches!(self, Outcome::Idle)
    }

    /// Whether the result became the best ring.
    pub(crate) fn is_better(self) -> bool
        ensures { result ≡ is_better self }
    {
        matches!(self, Outcome::Better)
    }

    /// Whether a ring was copied, to the best one or from it.
    pub(crate) fn copies(self) -> bool
        ensures { result ≡ is_copied self }
    {
        matches!(self, Outcome::Better | Outcome::Restored)
    }

    /// The cost of the current ring after a trial, by those of the ring that it found, and of the current ring and the
    /// best before.
    pub(crate) fn cost_after(self, found: i64, current: i64, best: i64) -> i64
        ensures { result ≡ cost_after self found current best }
    {
        match self {
            Outcome::Better | Outcome::Kept => found,
            Outcome::Restored => best,
            Outcome::Idle | Outcome::Undone => current,
        }
    }
}

/// By how much a result may be longer than the best ring to be kept, in the trial after `made` others. It is 3/1000 of
/// the best at first, and falls to 0 with the last of the trials.
fn slack(best: i64, made: u64, trials: u64) -> i64
    requires best { (pos 0 ≤ℤ best) × (best ≤ℤ pos 400000000000000) }
    requires some { 1 ≤ trials }
    ensures value { result ≡ pos (slack_of (unsigned_abs best) made trials) }
    ensures limit { result ≤ℤ best }
{
    let left = u128::from(trials.saturating_sub(made).saturating_sub(1));
    let scaled = u128::from(best.unsigned_abs()) * 3 * left;
    (scaled / (1000 * u128::from(trials))) as i64
}

/// The greatest cost of a ring that is kept, in the trial after `made` others.
pub(crate) fn limit(best: i64, made: u64, trials: u64) -> i64
    requires best { (pos 0 ≤ℤ best) × (best ≤ℤ pos 400000000000000) }
    requires some { 1 ≤ trials }
    ensures { result ≡ pos (limit_of (unsigned_abs best) made trials) }
{
    best + slack(best, made, trials)
}

/// Judges a result, from its cost, those of the current ring and of the best, the greatest cost that is kept, and
/// whether the trial can be undone.
pub(crate) fn judge(found: i64, current: i64, best: i64, limit: i64, can_undo: bool) -> Outcome
    ensures { IsJudged found current best limit can_undo result }
{
    if found < best {
        Outcome::Better
    } else if found <= limit {
        Outcome::Kept
    } else if can_undo && current <= limit {
        Outcome::Undone
    } else {
        Outcome::Restored
    }
}
