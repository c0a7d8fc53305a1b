//! The keys of parameter files.
ghost use Rattle.std.specs.Prelude.{◌≡◌, Some};
ghost use Rattle.tk_params.specs.Keys;

use std::fmt;
use tk_words::spelled;

/// A key of a parameter file. Keys of LKH have the names of its user guide. Those from `MoveType` on are read but not
/// used.
#[derive(Clone, Copy, Debug, PartialEq, Eq, Hash)]
pub enum Key {
    ProblemFile,
    TourFile,
    SolutionFile,
    InitialTourFile,
    Runs,
    MaxTrials,
    Seed,
    MaxCandidates,
    Construction,
    FinalSweep,
    OrSegment,
    MoveType,
    PatchingA,
    PatchingC,
    Precision,
    TraceLevel,
    Optimum,
}

/// All keys, in the order of the enum.
const KEYS: [Key; 17] = [
    Key::ProblemFile,
    Key::TourFile,
    Key::SolutionFile,
    Key::InitialTourFile,
    Key::Runs,
    Key::MaxTrials,
    Key::Seed,
    Key::MaxCandidates,
    Key::Construction,
    Key::FinalSweep,
    Key::OrSegment,
    Key::MoveType,
    Key::PatchingA,
    Key::PatchingC,
    Key::Precision,
    Key::TraceLevel,
    Key::Optimum,
];

impl Key {
    /// The word of the key, in capitals.
    pub fn word(self) -> &'static str
        ensures { result.now ≡ Keys.key_word self }
    {
        match self {
            Key::ProblemFile => "PROBLEM_FILE",
            Key::TourFile => "TOUR_FILE",
            Key::SolutionFile => "SOLUTION_FILE",
            Key::InitialTourFile => "INITIAL_TOUR_FILE",
            Key::Runs => "RUNS",
            Key::MaxTrials => "MAX_TRIALS",
            Key::Seed => "SEED",
            Key::MaxCandidates => "MAX_CANDIDATES",
            Key::Construction => "CONSTRUCTION",
            Key::FinalSweep => "FINAL_SWEEP",
            Key::OrSegment => "OR_SEGMENT",
            Key::MoveType => "MOVE_TYPE",
            Key::PatchingA => "PATCHING_A",
            Key::PatchingC => "PATCHING_C",
            Key::Precision => "PRECISION",
            Key::TraceLevel => "TRACE_LEVEL",
            Key::Optimum => "OPTIMUM",
        }
    }

    /// Whether the value of the key is a file name.
    pub fn is_file(self) -> bool
        ensures { result ≡ Keys.is_file self }
    {
        match self {
            Key::ProblemFile | Key::TourFile | Key::SolutionFile | Key::InitialTourFile => true,
            _ => false,
        }
    }
}

/// Writes the key as in parameter files.
impl fmt::Display for Key {
    ghost output = { λ key. Some (Keys.key_word key) };

    fn fmt<W: fmt::Write>(&self, f: &mut fmt::Formatter<W>) -> fmt::Result {
        f.write_str(self.word())
    }
}

/// A law: the word of a key spells that key.
pub fn each_word_spells_its_key()
    ensures { (key : Key) → Keys.key_of (Keys.key_word key) ≡ Some key }
{}

/// The key that a word spells, without regard to case.
#[tactic(auto, unfolding(crate::specs::Keys::key_of))]
pub fn key_of(word: &[u8]) -> Option<Key>
    ensures { result ≡ Keys.key_of word.now }
{
    KEYS.iter()
        .copied()
        .find(|key| spelled(word, key.word().as_bytes()))
}
