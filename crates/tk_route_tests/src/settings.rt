//! Settings of a search that are built key by key.

use crate::given::expect;
use std::process::Abort;
use tk_engines::{Construction, Key, ParamKind, SearchBuilder, SearchSettings, key_of};

/// Checks the numbers of the search.
pub fn expect_numbers<A: Abort>(rt: &A, search: &SearchSettings, numbers: [u32; 5]) {
    let [runs, trials, seed, candidates, segment] = numbers;
    expect(rt, search.runs == runs);
    expect(rt, search.max_trials == Some(trials));
    expect(rt, search.seed == seed);
    expect(rt, search.max_candidates == candidates);
    expect(rt, search.or_segment == segment);
}

/// Keys with values, in this order, and what a builder answers to each.
static SETTINGS: [(Key, &[u8], Result<(), ParamKind>); 13] = [
    (Key::Runs, b"0", Err(ParamKind::BadValue)),
    (Key::Runs, b"10001", Err(ParamKind::BadValue)),
    (Key::ProblemFile, b"a$", Err(ParamKind::DollarInName)),
    (Key::ProblemFile, b"", Err(ParamKind::BadValue)),
    (Key::Seed, b"7", Ok(())),
    (Key::ProblemFile, b" a ", Ok(())),
    (Key::Runs, b"10000", Ok(())),
    (Key::Runs, b"10000", Err(ParamKind::RepeatedKey)),
    (Key::Runs, b"2", Err(ParamKind::RepeatedKey)),
    (Key::MaxTrials, b"3", Ok(())),
    (Key::MaxCandidates, b"100", Ok(())),
    (Key::Construction, b"savings", Ok(())),
    (Key::TraceLevel, b"1", Ok(())),
];

/// Checks what a builder answers to each key and value.
fn expect_settings(rt: &impl Abort, builder: &mut SearchBuilder) {
    for (key, value, answer) in &SETTINGS {
        expect(rt, builder.set(*key, *value) == *answer);
    }
}

#[test]
fn takes_each_key(rt: HostRuntime) {
    let mut builder = SearchBuilder::new(rt.alloc());
    expect_settings(&rt, &mut builder);
    let search = builder.build();
    expect_numbers(&rt, &search, [10_000, 3, 7, 100, 3]);
    expect(&rt, search.construction == Construction::Savings);
    expect(&rt, !search.final_sweep);
}

#[test]
fn words_of_keys(rt: HostRuntime) {
    expect(&rt, key_of(b"max_Trials") == Some(Key::MaxTrials));
    expect(&rt, key_of(b"NAME").is_none());
}
