//! The tests of routes and of the program as a library: the check of routes and how they are improved; rings, their
//! descents, kicks and trials, and whole searches between routes; parameter files, pages and engines; and examples of
//! the definition of parameter files. They have a crate of their own, because the tests of a crate are proved together
//! with all of its functions.
#![tactic(auto)]

#[cfg(test)]
mod counting;
#[cfg(test)]
mod descents;
#[cfg(test)]
mod endings;
#[cfg(test)]
mod engines;
#[cfg(test)]
mod examples;
#[cfg(test)]
mod given;
#[cfg(test)]
mod improved;
#[cfg(test)]
mod kicks;
#[cfg(test)]
mod line;
#[cfg(test)]
mod pages;
#[cfg(test)]
mod parameters;
#[cfg(test)]
mod rings;
#[cfg(test)]
mod searches;
#[cfg(test)]
mod settings;
#[cfg(test)]
mod stretches;
#[cfg(test)]
mod trials;
#[cfg(test)]
mod verdicts;
