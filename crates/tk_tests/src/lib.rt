//! The tests of texts, distances, near lists, tours, descents, starting tours and searches. They have a crate of their
//! own, because the tests of a crate are proved together with all of its functions.
#![tactic(auto)]

#[cfg(test)]
mod descents;
#[cfg(test)]
mod given;
#[cfg(test)]
mod metric;
#[cfg(test)]
mod places;
#[cfg(test)]
mod searches;
#[cfg(test)]
mod starts;
#[cfg(test)]
mod texts;
#[cfg(test)]
mod tours;
#[cfg(test)]
mod waking;
