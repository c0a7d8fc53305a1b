//! Sources and sinks for tests: they return or take few bytes at a time, and fail if they are set to.
mod drip;
mod fake_sink;
mod padded;

pub use drip::Drip;
pub use fake_sink::{FakeSink, ROOM};
pub use padded::Padded;
