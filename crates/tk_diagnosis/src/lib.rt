//! Diagnoses of files: what was expected at the line of a fault, what was found there and what to do, as sentences.
//! Also how the other lines of a file are read.
#![tactic(auto)]

mod diagnosis;
mod escaped;
mod fault;
mod line_context;
mod nearest;
mod remark;
mod repeats;
mod section_position;
mod sentence;
mod taken;
mod wrapping;

pub use diagnosis::diagnosis_at;
pub use escaped::shown_line;
pub use fault::FileFault;
pub use line_context::{Diagnosis, LineContext};
pub use remark::Remark;
pub use sentence::Sentence;
pub use taken::interpretation_of;
pub use wrapping::wrapped;
