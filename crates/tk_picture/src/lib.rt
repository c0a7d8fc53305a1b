//! Pictures (SVG) of a problem, with a tour or routes, and HTML pages that contain them.
#![tactic(auto)]

mod caption;
mod closed_lines;
mod colour;
mod dots;
mod extent;
mod laws;
mod name;
mod node_names;
mod numbers;
mod page;
mod part;
mod picture;
mod route_lines;
mod subject;
mod view;

pub use colour::Colour;
pub use extent::Extent;
pub use laws::names_stay_text;
pub use node_names::{NAME_LIMIT, NodeName, NodeNames};
pub use page::parts::Parts;
pub use picture::{OutputFormat, Picture, write_picture};
pub use subject::Subject;
pub use view::View;
