//! Parameter files: their keys, values and faults, their reader, and the parameters and searches that they specify.
#![tactic(auto)]

mod builder;
mod entries;
mod fault;
mod key;
mod laws;
mod line;
mod params;
mod reader;
mod search_settings;
mod settings;
mod value;

pub use builder::SearchBuilder;
pub use fault::{ParamFault, ParamKind};
pub use key::{Key, each_word_spells_its_key, key_of};
pub use laws::{decided_params_stay, each_params_text_has_an_answer};
pub use params::Params;
pub use reader::read_params;
pub use search_settings::SearchSettings;
pub use value::Construction;
