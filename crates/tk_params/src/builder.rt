//! Builds the settings of a search key by key.
ghost use Rattle.std.specs.Prelude.{◌≡◌, [], OnErr, OnOk, IfErr};
ghost use Rattle.tk_params.specs.Requested.{searched};
ghost use Rattle.tk_params.specs.Reader.Lines.{HasTakenLine, IsReportedKind};
ghost use Rattle.tk_params.specs.SearchOf.{search_is};
ghost use Rattle.tk_params.specs.Values;

use crate::fault::ParamKind;
use crate::key::Key;
use crate::line::take_key;
use crate::search_settings::SearchSettings;
use crate::settings::Settings;
use std::alloc::Global;
use std::marker::Model;

/// Keys with their values, each once, as in the lines of a parameter file.
#[derive(Drop)]
pub struct SearchBuilder {
    alloc: Global,
    settings: Settings,
}

impl Model for SearchBuilder {
    ghost use Rattle.tk_params.specs.Values;

    ghost Value = { Values.Settings };

    ghost view = { λ b. b.settings };
}

impl SearchBuilder {
    /// A builder without keys.
    pub fn new(alloc: Global) -> Self
        ensures { result ≡ [] }
    {
        SearchBuilder {
            alloc,
            settings: Settings::new(alloc),
        }
    }

    /// Takes a key with a value, as in a parameter file: within the same limits, and each key only once.
    ///
    /// # Errors
    /// `RepeatedKey`, `DollarInName` or `BadValue`, as for a line of a parameter file, or `NoMemory` if memory runs
    /// out.
    pub fn set(&mut self, key: Key, value: &[u8]) -> Result<(), ParamKind>
        ensures ok { OnOk result (HasTakenLine self.old self.new (Values.key_means self.old key value.now)) }
        ensures err { IfErr result (IsReportedKind (λ k. Values.key_means self.old key value.now ≡ Values.Faulty k)) }
        ensures kept { OnErr result (self.new ≡ self.old) }
    {
        take_key(self.alloc, &mut self.settings, key, value)
    }

    /// The search that these keys request, with defaults for the other keys.
    pub fn build(self) -> SearchSettings
        ensures { search_is result ≡ searched self }
    {
        self.settings.search()
    }
}
