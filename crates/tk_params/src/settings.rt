//! The settings of the lines of a parameter file that have been read.
ghost use Rattle.std.specs.Prelude.{◌≡◌, ◌++◌, ◌∷◌, [], false, OnErr, OnOk, is_some};
ghost use Rattle.tk_params.specs.Requested.{HasEachKeyOnce, AreSettings, IsSetting, file_in, ignored_keys, searched};
ghost use Rattle.tk_params.specs.Reader.Stored.{settings_in, value_is};
ghost use Rattle.tk_params.specs.SearchOf.{search_is};
ghost use Rattle.tk_params.specs.Values;

use crate::entries::{Entries, append, number, stored, switch, way};
use crate::key::Key;
use crate::search_settings::SearchSettings;
use crate::value::{Construction, Setting};
use indexmap::IndexMap;
use std::alloc::{AllocError, Global};
use std::marker::Model;

/// Keys with their settings, each once, in the order of the file.
#[derive(Drop)]
pub struct Settings {
    entries: Entries,
    ignored: Vec<Key>,
}

impl Model for Settings {
    ghost use Rattle.tk_params.specs.Reader.Stored.{AreStored, settings_in};
    ghost use Rattle.tk_params.specs.Values;

    ghost Value = { Values.Settings };

    ghost view = { λ s. settings_in s.entries };

    ghost invariant = { λ s. AreStored (settings_in s.entries) s.ignored.items };
}

impl Settings {
    /// No key is set.
    pub fn new(alloc: Global) -> Self
        ensures { result ≡ [] }
    {
        Settings {
            entries: IndexMap::new(alloc),
            ignored: Vec::new(alloc),
        }
    }

    /// Whether the key is set.
    pub fn has(&self, key: Key) -> bool
        ensures { result ≡ Values.has_key key self.now }
    {
        stored(&self.entries, key).is_some()
    }

    /// Whether the key is set to a file name.
    pub fn names(&self, key: Key) -> bool
        ensures { result ≡ is_some (file_in (Values.look key self.now)) }
    {
        matches!(stored(&self.entries, key), Some(Setting::File(_)))
    }

    /// Stores the setting of a new key.
    ///
    /// # Errors
    /// `AllocError` if memory runs out.
    pub fn set(&mut self, key: Key, setting: Setting) -> Result<(), AllocError>
        requires fresh { Values.has_key key self.old ≡ false }
        requires limits { IsSetting key (value_is setting) }
        ensures ok { OnOk result (self.new ≡ self.old ++ (key, value_is setting) ∷ []) }
        ensures err { OnErr result (self.new ≡ self.old) }
    {
        if !setting.is_ignored() {
            append(&mut self.entries, key, setting)?;
            return Ok(());
        }
        self.ignored.push(key)?;
        match append(&mut self.entries, key, setting) {
            Ok(()) => Ok(()),
            Err(fault) => {
                self.ignored.pop();
                Err(fault)
            }
        }
    }

    /// The search that these keys request, with defaults for the other keys.
    pub fn search(&self) -> SearchSettings
        ensures { search_is result ≡ searched self.now }
    {
        SearchSettings {
            runs: number(&self.entries, Key::Runs).unwrap_or(10),
            max_trials: number(&self.entries, Key::MaxTrials),
            seed: number(&self.entries, Key::Seed).unwrap_or(1),
            max_candidates: number(&self.entries, Key::MaxCandidates).unwrap_or(5),
            construction: way(&self.entries, Key::Construction).unwrap_or(Construction::Nearest),
            final_sweep: switch(&self.entries, Key::FinalSweep).unwrap_or(false),
            or_segment: number(&self.entries, Key::OrSegment).unwrap_or(3),
        }
    }

    /// The keys with their settings, and those of the keys that are not used.
    pub fn into_parts(self) -> (Entries, Vec<Key>)
        ensures settings { settings_in result.0 ≡ self }
        ensures ignored { result.1.items ≡ ignored_keys self }
        ensures limits { AreSettings self }
        ensures apart { HasEachKeyOnce self }
    {
        (self.entries, self.ignored)
    }
}
