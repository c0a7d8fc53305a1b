//! Keys with their settings, in a map that preserves their order.
ghost use Rattle.std.specs.Prelude.{◌≡◌, ◌++◌, ◌∷◌, [], false, OnErr, OnOk, option_map};
ghost use Rattle.std.specs.String.{string_bytes};
ghost use Rattle.tk_params.specs.Requested.{file_in, asked_number, switch_in, way_in};
ghost use Rattle.tk_params.specs.Reader.Stored.{LosesOnly, settings_in, value_is};
ghost use Rattle.tk_params.specs.Values;

use crate::key::Key;
use crate::value::{Construction, Setting};
use indexmap::IndexMap;
use std::alloc::AllocError;

/// The settings of keys, in the order in which they were added.
pub type Entries = IndexMap<Key, Setting>;

/// The setting of a key.
pub fn stored(entries: &Entries, key: Key) -> Option<&Setting>
    ensures { option_map (λ s. value_is s.now) result ≡ Values.look key (settings_in entries.now) }
{
    entries.get(&key)
}

/// Adds the setting of a new key after the others.
///
/// # Errors
/// `AllocError` if memory runs out.
pub fn append(entries: &mut Entries, key: Key, setting: Setting) -> Result<(), AllocError>
    requires { Values.has_key key (settings_in entries.old) ≡ false }
    ensures ok { OnOk result (settings_in entries.new ≡ settings_in entries.old ++ (key, value_is setting) ∷ []) }
    ensures err { OnErr result (settings_in entries.new ≡ settings_in entries.old) }
{
    match entries.insert(key, setting) {
        Ok(_) => Ok(()),
        Err(_) => Err(AllocError),
    }
}

/// Removes the setting of a key, and returns it.
fn take(entries: &mut Entries, key: Key) -> Option<Setting>
    ensures setting { option_map value_is result ≡ Values.look key (settings_in entries.old) }
    ensures others { LosesOnly key (settings_in entries.old) (settings_in entries.new) }
{
    entries.swap_remove(&key)
}

/// Removes the file name of a key, and returns it.
pub fn take_file(entries: &mut Entries, key: Key) -> Option<String>
    ensures file { option_map string_bytes result ≡ file_in (Values.look key (settings_in entries.old)) }
    ensures others { LosesOnly key (settings_in entries.old) (settings_in entries.new) }
{
    match take(entries, key) {
        Some(Setting::File(name)) => Some(name),
        _ => None,
    }
}

/// The number that a key is set to.
pub fn number(entries: &Entries, key: Key) -> Option<u32>
    ensures { result ≡ asked_number (Values.look key (settings_in entries.now)) }
{
    match stored(entries, key) {
        Some(Setting::Number(number)) => Some(*number),
        _ => None,
    }
}

/// The construction that a key is set to.
pub fn way(entries: &Entries, key: Key) -> Option<Construction>
    ensures { result ≡ way_in (Values.look key (settings_in entries.now)) }
{
    match stored(entries, key) {
        Some(Setting::Construction(way)) => Some(*way),
        _ => None,
    }
}

/// Whether a key is set to yes; `None` if it is not set to yes or no.
pub fn switch(entries: &Entries, key: Key) -> Option<bool>
    ensures { result ≡ switch_in (Values.look key (settings_in entries.now)) }
{
    match stored(entries, key) {
        Some(Setting::Switch(switch)) => Some(*switch),
        _ => None,
    }
}
