//! The values of the keys of parameter files.
ghost use Rattle.std.specs.Prelude.{◌≡◌, false, Some, None, IfOk, IfErr, option_map};
ghost use Rattle.tk_params.specs.Keys;
ghost use Rattle.tk_params.specs.declared.fault.ParamKind.TheVariants as kinds;
ghost use Rattle.tk_params.specs.Requested.{is_ignored};
ghost use Rattle.tk_params.specs.Reader.Lines.{IsReportedKind};
ghost use Rattle.tk_params.specs.Reader.Stored.{value_is};
ghost use Rattle.tk_params.specs.Values;

use crate::fault::ParamKind;
use crate::key::Key;
use std::alloc::Global;
use tk_problem::CANDIDATE_LIMIT;
use tk_words::{integer, spelled};

/// How starting tours are constructed.
#[derive(Clone, Copy, PartialEq, Eq)]
pub enum Construction {
    /// By nearest neighbours.
    Nearest,
    /// By savings.
    Savings,
}

/// The setting of a key.
#[derive(Drop)]
pub enum Setting {
    File(String),
    Number(u32),
    Construction(Construction),
    Switch(bool),
    Ignored,
}

impl Setting {
    /// Whether the key is read but not used.
    pub fn is_ignored(&self) -> bool
        ensures { result ≡ is_ignored (value_is self.now) }
    {
        match self {
            Setting::Ignored => true,
            _ => false,
        }
    }
}

/// The value as an integer within limits, if it is one.
fn number_of(value: &[u8], low: u32, high: u32) -> Option<u32>
    ensures { result ≡ Values.number_within low high value.now }
{
    let number = u32::try_from(integer(value)?).ok()?;
    if number < low || number > high {
        return None;
    }
    Some(number)
}

/// The construction that the value spells, if it does.
fn construction_of(value: &[u8]) -> Option<Construction>
    ensures { result ≡ Values.construction_of value.now }
{
    if spelled(value, b"NEAREST") {
        return Some(Construction::Nearest);
    }
    if spelled(value, b"SAVINGS") {
        return Some(Construction::Savings);
    }
    None
}

/// Whether the value spells yes or no; `None` if it spells neither.
fn switch_of(value: &[u8]) -> Option<bool>
    ensures { result ≡ Values.switch_of value.now }
{
    if spelled(value, b"YES") {
        return Some(true);
    }
    if spelled(value, b"NO") {
        return Some(false);
    }
    None
}

/// The value as a file name.
fn file_of(alloc: Global, value: &[u8]) -> Result<Setting, ParamKind>
    ensures ok { IfOk result (λ s. Values.file_of value.now ≡ Some (value_is s)) }
    ensures err { IfErr result (IsReportedKind (λ k. (k ≡ kinds.BadValue) × (Values.file_of value.now ≡ None))) }
{
    if value.is_empty() {
        return Err(ParamKind::BadValue);
    }
    let Ok(name) = std::str::from_utf8(value) else {
        return Err(ParamKind::BadValue);
    };
    match String::from_str(alloc, name) {
        Ok(name) => Ok(Setting::File(name)),
        Err(_) => Err(ParamKind::NoMemory),
    }
}

/// The setting of a number within limits.
fn numeric(value: &[u8], low: u32, high: u32) -> Option<Setting>
    ensures { option_map value_is result ≡ option_map Values.Number (Values.number_within low high value.now) }
{
    Some(Setting::Number(number_of(value, low, high)?))
}

/// The setting of a key whose value is not a file name.
fn plain_of(key: Key, value: &[u8]) -> Option<Setting>
    requires { Keys.is_file key ≡ false }
    ensures { option_map value_is result ≡ Values.setting_value key value.now }
{
    match key {
        Key::Runs => numeric(value, 1, 10_000),
        Key::MaxTrials => numeric(value, 1, 1_000_000),
        Key::Seed => numeric(value, 0, u32::MAX),
        Key::MaxCandidates => numeric(value, 1, CANDIDATE_LIMIT),
        Key::OrSegment => numeric(value, 1, 3),
        Key::Construction => Some(Setting::Construction(construction_of(value)?)),
        Key::FinalSweep => Some(Setting::Switch(switch_of(value)?)),
        _ => Some(Setting::Ignored),
    }
}

/// The setting of a key with this value.
///
/// # Errors
/// `BadValue` if the key does not allow this value, and `NoMemory` if memory runs out.
pub fn setting_of(alloc: Global, key: Key, value: &[u8]) -> Result<Setting, ParamKind>
    ensures ok { IfOk result (λ s. Values.setting_value key value.now ≡ Some (value_is s)) }
    ensures err { IfErr result (IsReportedKind (λ k. (k ≡ kinds.BadValue) ×
        (Values.setting_value key value.now ≡ None))) }
{
    if key.is_file() {
        return file_of(alloc, value);
    }
    plain_of(key, value).ok_or(ParamKind::BadValue)
}
