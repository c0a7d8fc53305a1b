//! Reads a line of a parameter file.
ghost use Rattle.std.specs.Prelude.{◌≡◌, ◌≤◌, length, take, drop, OnErr, OnOk, IfErr};
ghost use Rattle.tk_words.specs.Lex.{behind, front, is_blank, is_word_byte, trim_end};
ghost use Rattle.tk_params.specs.Reader.Lines.{HasTakenLine, IsReportedKind};
ghost use Rattle.tk_params.specs.Entries;
ghost use Rattle.tk_params.specs.Values;

use crate::fault::ParamKind;
use crate::key::{Key, key_of};
use crate::settings::Settings;
use crate::value::setting_of;
use std::alloc::Global;
use tk_words::{blank, letter, spelled, word_byte};

/// Maximum number of bytes of a key.
const KEY_LIMIT: usize = 64;

/// The number of bytes of the word at the front of a line.
fn word_end(line: &[u8]) -> usize
    ensures within { result ≤ length line.now }
    ensures word { take result line.now ≡ front is_word_byte line.now }
    ensures rest { drop result line.now ≡ behind is_word_byte line.now }
{
    for i in 0..line.len() {
        if !word_byte(line[i]) {
            return i;
        }
    }
    line.len()
}

/// The bytes without the blanks at their front.
fn without_blanks(bytes: &[u8]) -> &[u8]
    ensures { result.now ≡ behind is_blank bytes.now }
{
    for i in 0..bytes.len() {
        if !blank(bytes[i]) {
            return &bytes[i..];
        }
    }
    &bytes[bytes.len()..]
}

/// The bytes without the blanks at their end.
fn trimmed(bytes: &[u8]) -> &[u8]
    ensures { result.now ≡ trim_end bytes.now }
{
    let mut end = bytes.len();
    while end > 0 && blank(bytes[end - 1]) {
        end -= 1;
    }
    &bytes[..end]
}

/// The value after a key: what follows blanks and at most one equals sign, without outer blanks.
fn value_behind(bytes: &[u8]) -> &[u8]
    ensures { result.now ≡ Entries.value_behind bytes.now }
{
    match without_blanks(bytes) {
        [b'=', value @ ..] => trimmed(without_blanks(value)),
        value => trimmed(without_blanks(value)),
    }
}

/// Whether the value is a file name that contains a `$`.
fn has_dollar(key: Key, value: &[u8]) -> bool
    ensures { result ≡ Values.has_dollar key value.now }
{
    key.is_file() && value.contains(&b'$')
}

/// Takes a key and its value.
///
/// # Errors
/// `RepeatedKey` for a key that has occurred before; `DollarInName` for a file name with a `$`; `NoMemory` if memory
/// runs out; and the faults of `setting_of`.
pub fn take_key(
    alloc: Global,
    settings: &mut Settings,
    key: Key,
    value: &[u8],
) -> Result<(), ParamKind>
    ensures ok { OnOk result (HasTakenLine settings.old settings.new (Values.key_means settings.old key value.now)) }
    ensures err { IfErr result (IsReportedKind (λ k. Values.key_means settings.old key value.now ≡ Values.Faulty k)) }
    ensures kept { OnErr result (settings.new ≡ settings.old) }
{
    if settings.has(key) {
        return Err(ParamKind::RepeatedKey);
    }
    if has_dollar(key, value) {
        return Err(ParamKind::DollarInName);
    }
    let setting = setting_of(alloc, key, value)?;
    match settings.set(key, setting) {
        Ok(()) => Ok(()),
        Err(_) => Err(ParamKind::NoMemory),
    }
}

/// Takes a line that begins with this word.
#[tactic(auto, unfolding(crate::specs::Entries::word_entry))]
fn take_words(
    alloc: Global,
    settings: &mut Settings,
    word: &[u8],
    rest: &[u8],
) -> Result<(), ParamKind>
    ensures ok { OnOk result (HasTakenLine settings.old settings.new
        (Values.means settings.old (Entries.word_entry word.now rest.now))) }
    ensures err { IfErr result (IsReportedKind (λ k. Values.means settings.old (Entries.word_entry word.now rest.now)
        ≡ Values.Faulty k)) }
{
    if word.len() > KEY_LIMIT {
        return Err(ParamKind::TooLong);
    }
    if spelled(word, b"COMMENT") {
        return Ok(());
    }
    let Some(key) = key_of(word) else {
        return Err(ParamKind::UnknownKey);
    };
    take_key(alloc, settings, key, value_behind(rest))
}

/// Takes a line that is not the line of EOF, given without leading blanks.
///
/// # Errors
/// `TooLong` for a key of more than 64 bytes, `UnknownKey` for a line without a known key, and the faults of
/// `take_key`.
#[tactic(auto, unfolding(crate::specs::Entries::entry_of))]
pub fn take_line(alloc: Global, settings: &mut Settings, line: &[u8]) -> Result<(), ParamKind>
    ensures ok { OnOk result (HasTakenLine settings.old settings.new (Values.line_means settings.old line.now)) }
    ensures err { IfErr result (IsReportedKind (λ k. Values.line_means settings.old line.now ≡ Values.Faulty k)) }
{
    if line.is_empty() {
        return Ok(());
    }
    if line[0] == b'#' {
        return Ok(());
    }
    if !letter(line[0]) {
        return Err(ParamKind::UnknownKey);
    }
    let end = word_end(line);
    take_words(alloc, settings, &line[..end], &line[end..])
}
