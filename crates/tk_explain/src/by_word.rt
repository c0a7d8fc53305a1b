//! The explanation of a fault of a file or of a verdict, by its number or its name.
ghost use Rattle.std.specs.Prelude.{◌≡◌, ◌<◌, ◌↔◌, length, All, IsTrue, is_some, IfOk, IfSome};
ghost use Rattle.std.specs.Char.{IsAsciiDigit};
ghost use Rattle.std.specs.String.{string_len};
ghost use Rattle.tk_explain.specs.FaultWords.{is_fault, is_named, same_fault_word, without_zeros};

use crate::fault_table::{FaultText, faults};
use crate::page::{CAUSES, MEANING, Page, REMEDY};
use std::alloc::{AllocError, Global};

/// The explanations of all faults with this number or name, whatever its case; `None` if there is no such fault. The
/// faults of verdicts have only names.
///
/// # Errors
/// `AllocError` if memory runs out.
pub fn fault_page(alloc: Global, what: &str) -> Result<Option<String>, AllocError>
    ensures found { IfOk result (λ page. is_some page ≡ is_fault what.now) }
    ensures words { IfOk result (λ page. IfSome page (λ text. 0 < string_len text)) }
{
    if !is_fault(what) {
        return Ok(None);
    }
    let mut page = Page::new(alloc);
    add_all(&mut page, what)?;
    Ok(Some(page.finished()?))
}

/// Whether a word is the number or the name of a fault.
fn is_fault(what: &str) -> bool
    ensures { result ≡ is_fault what.now }
{
    faults().iter().any(|fault| is_named(fault, what))
}

/// Adds the explanations of all faults with this number or name, separated by blank lines.
fn add_all(page: &mut Page, what: &str) -> Result<(), AllocError> {
    let mut is_first = true;
    for fault in faults().iter() {
        if is_named(fault, what) {
            if !is_first {
                page.begin()?;
            }
            add(page, fault)?;
            is_first = false;
        }
    }
    Ok(())
}

/// Whether a word is a number: one or more digits, and nothing else.
pub fn is_number(what: &str) -> bool
    ensures { IsTrue result ↔ (0 < length what.now) × All IsAsciiDigit what.now }
{
    !what.is_empty() && what.as_bytes().iter().all(|byte| byte.is_ascii_digit())
}

/// Whether a word is the number or the name of this fault.
fn is_named(fault: &FaultText, what: &str) -> bool
    ensures { result ≡ is_named (fault.now.number.now, fault.now.name.now) what.now }
{
    let what = what.as_bytes();
    (!fault.number.is_empty() && same_word(without_zeros(what), fault.number.as_bytes()))
        || same_word(what, fault.name.as_bytes())
}

/// A number without its leading zeros.
fn without_zeros(what: &[u8]) -> &[u8]
    ensures { result.now ≡ without_zeros what.now }
{
    for i in 0..what.len() {
        if what[i] != b'0' {
            return &what[i..];
        }
    }
    &[]
}

/// Whether two words are equal, whatever their case.
fn same_word(bytes: &[u8], text: &[u8]) -> bool
    ensures { result ≡ same_fault_word bytes.now text.now }
{
    if bytes.len() != text.len() {
        return false;
    }
    for i in 0..bytes.len() {
        if bytes[i].to_ascii_uppercase() != text[i].to_ascii_uppercase() {
            return false;
        }
    }
    true
}

/// Adds the explanation of a fault.
fn add(page: &mut Page, fault: &FaultText) -> Result<(), AllocError> {
    page.line(fault)?;
    page.labelled(MEANING, fault.when)?;
    page.labelled(CAUSES, fault.causes)?;
    page.labelled(REMEDY, fault.remedy)
}
