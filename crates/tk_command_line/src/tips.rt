//! Tips for an argument that a subcommand does not accept.

use crate::argument::{Argument, Syntax};
use crate::subcommand::Subcommand;
use crate::subcommands::{all, named};
use clap::Error;
use clap::error::ErrorKind;
use std::alloc::{AllocError, Global};

/// The texts before and after the argument in clap's message.
const BEFORE: &str = "error: unexpected argument '";

const AFTER: &str = "' found";

/// The beginning of the usage in clap's message.
const USAGE: &str = "\n\nUsage:";

/// A part of clap's message if an option of the subcommand is similar to the argument.
const SIMILAR: &str = "a similar argument exists";

/// The message of an error with other tips, if a subcommand got an argument that it does not accept. The tips name the
/// subcommands that have such an option, and the arguments of this one. `None` if clap's own message is to be written.
///
/// # Errors
/// `AllocError` if memory runs out.
pub fn with_tips(
    alloc: Global,
    words: &[String],
    error: &Error,
) -> Result<Option<String>, AllocError> {
    if error.kind() != ErrorKind::UnknownArgument {
        return Ok(None);
    }
    let Some(subcommand) = words.get(1).and_then(|name| named(name.as_str())) else {
        return Ok(None);
    };
    let said = format!(in alloc; "{error}")?;
    match parts_of(&said) {
        Some((word, usage)) => Ok(Some(tipped(alloc, &subcommand, word, usage)?)),
        None => Ok(None),
    }
}

/// The argument and the usage in clap's message, unless the message names a similar option.
fn parts_of(said: &str) -> Option<(&str, &str)> {
    let (word, more) = said.strip_prefix(BEFORE)?.split_once(AFTER)?;
    let (tips, usage) = more.split_once(USAGE)?;
    if tips.contains(SIMILAR) {
        return None;
    }
    Some((word, usage))
}

/// The message about an argument that a subcommand does not accept.
fn tipped(
    alloc: Global,
    subcommand: &Subcommand,
    word: &str,
    usage: &str,
) -> Result<String, AllocError> {
    let mut text = format!(in alloc; "{BEFORE}{word}{AFTER}\n")?;
    for other in &all() {
        push_owned(&mut text, other, word)?;
    }
    push_taken(&mut text, subcommand)?;
    text.push_str(USAGE)?;
    text.push_str(usage)?;
    Ok(text)
}

/// Adds a tip for each option of a subcommand that the argument names.
fn push_owned(text: &mut String, subcommand: &Subcommand, word: &str) -> Result<(), AllocError> {
    for argument in subcommand.arguments {
        if is_named(argument, word) {
            text.push_str("\n  tip: '")?;
            push_name(text, argument)?;
            write!(text, "' is an option of 'tourkit {}'", subcommand.name)?;
        }
    }
    Ok(())
}

/// Adds the tip that lists the arguments of a subcommand.
fn push_taken(text: &mut String, subcommand: &Subcommand) -> Result<(), AllocError> {
    write!(text, "\n  tip: '{}' accepts ", subcommand.name)?;
    for (i, argument) in subcommand.arguments.iter().enumerate() {
        if i > 0 {
            text.push_str(", ")?;
        }
        push_name(text, argument)?;
    }
    Ok(())
}

/// Whether an argument is the name of this option, with one dash or two.
fn is_named(argument: &Argument, word: &str) -> bool {
    let Some(name) = word.strip_prefix('-') else {
        return false;
    };
    let name = name.strip_prefix('-').unwrap_or(name);
    match argument.syntax {
        Syntax::Flag | Syntax::Long(_) => name == argument.name,
        Syntax::File(letter) => name == argument.name || is_letter(name, letter),
        Syntax::Number(letter, _) => is_letter(name, letter),
        Syntax::Required | Syntax::Repeated | Syntax::Optional => false,
    }
}

/// Whether a name consists of this letter.
fn is_letter(name: &str, letter: char) -> bool {
    name.len() == letter.len_utf8() && name.starts_with(letter)
}

/// Adds an argument as it is written: an option with its dashes, a positional argument by its name.
fn push_name(text: &mut String, argument: &Argument) -> Result<(), AllocError> {
    match argument.syntax {
        Syntax::Flag | Syntax::Long(_) | Syntax::File(_) => write!(text, "--{}", argument.name),
        Syntax::Number(letter, _) => write!(text, "-{letter}"),
        Syntax::Required | Syntax::Repeated | Syntax::Optional => text.push_str(argument.name),
    }
}
