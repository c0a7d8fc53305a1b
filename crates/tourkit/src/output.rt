//! Writes the output file of `solve`.
use crate::part::{Part, Unsaved, hindered, replace};
use std::fs::{self, File, Metadata};
use std::io::{self, ErrorKind, Seek, SeekFrom, Write};
use std::path::{Path, PathBuf};
use tk_console::file_id::{FileId, id_of};
use tk_console::refusal::{Reason, Refusal};

/// Maximum number of links that are followed from a name to a file that does not exist yet.
const LINKS: u32 = 40;

/// What a name leads to.
#[derive(Drop)]
enum Target {
    /// A regular file, open for writing, with its old contents.
    Plain(File),
    /// A device, a pipe or a socket.
    Special,
    /// Standard output, which is redirected to a regular file.
    Output,
    /// A link to a file that does not exist.
    Dangling,
    /// Nothing.
    Nothing,
}

/// Checks before a search whether its text can be saved under a name. For a file that does not exist yet, or the
/// missing target of a link, it creates and removes a temporary file in the same directory.
///
/// # Errors
/// Why it cannot be saved.
pub fn find_place<'a>(rt: &HostRuntime, name: &'a str) -> Result<(), Refusal<'a>> {
    try_place(rt, name).map_err(|unsaved| refusal_of(name, unsaved))
}

/// Checks whether a text can be saved under a name.
fn try_place(rt: &HostRuntime, name: &str) -> Result<(), Unsaved> {
    match target_of(rt, name)? {
        Target::Plain(_) | Target::Special | Target::Output => Ok(()),
        Target::Dangling => try_part(rt, end_of_links(rt, name)?.as_str()),
        Target::Nothing => try_part(rt, name),
    }
}

/// Checks whether a file can be created at a path, by creating and removing one next to it.
fn try_part(rt: &HostRuntime, path: &str) -> Result<(), Unsaved> {
    if path.is_empty() {
        return Err(Unsaved::Unopened);
    }
    Part::next_to(rt, path, None)?.remove(rt);
    Ok(())
}

/// What a name leads to. The system follows its links, so that it can reject those that it does not trust.
fn target_of(rt: &HostRuntime, name: &str) -> Result<Target, Unsaved> {
    match fs::metadata(rt, name) {
        Ok(found) if found.is_dir() => Err(Unsaved::Unopened),
        Ok(found) if is_standard_output(rt, name, &found) => Ok(Target::Output),
        Ok(found) if found.is_file() => Ok(Target::Plain(open_old(rt, name)?)),
        Ok(_) => Ok(Target::Special),
        Err(error) if error.kind() == ErrorKind::NotFound => missing(rt, name),
        Err(error) => Err(unopened(error)),
    }
}

/// Whether a name such as `/dev/stdout` leads to the regular file to which standard output is redirected. The text is
/// then written after the printed lines, as in a pipe.
fn is_standard_output(rt: &HostRuntime, name: &str, found: &Metadata) -> bool {
    let output = id_of(fs::metadata(rt, "/dev/stdout"));
    name.starts_with("/dev/") && output.is_some() && output == FileId::of(found)
}

/// What a name leads to, if its file does not exist.
fn missing(rt: &HostRuntime, name: &str) -> Result<Target, Unsaved> {
    match fs::symlink_metadata(rt, name) {
        Ok(_) => Ok(Target::Dangling),
        Err(error) if error.kind() == ErrorKind::NotFound => Ok(Target::Nothing),
        Err(error) => Err(unopened(error)),
    }
}

/// Opens a file that exists, without truncating it. The call would also create the file: in a world-writable directory,
/// the system protects the files of others only from such calls.
fn open_old(rt: &HostRuntime, name: &str) -> Result<File, Unsaved> {
    let opened = File::options().write(true).create(true).open(rt, name);
    opened.map_err(unopened)
}

/// The path that a link leads to, possibly through other links, if nothing exists there.
fn end_of_links(rt: &HostRuntime, name: &str) -> Result<PathBuf, Unsaved> {
    let mut path = named_by_link(rt, name)?;
    for _ in 0..LINKS {
        match missing(rt, path.as_str())? {
            Target::Dangling => path = named_by_link(rt, path.as_str())?,
            _ => return Ok(path),
        }
    }
    Err(Unsaved::Unopened)
}

/// The path that a link names. A relative one starts in the directory of the link.
fn named_by_link(rt: &HostRuntime, link: &str) -> Result<PathBuf, Unsaved> {
    let target = fs::read_link(rt, link).map_err(unopened)?;
    Ok(Path::new(link).with_file_name(rt.alloc(), target.as_str())?)
}

/// Writes a text to a file. A regular file is unchanged until the text has been written to a temporary file next to it,
/// or, if that file cannot be created or renamed, until there is room for the text. A device or a pipe is written
/// directly.
///
/// # Errors
/// Why it was not saved.
pub fn save<'a>(rt: &HostRuntime, name: &'a str, text: &[u8]) -> Result<(), Refusal<'a>> {
    try_save(rt, name, text).map_err(|unsaved| refusal_of(name, unsaved))
}

/// Writes a text to what a name leads to.
fn try_save(rt: &HostRuntime, name: &str, text: &[u8]) -> Result<(), Unsaved> {
    match target_of(rt, name)? {
        Target::Plain(file) => save_old(rt, name, file, text),
        Target::Special | Target::Dangling => write_directly(rt, name, text),
        Target::Output => rt.stdout().write_all(text).map_err(|_| Unsaved::Unwritten),
        Target::Nothing => save_new(rt, name, text),
    }
}

/// The refusal if a text was not or cannot be saved under a name.
fn refusal_of(name: &str, unsaved: Unsaved) -> Refusal<'_> {
    match unsaved {
        Unsaved::Unwritten => Reason::Unwritten.alone(),
        Unsaved::NoMemory => Reason::NoMemory.alone(),
        Unsaved::NoOther | Unsaved::Unopened => Reason::Unopened.about(name),
    }
}

/// Writes the text to a file that exists and is open. The file is replaced at the path that the name leads to; on
/// `Unsaved::NoOther`, it is overwritten instead.
fn save_old(rt: &HostRuntime, name: &str, file: File, text: &[u8]) -> Result<(), Unsaved> {
    let found = file.metadata().map_err(unopened)?;
    match replace_old(rt, name, &found, text) {
        Err(Unsaved::NoOther) => write_over(file, found.len(), text),
        replaced => replaced,
    }
}

/// Replaces the file that was found under a name, if it is still there.
fn replace_old(rt: &HostRuntime, name: &str, found: &Metadata, text: &[u8]) -> Result<(), Unsaved> {
    let path = fs::canonicalize(rt, name).map_err(hindered)?;
    if id_of(fs::metadata(rt, path.as_str())) != FileId::of(found) {
        return Err(Unsaved::NoOther);
    }
    replace(rt, path.as_str(), text, Some(found))?;
    Ok(())
}

/// Writes the text to a file that does not exist.
fn save_new(rt: &HostRuntime, name: &str, text: &[u8]) -> Result<(), Unsaved> {
    match replace(rt, name, text, None) {
        Ok(_) => Ok(()),
        Err(Unsaved::NoOther) => write_directly(rt, name, text),
        Err(unsaved) => Err(unsaved),
    }
}

/// Why a text is not saved, if its file cannot be opened.
fn unopened(error: io::Error) -> Unsaved {
    match error.kind() {
        ErrorKind::OutOfMemory => Unsaved::NoMemory,
        _ => Unsaved::Unopened,
    }
}

/// Overwrites a regular file with the text, after extending it to the length of the text. If there is no room for that,
/// the file gets its old length back and is unchanged.
fn write_over(mut file: File, length: u64, text: &[u8]) -> Result<(), Unsaved> {
    if lengthen(&mut file, length, text).is_err() {
        let _ = file.set_len(length);
        return Err(Unsaved::Unwritten);
    }
    overwrite(&mut file, text).map_err(|_| Unsaved::Unwritten)
}

/// Appends the part of the text beyond the length of the file, and waits until it is on disk.
fn lengthen(file: &mut File, length: u64, text: &[u8]) -> io::Result<()> {
    let Some((_, more)) = text.split_at_checked(length as usize) else {
        return Ok(());
    };
    file.seek(SeekFrom::Start(length))?;
    file.write_all(more)?;
    file.sync_all()
}

/// Overwrites the file with the text from its first byte on, cuts it off at the end of the text, and waits until it is
/// on disk.
fn overwrite(file: &mut File, text: &[u8]) -> io::Result<()> {
    file.seek(SeekFrom::Start(0))?;
    file.write_all(text)?;
    file.set_len(text.len() as u64)?;
    file.sync_all()
}

/// Writes the text directly to what the name leads to: a device, a pipe, a socket or a new file.
fn write_directly(rt: &HostRuntime, name: &str, text: &[u8]) -> Result<(), Unsaved> {
    let mut file = File::create(rt, name).map_err(unopened)?;
    file.write_all(text).map_err(|_| Unsaved::Unwritten)
}
