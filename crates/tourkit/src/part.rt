//! A new file next to another one, which it replaces once it is complete.
use std::alloc::AllocError;
use std::fs::{self, File, Metadata, Permissions};
use std::io::{self, ErrorKind, Write};
use std::os::fd::AsFd;
use std::os::unix::fs::{MetadataExt, OpenOptionsExt, PermissionsExt, fchown};
use std::process;

/// Maximum number of names that are tried for a new file.
const NAMES: u32 = 100;

/// The bits of a mode that a new file takes over from an old one: who may read, write and run it. The setuid and setgid
/// bits are not among them.
const PERMISSIONS: u32 = 0o777;

/// The mode that is requested for a new file. The caller's umask clears some of its bits.
const NEW_FILE: u32 = 0o666;

/// Why a text was not saved.
#[derive(Drop)]
pub enum Unsaved {
    /// No new file could be created next to the file, or it could not replace the file.
    NoOther,
    /// The file could not be opened.
    Unopened,
    /// The text could not be written.
    Unwritten,
    /// Memory ran out.
    NoMemory,
}

impl From<AllocError> for Unsaved {
    fn from(_error: AllocError) -> Unsaved {
        Unsaved::NoMemory
    }
}

/// Writes a text to a new file next to the one at `path`, waits until it is on disk, and renames it to `path`. Returns
/// the metadata of the new file. If that fails, an old file at `path` is unchanged.
///
/// # Errors
/// `Unsaved`, as it says.
pub fn replace(
    rt: &HostRuntime,
    path: &str,
    text: &[u8],
    old: Option<&Metadata>,
) -> Result<Metadata, Unsaved> {
    let mut part = Part::next_to(rt, path, old)?;
    let Ok(found) = part.fill(text) else {
        part.remove(rt);
        return Err(Unsaved::Unwritten);
    };
    part.put_in_place(rt, path).map_err(hindered)?;
    Ok(found)
}

/// A new file next to another one.
#[derive(Drop)]
pub struct Part {
    name: String,
    file: File,
}

impl Part {
    /// Creates a new file next to the one at `path`, under the first of some short names that is free. If there is an
    /// old file at `path`, the new one gets its owner, group and permissions, as far as the caller is allowed to set
    /// them. Otherwise, its permissions are at most those of any file that the caller creates.
    ///
    /// # Errors
    /// `Unsaved`, as it says.
    pub fn next_to(rt: &HostRuntime, path: &str, old: Option<&Metadata>) -> Result<Part, Unsaved> {
        let part = create(rt, path, old.map_or(NEW_FILE, |old| old.mode() & NEW_FILE))?;
        if let Some(old) = old {
            if keep_permissions(&part.file, old).is_err() {
                part.remove(rt);
                return Err(Unsaved::Unwritten);
            }
        }
        Ok(part)
    }

    /// Writes a text to the new file, and waits until it is on disk.
    fn fill(&mut self, text: &[u8]) -> io::Result<Metadata> {
        self.file.write_all(text)?;
        self.file.sync_all()?;
        self.file.metadata()
    }

    /// Renames the new file to `path`, and waits until the directory is on disk. If that fails, removes the new file.
    fn put_in_place(&self, rt: &HostRuntime, path: &str) -> io::Result<()> {
        let placed = fs::rename(rt, &self.name, path);
        if placed.is_err() {
            self.remove(rt);
        } else {
            sync_directory(rt, path);
        }
        placed
    }

    /// Removes the new file.
    pub fn remove(&self, rt: &HostRuntime) {
        let _ = fs::remove_file(rt, &self.name);
    }
}

/// Creates a new file with at most these permissions.
fn create(rt: &HostRuntime, path: &str, mode: u32) -> Result<Part, Unsaved> {
    for number in 0..NAMES {
        let name = part_name(rt, path, number)?;
        let created = File::options()
            .write(true)
            .create_new(true)
            .mode(mode)
            .open(rt, &name);
        match created {
            Ok(file) => return Ok(Part { name, file }),
            Err(error) if error.kind() == ErrorKind::AlreadyExists => {}
            Err(error) => return Err(hindered(error)),
        }
    }
    Err(Unsaved::NoOther)
}

/// A name in the directory of the file.
fn part_name(rt: &HostRuntime, path: &str, number: u32) -> Result<String, AllocError> {
    let directory = directory_of(path);
    let process = process::id(rt.process());
    format!(in rt.alloc(); "{directory}/tourkit.{process}.{number}.part")
}

/// The directory of a file.
fn directory_of(path: &str) -> &str {
    match path.rsplit_once('/') {
        Some(("", _)) => "/",
        Some((directory, _)) => directory,
        None => ".",
    }
}

/// Gives a new file the owner and the group of an old one, and then its permissions. If it cannot get both, it keeps
/// the permissions that it was created with.
fn keep_permissions(new: &File, old: &Metadata) -> io::Result<()> {
    if has_owner_of(new, old)? || give_to_owner_of(new, old) {
        new.set_permissions(Permissions::from_mode(old.mode() & PERMISSIONS))?;
    }
    Ok(())
}

/// Whether both files belong to the same owner and group.
fn has_owner_of(new: &File, old: &Metadata) -> io::Result<bool> {
    let found = new.metadata()?;
    Ok(found.uid() == old.uid() && found.gid() == old.gid())
}

/// Gives a new file the owner and the group of an old one, or at least its group. Returns whether it got both.
fn give_to_owner_of(new: &File, old: &Metadata) -> bool {
    let given = fchown(new.as_fd(), Some(old.uid()), Some(old.gid())).is_ok();
    if !given {
        let _ = fchown(new.as_fd(), None, Some(old.gid()));
    }
    given
}

/// Waits until the directory of a file is on disk, if the file system supports that.
fn sync_directory(rt: &HostRuntime, path: &str) {
    if let Ok(directory) = File::open(rt, directory_of(path)) {
        let _ = directory.sync_all();
    }
}

/// The reason why a text was not saved, if its file cannot be created or renamed. If the disk is full or memory has run
/// out, no other way is tried.
pub fn hindered(error: io::Error) -> Unsaved {
    match error.kind() {
        ErrorKind::StorageFull | ErrorKind::QuotaExceeded => Unsaved::Unwritten,
        ErrorKind::OutOfMemory => Unsaved::NoMemory,
        _ => Unsaved::NoOther,
    }
}
