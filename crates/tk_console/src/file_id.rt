//! The identity of files.
use std::fs::Metadata;
use std::io;
use std::os::unix::fs::MetadataExt;

/// The identity of a regular file, whatever name or link leads to it.
#[derive(Clone, Copy, PartialEq, Eq)]
pub struct FileId {
    device: u64,
    inode: u64,
}

impl FileId {
    /// The identity of the file with this metadata; `None` unless it is a regular file.
    pub fn of(found: &Metadata) -> Option<FileId> {
        if !found.is_file() {
            return None;
        }
        Some(FileId {
            device: found.dev(),
            inode: found.ino(),
        })
    }
}

/// The identity of the file that was found; `None` unless it is a regular file.
pub fn id_of(found: io::Result<Metadata>) -> Option<FileId> {
    match found {
        Ok(found) => FileId::of(&found),
        Err(_) => None,
    }
}

/// The identity of a regular file, with its length and the time of its last modification. These count too, since a new
/// file may get the inode number of a removed one.
#[derive(Clone, Copy, PartialEq, Eq)]
pub struct Stamp {
    id: FileId,
    length: u64,
    seconds: i64,
    nanoseconds: i64,
}

impl Stamp {
    /// The stamp of the file with this metadata; `None` unless it is a regular file.
    pub fn of(found: &Metadata) -> Option<Stamp> {
        let id = FileId::of(found)?;
        Some(Stamp {
            id,
            length: found.len(),
            seconds: found.mtime(),
            nanoseconds: found.mtime_nsec(),
        })
    }
}
