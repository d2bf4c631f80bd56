//! The files in a folder of the system.
ghost use Rattle.std.specs.Prelude.{◌≡◌, [], false, IfOk};

use oai_archive::ServerStop;
use oai_startup::Stop;
use sqlite_disk::{Disk, Files};
use sqlite_std_file::{FileFrom, OpenError, Start, open};
use std::fs::{self, DirBuilder, File, OpenOptions};
use std::io::{self, ErrorKind};
use std::os::unix::fs::{DirBuilderExt, OpenOptionsExt};

/// The mode of a new folder.
const FOLDER_MODE: u32 = 0o750;

/// The mode of a new file.
const FILE_MODE: u32 = 0o640;

/// The start of a file that is empty as it is opened, as each `journal.new` is. A torn write may leave any bytes in it.
#[derive(Drop)]
pub struct Fresh;

impl Start for Fresh {
    ghost log = { [] };

    ghost db = { [] };

    ghost is_mixing = { false };

    fn mixes() -> bool {
        false
    }
}

/// The files in a folder, by its path.
#[derive(Clone, Copy)]
pub(crate) struct FolderFiles<'a> {
    pub(crate) rt: &'a HostRuntime,
    folder: &'a str,
}

impl<'a> FolderFiles<'a> {
    /// Of the folder at that path. Nothing is opened.
    pub(crate) fn new(rt: &'a HostRuntime, folder: &'a str) -> FolderFiles<'a> {
        FolderFiles { rt, folder }
    }

    /// The path of the file with that name in the folder.
    pub(crate) fn path(&self, name: &str) -> Result<String, ServerStop> {
        let folder = self.folder;
        Ok(format!(in self.rt.alloc(); "{folder}/{name}")?)
    }

    /// Removes the file with that name, if it exists.
    fn remove(&self, name: &str) -> Result<(), ServerStop> {
        match fs::remove_file(self.rt, self.path(name)?.as_str()) {
            Ok(()) => Ok(()),
            Err(error) if error.kind() == ErrorKind::NotFound => Ok(()),
            Err(error) => Err(stop_of(error)),
        }
    }

    /// Syncs the folder with that name in the folder, such as `.`.
    fn sync(&self, name: &str) -> Result<(), ServerStop> {
        let folder = match File::open(self.rt, self.path(name)?.as_str()) {
            Ok(folder) => folder,
            Err(error) => return Err(stop_of(error)),
        };
        match folder.sync_all() {
            Ok(()) => Ok(()),
            Err(_) => Err(ServerStop::CannotWrite),
        }
    }

    /// Syncs the folder, and the one that it is in.
    pub(crate) fn sync_all(&self) -> Result<(), ServerStop> {
        self.sync(".")?;
        self.sync("..")
    }

    /// Creates the folder, unless it exists.
    pub(crate) fn make_folder(&self) -> Result<(), ServerStop> {
        let made = DirBuilder::new()
            .mode(FOLDER_MODE)
            .create(self.rt, self.folder);
        match made {
            Ok(()) => self.sync(".."),
            Err(error) if error.kind() == ErrorKind::AlreadyExists => Ok(()),
            Err(error) => Err(stop_of(error)),
        }
    }

    /// Opens the file with that name for reading and writing. It is created if it does not exist, and truncated if
    /// `emptied`.
    pub(crate) fn open_file(&self, name: &str, emptied: bool) -> Result<File, ServerStop> {
        let opened = OpenOptions::new()
            .read(true)
            .write(true)
            .create(true)
            .truncate(emptied)
            .mode(FILE_MODE)
            .open(self.rt, self.path(name)?.as_str());
        match opened {
            Ok(file) => Ok(file),
            Err(error) => Err(stop_of(error)),
        }
    }

    /// Whether there is a file with that name.
    pub(crate) fn has_file(&self, name: &str) -> Result<bool, ServerStop> {
        match fs::symlink_metadata(self.rt, self.path(name)?.as_str()) {
            Ok(_) => Ok(true),
            Err(error) if error.kind() == ErrorKind::NotFound => Ok(false),
            Err(error) => Err(stop_of(error)),
        }
    }

    /// The disk of a journal that is begun beside the folder's: it is empty.
    pub(crate) fn begin_journal(&self) -> Result<FileFrom<Fresh>, ServerStop> {
        drop(self.open_file("journal.new", true)?);
        disk_at(self.rt, self.path("journal.new")?.as_str(), Fresh)
    }

    /// Renames the journal that was begun over the folder's. The errors are `CannotWrite` and `NoMemory`.
    pub(crate) fn replace_journal(&self) -> Result<(), ServerStop> {
        let new = self.path("journal.new")?;
        let kept = self.path("journal")?;
        match fs::rename(self.rt, new.as_str(), kept.as_str()) {
            Ok(()) => Ok(()),
            Err(_) => Err(ServerStop::CannotWrite),
        }
    }

    /// Removes the journal that was begun, if there is one.
    pub(crate) fn remove_begun(&self) -> Result<(), ServerStop> {
        self.remove("journal.new")
    }

    /// Removes the file that was kept beside the journal that was begun, if there is one.
    pub(crate) fn remove_beside(&self) -> Result<(), ServerStop> {
        self.remove("journal.new-wal")
    }
}

/// The disk over the file at the path, whose contents are those of `S`.
pub(crate) fn disk_at<S: Start>(
    rt: &HostRuntime,
    path: &str,
    start: S,
) -> Result<FileFrom<S>, ServerStop>
    ensures { IfOk result (λ disk. ⟦<FileFrom<S> as Disk>⟧.seen disk ≡ S.Start.db) }
{
    match open(rt, path, start) {
        Ok(files) => Ok(database_of(files)),
        Err(error) => Err(stop_of_opening(error)),
    }
}

/// The database file of the two; the log is closed.
fn database_of<S: Start>(files: Files<FileFrom<S>>) -> FileFrom<S>
    ensures { result ≡ files.db }
{
    let Files { db, .. } = files;
    db
}

/// Why the server stops if the file of a journal could not be opened.
fn stop_of_opening(error: OpenError) -> ServerStop {
    match error {
        OpenError::OutOfMemory => ServerStop::Common(Stop::NoMemory),
        OpenError::Busy => ServerStop::InUse,
        OpenError::HotJournal => ServerStop::CannotOpen,
        OpenError::Io(error) => stop_of(error),
    }
}

/// Why the server stops if a file or a folder could not be opened, created or removed.
pub(crate) fn stop_of(error: io::Error) -> ServerStop {
    match error.kind() {
        ErrorKind::OutOfMemory => ServerStop::Common(Stop::NoMemory),
        _ => ServerStop::CannotOpen,
    }
}
