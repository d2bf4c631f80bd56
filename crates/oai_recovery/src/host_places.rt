//! The folder, the port and the streams of the system.
ghost use Rattle.oai_archive.specs.Readings.{IsReadBack};
ghost use Rattle.oai_journal.specs.Recovered.{disk_of};
ghost use Rattle.std.specs.Prelude.{◌≡◌, IfOk, IsTrue};

use crate::folder_files::{FolderFiles, Fresh, disk_at, stop_of};
use crate::host_folders::HostFolder;
use crate::journals::MAX_TAIL;
use crate::notices::Notice;
use crate::places::Place;
use crate::served_disks::ServedDisk;
use oai_archive::ServerStop;
use oai_device::FileDevice;
use oai_item::Forms;
use oai_journal::Recovery;
use oai_serving::{Listener, Socket};
use oai_startup::Stop;
use sqlite_disk::Disk;
use sqlite_std_file::{FileFrom, Start, Wary};
use std::fs::{File, TryLockError};
use std::io::ErrorKind;
use std::net::{IpAddr, Ipv4Addr, SocketAddr};

/// A folder by its path, a port of an address, and the standard streams. In the folder are `lock`, which is locked from
/// the first call to the last and never renamed, `journal`, `journal-wal`, which the file layer keeps beside it and
/// which is empty, and `pages`; while a journal is begun also `journal.new` and `journal.new-wal`.
///
/// `S` stands for the bytes of the file of the folder's journal, as it is opened to be served, and `T` for those of one
/// that was begun. Its value is used up then, so that no second file is opened as that one.
#[derive(Drop)]
pub struct HostPlace<'a, S, T> {
    files: FolderFiles<'a>,
    address: IpAddr,
    port: u16,
    is_quiet: bool,
    max_tail: usize,
    lock: Option<File>,
    found: Option<S>,
    begun: Option<T>,
}

impl<'a, S: Start, T: Start> HostPlace<'a, S, T> {
    /// The folder at that path, and that port of 127.0.0.1; port 0 means a free one. Nothing is opened.
    pub fn new(
        rt: &'a HostRuntime,
        folder: &'a str,
        port: u16,
        found: S,
        begun: T,
    ) -> HostPlace<'a, S, T> {
        HostPlace {
            files: FolderFiles::new(rt, folder),
            address: IpAddr::V4(Ipv4Addr::LOCALHOST),
            port,
            is_quiet: false,
            max_tail: MAX_TAIL,
            lock: None,
            found: Some(found),
            begun: Some(begun),
        }
    }

    /// The same with the port of that address.
    pub fn listening_at(mut self, address: IpAddr) -> HostPlace<'a, S, T> {
        self.address = address;
        self
    }

    /// The same, whose server writes a checkpoint once its journal is so many bytes longer than twice what it was after the
    /// last one, or at the start; otherwise 64 MiB.
    pub fn checkpointing_after(mut self, bytes: usize) -> HostPlace<'a, S, T> {
        self.max_tail = bytes;
        self
    }

    /// The same, to which nothing is reported if it is quiet.
    pub fn quiet(mut self, is_quiet: bool) -> HostPlace<'a, S, T> {
        self.is_quiet = is_quiet;
        self
    }
}

/// The disk over the file at the path, whose contents are those of the start. The error is `InUse` if it was used up.
fn served_at<S: Start>(
    rt: &HostRuntime,
    path: &str,
    start: Option<S>,
) -> Result<FileFrom<S>, ServerStop>
    ensures { IfOk result (λ disk. ⟦<FileFrom<S> as Disk>⟧.seen disk ≡ S.Start.db) }
{
    match start {
        Some(start) => disk_at(rt, path, start),
        None => Err(ServerStop::InUse),
    }
}

impl<'a, S: Start, T: Start> Place for HostPlace<'a, S, T> {
    ghost use Rattle.std.specs.Prelude.{Some};

    type Disk = ServedDisk<FileFrom<S>, FileFrom<T>>;

    type OldDisk = FileFrom<Wary>;

    type NewDisk = FileFrom<Fresh>;

    type Pages = FileDevice<File>;

    type Link = Socket;

    type Port = Listener;

    type Folder = HostFolder<'a>;

    ghost held = { Some S.Start.db };

    ghost held_begun = { Some T.Start.db };

    fn lock(&mut self) -> Result<(), ServerStop> {
        self.files.make_folder()?;
        let file = self.files.open_file("lock", false)?;
        match file.try_lock() {
            Ok(()) => {
                self.lock = Some(file);
                Ok(())
            }
            Err(TryLockError::WouldBlock) => Err(ServerStop::InUse),
            Err(TryLockError::Error(error)) => Err(stop_of(error)),
        }
    }

    fn listen(&mut self) -> Result<Listener, ServerStop> {
        let address = SocketAddr::new(self.address, self.port);
        match Listener::bind(self.files.rt.alloc(), self.files.rt, address) {
            Ok(listener) => Ok(listener),
            Err(error) if error.kind() == ErrorKind::OutOfMemory => {
                Err(ServerStop::Common(Stop::NoMemory))
            }
            Err(_) => Err(ServerStop::Common(Stop::SocketFault)),
        }
    }

    fn find_journal(&mut self) -> Result<bool, ServerStop> {
        self.files.remove_begun()?;
        self.files.remove_beside()?;
        self.files.has_file("journal")
    }

    fn open_journal(&mut self) -> Result<ServedDisk<FileFrom<S>, FileFrom<T>>, ServerStop> {
        let path = self.files.path("journal")?;
        match served_at(self.files.rt, path.as_str(), self.found.take()) {
            Ok(disk) => Ok(ServedDisk::Found(disk)),
            Err(stop) => Err(stop),
        }
    }

    fn begin_journal(&mut self) -> Result<FileFrom<Fresh>, ServerStop> {
        self.files.begin_journal()
    }

    fn open_begun(&mut self) -> Result<ServedDisk<FileFrom<S>, FileFrom<T>>, ServerStop> {
        let path = self.files.path("journal.new")?;
        match served_at(self.files.rt, path.as_str(), self.begun.take()) {
            Ok(disk) => Ok(ServedDisk::Begun(disk)),
            Err(stop) => Err(stop),
        }
    }

    fn empty_pages(&mut self) -> Result<FileDevice<File>, ServerStop> {
        match self.files.open_file("pages", true) {
            Ok(file) => Ok(FileDevice::new(file)),
            Err(ServerStop::CannotOpen) => Err(ServerStop::Common(Stop::DeviceFault)),
            Err(stop) => Err(stop),
        }
    }

    fn keep_journal(
        &mut self,
        _begun: &Recovery<ServedDisk<FileFrom<S>, FileFrom<T>>>,
    ) -> Result<(), ServerStop>
        requires synced { IsTrue (⟦<ServedDisk<FileFrom<S>, FileFrom<T>> as Disk>⟧.is_clean (disk_of _begun.now))
            → IsReadBack ⟦<ServedDisk<FileFrom<S>, FileFrom<T>> as Disk>⟧.seen ⟦<ServedDisk<FileFrom<S>, FileFrom<T>> as Disk>⟧.may_leave _begun.now }
    {
        self.files.replace_journal()?;
        self.files.remove_beside()?;
        self.files.sync_all()
    }

    fn announce(&mut self, port: &Listener) -> Result<(), ServerStop> {
        let Ok(address) = port.address() else {
            return Err(ServerStop::Common(Stop::SocketFault));
        };
        match println!(self.files.rt; "listening on {address}") {
            Ok(()) => Ok(()),
            Err(_) => Err(ServerStop::Common(Stop::OutputFault)),
        }
    }

    fn tell(&mut self, notice: Notice) {
        if !self.is_quiet {
            let _ = eprintln!(self.files.rt; "{notice}");
        }
    }

    fn tell_figures(&mut self, line: &str) {
        if !self.is_quiet {
            let _ = eprintln!(self.files.rt; "figures: {line}");
        }
    }

    fn read_journal(&mut self) -> Result<FileFrom<Wary>, ServerStop> {
        disk_at(self.files.rt, self.files.path("journal")?.as_str(), Wary)
    }

    fn folder(&mut self, text: Vec<u8>, forms: Forms) -> Result<HostFolder<'a>, ServerStop> {
        let (is_quiet, max_tail) = (self.is_quiet, self.max_tail);
        Ok(HostFolder::new(self.files, text, forms, is_quiet, max_tail))
    }
}
