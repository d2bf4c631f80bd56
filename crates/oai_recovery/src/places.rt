//! The outside of a server: its folder, port and streams.
ghost use Rattle.oai_archive.specs.Readings.{IsReadBack};
ghost use Rattle.oai_journal.specs.Recovered.{disk_of};
ghost use Rattle.oai_serving.specs.Accepted.{PassesNone, known_of};
ghost use Rattle.std.specs.Prelude.{◌≡◌, ℕ, Bool, false, IfOk, IfSome, IsTrue, List, None, Option};

use crate::notices::Notice;
use oai_archive::ServerStop;
use oai_device::PageDevice;
use oai_durable::Folder;
use oai_item::Forms;
use oai_journal::{FileJournal, Recovery};
use oai_serving::{Sockets, Stream};
use sqlite_disk::Disk;

/// A folder, a port, and the streams on which a server reports. A startup makes the calls in the order of the methods
/// here, and opens the folder's journal once, and one that was begun once. If a checkpoint replaces the journal, the
/// pages are emptied twice: before `begin_journal`, for the replay of the old journal, and after `open_begun`. The disks
/// of the journal that is served, of one that a checkpoint without a server replaces, and of one that is written have
/// three types, since a disk's clauses about its contents are about one file.
pub trait Place {
    /// The disk of the journal that is served.
    type Disk: Disk + Drop;
    /// The disk of a journal that is read, and not served.
    type OldDisk: Disk + Drop;
    /// The disk of a journal that is begun.
    type NewDisk: Disk + Drop;
    /// The device of the pages.
    type Pages: PageDevice + Drop;
    /// The stream of a connection.
    type Link: Stream + Drop;
    /// What accepts connections.
    type Port: Sockets<Self::Link> + Drop;
    /// The folder, in which checkpoints are written while a server serves.
    type Folder: Folder<FileJournal<Self::NewDisk>> + Drop;

    /// The bytes of the file of the folder's journal, as it is opened to be served, if they are known.
    ghost held: { Option (List ℕ) } = { None };

    /// The same of the journal that was begun.
    ghost held_begun: { Option (List ℕ) } = { None };

    /// Whether the device of the pages returns what was written to it.
    ghost is_honest: { Bool } = { false };

    /// Opens the folder, or creates it, and locks it until the end. The errors are `CannotOpen` and `InUse`.
    fn lock(&mut self) -> Result<(), ServerStop>;

    /// Listens at the port; connections wait until they are accepted, and none has been accepted or closed yet. The errors are
    /// `SocketFault` and `NoMemory`.
    fn listen(&mut self) -> Result<Self::Port, ServerStop>
        ensures { IfOk result (λ port. PassesNone (known_of (Self.Port.Sockets.accepted port) (Self.Port.Sockets.gone port))) };

    /// Removes what an earlier startup left of a journal that it began, and returns whether there is a journal.
    fn find_journal(&mut self) -> Result<bool, ServerStop>;

    /// The disk of the folder's journal, to be served.
    fn open_journal(&mut self) -> Result<Self::Disk, ServerStop>
        ensures { IfOk result (λ disk. IfSome held (λ file. Self.Disk.Disk.seen disk ≡ file)) };

    /// The disk of a journal that is begun beside the folder's: it is empty.
    fn begin_journal(&mut self) -> Result<Self::NewDisk, ServerStop>;

    /// The disk of the journal that was begun and written, to be read back and served.
    fn open_begun(&mut self) -> Result<Self::Disk, ServerStop>
        ensures { IfOk result (λ disk. IfSome held_begun (λ file. Self.Disk.Disk.seen disk ≡ file)) };

    /// The device of the pages, empty.
    fn empty_pages(&mut self) -> Result<Self::Pages, ServerStop>
        ensures { IfOk result (λ pages. IsTrue is_honest → IsTrue (Self.Pages.PageDevice.honest pages)) };

    /// Replaces the folder's journal, if there is one, by the journal that was begun. It was read to its end, and all
    /// its bytes are synced.
    fn keep_journal(&mut self, begun: &Recovery<Self::Disk>) -> Result<(), ServerStop>
        requires synced { IsTrue (Self.Disk.Disk.is_clean (disk_of begun.now))
            → IsReadBack Self.Disk.Disk.seen Self.Disk.Disk.may_leave begun.now };

    /// Writes to standard output at which port it listens. The error is `OutputFault`, or `SocketFault` if the port is
    /// not known.
    fn announce(&mut self, port: &Self::Port) -> Result<(), ServerStop>;

    /// Reports to the operator what the server does. A report that cannot be written ends nothing.
    fn tell(&mut self, notice: Notice);

    /// Reports the figures of the server to the operator, each hour, as a line. One that cannot be written ends nothing.
    fn tell_figures(&mut self, line: &str);

    /// The disk of the folder's journal, to be read, for a checkpoint without a server.
    fn read_journal(&mut self) -> Result<Self::OldDisk, ServerStop>;

    /// The folder, in which checkpoints with the configuration in the text are written while a server serves; none over
    /// a journal whose records are lists of fields alone. The error is `NoMemory`.
    fn folder(&mut self, text: Vec<u8>, forms: Forms) -> Result<Self::Folder, ServerStop>;
}
