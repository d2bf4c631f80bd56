//! A place in memory.
ghost use Rattle.oai_archive.specs.Readings.{IsReadBack};
ghost use Rattle.oai_journal.specs.Recovered.{disk_of};
ghost use Rattle.std.specs.Prelude.{IsTrue};

use oai_archive::ServerStop;
use oai_daemon::{Ended, serve};
use oai_device::MemoryDevice;
use oai_durable::{CheckpointFault, CheckpointNote, Folder, Replacement};
use oai_item::Forms;
use oai_journal::{FileJournal, Journal, JournalFault, Kind, LogRecord, MAX_BODY, Recovery};
use oai_names::Sequence;
use oai_recovery::{Notice, Place};
use oai_serving::{Readiness, Sockets, Stream};
use oai_startup::{Stop, WrittenConfig};
use sqlite_disk::{Disk, Memory};
use std::alloc::Global;
use std::io::{self, ErrorKind};
use std::rt::Clock;
use std::time::Duration;

/// The configuration of a repository.
pub(crate) fn configuration() -> &'static [u8] {
    b"{\"base\":\"http://host.example\",\"cache\":1,\"repositories\":[{\"name\":\"a\",\"repositoryName\":\"A\",\
\"adminEmail\":[\"a@host.example\"],\"earliestDatestamp\":\"2024-01-01T00:00:00Z\",\"deletedRecord\":\"persistent\",\
\"granularity\":\"seconds\",\"chunk\":2,\"lifetime\":60,\"lists\":1,\"items\":100,\"formats\":[]}]}"
}

/// The body of the first record of its journal.
pub(crate) fn first_body() -> &'static [u8] {
    b"2\n{\"base\":\"http://host.example\",\"cache\":1,\"repositories\":[{\"name\":\"a\",\"repositoryName\":\"A\",\
\"adminEmail\":[\"a@host.example\"],\"earliestDatestamp\":\"2024-01-01T00:00:00Z\",\"deletedRecord\":\"persistent\",\
\"granularity\":\"seconds\",\"chunk\":2,\"lifetime\":60,\"lists\":1,\"items\":100,\"formats\":[]}]}"
}

/// How a service of the configuration in the text ended in that place, with no keys, or why it did not begin.
pub(crate) fn served<C: Clock>(
    place: &mut MemoryPlace<'_>,
    clock: &C,
    text: &[u8],
) -> Result<Result<(), ServerStop>, ServerStop> {
    match service(place, clock, text) {
        Ok(service) => Ok(service.outcome),
        Err(stop) => Err(stop),
    }
}

/// What the client of that place received of a service of the configuration in the text, with no keys.
pub(crate) fn received<C: Clock>(
    place: &mut MemoryPlace<'_>,
    clock: &C,
    text: &[u8],
) -> Result<Vec<u8>, ServerStop> {
    match service(place, clock, text) {
        Ok(service) => Ok(service.received),
        Err(stop) => Err(stop),
    }
}

/// A service that has ended: how, and what its client received.
#[derive(Drop)]
struct EndedService {
    outcome: Result<(), ServerStop>,
    received: Vec<u8>,
}

/// The service of the configuration in the text, with no keys.
fn service<C: Clock>(
    place: &mut MemoryPlace<'_>,
    clock: &C,
    text: &[u8],
) -> Result<EndedService, ServerStop> {
    let alloc = place.alloc();
    let written = written_in(alloc, text)?;
    let rings = Sequence::new(Vec::new(alloc));
    service_of(serve(alloc, place, clock, written, rings))
}

/// The configuration in the text.
fn written_in(alloc: Global, text: &[u8]) -> Result<WrittenConfig, ServerStop> {
    let mut copy = Vec::new(alloc);
    if copy.extend_from_slice(text).is_err() {
        return Err(ServerStop::Common(Stop::NoMemory));
    }
    match WrittenConfig::read(alloc, copy) {
        Ok(written) => Ok(written),
        Err((stop, _)) => Err(ServerStop::Common(stop)),
    }
}

/// The service that has ended, or why it did not begin.
fn service_of<S: Drop, K: OneClient + Drop, H: Drop>(
    ended: Result<Ended<S, K, H>, ServerStop>,
) -> Result<EndedService, ServerStop> {
    match ended {
        Ok(ended) => Ok(EndedService {
            outcome: ended.outcome(),
            received: ended.port.into_received(),
        }),
        Err(stop) => Err(stop),
    }
}

/// What a place is before a service begins.
#[derive(Clone, Copy)]
pub(crate) struct Outset<'a> {
    /// How many calls are done before one fails.
    pub(crate) left: u32,
    /// Whether there is a journal.
    pub(crate) found: bool,
    /// The name and the body of the first record of the journal.
    pub(crate) name: &'static [u8],
    pub(crate) body: &'static [u8],
    /// Another body in its place, if there is one, until a journal of the configuration that is served is kept.
    pub(crate) other: Option<&'a str>,
    /// The moment of a tick of the repository behind the first record, if there is one.
    pub(crate) tick: Option<i64>,
    /// The kind of long records behind that, which make the journal longer than 64 MiB, if there are some.
    pub(crate) long: Option<Kind>,
    /// The moment of a tick behind the first record of a journal that was begun, which has none in fact.
    pub(crate) behind: Option<i64>,
    /// How many times its port can be waited for.
    pub(crate) rounds: u32,
    /// What the one client of its port sends, if there is one.
    pub(crate) sends: Option<&'static [u8]>,
}

/// A place with a journal of its first record alone, no call of which fails.
pub(crate) fn with_journal() -> Outset<'static> {
    Outset {
        left: 100,
        found: true,
        name: b"oaihostd",
        body: first_body(),
        other: None,
        tick: None,
        long: None,
        behind: None,
        rounds: 0,
        sends: None,
    }
}

/// A place that takes note of the calls that are made, and fails at one of them.
#[derive(Drop)]
pub(crate) struct MemoryPlace<'a> {
    alloc: Global,
    outset: Outset<'a>,
    /// How many calls are done before one fails.
    left: u32,
    /// Another body of the first record, if there is one.
    other: Option<&'a str>,
    /// The calls, each with a space behind it.
    pub(crate) calls: String,
    /// The line of figures that was reported last.
    pub(crate) figures: String,
}

impl<'a> MemoryPlace<'a> {
    /// A place in which no call was made.
    pub(crate) fn new(alloc: Global, outset: Outset<'a>) -> MemoryPlace<'a> {
        MemoryPlace {
            alloc,
            outset,
            left: outset.left,
            other: outset.other,
            calls: String::new(alloc),
            figures: String::new(alloc),
        }
    }

    /// Where its memory comes from.
    fn alloc(&self) -> Global {
        self.alloc
    }

    /// Takes note of a call.
    fn call(&mut self, word: &str) -> Result<(), ServerStop> {
        self.calls.push_str(word)?;
        self.calls.push(' ')?;
        if self.left == 0 {
            return Err(ServerStop::Common(Stop::DeviceFault));
        }
        self.left -= 1;
        Ok(())
    }

    /// A disk with the folder's journal: the first record, the tick, and the long records.
    fn journal(&self) -> Result<Memory, ServerStop> {
        let body = match self.other {
            Some(other) => other.as_bytes(),
            None => self.outset.body,
        };
        self.journal_of(body, self.outset.tick, self.outset.long)
    }

    /// A disk with a journal of a first record with that body, of the tick, and of long records of that kind.
    fn journal_of(
        &self,
        body: &[u8],
        tick: Option<i64>,
        long: Option<Kind>,
    ) -> Result<Memory, ServerStop> {
        let first = LogRecord {
            moment: 1_704_067_200,
            kind: Kind::Journal,
            name: self.outset.name,
            body,
        };
        if !first.is_fit() {
            return Err(ServerStop::NotOurs);
        }
        match FileJournal::create(self.alloc, Memory::new(self.alloc), &first) {
            Ok(journal) => with_records(self.alloc, journal, tick, long),
            Err(_) => Err(ServerStop::CannotWrite),
        }
    }
}

/// The disk of the journal, to which a tick at that moment, and long records of that kind are added, if there are some.
fn with_records(
    alloc: Global,
    mut journal: FileJournal<Memory>,
    tick: Option<i64>,
    long: Option<Kind>,
) -> Result<Memory, ServerStop> {
    if let Some(moment) = tick {
        add_tick(&mut journal, moment)?;
    }
    if let Some(kind) = long {
        add_long(alloc, &mut journal, kind)?;
    }
    Ok(journal.into_disk())
}

/// Adds 33 records of that kind, each of 2 MiB.
fn add_long<J: Journal>(alloc: Global, journal: &mut J, kind: Kind) -> Result<(), ServerStop> {
    let mut body = Vec::new(alloc);
    body.resize(MAX_BODY, b'x')?;
    for _record in 0..33 {
        let record = LogRecord {
            moment: 1_704_067_200,
            kind,
            name: b"a",
            body: &body,
        };
        append_record(journal, &record)?;
    }
    commit(journal)
}

/// Adds a tick at that moment to the journal, and commits it.
fn add_tick<J: Journal>(journal: &mut J, moment: i64) -> Result<(), ServerStop> {
    let tick = LogRecord {
        moment,
        kind: Kind::Tick,
        name: b"a",
        body: b"",
    };
    add_record(journal, &tick)
}

/// Adds a record behind the first one, and commits it.
pub(crate) fn add_record<J: Journal>(
    journal: &mut J,
    record: &LogRecord<'_>,
) -> Result<(), ServerStop> {
    append_record(journal, record)?;
    commit(journal)
}

/// Adds a record behind the first one, which waits.
fn append_record<J: Journal>(journal: &mut J, record: &LogRecord<'_>) -> Result<(), ServerStop> {
    if !record.is_fit() || record.kind.is_first() {
        return Err(ServerStop::CannotWrite);
    }
    match journal.reserve(record.body.len()) {
        Ok(()) => {}
        Err(_) => return Err(ServerStop::CannotWrite),
    }
    journal.append(record);
    Ok(())
}

/// Makes all records durable.
fn commit<J: Journal>(journal: &mut J) -> Result<(), ServerStop> {
    match journal.commit() {
        Ok(()) => Ok(()),
        Err(_) => Err(ServerStop::CannotWrite),
    }
}

impl Place for MemoryPlace<'_> {
    type Disk = Memory;

    type OldDisk = Memory;

    type NewDisk = Memory;

    type Pages = MemoryDevice;

    type Link = Talk;

    type Port = Quiet;

    type Folder = NoFolder;

    fn lock(&mut self) -> Result<(), ServerStop> {
        self.call("lock")
    }

    fn listen(&mut self) -> Result<Quiet, ServerStop> {
        self.call("listen")?;
        Ok(Quiet {
            alloc: self.alloc,
            rounds: self.outset.rounds,
            sends: self.outset.sends,
            received: Vec::new(self.alloc),
        })
    }

    fn find_journal(&mut self) -> Result<bool, ServerStop> {
        self.call("find")?;
        Ok(self.outset.found)
    }

    fn read_journal(&mut self) -> Result<Memory, ServerStop> {
        self.call("read")?;
        self.journal()
    }

    fn begin_journal(&mut self) -> Result<Memory, ServerStop> {
        self.call("begin")?;
        Ok(Memory::new(self.alloc))
    }

    fn open_begun(&mut self) -> Result<Memory, ServerStop> {
        self.call("begun")?;
        self.journal_of(self.outset.body, self.outset.behind, None)
    }

    fn keep_journal(&mut self, _begun: &Recovery<Memory>) -> Result<(), ServerStop>
        requires synced { IsTrue (⟦<Memory as Disk>⟧.is_clean (disk_of _begun.now))
            → IsReadBack ⟦<Memory as Disk>⟧.seen ⟦<Memory as Disk>⟧.may_leave _begun.now }
    {
        self.call("keep")?;
        self.other = None;
        Ok(())
    }

    fn open_journal(&mut self) -> Result<Memory, ServerStop> {
        self.call("open")?;
        self.journal()
    }

    fn empty_pages(&mut self) -> Result<MemoryDevice, ServerStop> {
        self.call("pages")?;
        Ok(MemoryDevice::new(self.alloc))
    }

    fn announce(&mut self, _port: &Quiet) -> Result<(), ServerStop> {
        self.call("announce")
    }

    fn tell(&mut self, notice: Notice) {
        match notice {
            Notice::Recovering(_, _, _) => drop(self.call("recovering")),
            Notice::Recovered(_, _, _) => drop(self.call("recovered")),
            Notice::Clock(_, _) => drop(self.call("clock")),
            Notice::OtherConfig => drop(self.call("other")),
            Notice::OldVersion => drop(self.call("old")),
            Notice::Failed(_, _) => drop(self.call("failed")),
        }
    }

    fn tell_figures(&mut self, line: &str) {
        drop(self.call("figures"));
        self.figures.clear();
        drop(self.figures.push_str(line));
    }

    fn folder(&mut self, _text: Vec<u8>, _forms: Forms) -> Result<NoFolder, ServerStop> {
        Ok(NoFolder)
    }
}

/// A folder in which no checkpoint is written.
#[derive(Drop)]
pub(crate) struct NoFolder;

impl<K: Journal> Folder<K> for NoFolder {
    fn max_tail(&self) -> Option<usize> {
        None
    }

    fn begin(&mut self, _moment: i64) -> Result<K, CheckpointFault> {
        Err(CheckpointFault::Journal(JournalFault::Failed))
    }

    fn replace(&mut self) -> Replacement {
        Replacement::Refused
    }

    fn discard(&mut self) {}

    fn tell(&mut self, _note: CheckpointNote) {}

    fn clock(&self) -> Duration {
        Duration::ZERO
    }
}

/// A port at which one client comes, or nobody, and that can be waited for so often. Each wait reports that the
/// client's stream can be read and written, and that it ended its side.
#[derive(Drop)]
pub(crate) struct Quiet {
    alloc: Global,
    rounds: u32,
    sends: Option<&'static [u8]>,
    /// What was written to the client, once its connection is over.
    received: Vec<u8>,
}

/// A port at which one client comes at most.
trait OneClient {
    /// What the client received, once its connection is over.
    fn into_received(self) -> Vec<u8>;
}

impl OneClient for Quiet {
    fn into_received(self) -> Vec<u8> {
        self.received
    }
}

impl Sockets<Talk> for Quiet {
    fn wait(&mut self, _most: Duration) -> io::Result<usize> {
        if self.rounds == 0 {
            return Err(io::Error::from(ErrorKind::Other));
        }
        self.rounds -= 1;
        Ok(1)
    }

    fn ready(&self, _at: usize) -> Option<Readiness> {
        Some(Readiness::Stream {
            key: 0,
            readable: true,
            writable: true,
            ended: true,
        })
    }

    fn accept(&mut self) -> io::Result<Option<Talk>> {
        let written = Vec::new(self.alloc);
        match self.sends.take() {
            Some(unread) => Ok(Some(Talk { unread, written })),
            None => Ok(None),
        }
    }

    fn watch(&mut self, _stream: &mut Talk, _key: usize) -> io::Result<()> {
        Ok(())
    }

    fn let_go(&mut self, _number: u64, stream: Talk) {
        self.received = stream.written;
    }
}

/// The stream of a client that sends its bytes at once, ends its side, and takes all.
#[derive(Drop)]
pub(crate) struct Talk {
    unread: &'static [u8],
    written: Vec<u8>,
}

impl Stream for Talk {
    fn read(&mut self, buffer: &mut [u8]) -> io::Result<usize> {
        let count = self.unread.len().min(buffer.len());
        buffer[..count].copy_from_slice(&self.unread[..count]);
        self.unread = &self.unread[count..];
        Ok(count)
    }

    fn write(&mut self, bytes: &[u8]) -> io::Result<usize> {
        match self.written.extend_from_slice(bytes) {
            Ok(()) => Ok(bytes.len()),
            Err(_) => Err(io::Error::from(ErrorKind::OutOfMemory)),
        }
    }

    fn finish(&mut self) {}
}
