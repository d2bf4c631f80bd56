//! Archives over a journal that can crash.
ghost use Rattle.std.specs.Prelude.{⊤};

use crate::assertions::assert_same;
use oai_device::{MemoryDevice, PageDevice};
use oai_durable::{Journaled, OnlineCheckpoint, Progress, recover, resume};
use oai_host::{Config, Host};
use oai_http::{Answer, Exchange, Handler, SettleFault, Settled};
use oai_item::Forms;
use oai_journal::{FileJournal, Kind, LogRecord, Recovery};
use oai_paged::{PagedVersions, VersionsOver};
use oai_pool::Pool;
use oai_replay::Replayed;
use sqlite_disk::{Disk, Memory};
use std::alloc::Global;
use std::mem;
use std::panic::Expect;
use std::process::Abort;
use tests_fixtures::{
    answer_to, body_of, exchange_in, wanted_in, worked_configuration, write_exchanged,
};

/// Of which configuration a host is, which forms its records may have, and how many pages its cache has.
#[derive(Clone, Copy)]
pub(crate) struct Setting {
    pub(crate) configuration: &'static str,
    pub(crate) forms: Forms,
    pub(crate) cache: usize,
}

/// The worked configuration, with a cache of so many pages.
pub(crate) fn worked(cache: usize) -> Setting {
    Setting {
        configuration: worked_configuration(),
        forms: Forms::Fields,
        cache,
    }
}

/// A host over pages of a device.
pub(crate) type Pages<D> = Host<PagedVersions<D>>;

/// The host and its journal.
type Archive<D> = Journaled<Pages<D>, FileJournal<Memory>>;

/// A checkpoint in memory.
pub(crate) type WrittenCheckpoint = OnlineCheckpoint<FileJournal<Memory>>;

/// A recovery whose progress is not reported.
#[derive(Drop)]
struct Quiet;

impl Progress for Quiet {
    fn note(&mut self, _entry: &LogRecord<'_>, _number: u64, _position: usize, _len: usize) {}
}

/// The first record of a journal.
fn first() -> LogRecord<'static> {
    LogRecord {
        moment: 1_704_067_200,
        kind: Kind::Journal,
        name: b"oaihostd",
        body: worked_configuration().as_bytes(),
    }
}

/// The configuration of that setting.
fn config_of(rt: &impl Abort, alloc: Global, setting: Setting) -> Config {
    let text = setting.configuration.as_bytes();
    Config::read(alloc, setting.forms, text).expect(rt, "Config::read")
}

/// A store over pages of the device, with a cache of so many.
fn store_on<D: PageDevice + Drop>(
    rt: &impl Abort,
    alloc: Global,
    device: D,
    cache: usize,
) -> PagedVersions<D> {
    assert!(rt; cache >= 1);
    assert!(rt; cache <= 65_536);
    let pool = Pool::new(alloc, device, cache).expect(rt, "Pool::new");
    VersionsOver::new(alloc, pool)
}

/// A new host of that setting over the device.
fn host_on<D: PageDevice + Drop>(
    rt: &impl Abort,
    alloc: Global,
    device: D,
    setting: Setting,
) -> Pages<D> {
    let store = store_on(rt, alloc, device, setting.cache);
    Host::new(alloc, config_of(rt, alloc, setting), store).expect(rt, "Host::new")
}

/// A journal of no records on the disk.
pub(crate) fn empty_journal_on<D: Disk + Drop>(
    rt: &impl Abort,
    alloc: Global,
    disk: D,
) -> FileJournal<D> {
    let first = first();
    assert!(rt; first.is_fit());
    assert!(rt; first.kind.is_first());
    FileJournal::create(alloc, disk, &first).expect(rt, "create")
}

/// An archive that begins over the device.
pub(crate) fn begun_on<D: PageDevice + Drop>(
    rt: &impl Abort,
    alloc: Global,
    device: D,
    setting: Setting,
) -> Archive<D> {
    let host = host_on(rt, alloc, device, setting);
    let journal = empty_journal_on(rt, alloc, Memory::new(alloc));
    Journaled::new(alloc, host, journal, 0)
}

/// An archive over pages in memory, which may crash.
#[derive(Drop)]
pub(crate) struct MemoryArchive {
    alloc: Global,
    setting: Setting,
    archive: Archive<MemoryDevice>,
}

/// Replays all log records.
fn redo_all<H: Replayed>(rt: &impl Abort, host: &mut H, recovery: &mut Recovery<Memory>) {
    recovery.begin().expect(rt, "begin");
    recover(host, recovery, &mut Quiet).expect(rt, "recover");
}

/// The handler and its journal, whose records it replays behind a crash.
fn resumed<H: Replayed + Drop>(
    rt: &impl Abort,
    alloc: Global,
    mut host: H,
    journal: FileJournal<Memory>,
) -> Journaled<H, FileJournal<Memory>> {
    let mut recovery = journal.crash(alloc);
    redo_all(rt, &mut host, &mut recovery);
    resume(alloc, host, recovery, 0).expect(rt, "resume")
}

impl MemoryArchive {
    /// An archive that begins.
    pub(crate) fn begun(rt: &impl Abort, alloc: Global, setting: Setting) -> MemoryArchive {
        MemoryArchive {
            alloc,
            setting,
            archive: begun_on(rt, alloc, MemoryDevice::new(alloc), setting),
        }
    }

    /// The archive that goes on from the journal behind a crash.
    pub(crate) fn found(
        rt: &impl Abort,
        alloc: Global,
        journal: FileJournal<Memory>,
        setting: Setting,
    ) -> MemoryArchive {
        let host = host_on(rt, alloc, MemoryDevice::new(alloc), setting);
        MemoryArchive {
            alloc,
            setting,
            archive: resumed(rt, alloc, host, journal),
        }
    }

    /// Its journal.
    pub(crate) fn into_journal(self) -> FileJournal<Memory> {
        self.archive.into_journal()
    }

    /// It crashes, and goes on from its journal.
    pub(crate) fn crash(&mut self, rt: &impl Abort) {
        let (alloc, setting) = (self.alloc, self.setting);
        let ended = mem::replace(self, MemoryArchive::begun(rt, alloc, setting));
        *self = MemoryArchive::found(rt, alloc, ended.into_journal(), setting);
    }

    /// Begins a checkpoint.
    pub(crate) fn begin_checkpoint(&mut self, rt: &impl Abort) -> WrittenCheckpoint {
        let journal = empty_journal_on(rt, self.alloc, Memory::new(self.alloc));
        let begun = self.archive.begin_checkpoint(journal);
        begun.expect(rt, "begin_checkpoint")
    }

    /// Writes so many bytes of records to the checkpoint; returns whether more may be left.
    pub(crate) fn write_checkpoint(
        &mut self,
        rt: &impl Abort,
        checkpoint: &mut WrittenCheckpoint,
        bytes: usize,
    ) -> bool {
        let written = self.archive.write_checkpoint(checkpoint, bytes);
        written.expect(rt, "write_checkpoint")
    }

    /// The journal of the checkpoint takes the place of the archive's.
    pub(crate) fn switch(&mut self, rt: &impl Abort, checkpoint: WrittenCheckpoint) {
        let other = MemoryArchive::begun(rt, self.alloc, self.setting);
        let MemoryArchive { archive, .. } = mem::replace(self, other);
        self.archive = archive.switched(checkpoint.into_journal(), 0);
    }
}

impl Handler for MemoryArchive {
    ghost step = { λ old moment asked answer new. ⊤ };

    fn exchange(&mut self, moment: i64, exchange: &Exchange<'_>) -> Answer {
        self.archive.exchange(moment, exchange)
    }
}

impl Settled for MemoryArchive {
    ghost settled = { λ old result new. ⊤ };

    fn settle(&mut self) -> Result<(), SettleFault> {
        self.archive.settle()
    }
}

/// What the handler answers to the exchange of the line.
pub(crate) fn answer_of<H: Handler>(
    rt: &impl Abort,
    alloc: Global,
    handler: &mut H,
    line: &str,
) -> Answer {
    let line = exchange_in(line).expect(rt, "exchange_in");
    let body = body_of(alloc, line).expect(rt, "body_of");
    answer_to(handler, line, body.as_str())
}

/// Performs the exchange of the line, settles, and writes the answer.
pub(crate) fn tell<H: Settled>(
    rt: &impl Abort,
    alloc: Global,
    handler: &mut H,
    line: &str,
    output: &mut Vec<u8>,
) {
    let answer = answer_of(rt, alloc, handler, line);
    handler.settle().expect(rt, "settle");
    write_exchanged(&answer, output).expect(rt, "write_exchanged");
}

/// The handler answers the lines of the transcript that begin with `> ` as the others say.
pub(crate) fn assert_told<H: Settled>(
    rt: &impl Abort,
    alloc: Global,
    handler: &mut H,
    transcript: &str,
) {
    let mut output = Vec::new(alloc);
    for line in transcript.lines() {
        if let Some(asked) = line.strip_prefix("> ") {
            tell(rt, alloc, handler, asked, &mut output);
        }
    }
    assert_wanted(rt, alloc, &output, transcript);
}

/// The answers are those of the transcript.
pub(crate) fn assert_wanted(rt: &impl Abort, alloc: Global, answers: &[u8], transcript: &str) {
    let wanted = wanted_in(alloc, transcript).expect(rt, "wanted_in");
    assert_same(rt, answers, wanted.as_bytes());
}
