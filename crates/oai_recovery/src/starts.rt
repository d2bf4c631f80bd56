//! A host that has replayed a journal.
ghost use Rattle.oai_archive.specs.Readings.{HasBegunFor};
ghost use Rattle.oai_config.specs.Reading.{IsRead};
ghost use Rattle.oai_startup.specs.Rules.{HaveRules};
ghost use Rattle.oai_recovery.specs.Renewals.{HasReadBack, HasRenewed, is_checkpoint};
ghost use Rattle.oai_recovery.specs.ServedDisks.{file_of};
ghost use Rattle.oai_recovery.specs.Starts.{HasReplayed, HasStarted};
ghost use Rattle.oai_host.specs.Hosts.{begun};
ghost use Rattle.oai_item.specs.declared.forms.Forms.TheVariants.{Elements};
ghost use Rattle.oai_journal.specs.Recovered.{disk_of};
ghost use Rattle.std.specs.Prelude.{◌≡◌, IfOk, IfSome, IsTrue, Ok, OnOk, map};

use crate::journals::{Prepared, is_due, keep, longest_lifetime, prepare, prepare_begun};
use crate::notices::Notice;
use crate::origins::Origin;
use crate::places::Place;
use crate::recoveries::recover_all;
use crate::renewals::save;
use crate::startups::StartupFigures;
use oai_archive::ServerStop;
use oai_host::{Config, Host};
use oai_item::Forms;
use oai_journal::{FileJournal, Journal, Recovery};
use oai_paged::PagedVersions;
use oai_replay::Replayed;
use oai_startup::{WrittenConfig, config_in, host_on};
use sqlite_disk::Disk;
use std::alloc::Global;
use std::rt::Clock;

/// A handler that has replayed a journal.
#[derive(Drop)]
pub struct Started<D: Disk, H> {
    /// It has the state that the records leave.
    pub handler: H,
    /// All of them were read.
    pub recovery: Recovery<D>,
    /// How many there are after the first one.
    pub records: u64,
    /// What its figures say.
    pub startup: StartupFigures,
    /// Where the journal comes from.
    pub origin: Origin,
    /// Which forms its records may have.
    pub forms: Forms,
    /// A copy of the bytes of its configuration.
    pub text: Vec<u8>,
}

/// The host of the configuration, in the state that the journal of the place gives. If there is none, it is begun; one
/// with another configuration, and one of version 1 that is long while no list is open, is replaced by a checkpoint, and
/// the host is the one that read that back. The records have the forms of the journal's version. The text of the
/// configuration is parsed once more if these are lists of fields alone, and for the host that reads a long journal's
/// checkpoint. The journal is read once. One of version 2 that is long is replaced while a server serves (`Folder`).
pub fn start<P: Place, C: Clock>(
    alloc: Global,
    place: &mut P,
    clock: &C,
    written: WrittenConfig,
) -> Result<Started<P::Disk, Host<PagedVersions<P::Pages>>>, ServerStop>
    ensures started { IfOk result (λ started. HasStarted P.Disk.Disk.seen P.Disk.Disk.may_leave P.Disk.Disk.is_clean
        (file_of P.held P.held_begun started.origin) written.text started.origin started.records started.handler started.recovery) }
    ensures renewed { IfOk result (λ started. IsTrue (is_checkpoint started.origin)
        → HasRenewed P.Disk.Disk.seen P.Disk.Disk.is_clean ⟦<FileJournal<P::NewDisk> as Journal>⟧ P.is_honest 0) }
{
    let (text, config) = written.into_parts();
    let lifetime = longest_lifetime(&config);
    let prepared = prepare(alloc, place, clock, &text, &config)?;
    let forms = prepared.forms;
    let started = start_at(alloc, place, clock, &text, config, prepared)?;
    let dates = started.startup.replay.dates;
    if is_due(clock, started.origin, forms, &dates, lifetime)? {
        return shorten(alloc, place, clock, &text, started);
    }
    tell_forms(place, forms);
    Ok(started)
}

/// The host of the configuration, which was read from the text, after it replayed the journal that was prepared.
fn start_at<P: Place, C: Clock>(
    alloc: Global,
    place: &mut P,
    clock: &C,
    text: &[u8],
    config: Config,
    prepared: Prepared<P::Disk>,
) -> Result<Started<P::Disk, Host<PagedVersions<P::Pages>>>, ServerStop>
    requires read { IsRead Elements text.now (Ok config) }
    requires rules { HaveRules config }
    requires begun { IsTrue (P.Disk.Disk.is_clean (disk_of prepared.recovery))
        → HasBegunFor P.Disk.Disk.seen P.Disk.Disk.may_leave prepared.forms text.now prepared.recovery }
    requires file { IfSome (file_of P.held P.held_begun prepared.origin)
        (λ file. P.Disk.Disk.seen (disk_of prepared.recovery) ≡ file) }
    ensures started { IfOk result (λ started. HasStarted P.Disk.Disk.seen P.Disk.Disk.may_leave P.Disk.Disk.is_clean
        (file_of P.held P.held_begun started.origin) text.now started.origin started.records started.handler started.recovery) }
    ensures origin { IfOk result (λ started. started.origin ≡ prepared.origin) }
    ensures honesty { IfOk result (λ started. IsTrue P.is_honest → IsTrue started.handler.honest) }
{
    let config = config_for(alloc, prepared.forms, text, config)?;
    let host = host_in(alloc, place, config)?;
    start_by(alloc, place, clock, text, prepared, host)
}

/// Replaces the journal, which was found and replayed, by a checkpoint of the host's state; returns the host that read
/// that back.
fn shorten<P: Place, C: Clock>(
    alloc: Global,
    place: &mut P,
    clock: &C,
    text: &[u8],
    mut found: Started<P::Disk, Host<PagedVersions<P::Pages>>>,
) -> Result<Started<P::Disk, Host<PagedVersions<P::Pages>>>, ServerStop>
    requires started { HasStarted P.Disk.Disk.seen P.Disk.Disk.may_leave P.Disk.Disk.is_clean
        (file_of P.held P.held_begun found.origin) text.now found.origin found.records found.handler found.recovery }
    requires honesty { IsTrue P.is_honest → IsTrue found.handler.honest }
    ensures started { IfOk result (λ started. HasStarted P.Disk.Disk.seen P.Disk.Disk.may_leave P.Disk.Disk.is_clean
        (file_of P.held P.held_begun started.origin) text.now started.origin started.records started.handler started.recovery) }
    ensures renewed { IfOk result (λ started. IsTrue (is_checkpoint started.origin)
        → HasRenewed P.Disk.Disk.seen P.Disk.Disk.is_clean ⟦<FileJournal<P::NewDisk> as Journal>⟧ P.is_honest 0) }
{
    let saved = save(alloc, place, clock, text, &mut found.handler, 0);
    drop(found);
    drop(saved?);
    let config = config_in(alloc, Forms::Elements, text)?;
    let prepared = prepare_begun(alloc, place, text, Origin::Shortened)?;
    start_at(alloc, place, clock, text, config, prepared)
}

/// The configuration with these forms of records: as it is, if they may be elements, and otherwise read from the text.
fn config_for(
    alloc: Global,
    forms: Forms,
    text: &[u8],
    config: Config,
) -> Result<Config, ServerStop>
    requires read { IsRead Elements text.now (Ok config) }
    requires rules { HaveRules config }
    ensures read { IfOk result (λ config. IsRead forms text.now (Ok config)) }
    ensures rules { IfOk result HaveRules }
{
    match forms {
        Forms::Elements => Ok(config),
        Forms::Fields => Ok(config_in(alloc, Forms::Fields, text)?),
    }
}

/// Reports if the records of the journal are lists of fields alone.
fn tell_forms<P: Place>(place: &mut P, forms: Forms) {
    match forms {
        Forms::Elements => {}
        Forms::Fields => place.tell(Notice::OldVersion),
    }
}

/// The handler, after it replayed all records of the journal that was prepared, whose first record has the configuration in
/// the text. One that was not found replaces the folder's then.
fn start_by<P: Place, H: Replayed + Drop, C: Clock>(
    alloc: Global,
    place: &mut P,
    clock: &C,
    text: &[u8],
    prepared: Prepared<P::Disk>,
    mut handler: H,
) -> Result<Started<P::Disk, H>, ServerStop>
    requires begun { IsTrue (P.Disk.Disk.is_clean (disk_of prepared.recovery))
        → HasBegunFor P.Disk.Disk.seen P.Disk.Disk.may_leave prepared.forms text.now prepared.recovery }
    requires file { IfSome (file_of P.held P.held_begun prepared.origin)
        (λ file. P.Disk.Disk.seen (disk_of prepared.recovery) ≡ file) }
    ensures replayed { IfOk result (λ started. HasReplayed H.kept H.is_honest (record { redone = H.redone; restored = H.restored })
        P.Disk.Disk.seen P.Disk.Disk.may_leave P.Disk.Disk.is_clean (file_of P.held P.held_begun started.origin) prepared.forms text.now
        (H.kept handler) started.origin started.records started.handler started.recovery) }
    ensures origin { IfOk result (λ started. started.origin ≡ prepared.origin) }
    ensures honesty { IfOk result (λ started. H.is_honest started.handler ≡ H.is_honest handler) }
{
    let Prepared {
        mut recovery,
        origin,
        forms,
    } = prepared;
    let copy = copy_of(alloc, text)?;
    let checkpoint = moment_in(&recovery);
    let replay = recover_all(alloc, place, clock, origin, &mut handler, &mut recovery)?;
    keep(place, origin, replay.records, &recovery)?;
    Ok(Started {
        handler,
        recovery,
        records: replay.records,
        startup: StartupFigures { replay, checkpoint },
        origin,
        forms,
        text: copy,
    })
}

/// A copy of the bytes.
fn copy_of(alloc: Global, bytes: &[u8]) -> Result<Vec<u8>, ServerStop> {
    let mut copy = Vec::new(alloc);
    copy.extend_from_slice(bytes)?;
    Ok(copy)
}

/// The moment of the record that was read last; 0 if there is none.
fn moment_in<D: Disk + Drop>(recovery: &Recovery<D>) -> i64 {
    match recovery.record() {
        Some(record) => record.moment,
        None => 0,
    }
}

/// Replaces the journal of the place by the checkpoint beside it, which has the configuration, read from the text, once
/// it was read back; returns what read it.
pub(crate) fn keep_checkpoint<P: Place, C: Clock>(
    alloc: Global,
    place: &mut P,
    clock: &C,
    text: &[u8],
    config: Config,
) -> Result<Started<P::Disk, Host<PagedVersions<P::Pages>>>, ServerStop>
    ensures { OnOk result (HasReadBack P.Disk.Disk.seen P.Disk.Disk.may_leave P.Disk.Disk.is_clean P.held_begun text.now
        (map begun config.repositories)) }
{
    let checkpoint = prepare_begun(alloc, place, text, Origin::Shortened)?;
    let host = host_in(alloc, place, config)?;
    match start_by(alloc, place, clock, text, checkpoint, host) {
        Ok(started) => Ok(started),
        Err(stop) => Err(stop),
    }
}

/// The host of the configuration over emptied pages, in its initial state.
pub(crate) fn host_in<P: Place>(
    alloc: Global,
    place: &mut P,
    config: Config,
) -> Result<Host<PagedVersions<P::Pages>>, ServerStop>
    ensures begun { IfOk result (λ host. host.repositories ≡ map begun config.repositories) }
    ensures honesty { IfOk result (λ host. IsTrue P.is_honest → IsTrue host.honest) }
{
    let pages = place.empty_pages()?;
    Ok(host_on(alloc, config, pages)?)
}
