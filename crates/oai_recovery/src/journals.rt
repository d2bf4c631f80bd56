//! The journal of a folder, found or begun.
ghost use Rattle.oai_archive.specs.Readings.{HasBegun, HasBegunFor, IsReadBack};
ghost use Rattle.oai_recovery.specs.Renewals.{HasRenewed, is_checkpoint};
ghost use Rattle.oai_recovery.specs.ServedDisks.{file_of};
ghost use Rattle.oai_recovery.specs.declared.origins.Origin.TheVariants.{Begun};
ghost use Rattle.oai_item.specs.declared.forms.Forms.TheVariants.{Elements};
ghost use Rattle.oai_journal.specs.Recovered.{disk_of};
ghost use Rattle.std.specs.Prelude.{◌≡◌, IfOk, IfSome, IsTrue, OnOk};

use crate::dates::Dates;
use crate::moments::moment_of;
use crate::notices::Notice;
use crate::origins::Origin;
use crate::places::Place;
use crate::renewals::{Renewal, renew};
use oai_archive::{ServerStop, begin_for, begin_reading, create_journal, forms_with_config};
use oai_host::Config;
use oai_item::Forms;
use oai_journal::{FileJournal, Journal, Recovery};
use sqlite_disk::Disk;
use std::alloc::Global;
use std::rt::Clock;

/// A startup replaces a journal of version 1 by a checkpoint if it is longer than twice its last checkpoint and this many
/// bytes: 64 MiB. A server replaces one of version 2 beside exchanges (`Folder::max_tail`).
pub(crate) const MAX_TAIL: usize = 67_108_864;

/// A journal with which a server starts, whose first record is read.
#[derive(Drop)]
pub(crate) struct Prepared<D: Disk> {
    pub(crate) recovery: Recovery<D>,
    /// Where it comes from.
    pub(crate) origin: Origin,
    /// Which forms its records may have.
    pub(crate) forms: Forms,
}

/// The journal of the configuration, which was read from the text: the folder's; or one that stands beside it. That was
/// begun, if there was none; or it is a checkpoint, if the folder's has another configuration with which the archive can
/// continue.
pub(crate) fn prepare<P: Place, C: Clock>(
    alloc: Global,
    place: &mut P,
    clock: &C,
    text: &[u8],
    config: &Config,
) -> Result<Prepared<P::Disk>, ServerStop>
    ensures begun { IfOk result (λ prepared. IsTrue (P.Disk.Disk.is_clean (disk_of prepared.recovery))
        → HasBegunFor P.Disk.Disk.seen P.Disk.Disk.may_leave prepared.forms text.now prepared.recovery) }
    ensures file { IfOk result (λ prepared. IfSome (file_of P.held P.held_begun prepared.origin)
        (λ file. P.Disk.Disk.seen (disk_of prepared.recovery) ≡ file)) }
    ensures renewed { IfOk result (λ prepared. IsTrue (is_checkpoint prepared.origin)
        → HasRenewed P.Disk.Disk.seen P.Disk.Disk.is_clean ⟦<FileJournal<P::NewDisk> as Journal>⟧ P.is_honest 0) }
{
    if !place.find_journal()? {
        return begin(alloc, place, clock, text);
    }
    let disk = place.open_journal()?;
    let old = begin_reading(alloc, disk)?;
    match forms_with_config(alloc, &old, text)? {
        Some(forms) => Ok(Prepared {
            recovery: old,
            origin: Origin::Found,
            forms,
        }),
        None => reconfigure(alloc, place, clock, text, config, old),
    }
}

/// A journal that is begun, with the configuration in the text.
fn begin<P: Place, C: Clock>(
    alloc: Global,
    place: &mut P,
    clock: &C,
    text: &[u8],
) -> Result<Prepared<P::Disk>, ServerStop>
    ensures begun { IfOk result (λ prepared. IsTrue (P.Disk.Disk.is_clean (disk_of prepared.recovery))
        → HasBegunFor P.Disk.Disk.seen P.Disk.Disk.may_leave prepared.forms text.now prepared.recovery) }
    ensures file { IfOk result (λ prepared. IfSome (file_of P.held P.held_begun prepared.origin)
        (λ file. P.Disk.Disk.seen (disk_of prepared.recovery) ≡ file)) }
    ensures renewed { IfOk result (λ prepared. IsTrue (is_checkpoint prepared.origin)
        → HasRenewed P.Disk.Disk.seen P.Disk.Disk.is_clean ⟦<FileJournal<P::NewDisk> as Journal>⟧ P.is_honest 0) }
{
    let disk = place.begin_journal()?;
    drop(create_journal(alloc, disk, moment_of(clock)?, text)?);
    prepare_begun(alloc, place, text, Origin::Begun)
}

/// A checkpoint of the folder's journal, whose first record is read: with the configuration, which was read from the
/// text.
fn reconfigure<P: Place, C: Clock>(
    alloc: Global,
    place: &mut P,
    clock: &C,
    text: &[u8],
    config: &Config,
    mut old: Recovery<P::Disk>,
) -> Result<Prepared<P::Disk>, ServerStop>
    requires begun { IsTrue (P.Disk.Disk.is_clean (disk_of old)) → HasBegun P.Disk.Disk.seen P.Disk.Disk.may_leave old }
    ensures begun { IfOk result (λ prepared. IsTrue (P.Disk.Disk.is_clean (disk_of prepared.recovery))
        → HasBegunFor P.Disk.Disk.seen P.Disk.Disk.may_leave prepared.forms text.now prepared.recovery) }
    ensures file { IfOk result (λ prepared. IfSome (file_of P.held P.held_begun prepared.origin)
        (λ file. P.Disk.Disk.seen (disk_of prepared.recovery) ≡ file)) }
    ensures renewed { IfOk result (λ prepared. IsTrue (is_checkpoint prepared.origin)
        → HasRenewed P.Disk.Disk.seen P.Disk.Disk.is_clean ⟦<FileJournal<P::NewDisk> as Journal>⟧ P.is_honest 0) }
{
    let renewal = Renewal {
        text,
        config,
        raise: 0,
    };
    drop(renew(alloc, place, clock, &renewal, &mut old)?);
    drop(old);
    prepare_begun(alloc, place, text, Origin::Reconfigured)
}

/// The journal of that origin that was written beside the folder's, with the configuration in the text.
pub(crate) fn prepare_begun<P: Place>(
    alloc: Global,
    place: &mut P,
    text: &[u8],
    origin: Origin,
) -> Result<Prepared<P::Disk>, ServerStop>
    requires other { file_of P.held P.held_begun origin ≡ P.held_begun }
    ensures begun { IfOk result (λ prepared. IsTrue (P.Disk.Disk.is_clean (disk_of prepared.recovery))
        → HasBegunFor P.Disk.Disk.seen P.Disk.Disk.may_leave prepared.forms text.now prepared.recovery) }
    ensures file { IfOk result (λ prepared. IfSome (file_of P.held P.held_begun prepared.origin)
        (λ file. P.Disk.Disk.seen (disk_of prepared.recovery) ≡ file)) }
    ensures origin { IfOk result (λ prepared. prepared.origin ≡ origin) }
    ensures forms { IfOk result (λ prepared. prepared.forms ≡ Elements) }
{
    let disk = place.open_begun()?;
    let recovery = begin_for(alloc, disk, Forms::Elements, text)?;
    Ok(Prepared {
        recovery,
        origin,
        forms: Forms::Elements,
    })
}

/// Whether the journal that was found, of which that is known, is of version 1 and long, and no list can still be open
/// that stays open for so many seconds at most. One of version 2 becomes short while it is served.
pub(crate) fn is_due<C: Clock>(
    clock: &C,
    origin: Origin,
    forms: Forms,
    dates: &Dates,
    lifetime: i64,
) -> Result<bool, ServerStop> {
    if origin != Origin::Found || forms != Forms::Fields {
        return Ok(false);
    }
    if dates.position <= dates.saved.saturating_mul(2).saturating_add(MAX_TAIL) {
        return Ok(false);
    }
    Ok(match dates.listed {
        Some(last) => moment_of(clock)? > last.saturating_add(lifetime),
        None => true,
    })
}

/// The longest time in seconds that a list of the configuration stays open without a request.
pub(crate) fn longest_lifetime(config: &Config) -> i64 {
    let mut longest = 0;
    for repository in config.repositories() {
        longest = repository.config.lifetime().max(longest);
    }
    i64::try_from(longest).unwrap_or(i64::MAX)
}

/// Makes the journal that was begun, and was read to its end, the folder's, and reports it if the configuration is
/// another one.
pub(crate) fn keep<P: Place>(
    place: &mut P,
    origin: Origin,
    records: u64,
    begun: &Recovery<P::Disk>,
) -> Result<(), ServerStop>
    requires synced { IsTrue (P.Disk.Disk.is_clean (disk_of begun.now))
        → IsReadBack P.Disk.Disk.seen P.Disk.Disk.may_leave begun.now }
    ensures fresh { OnOk result (origin ≡ Begun → records ≡ 0) }
{
    match (origin, records) {
        (Origin::Found, _) => Ok(()),
        (Origin::Begun, 0) => place.keep_journal(begun),
        (Origin::Begun, _) => Err(ServerStop::CannotWrite),
        (Origin::Shortened, _) => place.keep_journal(begun),
        (Origin::Reconfigured, _) => {
            place.keep_journal(begun)?;
            place.tell(Notice::OtherConfig);
            Ok(())
        }
    }
}
