ghost use Rattle.std.specs.Prelude.{◌≡◌, ◌≤◌, ◌≤ℤ◌, true, false, length, slice_get, take, Err, IfOk, IsTrue, OnErr, OnOk};
ghost use Rattle.std.specs.Option.{option_copied};
ghost use Rattle.oai_args.specs.Pairs.{decoded_pairs};
ghost use Rattle.oai_args.specs.Requests.{request_of};
ghost use Rattle.oai_catalogue.specs.Calls.{OnlyReads};
ghost use Rattle.oai_catalogue.specs.Store.{Spares, Spends};
ghost use Rattle.oai_item.specs.declared.faults.Fault.TheVariants as fault;
ghost use Rattle.oai_settings.specs.Config.{is_in_years};
ghost use Rattle.oai_holdings.specs.Calls.{OnRefused, fault_in, room_to_change};
ghost use Rattle.oai_repo.specs.Calls.{DropsEnded, IsAccepted, IsAsked, IsChanged, IsClockAt, IsLeftByStep, IsRefusedAt, LeavesFields, room_to_ask};
ghost use Rattle.oai_holdings.specs.Index.{holdings_of, stored_items};
ghost use Rattle.oai_repo.specs.Fields.{IsNew, Keeps, Owns, state_of};
ghost use Rattle.oai_repo.specs.Replays.{IsReplay};
ghost use Rattle.oai_holdings.specs.Saved.{IsDamagedOrShort, fault_of_store, items_behind};
ghost use Rattle.oai_repo.specs.Saved.{is_restorable, is_with_element, part_state, with_part};
ghost use Rattle.oai_repo.specs.State.{moved, state_at_clock};

use crate::lists::drop_first_ended;
use crate::passes::pass_query;
use crate::requests::reply_to_query;
use crate::responses::Replied;
use crate::restores::{begin, reopen};
use crate::saved_parts::SavedPart;
use crate::view::RepoView;
use oai_answers::RequestAttributes;
use oai_catalogue::Versions;
use oai_deposit::Change;
use oai_holdings::{
    ChangeContext, ItemIndex, make_change, read_behind, restore_gone, restore_item, restore_set,
};
use oai_item::{Fault, Item, Refusal};
use oai_lists::{Lists, OpenList};
use oai_names::{Sequence, SetTree};
use oai_settings::RepoConfig;
use oai_time::{Clock, stamp};
use std::alloc::Global;
use std::marker::Model;

/// The number of a repository's first list.
const FIRST_NUMBER: u64 = 1;

/// One repository: its configuration, its clock, the index of its items in a store, its sets, and its open lists.
///
/// Its items are those of one version of the store that each call is given, and each open list has a version of its
/// own, the snapshot of the items when the list began. Each call requires that the numbers of its versions are in use
/// in the store and distinct, and that an honest store holds under them what the repository's own calls left there;
/// each call preserves both. What is done to other versions of the store does not matter.
#[derive(Debug, Drop)]
pub struct Repo {
    alloc: Global,
    config: RepoConfig,
    clock: Clock,
    index: ItemIndex,
    sets: SetTree,
    lists: Lists,
}

impl Model for Repo {
    ghost use Rattle.oai_repo.specs.Fields.{RepoFields};
    ghost use Rattle.oai_repo.specs.Inside.{fields_of_repo};

    ghost Value = { RepoFields };

    ghost view = { fields_of_repo };

    ghost use Rattle.oai_repo.specs.Tables.{IsRepo};

    ghost invariant = { λ repo. IsRepo repo.config repo.clock repo.index.entries repo.lists };
}

impl Repo {
    /// A repository without items and sets, its clock at the earliestDatestamp, in a new version of the store. What
    /// grows in it is allocated from `alloc`. Any fault may come, `TooManyPages` only if the store may lack room for
    /// one call. After a fault the lists of the store are unchanged.
    pub fn new<V: Versions>(alloc: Global, config: RepoConfig, store: &mut V) -> Result<Repo, Fault>
        ensures new { IfOk result (λ repo. IsNew config (V.lists store.old) repo
            (V.lists store.new)) }
        ensures err { OnErr result (V.lists store.new ≡ V.lists store.old) }
        ensures store { Spends V.room V.failures V.honest 1 result store.old store.new }
    {
        let clock = Clock::start(config.earliest());
        let lists = Lists::new(alloc, config.lists(), FIRST_NUMBER);
        let version = store.fresh()?;
        Ok(Repo {
            alloc,
            config,
            clock,
            index: ItemIndex::new(alloc, version),
            sets: SetTree::new(alloc),
            lists,
        })
    }

    /// Performs a request of OAI-PMH, by the bytes of its query, at the moment, in seconds from 1970 on: it moves the
    /// clock and replies with a document, or with how long to wait, and with what of the request has to be replayed: the
    /// request if its answer is a part of a list, otherwise a tick, and nothing where the clock stood. It drops the first of the lists that have ended, as
    /// each call without a fault does, so that no call has to drop many that end at once; a list that has ended is
    /// answered no more, dropped or not. After a fault everything is unchanged, the clock and the store's lists
    /// included. Any fault may come, `TooManyPages` only if the request may open a list and the store may lack room for
    /// one call.
    ///
    /// A request for one item costs one search of the store. A list with a single answer costs what the store needs to
    /// read it. The first part of a longer list costs what the store needs to read it, to count the selection, and to
    /// take a snapshot. Each further part costs what the store needs to read it, independent of its offset, if the
    /// list's mark is at its cursor. Otherwise the store also skips the records before the part: when a part is
    /// requested again after another one was answered, and when there was no memory for the mark.
    pub fn ask<V: Versions>(
        &mut self,
        store: &mut V,
        moment: i64,
        query: &[u8],
    ) -> Result<Replied, Fault>
        requires { Owns (V.honest store.old) self.old (V.lists store.old) }
        ensures step { IfOk result (λ replied. IsTrue (V.honest store.old)
            → IsAsked self.old (V.lists store.old) moment query.now replied.reply self.new
            (V.lists store.new)) }
        ensures replay { IfOk result (λ replied. IsTrue (V.honest store.old)
            → IsReplay self.old.config (state_of self.old (V.lists store.old)) moment
            (request_of self.old.config.granularity (decoded_pairs query.now)) replied.replay
            (state_of self.new (V.lists store.new))) }
        ensures clock { IsClockAt result moment self.old (V.lists store.old) self.new
            (V.lists store.new) }
        ensures kept { holdings_of self.new.index self.new.sets (V.lists store.new)
            ≡ holdings_of self.old.index self.old.sets (V.lists store.old) }
        ensures fields { LeavesFields result self.old self.new }
        ensures keeps { Keeps (V.honest store.old) self.old (V.lists store.old) self.new
            (V.lists store.new) }
        ensures store { Spends V.room V.failures V.honest (room_to_ask
            (request_of self.old.config.granularity (decoded_pairs query.now))) result
            store.old store.new }
    {
        let mut clock = self.clock;
        clock.tick(moment);
        let before = self.clock.now();
        let now = clock.now();
        let view = RepoView {
            alloc: self.alloc,
            config: &self.config,
            clock: now,
            index: &self.index,
            sets: &self.sets,
            asked: RequestAttributes::nothing(),
        };
        let replied = reply_to_query(&view, &mut self.lists, store, query)?;
        self.move_to(store, clock);
        Ok(replied.at_clock(before, now))
    }

    /// Replays a request: performs it as `ask` does, without a reply. The repository is then as `ask` leaves it, except
    /// for the marks of its lists. Any fault may come, `TooManyPages` only if the request may open a list and the store
    /// may lack room for one call; after it everything is unchanged. A further part of a list allocates nothing besides
    /// the arguments and reads nothing; the first part is counted and not read; any other request only moves the clock.
    pub fn pass<V: Versions>(
        &mut self,
        store: &mut V,
        moment: i64,
        query: &[u8],
    ) -> Result<(), Fault>
        requires { Owns (V.honest store.old) self.old (V.lists store.old) }
        ensures step { OnOk result (IsTrue (V.honest store.old)
            → IsLeftByStep self.old (V.lists store.old) moment query.now self.new (V.lists store.new)) }
        ensures clock { IsClockAt result moment self.old (V.lists store.old) self.new
            (V.lists store.new) }
        ensures kept { holdings_of self.new.index self.new.sets (V.lists store.new)
            ≡ holdings_of self.old.index self.old.sets (V.lists store.old) }
        ensures fields { LeavesFields result self.old self.new }
        ensures keeps { Keeps (V.honest store.old) self.old (V.lists store.old) self.new
            (V.lists store.new) }
        ensures store { Spends V.room V.failures V.honest (room_to_ask
            (request_of self.old.config.granularity (decoded_pairs query.now))) result
            store.old store.new }
    {
        let mut clock = self.clock;
        clock.tick(moment);
        let moved = clock.now();
        let view = RepoView {
            alloc: self.alloc,
            config: &self.config,
            clock: moved,
            index: &self.index,
            sets: &self.sets,
            asked: RequestAttributes::nothing(),
        };
        pass_query(&view, &mut self.lists, store, query)?;
        self.move_to(store, clock);
        Ok(())
    }

    /// Makes a change at the moment, and returns its datestamp, or of a put the item's, both in seconds from 1970 on; the
    /// datestamp lies in the years 0000 to 9999. A put of an item that is held already, live and with its sets and
    /// records, moves the clock, drops the first of the lists that have ended, and changes nothing else. A change that is refused moves the clock, drops the first of the lists that have ended, and
    /// changes nothing else. After a fault everything is unchanged, the clock and the store's lists included. Any fault
    /// may come. A deposit, a put or a deletion returns `TooManyPages` only if the store may lack room for one call, a purge
    /// only if it may lack room for one call more than there are items, and a new set never.
    ///
    /// A deposit, a put and a deletion read only the item that they are about; a purge reads each item with a datestamp below
    /// its bound. A new item, or a new version of one at the same datestamp, is put into the current version of the
    /// store; one at another datestamp replaces the old one there; and an item without a tombstone is removed from it.
    /// A purge that finds something is made in a copy-on-write version, which then replaces the old one.
    pub fn change<V: Versions>(
        &mut self,
        store: &mut V,
        moment: i64,
        change: &Change,
    ) -> Result<i64, Refusal>
        requires { Owns (V.honest store.old) self.old (V.lists store.old) }
        ensures changed { IsTrue (V.honest store.old)
            → IsChanged self.old (V.lists store.old) moment change.now result self.new
            (V.lists store.new) }
        ensures accepted { IfOk result (λ stamp. IsAccepted moment stamp change.now self.old
            (V.lists store.old) self.new (V.lists store.new)) }
        ensures refused { OnRefused result (IsRefusedAt moment self.old (V.lists store.old) self.new
            (V.lists store.new)) }
        ensures clock { IsClockAt (fault_in result) moment self.old (V.lists store.old) self.new
            (V.lists store.new) }
        ensures keeps { Keeps (V.honest store.old) self.old (V.lists store.old) self.new
            (V.lists store.new) }
        ensures few { length self.old.index.entries ≤ self.old.config.items }
        ensures store { Spends V.room V.failures V.honest (room_to_change (length self.old.index.entries) change.now)
            (fault_in result) store.old store.new }
    {
        let mut clock = self.clock;
        clock.tick(moment);
        let stamp = stamp(self.config.granularity(), clock.now());
        let context = ChangeContext {
            alloc: self.alloc,
            config: &self.config,
            stamp,
        };
        let made = make_change(&context, store, &mut self.index, &mut self.sets, change);
        match made {
            Ok(told) => {
                self.move_to(store, clock);
                Ok(told)
            }
            Err(Refusal::Refused(cause)) => {
                self.move_to(store, clock);
                Err(Refusal::Refused(cause))
            }
            Err(Refusal::Fault(fault)) => Err(Refusal::Fault(fault)),
        }
    }

    /// Restores a part of a saved state, after those that were restored before. `Damaged` if it does not fit: the
    /// repository begins though a list is held, or with a clock that is not in the years 0001 to 9998; the set exists
    /// or has no parent, or there are 10,000; the item violates the repository's invariants, or there are as many items
    /// as there may be; of an item with elements `NoMemory` may come in its place; there is no item of the identifier
    /// that goes; the number of the list is not above those of the lists that are held, or not below the next one, the
    /// repository lacks its format, or its end is not above the clock or is after the year 9999. Otherwise any fault may
    /// come, `Damaged` only if the store returns other items than were put into it, and `TooManyPages` only if it may
    /// lack room for one call. After a fault everything is unchanged.
    ///
    /// More lists may so be open than the configuration allows; until enough of them have ended, no list is opened. A
    /// list costs what the store needs to count its records and to take a snapshot.
    pub fn restore<V: Versions>(&mut self, store: &mut V, part: &SavedPart<'_>) -> Result<(), Fault>
        requires { Owns (V.honest store.old) self.old (V.lists store.old) }
        ensures restored { OnOk result (IsTrue (V.honest store.old)
            → state_of self.new (V.lists store.new)
            ≡ with_part (state_of self.old (V.lists store.old)) (part_state part.now)) }
        ensures damaged { is_restorable self.old (part_state part.now) ≡ false
            → IsDamagedOrShort (is_with_element (part_state part.now)) result }
        ensures err { OnErr result ((self.new ≡ self.old)
            × (V.lists store.new ≡ V.lists store.old)) }
        ensures keeps { Keeps (V.honest store.old) self.old (V.lists store.old) self.new
            (V.lists store.new) }
        ensures store { Spends V.room V.failures V.honest 1
            (fault_of_store (is_restorable self.old (part_state part.now)) result)
            store.old store.new }
    {
        let (alloc, config) = (self.alloc, &self.config);
        match part {
            SavedPart::Begins { clock, next } => {
                begin(
                    alloc,
                    config,
                    &mut self.clock,
                    &mut self.lists,
                    *clock,
                    *next,
                )
            }
            SavedPart::HasSet { spec, name } => restore_set(&mut self.sets, spec, name),
            SavedPart::HasItem { item } => {
                restore_item(alloc, config, &self.sets, store, &mut self.index, item)
            }
            SavedPart::Goes { identifier } => restore_gone(store, &mut self.index, identifier),
            SavedPart::HasList { list } => {
                let view = RepoView {
                    alloc,
                    config,
                    clock: self.clock.now(),
                    index: &self.index,
                    sets: &self.sets,
                    asked: RequestAttributes::nothing(),
                };
                reopen(&view, &mut self.lists, store, list)
            }
        }
    }

    /// The items, in their order, that come after `last`, whether or not it is one of them, or all if it is None; at
    /// most `most` of them. Any fault but `TooManyPages` may come.
    pub fn items_behind<V: Versions>(
        &self,
        store: &mut V,
        last: Option<&Item>,
        most: usize,
    ) -> Result<Sequence<Item>, Fault>
        requires { Owns (V.honest store.old) self.now (V.lists store.old) }
        ensures items { IfOk result (λ items. IsTrue (V.honest store.old) → items
            ≡ take most (items_behind (option_copied last.entry)
            (stored_items self.now.index (V.lists store.old)))) }
        ensures reads { OnlyReads V.Versions result store.old store.new }
    {
        read_behind(self.alloc, store, self.index.version(), last, most)
    }

    /// The sets, in order of addition.
    pub fn sets(&self) -> &SetTree
        ensures { result.now ≡ self.now.sets }
    {
        &self.sets
    }

    /// The number that the next list gets; the last one of 64 bits is never used.
    pub fn next_list(&self) -> u64
        ensures { result ≡ self.now.table.next }
    {
        self.lists.next_number()
    }

    /// Moves the clock to the moment, in seconds from 1970 on, drops the first of the lists that have ended, and
    /// changes nothing else. It allocates nothing and cannot fail.
    pub fn advance<V: Versions>(&mut self, store: &mut V, moment: i64)
        requires { Owns (V.honest store.old) self.old (V.lists store.old) }
        ensures moved { state_of self.new (V.lists store.new)
            ≡ moved moment (state_of self.old (V.lists store.old)) }
        ensures index { self.new.index ≡ self.old.index }
        ensures dropped { DropsEnded self.old self.new }
        ensures keeps { Keeps (V.honest store.old) self.old (V.lists store.old) self.new
            (V.lists store.new) }
        ensures store { Spares V.room V.failures V.honest store.old store.new }
    {
        let mut clock = self.clock;
        clock.tick(moment);
        self.move_to(store, clock);
    }

    /// Moves the clock there, and drops the first of the lists that have ended.
    fn move_to<V: Versions>(&mut self, store: &mut V, clock: Clock)
        requires later { self.old.clock ≤ℤ clock }
        requires dated { is_in_years clock ≡ true }
        requires owns { Owns (V.honest store.old) self.old (V.lists store.old) }
        ensures moved { state_of self.new (V.lists store.new)
            ≡ state_at_clock clock (state_of self.old (V.lists store.old)) }
        ensures index { self.new.index ≡ self.old.index }
        ensures dropped { DropsEnded self.old self.new }
        ensures keeps { Keeps (V.honest store.old) self.old (V.lists store.old) self.new
            (V.lists store.new) }
        ensures store { Spares V.room V.failures V.honest store.old store.new }
    {
        drop_first_ended(&mut self.lists, store, clock.now());
        self.clock = clock;
    }

    /// The clock, in seconds from 1970 on, in the years 0001 to 9998.
    pub fn clock(&self) -> i64
        ensures clock { result ≡ self.now.clock }
        ensures in_years { is_in_years self.now.clock ≡ true }
    {
        self.clock.now()
    }

    /// The configuration.
    pub fn config(&self) -> &RepoConfig
        ensures { result.now ≡ self.now.config }
    {
        &self.config
    }

    /// How many items it has, those among them that are deleted.
    pub fn items(&self) -> u64
        ensures { result ≡ length self.now.index.entries }
    {
        self.index.len()
    }

    /// The list at that position among those that it holds, in the order of their numbers.
    pub fn list_at(&self, at: usize) -> Option<&OpenList>
        ensures { option_copied result ≡ slice_get self.now.table.lists at }
    {
        self.lists.get(at)
    }

    /// The number of the version of the store that has its items.
    pub fn version(&self) -> u64
        ensures { result ≡ self.now.index.version }
    {
        self.index.version()
    }

    /// How many lists it holds, including those that have ended and are not dropped yet.
    pub fn open_lists(&self) -> usize
        ensures { result ≡ length self.now.table.lists }
    {
        self.lists.len()
    }
}
