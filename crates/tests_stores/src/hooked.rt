//! A store over another one, with a hook at each call.
ghost use Rattle.std.specs.Prelude.{◌≡◌, ◌+◌, ◌&&◌, if◌then◌else◌, ℕ, Bool, true, false, [], min, IfErr, OnOk};
ghost use Rattle.oai_device.specs.Device.{CountsFailures};
ghost use Rattle.oai_device.specs.declared.devices.TheConstants.{MAX_FAILURES};
ghost use Rattle.oai_item.specs.declared.faults.Fault.TheVariants as fault;
ghost use Rattle.tests_stores.specs.declared.hooked.CallKind.TheVariants as call;

use oai_catalogue::{Filter, Versions};
use oai_item::{Fault, Item};
use oai_names::{Identifier, Sequence};

/// What a call asks of a store.
#[derive(Clone, Copy, Debug, PartialEq, Eq)]
pub enum CallKind {
    /// Room: `fresh`, `freeze`, `put`, `remove` and `replace`.
    Room,
    /// An answer: `find`, `count`, `part` and `part_after`.
    Answer,
}

/// What is asked before a call of a store, and after one.
pub trait Hook {
    /// How many calls it has failed for the device, up to the last number that can be counted.
    ghost failures: { Self → ℕ };

    /// Whether it leaves each answer as it is.
    ghost is_truthful: { Bool };

    /// Whether it may say that there is no room.
    ghost takes_room: { Bool };

    /// Before a call: an error is the fault with which the call fails, without reaching the store. There
    /// are too many pages only at a call that asks for room.
    fn turn(&mut self, kind: CallKind) -> Result<(), Fault>
        ensures counted { CountsFailures fault.Device result (failures self.old) (failures self.new) }
        ensures ok { OnOk result (failures self.new ≡ failures self.old) }
        ensures damaged { IfErr result (λ f. f ≡ fault.Damaged → is_truthful ≡ false) }
        ensures room { IfErr result (λ f. f ≡ fault.TooManyPages
            → (kind ≡ call.Room) × (takes_room ≡ true)) };

    /// After a call that found something or counted: whether it is to answer that there is nothing.
    fn lies(&mut self) -> bool
        ensures truth { is_truthful ≡ true → result ≡ false }
        ensures same { failures self.new ≡ failures self.old };
}

/// A store over another one, which hands each call on to it, where the hook lets it, and gives its answer
/// back, or a lie where the hook lies: that there is nothing.
#[derive(Drop)]
pub struct HookedVersions<V: Versions + Drop, H: Hook + Drop> {
    inner: V,
    hook: H,
}

impl<V: Versions + Drop, H: Hook + Drop> Versions for HookedVersions<V, H> {
    ghost lists = { λ s. V.lists s.inner };

    ghost failures = { λ s. min (V.failures s.inner + H.failures s.hook) MAX_FAILURES };

    ghost honest = { λ s. H.is_truthful && V.honest s.inner };

    ghost room = { λ s. if H.takes_room then 0 else V.room s.inner };

    fn fresh(&mut self) -> Result<u64, Fault> {
        self.hook.turn(CallKind::Room)?;
        self.inner.fresh()
    }

    fn freeze(&mut self, v: u64) -> Result<u64, Fault> {
        self.hook.turn(CallKind::Room)?;
        self.inner.freeze(v)
    }

    fn put(&mut self, v: u64, item: &Item) -> Result<(), Fault> {
        self.hook.turn(CallKind::Room)?;
        self.inner.put(v, item)
    }

    fn remove(&mut self, v: u64, stamp: i64, identifier: &Identifier) -> Result<bool, Fault> {
        self.hook.turn(CallKind::Room)?;
        let found = self.inner.remove(v, stamp, identifier)?;
        Ok(found && !self.hook.lies())
    }

    fn replace(
        &mut self,
        v: u64,
        stamp: i64,
        identifier: &Identifier,
        item: &Item,
    ) -> Result<bool, Fault> {
        self.hook.turn(CallKind::Room)?;
        let found = self.inner.replace(v, stamp, identifier, item)?;
        Ok(found && !self.hook.lies())
    }

    fn find(&mut self, v: u64, stamp: i64, identifier: &str) -> Result<Option<Item>, Fault> {
        self.hook.turn(CallKind::Answer)?;
        let found = self.inner.find(v, stamp, identifier)?;
        Ok(if self.hook.lies() { None } else { found })
    }

    fn count(&mut self, v: u64, filter: &Filter) -> Result<usize, Fault> {
        self.hook.turn(CallKind::Answer)?;
        let count = self.inner.count(v, filter)?;
        Ok(if self.hook.lies() { 0 } else { count })
    }

    fn part(
        &mut self,
        v: u64,
        filter: &Filter,
        skip: usize,
        most: usize,
    ) -> Result<Sequence<Item>, Fault> {
        self.hook.turn(CallKind::Answer)?;
        let items = self.inner.part(v, filter, skip, most)?;
        Ok(given(items, self.hook.lies()))
    }

    fn part_after(
        &mut self,
        v: u64,
        filter: &Filter,
        stamp: i64,
        identifier: &Identifier,
        most: usize,
    ) -> Result<Sequence<Item>, Fault> {
        self.hook.turn(CallKind::Answer)?;
        let items = self.inner.part_after(v, filter, stamp, identifier, most)?;
        Ok(given(items, self.hook.lies()))
    }

    fn release(&mut self, v: u64) {
        self.inner.release(v);
    }

    ghost rising = { λ s. V.rising s.inner };
}

impl<V: Versions + Drop, H: Hook + Drop> HookedVersions<V, H> {
    /// The store, with that hook.
    pub fn new(inner: V, hook: H) -> HookedVersions<V, H>
        ensures lists { ⟦<HookedVersions<V, H> as Versions>⟧.lists result ≡ V.lists inner }
        ensures failures { ⟦<HookedVersions<V, H> as Versions>⟧.failures result
            ≡ min (V.failures inner + H.failures hook) MAX_FAILURES }
        ensures honest { ⟦<HookedVersions<V, H> as Versions>⟧.honest result
            ≡ (H.is_truthful && V.honest inner) }
        ensures room { ⟦<HookedVersions<V, H> as Versions>⟧.room result
            ≡ (if H.takes_room then 0 else V.room inner) }
    {
        HookedVersions { inner, hook }
    }

    /// The hook.
    pub fn hook(&self) -> &H
        ensures { result.now ≡ self.now.hook }
    {
        &self.hook
    }
}

/// The items, or none where that is a lie.
fn given(items: Sequence<Item>, lies: bool) -> Sequence<Item>
    ensures { result ≡ (if lies then [] else items) }
{
    if !lies {
        return items;
    }
    let mut none = items.into_vec();
    none.clear();
    Sequence::new(none)
}
