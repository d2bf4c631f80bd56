//! A store that counts its calls.
ghost use Rattle.std.specs.Prelude.{◌≡◌, ◌+◌, true, false, min};
ghost use Rattle.oai_device.specs.declared.devices.TheConstants.{MAX_FAILURES};

use crate::hooked::{CallKind, Hook, HookedVersions};
use oai_catalogue::Versions;
use oai_item::Fault;

/// Counts the calls that can fail.
#[derive(Drop)]
pub struct CountingHook {
    calls: u64,
}

impl Hook for CountingHook {
    ghost failures = { λ hook. 0 };

    ghost is_truthful = { true };

    ghost takes_room = { false };

    fn turn(&mut self, _kind: CallKind) -> Result<(), Fault> {
        self.count_call();
        Ok(())
    }

    fn lies(&mut self) -> bool {
        false
    }
}

impl CountingHook {
    /// How many calls there were, up to 18,446,744,073,709,551,615.
    pub fn calls(&self) -> u64
        ensures { result ≡ self.now.calls }
    {
        self.calls
    }

    /// One call more.
    fn count_call(&mut self)
        ensures { self.new.calls ≡ min (self.old.calls + 1) MAX_FAILURES }
    {
        self.calls = self.calls.saturating_add(1);
    }
}

/// The store `inner`, which counts from now on its calls that can fail.
pub fn counting<V: Versions + Drop>(inner: V) -> HookedVersions<V, CountingHook>
    ensures lists { ⟦<HookedVersions<V, CountingHook> as Versions>⟧.lists result ≡ V.lists inner }
    ensures honest { ⟦<HookedVersions<V, CountingHook> as Versions>⟧.honest result ≡ V.honest inner }
    ensures room { ⟦<HookedVersions<V, CountingHook> as Versions>⟧.room result ≡ V.room inner }
{
    HookedVersions::new(inner, CountingHook { calls: 0 })
}
