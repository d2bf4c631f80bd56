//! A store that is refused memory.
ghost use Rattle.std.specs.Prelude.{◌≡◌, ◌==◌, ◌-◌, true, false, is_err, IfErr};
ghost use Rattle.oai_item.specs.declared.faults.Fault.TheVariants as fault;

use crate::countdown::Countdown;
use crate::hooked::{CallKind, Hook, HookedVersions};
use oai_catalogue::Versions;
use oai_item::Fault;

/// Refuses memory to one call.
#[derive(Drop)]
pub struct RefusingHook {
    countdown: Countdown,
}

impl Hook for RefusingHook {
    ghost failures = { λ hook. 0 };

    ghost is_truthful = { true };

    ghost takes_room = { false };

    fn turn(&mut self, _kind: CallKind) -> Result<(), Fault> {
        self.find_memory()
    }

    fn lies(&mut self) -> bool {
        false
    }
}

impl RefusingHook {
    /// One call more; an error where it is the one that is refused memory.
    fn find_memory(&mut self) -> Result<(), Fault>
        ensures due { is_err result ≡ (self.old.countdown == 1) }
        ensures left { self.new.countdown ≡ self.old.countdown - 1 }
        ensures fault { IfErr result (λ f. f ≡ fault.NoMemory) }
    {
        if self.countdown.is_due() {
            return Err(Fault::NoMemory);
        }
        Ok(())
    }
}

/// The store `inner`, but that the k-th call from now on that can fail, counted from 1, does not reach it and fails with
/// `NoMemory`. With 0 no call fails so.
pub fn refusing<V: Versions + Drop>(inner: V, k: u64) -> HookedVersions<V, RefusingHook>
    ensures lists { ⟦<HookedVersions<V, RefusingHook> as Versions>⟧.lists result ≡ V.lists inner }
    ensures honest { ⟦<HookedVersions<V, RefusingHook> as Versions>⟧.honest result ≡ V.honest inner }
    ensures room { ⟦<HookedVersions<V, RefusingHook> as Versions>⟧.room result ≡ V.room inner }
{
    let hook = RefusingHook {
        countdown: Countdown::new(k),
    };
    HookedVersions::new(inner, hook)
}
