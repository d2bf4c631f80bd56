//! A store of whose calls one fails.
ghost use Rattle.std.specs.Prelude.{◌≡◌, ◌==◌, ◌+◌, ◌-◌, true, false, min, is_err, IfErr, OnErr, OnOk};
ghost use Rattle.oai_device.specs.Device.{CountsFailures};
ghost use Rattle.oai_device.specs.declared.devices.TheConstants.{MAX_FAILURES};
ghost use Rattle.oai_item.specs.declared.faults.Fault.TheVariants as fault;

use crate::countdown::Countdown;
use crate::hooked::{CallKind, Hook, HookedVersions};
use oai_catalogue::Versions;
use oai_item::Fault;

/// Fails one call for the device.
#[derive(Drop)]
pub struct FailingHook {
    countdown: Countdown,
    failed: u64,
}

impl Hook for FailingHook {
    ghost failures = { λ hook. hook.failed };

    ghost is_truthful = { true };

    ghost takes_room = { false };

    fn turn(&mut self, _kind: CallKind) -> Result<(), Fault> {
        self.call()
    }

    fn lies(&mut self) -> bool {
        false
    }
}

impl FailingHook {
    /// One call more; an error where it is the one that fails.
    fn call(&mut self) -> Result<(), Fault>
        ensures due { is_err result ≡ (self.old.countdown == 1) }
        ensures left { self.new.countdown ≡ self.old.countdown - 1 }
        ensures fault { IfErr result (λ f. f ≡ fault.Device) }
        ensures ok { OnOk result (self.new.failed ≡ self.old.failed) }
        ensures err { OnErr result (self.new.failed ≡ min (self.old.failed + 1) MAX_FAILURES) }
        ensures counted { CountsFailures fault.Device result self.old.failed self.new.failed }
    {
        if self.countdown.is_due() {
            self.failed = self.failed.saturating_add(1);
            return Err(Fault::Device);
        }
        Ok(())
    }
}

/// The store `inner`, but that the k-th call from now on that can fail, counted from 1, does not reach it
/// and fails with `Device`, which is counted as a failure. With 0 no call fails so.
pub fn failing<V: Versions + Drop>(inner: V, k: u64) -> HookedVersions<V, FailingHook>
    ensures lists { ⟦<HookedVersions<V, FailingHook> as Versions>⟧.lists result ≡ V.lists inner }
    ensures failures { ⟦<HookedVersions<V, FailingHook> as Versions>⟧.failures result
        ≡ min (V.failures inner) MAX_FAILURES }
    ensures honest { ⟦<HookedVersions<V, FailingHook> as Versions>⟧.honest result ≡ V.honest inner }
    ensures room { ⟦<HookedVersions<V, FailingHook> as Versions>⟧.room result ≡ V.room inner }
{
    let hook = FailingHook {
        countdown: Countdown::new(k),
        failed: 0,
    };
    HookedVersions::new(inner, hook)
}
