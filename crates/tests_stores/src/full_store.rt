//! A store without room.
ghost use Rattle.std.specs.Prelude.{◌≡◌, ◌⊎◌, ◌==◌, ◌-◌, true, false, is_err, IfErr};
ghost use Rattle.oai_item.specs.declared.faults.Fault.TheVariants as fault;
ghost use Rattle.tests_stores.specs.declared.full_store.Want.TheVariants as want;

use crate::countdown::Countdown;
use crate::hooked::{CallKind, Hook, HookedVersions};
use oai_catalogue::Versions;
use oai_item::Fault;

/// What a store has no more of.
#[derive(Clone, Copy, Debug, PartialEq, Eq)]
pub enum Want {
    /// Memory.
    Memory,
    /// Pages, or numbers of lists.
    Pages,
}

/// Lets one of the calls that ask for room find none.
#[derive(Drop)]
pub struct CrampedHook {
    countdown: Countdown,
    want: Want,
}

impl Hook for CrampedHook {
    ghost failures = { λ hook. 0 };

    ghost is_truthful = { true };

    ghost takes_room = { true };

    fn turn(&mut self, kind: CallKind) -> Result<(), Fault> {
        match kind {
            CallKind::Room => self.find_room(),
            CallKind::Answer => Ok(()),
        }
    }

    fn lies(&mut self) -> bool {
        false
    }
}

impl CrampedHook {
    /// One call more that asks for room; an error where it is the one that finds none.
    fn find_room(&mut self) -> Result<(), Fault>
        ensures due { is_err result ≡ (self.old.countdown == 1) }
        ensures left { self.new.countdown ≡ self.old.countdown - 1 }
        ensures want { self.new.want ≡ self.old.want }
        ensures memory { IfErr result (λ f. self.old.want ≡ want.Memory → f ≡ fault.NoMemory) }
        ensures pages { IfErr result (λ f. self.old.want ≡ want.Pages → f ≡ fault.TooManyPages) }
        ensures fault { IfErr result (λ f. (f ≡ fault.NoMemory) ⊎ (f ≡ fault.TooManyPages)) }
    {
        if !self.countdown.is_due() {
            return Ok(());
        }
        match self.want {
            Want::Memory => Err(Fault::NoMemory),
            Want::Pages => Err(Fault::TooManyPages),
        }
    }
}

/// The store `inner`, but that of `fresh`, `freeze`, `put`, `remove` and `replace` the k-th call from now
/// on, counted from 1, does not reach it and fails: with `NoMemory`, or with `TooManyPages` where pages
/// are wanted. With 0 no call fails so.
pub fn cramped<V: Versions + Drop>(inner: V, k: u64, want: Want) -> HookedVersions<V, CrampedHook>
    ensures lists { ⟦<HookedVersions<V, CrampedHook> as Versions>⟧.lists result ≡ V.lists inner }
    ensures honest { ⟦<HookedVersions<V, CrampedHook> as Versions>⟧.honest result ≡ V.honest inner }
{
    let hook = CrampedHook {
        countdown: Countdown::new(k),
        want,
    };
    HookedVersions::new(inner, hook)
}
