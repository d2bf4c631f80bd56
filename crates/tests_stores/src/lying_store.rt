//! A store that returns false reads.
ghost use Rattle.std.specs.Prelude.{◌≡◌, ◌==◌, ◌-◌, ◌&&◌, if◌then◌else◌, not, false};

use crate::hooked::{CallKind, Hook, HookedVersions};
use oai_catalogue::Versions;
use oai_item::Fault;

/// Lies after so many answers, so often.
#[derive(Drop)]
pub struct LyingHook {
    truths: u64,
    lies: u64,
}

impl Hook for LyingHook {
    ghost failures = { λ hook. 0 };

    ghost is_truthful = { false };

    ghost takes_room = { false };

    fn turn(&mut self, _kind: CallKind) -> Result<(), Fault> {
        Ok(())
    }

    fn lies(&mut self) -> bool {
        self.is_lie()
    }
}

impl LyingHook {
    /// One answer more, and whether it is a lie.
    fn is_lie(&mut self) -> bool
        ensures lie { result ≡ (self.old.truths == 0 && not (self.old.lies == 0)) }
        ensures truths { self.new.truths ≡ self.old.truths - 1 }
        ensures lies { self.new.lies
            ≡ (if self.old.truths == 0 then self.old.lies - 1 else self.old.lies) }
    {
        if self.truths > 0 {
            self.truths -= 1;
            return false;
        }
        let lies = self.lies > 0;
        self.lies = self.lies.saturating_sub(1);
        lies
    }
}

/// The store `inner`, but that it lies after so many answers, so often. An answer is what `find`, `count`,
/// `part` or `part_after` gives, and that `remove` or `replace` found an item.
pub fn lying<V: Versions + Drop>(inner: V, truths: u64, lies: u64) -> HookedVersions<V, LyingHook>
    ensures { ⟦<HookedVersions<V, LyingHook> as Versions>⟧.lists result ≡ V.lists inner }
{
    HookedVersions::new(inner, LyingHook { truths, lies })
}
