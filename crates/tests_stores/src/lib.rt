//! Stores over other stores, for tests of what stands on stores: one that fails a call, one that is refused memory, one without
//! room, one that returns false reads, and one that counts its calls. It holds no tests.
#![tactic(auto)]

mod countdown;
mod counts;
mod failures;
mod full_store;
mod hooked;
mod lying_store;
mod refusals;

pub use counts::{CountingHook, counting};
pub use failures::{FailingHook, failing};
pub use full_store::{CrampedHook, Want, cramped};
pub use hooked::{CallKind, Hook, HookedVersions};
pub use lying_store::{LyingHook, lying};
pub use refusals::{RefusingHook, refusing};
