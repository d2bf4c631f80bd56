//! What a refusal of a change is displayed as.
use crate::assertions::assert_shown;
use oai_item::{ChangeRefusal, Fault};
use oai_repo::Refusal;

#[test]
fn refusals_are_told(rt: HostRuntime) {
    for (refusal, text) in [
        (
            Refusal::Refused(ChangeRefusal::AlreadyDeleted),
            "the change is refused: the item is deleted already",
        ),
        (Refusal::Fault(Fault::Device), "the device failed"),
    ] {
        assert_shown(&rt, rt.alloc(), refusal, text);
    }
}
