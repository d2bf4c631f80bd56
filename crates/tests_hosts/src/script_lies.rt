//! The script over a device that returns a wrong byte in one read. The exchange of that read fails, and the other
//! repositories answer as where there is none.
use crate::assertions::assert_same_at;
use crate::sample_host::{host, paged};
use crate::script_failures::{answer_of, assert_written, failed, step_in};
use oai_device::{FlippingDevice, MemoryDevice, PageDevice};
use oai_host::Host;
use oai_item::Fault;
use oai_paged::PagedVersions;
use oai_pool::PagePool;
use std::alloc::Global;
use std::panic::Expect;
use std::process::Abort;
use tests_devices::CountingDevice;
use tests_fixtures::{Form, long, script, short};

/// How many reads of the device were made.
fn reads_of<D: PageDevice>(host: &Host<PagedVersions<CountingDevice<D>>>) -> u64 {
    host.versions().pool().device().reads()
}

/// The letter of the repository to which a target leads: the last one of its path.
fn letter_of(target: &str) -> u8 {
    let (path, _) = target.split_once("?").unwrap_or((target, ""));
    match path.as_bytes() {
        [.., letter] => *letter,
        [] => 0,
    }
}

/// Makes the exchange. Where the k-th read falls into it, it fails; else it is answered as it should, unless it is one
/// of the repository that was lied to. Whether it failed.
fn meets_the_lie<D: PageDevice>(
    rt: &impl Abort,
    alloc: Global,
    host: &mut Host<PagedVersions<CountingDevice<D>>>,
    step: &str,
    lied_to: u8,
    k: u64,
) -> bool {
    let (told, wanted) = step_in(rt, step);
    let before = reads_of(host);
    let answer = answer_of(rt, alloc, host, told);
    if before < k && k <= reads_of(host) {
        assert_written(rt, alloc, &answer, failed(Fault::Damaged, told), told);
        return true;
    }
    if letter_of(told.target) != lied_to {
        assert_written(rt, alloc, &answer, wanted, told);
    }
    false
}

/// Makes the exchanges of the script over the device, of which the k-th read is a lie; how many failed for it.
fn lies_met<D: PageDevice>(
    rt: &impl Abort,
    alloc: Global,
    device: CountingDevice<D>,
    script: &str,
    k: u64,
) -> u64 {
    let mut host = host(rt, alloc, paged(rt, alloc, device));
    let mut lied_to: u8 = 0;
    let mut lies: u64 = 0;
    for step in script.split("\n> ") {
        if meets_the_lie(rt, alloc, &mut host, step, lied_to, k) {
            let (told, _) = step_in(rt, step);
            lied_to = letter_of(told.target);
            lies = lies.wrapping_add(1);
        }
    }
    lies
}

/// How many exchanges of the script fail where the first byte of the k-th read is inverted.
fn lies_at(rt: &impl Abort, alloc: Global, script: &str, k: u64) -> u64 {
    let device = CountingDevice::new(FlippingDevice::new(MemoryDevice::new(alloc), k));
    lies_met(rt, alloc, device, script, k)
}

/// Each read is a lie in turn, and one exchange of the script fails for it, up to the first run in which none does.
fn assert_each_lie(rt: &impl Abort, alloc: Global, form: Form) {
    let script = script(alloc, form).expect(rt, "memory");
    for k in 1..1_000u64 {
        let lies = lies_at(rt, alloc, script.as_str(), k);
        if lies == 0 {
            assert!(rt; k > 1);
            return;
        }
        assert_same_at(rt, lies, 1, k);
    }
    panic!(rt; "a read is a lie in each run")
}

#[test]
fn reads_of_a_device(rt: HostRuntime) {
    assert_each_lie(&rt, rt.alloc(), short());
}

#[test]
fn reads_of_a_long_item(rt: HostRuntime) {
    assert_each_lie(&rt, rt.alloc(), long());
}
